//! The code of subscripts.

ghost use Rattle.std.specs.Prelude.{◌≡◌, ◌&&◌, not, map, pos, Ok, Err, if◌then◌else◌};
ghost use Rattle.std.specs.Option.{is_some};
ghost use Rattle.hal_tree.specs.Rows.{subscripts};
ghost use Rattle.hal_tree.specs.SeenExpressions.{seen_position, seen_sub};
ghost use Rattle.hal_code.specs.declared.instr.Instr.TheVariants as instr;
ghost use Rattle.hal_constants.specs.Constants.{is_none};
ghost use Rattle.hal_meaning.specs.Variables as variables;
ghost use Rattle.hal_agreement.specs.PlacedExpressions as placed;
ghost use Rattle.hal_gen_expr.specs.Emits.{Emits};
ghost use Rattle.hal_gen_expr.specs.ExpressionCode as codes;
ghost use Rattle.hal_gen_expr.specs.SeenSites.{seen_site, seen_numbering, IsSite};
ghost use Rattle.hal_gen_expr.specs.Spans.{places_skipped};
ghost use Rattle.hal_gen_expr.specs.declared.uncoded.Uncoded.TheVariants as uncoded;

use crate::aims::Aim;
use crate::expressions::{emit_expression, emit_terms};
use crate::leaves::{emit_one, emit_two, picks};
use crate::references::is_arrayed;
use crate::site::Site;
use crate::spans::places_skipped;
use crate::uncoded::Uncoded;
use hal_base::Place;
use hal_code::{Instr, Places};
use hal_tree::{Position, Sub};

/// Whether there are no subscripts.
#[tactic(auto, using(hal_constants::proofs::Lists::no_subscript))]
pub fn are_none(subs: &[Sub]) -> bool
    ensures { result ≡ is_none (subscripts (map seen_sub subs.now)) }
{
    subs.is_empty()
}

/// Which places of a component a subscript chooses: all are those from the first one to the last.
#[tactic(auto, using(hal_tree::proofs::MadeExpressions::made_every, hal_tree::proofs::MadeExpressions::made_one, hal_tree::proofs::MadeExpressions::made_range, hal_tree::proofs::MadeExpressions::made_portion))]
pub fn places_of(sub: &Sub) -> Places
    ensures { result ≡ placed.places_of (seen_sub sub.now) }
{
    match sub {
        Sub::Every { .. } => Places::To,
        Sub::One { .. } => Places::One,
        Sub::Range { .. } => Places::To,
        Sub::Portion { .. } => Places::At,
    }
}

/// Adds the code of a subscript of the copies, where there are so many.
#[cycle(expressions)]
#[tactic(auto, unfolding(hal_tree::specs::Rows::subscripts))]
pub(crate) fn emit_copies(
    subs: &Vec<Sub>,
    code: &mut Vec<Instr>,
    site: &Site<'_>,
    place: Place,
    count: Option<u16>,
) -> Result<(), Uncoded>
    requires site { IsSite site.now }
    ensures { Emits (codes.copies_code (seen_numbering site.now) (seen_site site.now) code.old.items place count (subscripts (map seen_sub subs.now.items))) result code.new.items }
{
    let Some((first, others)) = subs.split_first() else {
        return Ok(());
    };
    let Some(count) = count else {
        return Err(Uncoded::At(place));
    };
    if !are_none(others) {
        return Err(Uncoded::At(place));
    }
    emit_index(first, code, site, place, count)
}

/// Whether an array may be left as a whole: where the cells of a shape are aimed at, and it has no subscripts.
fn leaves_array(aim: Aim, components: &[Sub]) -> bool
    ensures { result ≡ codes.leaves_array aim (subscripts (map seen_sub components.now)) }
{
    match aim {
        Aim::Cell => false,
        Aim::Shape(_) => are_none(components),
    }
}

/// Adds the code of subscripts without a mark, where they are those of an array of these sizes: an array without any may be left as a whole.
#[cycle(expressions)]
pub(crate) fn emit_unmarked(
    components: &Vec<Sub>,
    code: &mut Vec<Instr>,
    site: &Site<'_>,
    place: Place,
    aim: Aim,
    sizes: &[u16],
) -> Result<(), Uncoded>
    requires site { IsSite site.now }
    ensures { Emits (codes.unmarked_code (variables.is_arrayed sizes.now && not (codes.leaves_array aim (subscripts (map seen_sub components.now.items)))) (codes.indexes_code (seen_numbering site.now) (seen_site site.now) code.old.items place sizes.now (subscripts (map seen_sub components.now.items))) (Ok code.old.items)) result code.new.items }
{
    if is_arrayed(sizes) && !leaves_array(aim, components) {
        emit_indexes(components, code, site, place, sizes)
    } else {
        Ok(())
    }
}

/// Adds the code of subscripts of an array of these sizes, one for each.
#[cycle(expressions)]
#[tactic(auto, unfolding(hal_tree::specs::Rows::subscripts))]
pub(crate) fn emit_indexes(
    subs: &Vec<Sub>,
    code: &mut Vec<Instr>,
    site: &Site<'_>,
    place: Place,
    sizes: &[u16],
) -> Result<(), Uncoded>
    requires site { IsSite site.now }
    ensures { Emits (codes.indexes_code (seen_numbering site.now) (seen_site site.now) code.old.items place sizes.now (subscripts (map seen_sub subs.now.items))) result code.new.items }
{
    let mut left = sizes;
    for sub in subs {
        let Some((size, others)) = left.split_first() else {
            return Err(Uncoded::At(place));
        };
        emit_index(sub, code, site, place, *size)?;
        left = others;
    }
    if left.is_empty() {
        Ok(())
    } else {
        Err(Uncoded::At(place))
    }
}

/// The instruction that leaves the number of a dimension's places.
fn size_instr(size: u16) -> Instr
    ensures { result ≡ instr.Int (pos size) }
{
    Instr::Int(i32::from(size))
}

/// Whether a subscript chooses several of so many places, which are constant and lie inside: it has no code.
fn skips_places(sub: &Sub, site: &Site<'_>, size: u16) -> bool
    requires site { IsSite site.now }
    ensures { result ≡ is_some (places_skipped (seen_site site.now) size (seen_sub sub.now)) }
{
    places_skipped(sub, size, site).is_some()
}

/// Adds no code for a subscript that chooses several places, which are constant.
fn emit_several(sub: &Sub, site: &Site<'_>, place: Place, size: u16) -> Result<(), Uncoded>
    requires site { IsSite site.now }
    ensures { result ≡ (if is_some (places_skipped (seen_site site.now) size (seen_sub sub.now)) then Ok tt else Err (uncoded.At place)) }
{
    if skips_places(sub, site, size) {
        Ok(())
    } else {
        Err(Uncoded::At(place))
    }
}

/// Adds the code of one place of so many; several, which are constant, have none.
#[cycle(expressions)]
#[tactic(auto, using(hal_tree::proofs::MadeExpressions::made_every, hal_tree::proofs::MadeExpressions::made_one, hal_tree::proofs::MadeExpressions::made_range, hal_tree::proofs::MadeExpressions::made_portion))]
fn emit_index(
    sub: &Sub,
    code: &mut Vec<Instr>,
    site: &Site<'_>,
    place: Place,
    size: u16,
) -> Result<(), Uncoded>
    requires site { IsSite site.now }
    ensures { Emits (codes.index_code (seen_numbering site.now) (seen_site site.now) code.old.items place size (seen_sub sub.now)) result code.new.items }
{
    match sub {
        Sub::One { position } => emit_position(position, code, site, place, size_instr(size)),
        Sub::Every { place: _ } => emit_several(sub, site, place, size),
        Sub::Range { first: _, last: _ } => emit_several(sub, site, place, size),
        Sub::Portion { count: _, first: _ } => emit_several(sub, site, place, size),
    }
}

/// Adds the code of a place of data, the number of whose places this instruction leaves.
#[cycle(expressions)]
#[tactic(auto, using(hal_tree::proofs::MadeExpressions::made_from_beginning, hal_tree::proofs::MadeExpressions::made_from_end))]
fn emit_position(
    position: &Position,
    code: &mut Vec<Instr>,
    site: &Site<'_>,
    place: Place,
    ends: Instr,
) -> Result<(), Uncoded>
    requires site { IsSite site.now }
    ensures { Emits (codes.position_code (seen_numbering site.now) (seen_site site.now) code.old.items place ends (seen_position position.now)) result code.new.items }
{
    match position {
        Position::FromBeginning { position } => emit_expression(position, code, site),
        Position::FromEnd { place: _, terms } => {
            emit_one(code, place, ends)?;
            emit_terms(terms, code, site)
        }
    }
}

/// Adds the code of subscripts of the component of the value on the stack.
#[cycle(expressions)]
#[tactic(auto, unfolding(hal_tree::specs::Rows::subscripts))]
pub(crate) fn emit_parts(
    subs: &Vec<Sub>,
    code: &mut Vec<Instr>,
    site: &Site<'_>,
    place: Place,
) -> Result<(), Uncoded>
    requires site { IsSite site.now }
    ensures { Emits (codes.parts_code (seen_numbering site.now) (seen_site site.now) code.old.items place (subscripts (map seen_sub subs.now.items))) result code.new.items }
{
    let Some((first, others)) = subs.split_first() else {
        return Ok(());
    };
    if !are_none(others) {
        return Err(Uncoded::At(place));
    }
    emit_part(first, code, site, place)?;
    emit_one(code, place, picks(places_of(first)))
}

/// Adds the code of the places of a component of the value on the stack, which LEN counts (image document, Code that stands for a set).
#[cycle(expressions)]
#[tactic(auto, using(hal_tree::proofs::MadeExpressions::made_every, hal_tree::proofs::MadeExpressions::made_one, hal_tree::proofs::MadeExpressions::made_range, hal_tree::proofs::MadeExpressions::made_portion))]
pub fn emit_part(
    sub: &Sub,
    code: &mut Vec<Instr>,
    site: &Site<'_>,
    place: Place,
) -> Result<(), Uncoded>
    requires site { IsSite site.now }
    ensures { Emits (codes.part_code (seen_numbering site.now) (seen_site site.now) code.old.items place (seen_sub sub.now)) result code.new.items }
{
    match sub {
        Sub::Every { place: _ } => emit_two(code, place, Some(Instr::Int(1)), Instr::Len(1)),
        Sub::One { position } => emit_position(position, code, site, place, Instr::Len(0)),
        Sub::Range { first, last } => {
            emit_position(first, code, site, place, Instr::Len(0))?;
            emit_position(last, code, site, place, Instr::Len(1))
        }
        Sub::Portion { count, first } => {
            emit_expression(count, code, site)?;
            emit_position(first, code, site, place, Instr::Len(1))
        }
    }
}
