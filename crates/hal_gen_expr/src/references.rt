//! The code of references, with their subscripts.

ghost use Rattle.std.specs.Prelude.{◌≡◌, map};
ghost use Rattle.hal_tree.specs.SeenExpressions.{seen_reference, seen_subscript};
ghost use Rattle.hal_tree.specs.SeenLeaves.{seen_name};
ghost use Rattle.hal_code.specs.declared.instr.Instr.TheVariants as instr;
ghost use Rattle.hal_meaning.specs.Variables as variables;
ghost use Rattle.hal_storage.specs.referents.SeenReferents.{seen_meant};
ghost use Rattle.hal_gen_expr.specs.declared.aims.Aim.TheVariants as aims;
ghost use Rattle.hal_gen_expr.specs.Emits.{Emits};
ghost use Rattle.hal_gen_expr.specs.Emitting.{onwards};
ghost use Rattle.hal_gen_expr.specs.ExpressionCode as codes;
ghost use Rattle.hal_gen_expr.specs.Led as leading;
ghost use Rattle.hal_gen_expr.specs.SeenLed.{seen_led};
ghost use Rattle.hal_gen_expr.specs.SeenSites.{seen_site, seen_numbering, IsSite};

use crate::aims::Aim;
use crate::leaves::{emit_any, emit_one, integer_instr, picks};
use crate::led::{Led, emit_address, led_by, plainly_aimed, sizes_led};
use crate::names::{emit_name, emit_value, referent};
use crate::site::Site;
use crate::subscripts::{are_none, emit_copies, emit_indexes, emit_parts, emit_unmarked};
use crate::uncoded::Uncoded;
use crate::views::shape_number;
use hal_base::Place;
use hal_code::{Instr, Places, Run};
use hal_storage::referents::Meant;
use hal_tree::{Identifier, Reference, Subscript};
use hal_values::Kind;

/// Whether there is no subscript.
#[tactic(auto, using(hal_tree::proofs::MadeExpressions::made_unsubscripted, hal_tree::proofs::MadeExpressions::made_by_name, hal_tree::proofs::MadeExpressions::made_by_integer, hal_tree::proofs::MadeExpressions::made_by_parts))]
pub fn is_plain(subscript: &Subscript) -> bool
    ensures { result ≡ codes.is_plain (seen_subscript subscript.now) }
{
    match subscript {
        Subscript::None => true,
        Subscript::Name { .. } => false,
        Subscript::Integer { .. } => false,
        Subscript::Parts { .. } => false,
    }
}

/// Whether there is an array of these sizes.
pub fn is_arrayed(sizes: &[u16]) -> bool
    ensures { result ≡ variables.is_arrayed sizes.now }
{
    match sizes.split_first() {
        None => false,
        Some(_) => true,
    }
}

/// Adds the code of a reference, which leaves its value on the stack (image document, Code that stands for a set).
#[cycle(expressions)]
#[tactic(auto, using(hal_tree::proofs::MadeExpressions::made_reference))]
pub(crate) fn emit_reference(
    reference: &Reference,
    code: &mut Vec<Instr>,
    site: &Site<'_>,
) -> Result<(), Uncoded>
    requires site { IsSite site.now }
    ensures { Emits (codes.reference_code (seen_numbering site.now) (seen_site site.now) code.old.items (seen_reference reference.now)) result code.new.items }
{
    let meant = referent(site, &reference.name);
    if is_plain(&reference.subscript) {
        emit_value(code, site, reference.place, &reference.further, meant)
    } else {
        emit_subscripted(
            &reference.subscript,
            code,
            site,
            reference.place,
            &reference.further,
            meant,
        )
    }
}

/// Adds the code of what a name means, to whose elements further names lead, with a subscript.
#[cycle(expressions)]
fn emit_subscripted(
    subscript: &Subscript,
    code: &mut Vec<Instr>,
    site: &Site<'_>,
    place: Place,
    path: &[Identifier],
    meant: Meant<'_>,
) -> Result<(), Uncoded>
    requires site { IsSite site.now }
    ensures { Emits (codes.subscripted_code (seen_numbering site.now) (seen_site site.now) code.old.items place (map seen_name path.now) (λ l. codes.chosen_code (seen_numbering site.now) (seen_site site.now) code.old.items place aims.Cell (seen_subscript subscript.now) l) (λ arrayed middle. codes.component_code (seen_numbering site.now) (seen_site site.now) middle place arrayed (seen_subscript subscript.now)) (seen_meant meant.entry)) result code.new.items }
{
    match led_by(path, meant) {
        Some(led) => emit_led(subscript, code, site, place, led),
        None => {
            emit_value(code, site, place, path, meant)?;
            emit_component(subscript, code, site, place, false)
        }
    }
}

/// Adds the code of the value of data with a subscript: it is read before the subscripts of its component are evaluated.
#[cycle(expressions)]
fn emit_led(
    subscript: &Subscript,
    code: &mut Vec<Instr>,
    site: &Site<'_>,
    place: Place,
    led: Led<'_>,
) -> Result<(), Uncoded>
    requires site { IsSite site.now }
    ensures { Emits (codes.led_code place (λ l. codes.chosen_code (seen_numbering site.now) (seen_site site.now) code.old.items place aims.Cell (seen_subscript subscript.now) l) (λ arrayed middle. codes.component_code (seen_numbering site.now) (seen_site site.now) middle place arrayed (seen_subscript subscript.now)) (seen_led led.entry)) result code.new.items }
{
    emit_chosen(subscript, code, site, place, Aim::Cell, led)?;
    emit_fetched(subscript, code, site, place, is_arrayed(sizes_led(led)))
}

/// Adds FETCH, and the code of the component of the value.
#[cycle(expressions)]
fn emit_fetched(
    subscript: &Subscript,
    code: &mut Vec<Instr>,
    site: &Site<'_>,
    place: Place,
    arrayed: bool,
) -> Result<(), Uncoded>
    requires site { IsSite site.now }
    ensures { Emits (onwards (codes.emit_one code.old.items place instr.Fetch) (λ late. codes.component_code (seen_numbering site.now) (seen_site site.now) late place arrayed (seen_subscript subscript.now))) result code.new.items }
{
    emit_one(code, place, Instr::Fetch)?;
    emit_component(subscript, code, site, place, arrayed)
}

/// Adds the code of the address of what the subscripts of copies and of the array choose, in a reference that begins at this place (image document, Code that
/// stands for a set).
#[cycle(expressions)]
#[tactic(auto, using(hal_tree::proofs::MadeExpressions::made_unsubscripted, hal_tree::proofs::MadeExpressions::made_by_name, hal_tree::proofs::MadeExpressions::made_by_integer, hal_tree::proofs::MadeExpressions::made_by_parts), unfolding(crate::specs::SeenLed::seen_led))]
pub fn emit_chosen(
    subscript: &Subscript,
    code: &mut Vec<Instr>,
    site: &Site<'_>,
    place: Place,
    aim: Aim,
    led: Led<'_>,
) -> Result<(), Uncoded>
    requires site { IsSite site.now }
    ensures { Emits (codes.chosen_code (seen_numbering site.now) (seen_site site.now) code.old.items place aim (seen_subscript subscript.now) (seen_led led.entry)) result code.new.items }
{
    match subscript {
        Subscript::None => emit_any(code, place, plainly_aimed(site, aim, led)),
        Subscript::Name { place: _, name } => {
            emit_by_name(name, code, site, place, aim, subscript, led)
        }
        Subscript::Integer {
            place: _,
            at: _,
            number,
        } => emit_by_integer(*number, code, site, place, aim, subscript, led),
        Subscript::Parts {
            place: _,
            copies,
            arrays,
            components,
        } => {
            emit_copies(copies, code, site, place, led.shape.copies)?;
            if !are_none(arrays) {
                emit_indexes(arrays, code, site, place, sizes_led(led))?;
            } else {
                emit_unmarked(components, code, site, place, aim, sizes_led(led))?;
            }
            emit_address(code, site, place, aim, subscript, led)
        }
    }
}

/// Adds the code of the address of the cells of this shape that a reference chooses.
#[cycle(expressions)]
#[tactic(auto, using(hal_tree::proofs::MadeExpressions::made_reference))]
fn emit_shaped(
    reference: &Reference,
    code: &mut Vec<Instr>,
    site: &Site<'_>,
    shape: u32,
) -> Result<(), Uncoded>
    requires site { IsSite site.now }
    ensures { Emits (codes.shaped_code (seen_numbering site.now) (seen_site site.now) code.old.items shape (seen_reference reference.now)) result code.new.items }
{
    let Some(led) = led_by(&reference.further, referent(site, &reference.name)) else {
        return Err(Uncoded::At(reference.place));
    };
    emit_chosen(
        &reference.subscript,
        code,
        site,
        reference.place,
        Aim::Shape(shape),
        led,
    )
}

/// Adds the code of the address of cells of these kinds that a reference chooses.
#[cycle(expressions)]
#[tactic(auto, using(hal_tree::proofs::MadeExpressions::made_reference))]
pub(crate) fn emit_area(
    reference: &Reference,
    code: &mut Vec<Instr>,
    site: &Site<'_>,
    runs: &[Run<Kind>],
) -> Result<(), Uncoded>
    requires site { IsSite site.now }
    ensures { Emits (codes.area_code (seen_numbering site.now) (seen_site site.now) code.old.items runs.now (seen_reference reference.now)) result code.new.items }
{
    match shape_number(site, runs) {
        None => Err(Uncoded::At(reference.place)),
        Some(shape) => emit_shaped(reference, code, site, shape),
    }
}

/// Adds the code of the address that a name without a mark chooses: it is a place of the array, where there is one.
fn emit_by_name(
    name: &Identifier,
    code: &mut Vec<Instr>,
    site: &Site<'_>,
    place: Place,
    aim: Aim,
    subscript: &Subscript,
    led: Led<'_>,
) -> Result<(), Uncoded>
    requires site { IsSite site.now }
    ensures { Emits (codes.place_code (seen_numbering site.now) (seen_site site.now) code.old.items place aim (codes.name_code (seen_numbering site.now) (seen_site site.now) code.old.items (seen_name name.now)) (seen_subscript subscript.now) (seen_led led.entry) (leading.sizes_led (seen_led led.entry))) result code.new.items }
{
    let Some((_, others)) = sizes_led(led).split_first() else {
        return emit_address(code, site, place, aim, subscript, led);
    };
    if !others.is_empty() {
        return Err(Uncoded::At(place));
    }
    emit_name(code, site, name)?;
    emit_address(code, site, place, aim, subscript, led)
}

/// Adds an integer in a subscript, where it has 31 bits.
pub fn emit_integer(code: &mut Vec<Instr>, place: Place, number: u32) -> Result<(), Uncoded>
    ensures { Emits (codes.integer_code code.old.items place number) result code.new.items }
{
    emit_any(code, place, integer_instr(number))
}

/// Adds the code of the address that an integer without a mark chooses: it is a place of the array, where there is one.
fn emit_by_integer(
    number: u32,
    code: &mut Vec<Instr>,
    site: &Site<'_>,
    place: Place,
    aim: Aim,
    subscript: &Subscript,
    led: Led<'_>,
) -> Result<(), Uncoded>
    requires site { IsSite site.now }
    ensures { Emits (codes.place_code (seen_numbering site.now) (seen_site site.now) code.old.items place aim (codes.integer_code code.old.items place number) (seen_subscript subscript.now) (seen_led led.entry) (leading.sizes_led (seen_led led.entry))) result code.new.items }
{
    let Some((_, others)) = sizes_led(led).split_first() else {
        return emit_address(code, site, place, aim, subscript, led);
    };
    if !others.is_empty() {
        return Err(Uncoded::At(place));
    }
    emit_integer(code, place, number)?;
    emit_address(code, site, place, aim, subscript, led)
}

/// Adds the code of the component of the value on the stack, of data with an array or without one.
#[cycle(expressions)]
#[tactic(auto, using(hal_tree::proofs::MadeExpressions::made_unsubscripted, hal_tree::proofs::MadeExpressions::made_by_name, hal_tree::proofs::MadeExpressions::made_by_integer, hal_tree::proofs::MadeExpressions::made_by_parts))]
fn emit_component(
    subscript: &Subscript,
    code: &mut Vec<Instr>,
    site: &Site<'_>,
    place: Place,
    arrayed: bool,
) -> Result<(), Uncoded>
    requires site { IsSite site.now }
    ensures { Emits (codes.component_code (seen_numbering site.now) (seen_site site.now) code.old.items place arrayed (seen_subscript subscript.now)) result code.new.items }
{
    match subscript {
        Subscript::None => Ok(()),
        Subscript::Name { place: _, name } => {
            if arrayed {
                return Ok(());
            }
            emit_name(code, site, name)?;
            emit_one(code, place, picks(Places::One))
        }
        Subscript::Integer {
            place: _,
            at: _,
            number,
        } => {
            if arrayed {
                return Ok(());
            }
            emit_integer(code, place, *number)?;
            emit_one(code, place, picks(Places::One))
        }
        Subscript::Parts {
            place: _,
            copies: _,
            arrays,
            components,
        } => {
            if arrayed && are_none(arrays) {
                Ok(())
            } else {
                emit_parts(components, code, site, place)
            }
        }
    }
}
