//! The code of units that are called.

ghost use Rattle.std.specs.Prelude.{◌≡◌, ◌++◌, IfOk, OnOk, map};
ghost use Rattle.hal_tree.specs.SeenDeclarations.{seen_type};
ghost use Rattle.hal_tree.specs.SeenUnits.{seen_head, seen_returns};
ghost use Rattle.hal_storage.specs.own_places.SeenPlaces.{seen_place};
ghost use Rattle.hal_storage.specs.sets.SeenBodies.{seen_body};
ghost use Rattle.hal_storage.specs.sets.SeenSets.{seen_set};
ghost use Rattle.hal_agreement.specs.PlacedBlocks as placed;
ghost use Rattle.hal_agreement.specs.PlacedExpressions.{pushes};
ghost use Rattle.hal_gen.specs.SeenExits.{seen_exits, seen_leaving};
ghost use Rattle.hal_gen.specs.SeenLocks.{AreGroups};
ghost use Rattle.hal_gen_expr.specs.Emits.{Emits};
ghost use Rattle.hal_gen_expr.specs.SeenSites.{lent_place, seen_site, seen_numbering, IsSite};
ghost use Rattle.hal_meaning.specs.Calls as calls;
ghost use Rattle.hal_link.specs.Links.{Links};
ghost use Rattle.hal_link.specs.Linking as linking;
ghost use Rattle.hal_link.specs.UnitCode as codes;

use crate::members::emit_elements;
use crate::processes::{is_function, push_block};
use crate::unlinked::Unlinked;
use hal_code::{Block, Choice, HeapText, Instr, ResultKind};
use hal_gen::{Exits, Leaving, Locks};
use hal_gen_expr::{Site, Uncoded, push};
use hal_storage::own_places::Place;
use hal_storage::sets::{Body, Set};
use hal_tree::{Head, Returns, Type};
use hal_values::Text;
use std::alloc::{AllocError, Global};

/// The kind of what a FUNCTION of this type gives back.
#[tactic(auto, using(hal_tree::proofs::MadeDeclarations::made_integer_type, hal_tree::proofs::MadeDeclarations::made_boolean_type, hal_tree::proofs::MadeDeclarations::made_event_type, hal_tree::proofs::MadeDeclarations::made_bit_type, hal_tree::proofs::MadeDeclarations::made_character_type, hal_tree::proofs::MadeDeclarations::made_structure_type))]
fn kind_of_type(kind: &Type) -> ResultKind
    ensures { result ≡ codes.kind_of_type (seen_type kind.now) }
{
    match kind {
        Type::Boolean { .. } => ResultKind::Bits,
        Type::Bit { .. } => ResultKind::Bits,
        Type::Character { .. } => ResultKind::Text,
        Type::Integer { .. } => ResultKind::Integer,
        Type::Event { .. } => ResultKind::Integer,
        Type::Structure { .. } => ResultKind::Integer,
    }
}

/// The kind of what a FUNCTION gives back.
#[tactic(auto, using(hal_tree::proofs::MadeUnits::made_untyped, hal_tree::proofs::MadeUnits::made_typed_returns))]
fn kind_of_returns(returns: &Returns) -> ResultKind
    ensures { result ≡ codes.kind_of_returns (seen_returns returns.now) }
{
    match returns {
        Returns::Untyped => ResultKind::Integer,
        Returns::Typed { kind, precision: _ } => kind_of_type(kind),
    }
}

/// The kind of what a unit with this head gives back.
#[tactic(auto, using(hal_tree::proofs::MadeUnits::made_program, hal_tree::proofs::MadeUnits::made_compool, hal_tree::proofs::MadeUnits::made_task, hal_tree::proofs::MadeUnits::made_procedure, hal_tree::proofs::MadeUnits::made_function))]
fn kind_of_result(head: &Head) -> ResultKind
    ensures { result ≡ codes.kind_of_result (seen_head head.now) }
{
    match head {
        Head::Program { .. } => ResultKind::Nothing,
        Head::Compool { .. } => ResultKind::Nothing,
        Head::Task { .. } => ResultKind::Nothing,
        Head::Procedure { .. } => ResultKind::Nothing,
        Head::Function { returns, .. } => kind_of_returns(returns),
    }
}

/// The instruction that puts the zero value of a unit with this head on the stack.
#[tactic(auto, using(crate::proofs::Zeros::zero_pushed))]
fn zero_of(alloc: Global, head: &Head) -> Result<Instr, AllocError>
    ensures { IfOk result (λ instr. instr ≡ pushes (calls.zero_of (seen_head head.now))) }
{
    match kind_of_result(head) {
        ResultKind::Bits => Ok(Instr::Bits { len: 1, word: 0 }),
        ResultKind::Text => Ok(Instr::Text(HeapText::new(alloc, Text::new())?)),
        ResultKind::Nothing => Ok(Instr::Int(0)),
        ResultKind::Integer => Ok(Instr::Int(0)),
    }
}

/// Adds the end of a unit: a PROCEDURE goes back; a FUNCTION raises 1:7 and goes back with its zero value.
#[tactic(auto, using(crate::proofs::Zeros::end_behind))]
fn emit_end(code: &mut Vec<Instr>, head: &Head) -> Result<(), AllocError>
    ensures { OnOk result (code.new.items ≡ code.old.items ++ codes.end_code (calls.is_function (seen_head head.now)) (seen_head head.now)) }
{
    if is_function(head) {
        push(
            code,
            Instr::Raise {
                group: 1,
                number: 7,
            },
        )?;
        let zero = zero_of(*code.allocator(), head)?;
        push(code, zero)?;
    }
    push(code, Instr::Return)
}

/// How RETURN leaves a unit with this head.
fn leaving_by(head: &Head) -> Leaving
    ensures { seen_leaving result ≡ placed.leaving_by (calls.is_function (seen_head head.now)) }
{
    if is_function(head) {
        Leaving::ByResult
    } else {
        Leaving::ByReturn
    }
}

/// Where control goes from inside the statements of a unit with this head.
fn exits_of<'a>(alloc: Global, head: &Head) -> Exits<'a>
    ensures { seen_exits result ≡ codes.to_caller (seen_head head.now) }
{
    Exits::of_body(alloc, leaving_by(head))
}

/// Whether a place belongs to AUTOMATIC data of the unit with this number.
fn is_automatic_in(set: &Set<'_>, unit: usize, place: &Place) -> bool
    ensures { result ≡ calls.is_automatic_in (seen_set set.now) unit (seen_place place.now) }
{
    if !place.automatic {
        return false;
    }
    match set.names.phrase(place.owner) {
        None => false,
        Some(phrase) => phrase.around.home == unit,
    }
}

/// Adds CLEAR of the place with this number, where it belongs to AUTOMATIC data of the unit.
fn emit_clear(
    code: &mut Vec<Instr>,
    set: &Set<'_>,
    unit: usize,
    number: usize,
    place: &Place,
) -> Result<(), AllocError>
    ensures { OnOk result (code.new.items ≡ code.old.items ++ codes.clear_if (calls.is_automatic_in (seen_set set.now) unit (seen_place place.now)) number) }
{
    if !is_automatic_in(set, unit, place) {
        return Ok(());
    }
    match u32::try_from(number) {
        Ok(place) => push(code, Instr::Clear { place, count: 1 }),
        Err(_) => Err(AllocError),
    }
}

/// Adds CLEAR of the places of AUTOMATIC data of the unit.
#[tactic(auto, unfolding(crate::specs::UnitCode::clears_behind))]
fn emit_clears(
    code: &mut Vec<Instr>,
    set: &Set<'_>,
    unit: usize,
    places: &[&Place],
) -> Result<(), AllocError>
    ensures { OnOk result (code.new.items ≡ codes.clears_behind (seen_set set.now) unit 0 code.old.items (map lent_place places.now)) }
{
    for (number, place) in places.iter().enumerate() {
        emit_clear(code, set, unit, number, place)?;
    }
    Ok(())
}

/// Adds the code of a unit's statements, and its end.
#[tactic(auto, using(crate::proofs::Coded::statements_listed, crate::proofs::Coded::head_listed))]
fn emit_body(
    code: &mut Vec<Instr>,
    site: &Site<'_>,
    locks: &Locks<'_>,
    body: &Body<'_>,
) -> Result<(), Uncoded>
    requires site { IsSite site.now }
    requires locks { AreGroups site.now locks.now }
    ensures { Emits (codes.body_code (seen_numbering site.now) (seen_site site.now) code.old.items (seen_body body.now).head (seen_body body.now).statements) result code.new.items }
{
    let exits = exits_of(site.alloc, &body.unit.head);
    emit_elements(&body.unit.elements, code, site, locks, &exits)?;
    emit_end(code, &body.unit.head)?;
    Ok(())
}

/// Adds the code of a unit: its AUTOMATIC data have their first values again, and then come its statements and its end.
#[tactic(auto, using(crate::proofs::Clearing::clears_added), unfolding(hal_gen_expr::specs::SeenSites::seen_site))]
fn emit_unit(
    code: &mut Vec<Instr>,
    site: &Site<'_>,
    locks: &Locks<'_>,
    body: &Body<'_>,
) -> Result<(), Uncoded>
    requires site { IsSite site.now }
    requires locks { AreGroups site.now locks.now }
    ensures { Emits (codes.unit_code (seen_numbering site.now) (seen_site site.now) code.old.items (seen_body body.now).head (seen_body body.now).statements) result code.new.items }
{
    emit_clears(code, site.set, site.unit, site.places)?;
    emit_body(code, site, locks, body)
}

/// The block of a unit: from one instruction to another, in the process that calls it.
fn unit_block(process: u8, head: &Head, first: usize, end: usize) -> Block
    ensures { result ≡ codes.unit_block process (seen_head head.now) first end }
{
    Block {
        process,
        first: first as u64,
        end: end as u64,
        result: Choice::Known(kind_of_result(head)),
    }
}

/// Adds the code and the block of a unit that the process with this number calls, and that stands at this site.
#[tactic(auto, using(crate::proofs::Coded::head_listed))]
pub(crate) fn link_unit_at(
    code: &mut Vec<Instr>,
    blocks: &mut Vec<Block>,
    site: &Site<'_>,
    locks: &Locks<'_>,
    process: u8,
    body: &Body<'_>,
) -> Result<(), Unlinked>
    requires site { IsSite site.now }
    requires locks { AreGroups site.now locks.now }
    ensures { Links (linking.with_unit_at (seen_numbering site.now) (seen_site site.now) process (linking.linked code.old.items blocks.old.items) (seen_body body.now)) result code.new.items blocks.new.items }
{
    let first = code.len();
    emit_unit(code, site, locks, body)?;
    push_block(
        blocks,
        unit_block(process, &body.unit.head, first, code.len()),
    )?;
    Ok(())
}
