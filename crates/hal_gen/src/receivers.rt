//! Receivers.

ghost use Rattle.std.specs.Prelude.{◌≡◌, IfOk, map};
ghost use Rattle.hal_tree.specs.Rows.{subscripts};
ghost use Rattle.hal_tree.specs.SeenExpressions.{seen_reference, seen_sub, seen_subscript};
ghost use Rattle.hal_tree.specs.SeenLeaves.{seen_name};
ghost use Rattle.hal_storage.specs.elements.SeenComponents.{seen_component};
ghost use Rattle.hal_storage.specs.referents.SeenReferents.{seen_meant, seen_referent};
ghost use Rattle.hal_meaning.specs.Elements as elements;
ghost use Rattle.hal_meaning.specs.Variables as variables;
ghost use Rattle.hal_code.specs.declared.operand.Places.TheVariants as places;
ghost use Rattle.hal_agreement.specs.PlacedExpressions as placing;
ghost use Rattle.hal_agreement.specs.PlacedStatements as placed;
ghost use Rattle.hal_gen_expr.specs.Emits.{Emits};
ghost use Rattle.hal_gen_expr.specs.ExpressionCode as expressing;
ghost use Rattle.hal_gen_expr.specs.SeenSites.{seen_site, seen_numbering, IsSite};
ghost use Rattle.hal_gen.specs.Leaves as leaves;
ghost use Rattle.hal_gen.specs.Receiving as receiving;
ghost use Rattle.hal_gen.specs.StatementCode as codes;
ghost use Rattle.hal_gen.specs.Storing as storing;

use hal_base::Place;
use hal_code::{Choice, Instr, Places};
use hal_gen_expr::{
    Aim, Site, Uncoded, are_none, emit_chosen, emit_integer, emit_name, emit_one, emit_part,
    is_arrayed, leads, led_by, places_of, push, referent, sizes_led,
};
use hal_storage::elements::Component;
use hal_storage::referents::{Meant, Referent};
use hal_tree::{Identifier, Reference, Sub, Subscript};
use hal_values::Kind;
use std::alloc::AllocError;

/// PATCH of such places.
fn patches(chosen: Places) -> Instr
    ensures { result ≡ placed.patches chosen }
{
    Instr::Patch(Choice::Known(chosen))
}

/// Adds PATCH of such places of the old value, and the store of it.
fn emit_patch(code: &mut Vec<Instr>, place: Place, chosen: Places) -> Result<(), Uncoded>
    ensures { Emits (receiving.patch_code code.old.items place chosen) result code.new.items }
{
    emit_one(code, place, patches(chosen))?;
    emit_one(code, place, Instr::Keep)
}

/// Adds the store of the value below an address in the place of the component there that a name chooses.
fn emit_by_name(
    name: &Identifier,
    code: &mut Vec<Instr>,
    site: &Site<'_>,
    place: Place,
) -> Result<(), Uncoded>
    requires site { IsSite site.now }
    ensures { Emits (receiving.patched_code code.old.items place places.One (λ middle. expressing.name_code (seen_numbering site.now) (seen_site site.now) middle (seen_name name.now))) result code.new.items }
{
    emit_one(code, place, Instr::Peek)?;
    emit_name(code, site, name)?;
    emit_patch(code, place, Places::One)
}

/// Adds the store of the value below an address in the place of the component there with this number.
fn emit_by_integer(code: &mut Vec<Instr>, place: Place, number: u32) -> Result<(), Uncoded>
    ensures { Emits (receiving.patched_code code.old.items place places.One (λ middle. expressing.integer_code middle place number)) result code.new.items }
{
    emit_one(code, place, Instr::Peek)?;
    emit_integer(code, place, number)?;
    emit_patch(code, place, Places::One)
}

/// Adds the store of the value below an address in the places of the component there that a subscript chooses.
fn emit_by_part(
    sub: &Sub,
    code: &mut Vec<Instr>,
    site: &Site<'_>,
    place: Place,
) -> Result<(), Uncoded>
    requires site { IsSite site.now }
    ensures { Emits (receiving.patched_code code.old.items place (placing.places_of (seen_sub sub.now)) (λ middle. expressing.part_code (seen_numbering site.now) (seen_site site.now) middle place (seen_sub sub.now))) result code.new.items }
{
    emit_one(code, place, Instr::Peek)?;
    emit_part(sub, code, site, place)?;
    emit_patch(code, place, places_of(sub))
}

/// Adds the store of the value below an address, in the component of what is there where subscripts choose one.
#[tactic(auto, unfolding(hal_tree::specs::Rows::subscripts))]
fn emit_stored(
    components: &[Sub],
    code: &mut Vec<Instr>,
    site: &Site<'_>,
    place: Place,
) -> Result<(), Uncoded>
    requires site { IsSite site.now }
    ensures { Emits (receiving.stored_code (seen_numbering site.now) (seen_site site.now) code.old.items place (subscripts (map seen_sub components.now))) result code.new.items }
{
    let Some((first, others)) = components.split_first() else {
        return emit_one(code, place, Instr::Keep);
    };
    if !are_none(others) {
        return Err(Uncoded::At(place));
    }
    emit_by_part(first, code, site, place)
}

/// Adds the store of the value below an address, in a receiver with an array or without one.
#[tactic(auto, using(hal_tree::proofs::MadeExpressions::made_unsubscripted, hal_tree::proofs::MadeExpressions::made_by_name, hal_tree::proofs::MadeExpressions::made_by_integer, hal_tree::proofs::MadeExpressions::made_by_parts))]
fn emit_received(
    subscript: &Subscript,
    code: &mut Vec<Instr>,
    site: &Site<'_>,
    place: Place,
    arrayed: bool,
) -> Result<(), Uncoded>
    requires site { IsSite site.now }
    ensures { Emits (receiving.received_code (seen_numbering site.now) (seen_site site.now) code.old.items place arrayed (seen_subscript subscript.now)) result code.new.items }
{
    match subscript {
        Subscript::None => emit_one(code, place, Instr::Keep),
        Subscript::Name { place: _, name } => {
            if arrayed {
                emit_one(code, place, Instr::Keep)
            } else {
                emit_by_name(name, code, site, place)
            }
        }
        Subscript::Integer {
            place: _,
            at: _,
            number,
        } => {
            if arrayed {
                emit_one(code, place, Instr::Keep)
            } else {
                emit_by_integer(code, place, *number)
            }
        }
        Subscript::Parts {
            place: _,
            copies: _,
            arrays,
            components,
        } => {
            if arrayed && are_none(arrays) {
                emit_one(code, place, Instr::Keep)
            } else {
                emit_stored(components, code, site, place)
            }
        }
    }
}

/// Adds the store of the value on the stack in a receiver (image document, Code that stands for a set).
#[tactic(auto, using(hal_tree::proofs::MadeExpressions::made_reference))]
pub(crate) fn emit_receiver(
    receiver: &Reference,
    code: &mut Vec<Instr>,
    site: &Site<'_>,
) -> Result<(), Uncoded>
    requires site { IsSite site.now }
    ensures { Emits (receiving.receiver_code (seen_numbering site.now) (seen_site site.now) code.old.items (seen_reference receiver.now)) result code.new.items }
{
    let Some(led) = led_by(&receiver.further, referent(site, &receiver.name)) else {
        return Err(Uncoded::At(receiver.place));
    };
    emit_chosen(
        &receiver.subscript,
        code,
        site,
        receiver.place,
        Aim::Cell,
        led,
    )?;
    emit_received(
        &receiver.subscript,
        code,
        site,
        receiver.place,
        is_arrayed(sizes_led(led)),
    )
}

/// How many instructions a receiver has, 0 where it has no code.
pub(crate) fn receiver_size(receiver: &Reference, site: &Site<'_>) -> Result<usize, AllocError>
    requires site { IsSite site.now }
    ensures { IfOk result (λ size. size ≡ receiving.receiver_size (seen_numbering site.now) (seen_site site.now) (seen_reference receiver.now)) }
{
    let mut code = Vec::new(site.alloc);
    match emit_receiver(receiver, &mut code, site) {
        Ok(()) => Ok(code.len()),
        Err(Uncoded::At(_)) => Ok(0),
        Err(Uncoded::Memory(error)) => Err(error),
    }
}

/// Adds the store of one receiver, of a copy where there are others.
fn emit_next(
    receiver: &Reference,
    others: bool,
    code: &mut Vec<Instr>,
    site: &Site<'_>,
) -> Result<(), Uncoded>
    requires site { IsSite site.now }
    ensures { Emits (storing.next_code (seen_numbering site.now) (seen_site site.now) code.old.items others (seen_reference receiver.now)) result code.new.items }
{
    if others {
        push(code, Instr::Dup)?;
    }
    emit_receiver(receiver, code, site)
}

/// Adds the stores of the value on the stack in receivers from left to right.
#[tactic(auto, unfolding(crate::specs::Storing::stores_code))]
fn emit_stores(
    receivers: &[Reference],
    code: &mut Vec<Instr>,
    site: &Site<'_>,
) -> Result<(), Uncoded>
    requires site { IsSite site.now }
    ensures { Emits (storing.stores_code (seen_numbering site.now) (seen_site site.now) code.old.items (map seen_reference receivers.now)) result code.new.items }
{
    let mut rest = receivers;
    while let Some((receiver, others)) = rest.split_first() {
        emit_next(receiver, !others.is_empty(), code, site)?;
        rest = others;
    }
    Ok(())
}

/// Adds the stores of the value on the stack in the receivers of an assignment (language document, Statements).
#[tactic(auto, using(crate::proofs::Stored::all_stored))]
pub(crate) fn emit_receivers(
    receivers: &[Reference],
    code: &mut Vec<Instr>,
    site: &Site<'_>,
    place: Place,
) -> Result<(), Uncoded>
    requires site { IsSite site.now }
    ensures { Emits (codes.receivers_code (seen_numbering site.now) (seen_site site.now) code.old.items place (map seen_reference receivers.now)) result code.new.items }
{
    if receivers.is_empty() {
        return Err(Uncoded::At(place));
    }
    emit_stores(receivers, code, site)
}

/// The kind of the first component to which names lead, DOUBLE where there is none.
fn kind_chosen(path: &[Identifier], components: &[Component]) -> Kind
    ensures { result ≡ variables.kind_of_first (elements.chosen (map seen_name path.now) (map seen_component components.now)) }
{
    for component in components {
        if leads(path, &component.path) {
            return component.kind;
        }
    }
    Kind::Double
}

/// The kind of what READ stores in what a phrase declares.
fn kind_declared(path: &[Identifier], referent: &Referent) -> Kind
    ensures { result ≡ leaves.kind_referred (map seen_name path.now) (seen_referent referent.now) }
{
    match referent {
        Referent::Data { shape, .. } => kind_chosen(path, &shape.components),
        Referent::Constant(_) => Kind::Double,
        Referent::Event(_) => Kind::Double,
        Referent::Block(_) => Kind::Double,
        Referent::Nothing => Kind::Double,
    }
}

/// The kind of what READ stores in what a name means.
fn kind_meant(path: &[Identifier], meant: Meant<'_>) -> Kind
    ensures { result ≡ leaves.kind_referred (map seen_name path.now) (seen_meant meant.entry) }
{
    match meant {
        Meant::Declared(referent) => kind_declared(path, referent),
        Meant::Builtin(_) => Kind::Double,
        Meant::Nothing => Kind::Double,
    }
}

/// The kind of what READ stores in a receiver (language document, Statements).
#[tactic(auto, using(hal_tree::proofs::MadeExpressions::made_reference))]
pub(crate) fn kind_of_receiver(receiver: &Reference, site: &Site<'_>) -> Kind
    requires site { IsSite site.now }
    ensures { result ≡ leaves.kind_of_receiver (seen_site site.now) (seen_reference receiver.now) }
{
    kind_meant(&receiver.further, referent(site, &receiver.name))
}
