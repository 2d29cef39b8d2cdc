//! ON ERROR, OFF ERROR and SEND ERROR.

ghost use Rattle.std.specs.Prelude.{◌≡◌, Some, length};
ghost use Rattle.std.specs.Option.{option_map};
ghost use Rattle.hal_tree.specs.SeenStatements.{seen_event, seen_response, seen_selector, seen_action};
ghost use Rattle.hal_agreement.specs.PlacedStatements as placed;
ghost use Rattle.hal_gen_expr.specs.Emits.{Emits};
ghost use Rattle.hal_gen_expr.specs.Emitting as emitting;
ghost use Rattle.hal_gen_expr.specs.SeenSites.{seen_site, IsSite};
ghost use Rattle.hal_gen.specs.Leaves as leaves;

use crate::events::event_number;
use crate::marks::next;
use crate::sizes::sum;
use hal_base::Place;
use hal_code::{Choice, EventChange, Instr, Response};
use hal_gen_expr::{Site, Uncoded, emit_one, emit_two};
use hal_tree::{EventAction, Selector};

/// A number of one byte, which is no 0.
fn from_one(number: u32) -> Option<u8>
    ensures { result ≡ leaves.from_one number }
{
    if number == 0 {
        None
    } else {
        u8::try_from(number).ok()
    }
}

/// The group and the number of the errors that a selector means, 0 for any, where an instruction has room for them.
fn numbers_of(selector: Selector) -> Option<(u8, u8)>
    ensures { result ≡ leaves.numbers_of (seen_selector selector) }
{
    match selector {
        Selector::Every => Some((0, 0)),
        Selector::Group { group, .. } => {
            let group = from_one(group)?;
            Some((group, 0))
        }
        Selector::One { group, number, .. } => {
            let group = from_one(group)?;
            let number = from_one(number)?;
            Some((group, number))
        }
    }
}

/// What ON ERROR does to an event.
fn change_of(action: EventAction) -> EventChange
    ensures { result ≡ leaves.change_of (seen_action action) }
{
    match action {
        EventAction::Signal => EventChange::Signal,
        EventAction::Set => EventChange::Set,
        EventAction::Reset => EventChange::Reset,
    }
}

/// What ON ERROR does to which event.
fn side_numbers(site: &Site<'_>, event: &Option<hal_tree::EventChange>) -> (EventChange, u16)
    requires site { IsSite site.now }
    ensures { Some result ≡ leaves.side_numbers (seen_site site.now) (option_map seen_event event.now) }
{
    match event {
        None => (EventChange::Nothing, 0),
        Some(event) => (
            change_of(event.action),
            event_number(site, &event.name.name),
        ),
    }
}

/// What answers an error.
fn response_of(response: hal_tree::Response) -> Response
    ensures { result ≡ placed.response_of (seen_response response) }
{
    match response {
        hal_tree::Response::System => Response::System,
        hal_tree::Response::Ignore => Response::Ignore,
    }
}

/// Adds ON ERROR with SYSTEM or IGNORE (language document, Errors).
pub(crate) fn emit_response(
    code: &mut Vec<Instr>,
    site: &Site<'_>,
    place: Place,
    selector: Selector,
    response: hal_tree::Response,
    event: &Option<hal_tree::EventChange>,
) -> Result<(), Uncoded>
    requires site { IsSite site.now }
    ensures { Emits (emitting.emit code.old.items place (leaves.response_code (seen_site site.now) (seen_selector selector) (seen_response response) (option_map seen_event event.now))) result code.new.items }
{
    let Some((group, number)) = numbers_of(selector) else {
        return Err(Uncoded::At(place));
    };
    let (change, event) = side_numbers(site, event);
    let entry = Instr::On {
        group,
        number,
        response: Choice::Known(response_of(response)),
        change: Choice::Known(change),
        event,
        target: 0,
    };
    emit_one(code, place, entry)
}

/// Adds ON ERROR with a statement of so many instructions, which is to stand behind it, and a jump over the statement (language document, Errors).
pub(crate) fn emit_entry(
    code: &mut Vec<Instr>,
    place: Place,
    selector: Selector,
    size: usize,
) -> Result<(), Uncoded>
    ensures { Emits (emitting.emit code.old.items place (leaves.handler_code (seen_selector selector) (length code.old.items) size)) result code.new.items }
{
    let Some((group, number)) = numbers_of(selector) else {
        return Err(Uncoded::At(place));
    };
    let begin = next(next(code.len())?)?;
    let end = sum(begin, size)?;
    let entry = Instr::On {
        group,
        number,
        response: Choice::Known(Response::Statement),
        change: Choice::Known(EventChange::Nothing),
        event: 0,
        target: begin as u64,
    };
    emit_two(code, place, Some(entry), Instr::Jump(end as u64))
}

/// Adds OFF ERROR (language document, Errors).
pub(crate) fn emit_off(
    code: &mut Vec<Instr>,
    place: Place,
    selector: Selector,
) -> Result<(), Uncoded>
    ensures { Emits (emitting.emit code.old.items place (leaves.off_of (seen_selector selector))) result code.new.items }
{
    match numbers_of(selector) {
        None => Err(Uncoded::At(place)),
        Some((group, number)) => emit_one(code, place, Instr::Off { group, number }),
    }
}

/// Adds SEND ERROR (language document, Errors).
pub(crate) fn emit_raise(
    code: &mut Vec<Instr>,
    place: Place,
    group: u32,
    number: u32,
) -> Result<(), Uncoded>
    ensures { Emits (emitting.emit code.old.items place (leaves.raise_of group number)) result code.new.items }
{
    let Ok(group) = u8::try_from(group) else {
        return Err(Uncoded::At(place));
    };
    let Ok(number) = u8::try_from(number) else {
        return Err(Uncoded::At(place));
    };
    emit_one(code, place, Instr::Raise { group, number })
}
