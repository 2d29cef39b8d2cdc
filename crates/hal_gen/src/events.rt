//! SIGNAL, SET and RESET, and WAIT FOR of an event expression.

ghost use Rattle.std.specs.Prelude.{◌≡◌, map, None};
ghost use Rattle.hal_tree.specs.SeenStatements.{seen_action, seen_event};
ghost use Rattle.hal_storage.specs.event_expressions.SeenStated.{seen_stated};
ghost use Rattle.hal_meaning.specs.Events as events;
ghost use Rattle.hal_meaning.specs.RealTime.{stated_at_mark};
ghost use Rattle.hal_agreement.specs.PlacedStatements as placed;
ghost use Rattle.hal_agreement.specs.Sites.{here_at};
ghost use Rattle.hal_gen_expr.specs.Emits.{Emits};
ghost use Rattle.hal_gen_expr.specs.Emitting as emitting;
ghost use Rattle.hal_gen_expr.specs.Numbering.{below};
ghost use Rattle.hal_gen_expr.specs.SeenSites.{seen_site, IsSite};
ghost use Rattle.hal_gen.specs.Leaves as leaves;
ghost use Rattle.hal_gen.specs.Pausing as pausing;

use hal_base::Place;
use hal_code::{Delay, Instr};
use hal_gen_expr::{Site, Uncoded, emit_one};
use hal_storage::event_expressions::{Stated, event_named};
use hal_tree::{EventAction, EventChange};
use hal_words::Name;

/// The number of the event that a name means there, 0 where it means none (language document, Events).
#[tactic(auto, using(hal_gen_expr::proofs::Sited::processes_there, hal_gen_expr::proofs::Sited::declared_there, hal_gen_expr::proofs::Sited::few_there), unfolding(hal_gen_expr::specs::SeenSites::seen_site))]
pub(crate) fn event_number(site: &Site<'_>, name: &Name) -> u16
    requires site { IsSite site.now }
    ensures { result ≡ events.event_named (seen_site site.now).set.phrases (seen_site site.now).block name.now }
{
    event_named(
        site.set.names,
        site.events.processes,
        site.events.declared,
        site.block,
        name,
    )
}

/// The instruction that does this to the event with this number.
fn changes(action: EventAction, number: u16) -> Instr
    ensures { result ≡ placed.changes (seen_action action) number }
{
    match action {
        EventAction::Signal => Instr::Signal(number),
        EventAction::Set => Instr::Set(number),
        EventAction::Reset => Instr::Reset(number),
    }
}

/// Adds SIGNAL, SET or RESET (language document, Events).
pub(crate) fn emit_event(
    change: &EventChange,
    code: &mut Vec<Instr>,
    site: &Site<'_>,
) -> Result<(), Uncoded>
    requires site { IsSite site.now }
    ensures { Emits (emitting.emit code.old.items (seen_event change.now).place (leaves.event_change_of (seen_site site.now) (seen_event change.now))) result code.new.items }
{
    let number = event_number(site, &change.name.name);
    emit_one(code, change.place, changes(change.action, number))
}

/// The number of the first event expression of the statement whose phrase has this number.
#[tactic(auto, unfolding(crate::specs::Pausing::first_stated))]
fn first_stated(expressions: &[Stated], statement: usize) -> Option<usize>
    ensures { result ≡ pausing.first_stated 0 statement (map seen_stated expressions.now) }
{
    for (number, one) in expressions.iter().enumerate() {
        if one.statement == statement {
            return Some(number);
        }
    }
    None
}

/// The number of the last one.
#[tactic(auto, unfolding(crate::specs::Pausing::last_stated))]
fn last_stated(expressions: &[Stated], statement: usize) -> Option<usize>
    ensures { result ≡ pausing.last_stated 0 statement None (map seen_stated expressions.now) }
{
    let mut found = None;
    for (number, one) in expressions.iter().enumerate() {
        if one.statement == statement {
            found = Some(number);
        }
    }
    found
}

/// A number, where an instruction has room for it.
fn narrow(number: usize) -> Option<u32>
    ensures { result ≡ below 4294967296 number }
{
    match u32::try_from(number) {
        Ok(number) => Some(number),
        Err(_) => None,
    }
}

/// The number of the first event expression of the statement that is the mark with this number, as it is found.
#[tactic(auto, unfolding(hal_gen_expr::specs::SeenSites::seen_site))]
fn first_at(site: &Site<'_>, mark: usize) -> Option<u32>
    ensures { result ≡ pausing.first_at_mark (seen_site site.now) mark }
{
    let statement = site.marks.get(mark)?;
    let number = first_stated(&site.set.layout.expressions, *statement)?;
    narrow(number)
}

/// And of the last one.
#[tactic(auto, unfolding(hal_gen_expr::specs::SeenSites::seen_site))]
fn last_at(site: &Site<'_>, mark: usize) -> Option<u32>
    ensures { result ≡ pausing.last_at_mark (seen_site site.now) mark }
{
    let statement = site.marks.get(mark)?;
    let number = last_stated(&site.set.layout.expressions, *statement)?;
    narrow(number)
}

/// The number of the first event expression of the statement that is the mark with this number (language document, Events).
#[tactic(auto, using(crate::proofs::Paused::first_given))]
pub(crate) fn first_event(site: &Site<'_>, mark: usize) -> Option<u32>
    ensures { result ≡ leaves.first_event (seen_site site.now) (stated_at_mark (here_at (seen_site site.now)) mark) }
{
    first_at(site, mark)
}

/// And of its last one.
#[tactic(auto, using(crate::proofs::Paused::last_given))]
pub(crate) fn last_event(site: &Site<'_>, mark: usize) -> Option<u32>
    ensures { result ≡ leaves.last_event (seen_site site.now) (stated_at_mark (here_at (seen_site site.now)) mark) }
{
    last_at(site, mark)
}

/// Adds WAIT FOR of the event expression of the mark with this number (language document, Statements).
pub(crate) fn emit_event_pause(
    code: &mut Vec<Instr>,
    site: &Site<'_>,
    place: Place,
    mark: usize,
) -> Result<(), Uncoded>
    ensures { Emits (emitting.emit code.old.items place (leaves.event_pause_of (seen_site site.now) (stated_at_mark (here_at (seen_site site.now)) mark))) result code.new.items }
{
    match first_event(site, mark) {
        None => Err(Uncoded::At(place)),
        Some(number) => emit_one(code, place, Instr::Wait(Delay::Event(number))),
    }
}
