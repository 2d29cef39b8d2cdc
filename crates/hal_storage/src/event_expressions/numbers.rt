//! The numbers of events.

ghost use Rattle.std.specs.Prelude.{◌≡◌, ◌≤◌, ◌<◌, ◌+◌, IfSome, length};
ghost use Rattle.hal_names.specs.SeenNames.{seen_names};
ghost use Rattle.hal_meaning.specs.Bodies.{meant};
ghost use Rattle.hal_meaning.specs.Events as events;
ghost use Rattle.hal_storage.specs.event_expressions.Numbered as numbered;

use hal_names::Names;
use hal_reach::meant;
use hal_words::Name;

/// The place of a number in a list.
#[tactic(auto, using(crate::proofs::event_expressions::Bounds::within_list))]
fn place_in(numbers: &[usize], number: usize) -> Option<usize>
    ensures place { result ≡ events.place_in numbers.now number }
    ensures within { IfSome result (λ place. place < length numbers.now) }
{
    numbers.iter().position(|one| *one == number)
}

/// The number of the event that the phrase with this number declares, as a process or as an event, among these processes and declared events
/// (language document, Events).
pub fn event_of(processes: &[usize], declared: &[usize], number: usize) -> Option<u16>
    requires few { length processes.now + length declared.now ≤ 65535 }
    ensures { result ≡ numbered.event_among processes.now declared.now number }
{
    if let Some(place) = place_in(processes, number) {
        return Some(place as u16);
    }
    let place = place_in(declared, number)?;
    Some((processes.len() + place) as u16)
}

/// The number of the event that a name means in a block, 0 where it means none (language document, Events).
pub fn event_named(
    names: &Names<'_>,
    processes: &[usize],
    declared: &[usize],
    block: usize,
    name: &Name,
) -> u16
    requires few { length processes.now + length declared.now ≤ 65535 }
    ensures { result ≡ numbered.event_named_among processes.now declared.now (meant (seen_names names.now) block name.now) }
{
    match meant(names, block, name) {
        None => 0,
        Some(number) => event_of(processes, declared, number).unwrap_or(0),
    }
}
