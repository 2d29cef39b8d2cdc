ghost use Rattle.std.specs.Prelude.{◌≡◌, ◌++◌, OnOk, OnErr, IfOk, string_bytes};
ghost use Rattle.hal_script.specs.Journals.{event_line, journal_text};

use exec_model::{Event, Journal};
use std::alloc::{AllocError, Global};

/// The line of an event.
fn event_text(alloc: Global, event: Event) -> Result<String, AllocError>
    ensures { IfOk result (λ text. string_bytes text ≡ event_line event) }
{
    match event {
        Event::Act(process) => format!(in alloc; "act {process}\n"),
        Event::Open(process) => format!(in alloc; "open {process}\n"),
        Event::Block(process, turns) => format!(in alloc; "block {process} {turns}\n"),
        Event::Tick(time) => format!(in alloc; "tick {time}\n"),
        Event::Preempt(process) => format!(in alloc; "preempt {process}\n"),
    }
}

/// The lines of events in order.
fn events_text(alloc: Global, events: &[Event]) -> Result<Vec<u8>, AllocError>
    ensures { IfOk result (λ text. text.items ≡ journal_text events.now) }
{
    let mut text = Vec::new(alloc);
    for event in events {
        let line = event_text(alloc, *event)?;
        text.extend_from_slice(line.as_bytes())?;
    }
    Ok(text)
}

/// Appends a journal's text: one line per event, `act P`, `open P`, `block P TURNS`, `tick N` or
/// `preempt P`, with decimal numbers. Where memory is wanting nothing is appended.
pub fn write_journal(journal: &Journal, into: &mut Vec<u8>) -> Result<(), AllocError>
    ensures written { OnOk result (into.new.items ≡ into.old.items ++ journal_text journal.now) }
    ensures unchanged { OnErr result (into.new.items ≡ into.old.items) }
{
    let text = events_text(*into.allocator(), journal.as_slice())?;
    into.extend_from_slice(text.as_slice())?;
    Ok(())
}
