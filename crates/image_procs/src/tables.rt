//! The tables of an image, which the executive reads.

ghost use Rattle.std.specs.Prelude.{◌≡◌, map, IfOk};
ghost use Rattle.hal_code.specs.declared.row.Process.{Process};
ghost use Rattle.hal_code.specs.Images.{start_of, tables_of};

use hal_code::{Choice, ImageParts, Process};
use hal_runner::cells_of;
use hal_values::{EventStart, Item, Listing, ReportName, Tables, Text};
use std::alloc::{AllocError, Global};

/// The names of processes.
fn names_of(alloc: Global, processes: &[Process]) -> Result<Vec<Text>, AllocError>
    ensures { IfOk result (λ names. names.items ≡ map (λ (one : Process). one.name) processes.now) }
{
    let mut names = Vec::new(alloc);
    for process in processes {
        names.push(process.name.copy())?;
    }
    Ok(names)
}

/// How a declared event begins.
fn start_of(start: Choice<EventStart>) -> EventStart
    ensures { result ≡ start_of start }
{
    match start {
        Choice::Known(start) => start,
        Choice::Other(_) => EventStart::Unlatched,
    }
}

/// How declared events begin.
fn starts_of(alloc: Global, events: &[Choice<EventStart>]) -> Result<Vec<EventStart>, AllocError>
    ensures { IfOk result (λ starts. starts.items ≡ map start_of events.now) }
{
    let mut starts = Vec::new(alloc);
    for event in events {
        starts.push(start_of(*event))?;
    }
    Ok(starts)
}

/// Event expressions.
fn expressions_of(
    alloc: Global,
    expressions: &[Listing<Item>],
) -> Result<Vec<Listing<Item>>, AllocError>
    ensures { IfOk result (λ copy. copy.items ≡ expressions.now) }
{
    let mut copy = Vec::new(alloc);
    for one in expressions {
        let mut items = Listing::empty(alloc);
        items.extend(one.as_slice())?;
        copy.push(items)?;
    }
    Ok(copy)
}

/// A name of the report.
fn report_name_of(alloc: Global, named: &ReportName) -> Result<ReportName, AllocError>
    ensures { IfOk result (λ copy. copy ≡ named.now) }
{
    let mut name = Listing::empty(alloc);
    name.extend(named.name.as_slice())?;
    let mut dimensions = Listing::empty(alloc);
    dimensions.extend(named.dimensions.as_slice())?;
    Ok(ReportName {
        name,
        base: named.base,
        first: named.first,
        copies: named.copies,
        stride: named.stride,
        dimensions,
    })
}

/// The names of the report.
fn report_names_of(alloc: Global, names: &[ReportName]) -> Result<Vec<ReportName>, AllocError>
    ensures { IfOk result (λ copy. copy.items ≡ names.now) }
{
    let mut copy = Vec::new(alloc);
    for named in names {
        copy.push(report_name_of(alloc, named)?)?;
    }
    Ok(copy)
}

/// The tables of an image.
pub(crate) fn tables_of(alloc: Global, image: &ImageParts) -> Result<Tables, AllocError>
    ensures { IfOk result (λ tables. tables ≡ tables_of image.now) }
{
    let cells = cells_of(alloc, image.cells.as_slice())?;
    let processes = names_of(alloc, image.processes.as_slice())?;
    let events = starts_of(alloc, image.events.as_slice())?;
    let expressions = expressions_of(alloc, image.expressions.as_slice())?;
    let names = report_names_of(alloc, image.names.as_slice())?;
    Ok(Tables {
        cells: Listing::new(cells),
        processes: Listing::new(processes),
        first: image.first,
        events: Listing::new(events),
        expressions: Listing::new(expressions),
        names: Listing::new(names),
    })
}
