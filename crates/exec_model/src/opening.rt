//! How a run begins.

ghost use Rattle.std.specs.Prelude.{◌≡◌, ◌++◌, [], map, replicate, IfOk, OnOk};
ghost use Rattle.std.specs.List.{range_with_len};
ghost use Rattle.hal_values.specs.Tables.{process_count};
ghost use Rattle.hal_values.specs.declared.tables.Cell.{Cell};
ghost use Rattle.exec_model.specs.Moments.{moment_of};
ghost use Rattle.exec_model.specs.Opening.{opening_row, event_start, line_data, channel_data, unsettled};

use crate::row::Row;
use crate::script::{Datum, ScriptLine};
use crate::state::State;
use crate::status::Status;
use hal_base::CHANNEL_COUNT;
use hal_values::{Cell, EventStart, Listing, Tables, Value};
use std::alloc::{AllocError, Global};

/// The priority of the first PROGRAM, and of a SCHEDULE without one.
pub(crate) const USUAL_PRIORITY: u8 = 50;

fn initial_store(alloc: Global, cells: &[Cell]) -> Result<Vec<Value>, AllocError>
    ensures { IfOk result (λ store. store.items ≡ map (λ (cell : Cell). cell.initial) cells.now) }
{
    cells.iter().map(|cell| cell.initial.copy()).collect(alloc)
}

fn opening_row(first: u8, process: usize) -> Row
    ensures { result ≡ opening_row first process }
{
    if process == usize::from(first) {
        Row {
            status: Status::Start(0),
            priority: USUAL_PRIORITY,
            ..Row::idle()
        }
    } else {
        Row::idle()
    }
}

fn opening_rows(alloc: Global, first: u8, count: usize) -> Result<Vec<Row>, AllocError>
    ensures { IfOk result (λ rows. rows.items ≡ map (opening_row first) (range_with_len 0 count)) }
{
    (0..count)
        .map(|process| opening_row(first, process))
        .collect(alloc)
}

/// The first value of a declared event.
fn event_start(start: EventStart) -> bool
    ensures { result ≡ event_start start }
{
    match start {
        EventStart::Unlatched => false,
        EventStart::Latched(value) => value,
    }
}

fn event_starts(alloc: Global, events: &[EventStart]) -> Result<Vec<bool>, AllocError>
    ensures { IfOk result (λ values. values.items ≡ map event_start events.now) }
{
    events
        .iter()
        .map(|start| event_start(*start))
        .collect(alloc)
}

/// Adds copies of data.
fn add_data(alloc: Global, gathered: &mut Vec<Datum>, given: &[Datum]) -> Result<(), AllocError>
    ensures { OnOk result (gathered.new.items ≡ gathered.old.items ++ given.now) }
{
    for datum in given {
        gathered.push(Listing::new(Vec::from_slice(alloc, datum.as_slice())?))?;
    }
    Ok(())
}

/// Adds the data that a line gives to this channel.
fn add_line(
    alloc: Global,
    gathered: &mut Vec<Datum>,
    line: &ScriptLine,
    channel: u8,
) -> Result<(), AllocError>
    ensures { OnOk result (gathered.new.items ≡ gathered.old.items ++ line_data channel line.now) }
{
    match line {
        ScriptLine::Input(to, given) if *to == channel => {
            add_data(alloc, gathered, given.as_slice())?;
            Ok(())
        }
        _ => Ok(()),
    }
}

/// The data that the script gives to this channel.
fn channel_data(
    alloc: Global,
    script: &[ScriptLine],
    channel: u8,
) -> Result<Listing<Datum>, AllocError>
    ensures { IfOk result (λ given. given ≡ channel_data script.now channel) }
{
    let mut gathered = Vec::new(alloc);
    for line in script {
        add_line(alloc, &mut gathered, line, channel)?;
    }
    Ok(Listing::new(gathered))
}

/// What is to be read from each channel below this.
fn channels_data(
    alloc: Global,
    script: &[ScriptLine],
    count: u8,
) -> Result<Listing<Listing<Datum>>, AllocError>
    ensures { IfOk result (λ input. input ≡ map (channel_data script.now) (range_with_len 0 count)) }
{
    let mut input = Vec::new(alloc);
    for channel in 0..count {
        input.push(channel_data(alloc, script, channel)?)?;
    }
    Ok(Listing::new(input))
}

/// The executive before the first row settles.
pub(crate) fn unsettled_state(
    alloc: Global,
    tables: &Tables,
    script: &[ScriptLine],
) -> Result<State, AllocError>
    ensures { IfOk result (λ state. moment_of state (replicate (process_count tables.now) []) ≡ unsettled tables.now script.now) }
{
    Ok(State {
        store: Listing::new(initial_store(alloc, tables.cells.as_slice())?),
        clock: 0,
        rows: Listing::new(opening_rows(alloc, tables.first, tables.processes.as_slice().len())?),
        events: Listing::new(event_starts(alloc, tables.events.as_slice())?),
        output: Listing::empty(alloc),
        ends: Listing::empty(alloc),
        input: channels_data(alloc, script, CHANNEL_COUNT)?,
        stamp: 0,
    })
}
