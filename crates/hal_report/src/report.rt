//! The report of a plain executive's moment.

ghost use Rattle.std.specs.Prelude.{◌≡◌, ◌++◌, ◌<◌, [], ℕ, List, OnOk, IfOk, flat_map, map, length, take_while};
ghost use Rattle.std.specs.List.{range_with_len};
ghost use Rattle.std.specs.String.{string_bytes};
ghost use Rattle.hal_values.specs.declared.tables.ReportName.{ReportName};
ghost use Rattle.hal_values.specs.Tables.{process_count};
ghost use Rattle.exec_model.specs.declared.status.End.{End};
ghost use Rattle.exec_model.specs.Effects.{bit_value};
ghost use Rattle.exec_model.specs.Moments.{moment_of, event_in};
ghost use Rattle.hal_values.specs.ReportElements.{elements};
ghost use Rattle.exec_model.specs.Meanings.{meaning};
ghost use Rattle.exec_model.specs.Report.{how_text, end_line, live_line, value_lines, own_values, report, process_name};
ghost use Rattle.exec_model.specs.Rows.{is_active, row_in};
ghost use Rattle.exec_model.specs.Running.{running_moment};
ghost use Rattle.hal_report.specs.Arrays.{AreArrays};

use crate::elements::elements_of;
use crate::values::add_values;
use exec_model::{End, How, Plain, Procs, Row, State, Status};
use hal_values::{Listing, Tables, Value};
use std::alloc::{AllocError, Global};

/// The name of the process at this place.
fn process_name(tables: &Tables, place: usize) -> &[u8]
    ensures { result.now ≡ process_name tables.now place }
{
    match tables.processes.as_slice().get(place) {
        Some(text) => text.bytes(),
        None => b"",
    }
}

/// How a process ended, in words.
fn how_text(alloc: Global, how: How) -> Result<String, AllocError>
    ensures { IfOk result (λ text. string_bytes text ≡ how_text how) }
{
    match how {
        How::Closed => String::from_str(alloc, "closed"),
        How::Cancelled => String::from_str(alloc, "cancelled"),
        How::Terminated => String::from_str(alloc, "terminated"),
        How::Error(error) => {
            let group = error.group;
            let number = error.number;
            format!(in alloc; "error {group}:{number}")
        }
    }
}

/// Adds the line of an end.
fn add_end(
    alloc: Global,
    report: &mut Vec<u8>,
    tables: &Tables,
    end: &End,
) -> Result<(), AllocError>
    ensures { OnOk result (report.new.items ≡ report.old.items ++ end_line tables.now end.now) }
{
    let clock = end.clock;
    let cycles = end.cycles;
    let before = format!(in alloc; " {clock} ")?;
    let how = how_text(alloc, end.how)?;
    let after = format!(in alloc; " {cycles}\n")?;
    report.extend_from_slice(b"end ")?;
    report.extend_from_slice(process_name(tables, usize::from(end.process)))?;
    report.extend_from_slice(before.as_bytes())?;
    report.extend_from_slice(how.as_bytes())?;
    report.extend_from_slice(after.as_bytes())?;
    Ok(())
}

/// Adds the lines of the ends in order.
fn add_ends(
    alloc: Global,
    report: &mut Vec<u8>,
    tables: &Tables,
    ends: &[End],
) -> Result<(), AllocError>
    ensures { OnOk result (report.new.items ≡ report.old.items ++ flat_map (λ (end : End). end_line tables.now end) ends.now) }
{
    for end in ends {
        add_end(alloc, report, tables, end)?;
    }
    Ok(())
}

/// Whether the process at this place is active.
fn is_active(rows: &[Row], place: usize) -> bool
    ensures { result ≡ is_active (row_in rows.now place) }
{
    match rows.get(place) {
        Some(row) => !matches!(row.status, Status::Idle),
        None => false,
    }
}

/// Adds the line of the process at this place, if it is active.
fn add_live(
    report: &mut Vec<u8>,
    tables: &Tables,
    state: &State,
    place: usize,
) -> Result<(), AllocError>
    ensures { OnOk result (report.new.items ≡ report.old.items ++ live_line tables.now (moment_of state.now []) place) }
{
    if !is_active(state.rows.as_slice(), place) {
        return Ok(());
    }
    report.extend_from_slice(b"live ")?;
    report.extend_from_slice(process_name(tables, place))?;
    report.extend_from_slice(b"\n")?;
    Ok(())
}

/// Adds the lines of the processes that are active.
fn add_lives(report: &mut Vec<u8>, tables: &Tables, state: &State) -> Result<(), AllocError>
    ensures { OnOk result (report.new.items ≡ report.old.items ++ flat_map (live_line tables.now (moment_of state.now [])) (range_with_len 0 (process_count tables.now))) }
{
    'places: for place in 0..tables.processes.as_slice().len() {
        add_live(report, tables, state, place)?;
    }
    Ok(())
}

/// The report of the moment at which the executive is. `owns` are the own values of each process, as
/// the names of its tables give them.
pub fn report_text<P: Procs + Drop>(
    alloc: Global,
    plain: &Plain<P>,
    owns: Vec<Listing<Value>>,
) -> Result<Vec<u8>, AllocError>
    requires names { AreArrays (P.Of.tables (P.load plain.now.procs)).names }
    requires owns { owns.items ≡ own_values (meaning P.Of.Load (P.load plain.now.procs)) (running_moment P.answers plain.now) }
    ensures { IfOk result (λ text. text.items ≡ report (meaning P.Of.Load (P.load plain.now.procs)) (running_moment P.answers plain.now)) }
{
    let tables = plain.procs().tables();
    let state = plain.state();
    let shown = elements_of(alloc, tables.names.as_slice())?;
    let mut text = Vec::new(alloc);
    text.extend_from_slice(state.output.as_slice())?;
    add_ends(alloc, &mut text, tables, state.ends.as_slice())?;
    add_lives(&mut text, tables, state)?;
    add_values(
        alloc,
        &mut text,
        tables,
        state,
        owns.as_slice(),
        shown.as_slice(),
    )?;
    Ok(text)
}
