//! How the rows settle.

ghost use Rattle.std.specs.Prelude.{◌≡◌, ℕ, IfOk, OnOk};
ghost use Rattle.exec_model.specs.Drafts.{on};
ghost use Rattle.exec_model.specs.Settling.{guard_asks, wait_over, first_change, change_made, next_change, settle, left_row, wait_done};

use crate::change::Change;
use crate::draft::Draft;
use crate::procs::Procs;
use crate::row::Row;
use crate::rows::process_at;
use crate::status::{How, Status};
use crate::times::time_from_zero;
use crate::told::Reply;
use hal_values::{Guard, Tables};
use std::alloc::AllocError;

/// Whether the guard of a process asks for a cancel.
fn does_guard_ask<P: Procs>(tables: &Tables, draft: &Draft<P>, row: Row) -> Result<bool, AllocError>
    ensures { IfOk result (λ asks. asks ≡ guard_asks tables.now draft.now.now row.started row.guard) }
{
    match row.guard {
        Guard::Free => Ok(false),
        Guard::While(expression) => Ok(!draft.is_true(tables, expression)?),
        Guard::Until(expression) => {
            let holds = draft.is_true(tables, expression)?;
            Ok(row.started && holds)
        }
        Guard::UntilTime(time) => Ok(row.started && time_from_zero(time) <= draft.clock()),
    }
}

/// Whether what a process waits for is true.
fn is_wait_over<P: Procs>(
    tables: &Tables,
    draft: &Draft<P>,
    process: u8,
    status: Status,
) -> Result<bool, AllocError>
    ensures { IfOk result (λ over. over ≡ wait_over tables.now draft.now.now process status) }
{
    match status {
        Status::Start(time) | Status::Time(time) | Status::Gap(time) => Ok(time <= draft.clock()),
        Status::StartOn(expression) | Status::Event(expression) => {
            Ok(draft.is_true(tables, expression)?)
        }
        Status::Dependents => Ok(!draft.has_dependents(process)),
        Status::Idle | Status::Ready | Status::Ending(_) => Ok(false),
    }
}

/// The first change that a row can make.
fn change_of<P: Procs>(
    tables: &Tables,
    draft: &Draft<P>,
    process: u8,
    row: Row,
) -> Result<Option<Change>, AllocError>
    ensures { IfOk result (λ change. change ≡ first_change tables.now draft.now.now process row) }
{
    if !row.is_active() {
        return Ok(None);
    }
    if does_guard_ask(tables, draft, row)? && !row.cancelled {
        return Ok(Some(Change::Cancels));
    }
    if row.cancelled && !row.begun && row.status.is_before_cycle() {
        return Ok(Some(Change::Drops));
    }
    if row.status.is_ending() && !draft.has_dependents(process) {
        return Ok(Some(Change::Leaves));
    }
    if is_wait_over(tables, draft, process, row.status)? {
        return Ok(Some(Change::Readies));
    }
    Ok(None)
}

/// A row that has ended becomes Idle.
fn leave<P: Procs>(draft: &mut Draft<P>, process: u8, row: Row) -> Result<(), AllocError>
    ensures { OnOk result (draft.new ≡ on (left_row process row row.status) draft.old) }
{
    let Status::Ending(how) = row.status else {
        return Ok(());
    };
    draft.set_row(
        process,
        Row {
            status: Status::Idle,
            ..row
        },
    );
    draft.end(process, how, row.cycles)?;
    Ok(())
}

/// A row whose wait is over becomes Ready.
fn end_wait<P: Procs>(draft: &mut Draft<P>, process: u8, row: Row) -> Result<(), AllocError>
    ensures { OnOk result (draft.new ≡ on (wait_done process row row.status) draft.old) }
{
    match row.status {
        Status::Start(time) | Status::Gap(time) => {
            draft.make_ready(process, Row { start: time, ..row })?;
            Ok(())
        }
        Status::StartOn(_) => {
            let start = draft.clock();
            draft.make_ready(process, Row { start, ..row })?;
            Ok(())
        }
        Status::Time(_) | Status::Event(_) | Status::Dependents => {
            draft.make_ready(process, row)?;
            draft.tell(process, Reply::Done)?;
            Ok(())
        }
        Status::Idle | Status::Ready | Status::Ending(_) => Ok(()),
    }
}

/// Makes a change of a row.
fn make_change<P: Procs>(
    draft: &mut Draft<P>,
    process: u8,
    row: Row,
    change: Change,
) -> Result<(), AllocError>
    ensures { OnOk result (draft.new ≡ on (change_made process row change) draft.old) }
{
    match change {
        Change::Cancels => {
            draft.set_row(
                process,
                Row {
                    cancelled: true,
                    ..row
                },
            );
            Ok(())
        }
        Change::Drops => {
            draft.set_row(
                process,
                Row {
                    status: Status::Ending(How::Cancelled),
                    ..row
                },
            );
            Ok(())
        }
        Change::Leaves => {
            leave(draft, process, row)?;
            Ok(())
        }
        Change::Readies => {
            end_wait(draft, process, row)?;
            Ok(())
        }
    }
}

/// The lowest row that can change, and its first change.
fn change_to_make<P: Procs>(
    tables: &Tables,
    draft: &Draft<P>,
) -> Result<Option<(u8, Change)>, AllocError>
    ensures { IfOk result (λ next. next ≡ next_change tables.now draft.now.now) }
{
    for (place, row) in draft.rows().iter().enumerate() {
        let process = process_at(place)?;
        if let Some(change) = change_of(tables, draft, process, *row)? {
            return Ok(Some((process, change)));
        }
    }
    Ok(None)
}

/// Makes changes until none can be made.
pub(crate) fn settle_rows<P: Procs>(tables: &Tables, draft: &mut Draft<P>) -> Result<(), AllocError>
    ensures { OnOk result (draft.new ≡ on (settle tables.now) draft.old) }
{
    'changes: while let Some((process, change)) = change_to_make(tables, draft)? {
        let row = draft.row(process);
        make_change(draft, process, row, change)?;
    }
    Ok(())
}
