//! How processes are ended by others.

ghost use Rattle.std.specs.Prelude.{◌≡◌, IfOk, OnOk};
ghost use Rattle.exec_model.specs.Drafts.{on};
ghost use Rattle.exec_model.specs.Killing.{father_in, is_process, is_of_family, family, killed_outside, killed, all_killed, family_killed};

use crate::draft::Draft;
use crate::procs::Procs;
use crate::row::Row;
use crate::rows::{process_at, row_at};
use crate::status::{How, Status};
use crate::told::Reply;
use std::alloc::{AllocError, Global};

fn is_at(process: u8, at: Option<u8>) -> bool
    ensures { result ≡ is_process process at }
{
    match at {
        None => false,
        Some(here) => here == process,
    }
}

fn father_of(rows: &[Row], at: Option<u8>) -> Option<u8>
    ensures { result ≡ father_in rows.now at }
{
    match at {
        None => None,
        Some(process) => row_at(rows, process).father,
    }
}

/// Whether the process is the other, or its fathers lead to it.
pub(crate) fn is_in_family(rows: &[Row], head: u8, process: u8) -> bool
    ensures { result ≡ is_of_family rows.now head process }
{
    let mut at = Some(process);
    'steps: for _step in 0..rows.len() {
        if is_at(head, at) {
            return true;
        }
        at = father_of(rows, at);
    }
    is_at(head, at)
}

/// A process and its descendants.
fn family_of(alloc: Global, rows: &[Row], head: u8) -> Result<Vec<u8>, AllocError>
    ensures { IfOk result (λ members. members.items ≡ family rows.now head) }
{
    let mut members = Vec::new(alloc);
    'places: for place in 0..rows.len() {
        let process = process_at(place)?;
        if is_in_family(rows, head, process) {
            members.push(process)?;
        }
    }
    Ok(members)
}

/// Kills a process that has this row and isn't inside an UPDATE block.
fn kill_outside<P: Procs>(draft: &mut Draft<P>, process: u8, row: Row) -> Result<(), AllocError>
    ensures { OnOk result (draft.new ≡ on (killed_outside process row row.status) draft.old) }
{
    match row.status {
        Status::Idle | Status::Ending(_) => Ok(()),
        Status::Start(_)
        | Status::StartOn(_)
        | Status::Ready
        | Status::Time(_)
        | Status::Event(_)
        | Status::Dependents
        | Status::Gap(_) => {
            draft.set_row(
                process,
                Row {
                    status: Status::Ending(How::Terminated),
                    ..row
                },
            );
            draft.tell(process, Reply::Killed)?;
            Ok(())
        }
    }
}

/// Kills a process.
fn kill<P: Procs>(draft: &mut Draft<P>, process: u8) -> Result<(), AllocError>
    ensures { OnOk result (draft.new ≡ on (killed process) draft.old) }
{
    let row = draft.row(process);
    if row.inside {
        draft.set_row(
            process,
            Row {
                doomed: true,
                ..row
            },
        );
        return Ok(());
    }
    kill_outside(draft, process, row)?;
    Ok(())
}

fn kill_all<P: Procs>(draft: &mut Draft<P>, processes: &[u8]) -> Result<(), AllocError>
    ensures { OnOk result (draft.new ≡ on (all_killed processes.now) draft.old) }
{
    for process in processes {
        kill(draft, *process)?;
    }
    Ok(())
}

/// Kills a process and its descendants.
pub(crate) fn kill_family<P: Procs>(
    alloc: Global,
    draft: &mut Draft<P>,
    head: u8,
) -> Result<(), AllocError>
    ensures { OnOk result (draft.new ≡ on (family_killed head) draft.old) }
{
    let members = family_of(alloc, draft.rows(), head)?;
    kill_all(draft, members.as_slice())?;
    Ok(())
}
