//! Rows as the executive reads and writes them.

ghost use Rattle.std.specs.Prelude.{◌≡◌, IfOk, slice_set};
ghost use Rattle.exec_model.specs.Rows.{idle_row, row_in, is_active, is_active_status, is_ready, is_ready_status, is_before_cycle, is_ending, is_father, is_dependent, has_dependents};

use crate::row::Row;
use crate::status::Status;
use hal_values::{Cycle, Guard};
use std::alloc::AllocError;

impl Status {
    pub(crate) fn is_active(self) -> bool
        ensures { result ≡ is_active_status self }
    {
        !matches!(self, Status::Idle)
    }

    pub(crate) fn is_ready(self) -> bool
        ensures { result ≡ is_ready_status self }
    {
        matches!(self, Status::Ready)
    }

    /// No cycle has begun: the row may still be dropped.
    pub(crate) fn is_before_cycle(self) -> bool
        ensures { result ≡ is_before_cycle self }
    {
        matches!(
            self,
            Status::Start(_) | Status::StartOn(_) | Status::Ready | Status::Gap(_)
        )
    }

    pub(crate) fn is_ending(self) -> bool
        ensures { result ≡ is_ending self }
    {
        matches!(self, Status::Ending(_))
    }
}

impl Row {
    /// The row of a process that was never scheduled.
    pub(crate) fn idle() -> Row
        ensures { result ≡ idle_row }
    {
        Row {
            status: Status::Idle,
            priority: 0,
            stamp: 0,
            father: None,
            cycle: Cycle::Once,
            guard: Guard::Free,
            begun: false,
            started: false,
            cancelled: false,
            doomed: false,
            inside: false,
            start: 0,
            cycles: 0,
        }
    }

    pub(crate) fn is_active(self) -> bool
        ensures { result ≡ is_active self }
    {
        self.status.is_active()
    }

    pub(crate) fn is_ready(self) -> bool
        ensures { result ≡ is_ready self }
    {
        self.status.is_ready()
    }

    fn has_father(self, process: u8) -> bool
        ensures { result ≡ is_father process self.father }
    {
        match self.father {
            None => false,
            Some(father) => father == process,
        }
    }

    fn is_dependent_of(self, process: u8) -> bool
        ensures { result ≡ is_dependent process self }
    {
        self.is_active() && self.has_father(process)
    }
}

/// The row of a process; where there is no such process it is as of one that was never scheduled.
pub(crate) fn row_at(rows: &[Row], process: u8) -> Row
    ensures { result ≡ row_in rows.now process }
{
    match rows.get(usize::from(process)) {
        Some(row) => *row,
        None => Row::idle(),
    }
}

/// Gives the process this row, if there is such a process.
pub(crate) fn set_row(rows: &mut [Row], process: u8, row: Row)
    ensures { rows.new ≡ slice_set rows.old process row }
{
    let place = usize::from(process);
    if place < rows.len() {
        rows[place] = row;
    }
}

/// Whether a dependent of the process is active.
pub(crate) fn any_dependent(rows: &[Row], process: u8) -> bool
    ensures { result ≡ has_dependents rows.now process }
{
    rows.iter().any(|row| row.is_dependent_of(process))
}

/// The number of the process at a place; it gives up past 256 processes.
pub(crate) fn process_at(place: usize) -> Result<u8, AllocError>
    ensures { IfOk result (λ process. process ≡ place) }
{
    match u8::try_from(place) {
        Ok(process) => Ok(process),
        Err(_) => Err(AllocError),
    }
}
