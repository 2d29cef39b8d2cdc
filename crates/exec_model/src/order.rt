//! The order in which Ready rows are taken.

ghost use Rattle.std.specs.Prelude.{◌≡◌, ◌↔◌, IsTrue, IfOk, IfSome, IfNone, ℕ, false};
ghost use Rattle.exec_model.specs.Order.{has_smaller_stamp, has_greater_priority, goes_before, is_ahead, place_of, IsInFirst};
ghost use Rattle.exec_model.specs.Rows.{is_ready, row_in};

use crate::row::Row;
use crate::rows::{process_at, row_at};
use std::alloc::AllocError;

/// A process with its row.
#[derive(Clone, Copy)]
struct Placed {
    process: u8,
    row: Row,
}

impl Placed {
    fn of(rows: &[Row], process: u8) -> Placed
        ensures process { result.process ≡ process }
        ensures row { result.row ≡ row_in rows.now process }
    {
        Placed {
            process,
            row: row_at(rows, process),
        }
    }

    fn has_smaller_stamp_than(self, other: Placed) -> bool
        ensures { result ≡ has_smaller_stamp self.process self.row other.process other.row }
    {
        if self.row.stamp == other.row.stamp {
            self.process < other.process
        } else {
            self.row.stamp < other.row.stamp
        }
    }

    fn has_greater_priority_than(self, other: Placed) -> bool
        ensures { result ≡ has_greater_priority self.process self.row other.process other.row }
    {
        if self.row.priority == other.row.priority {
            self.has_smaller_stamp_than(other)
        } else {
            other.row.priority < self.row.priority
        }
    }

    fn goes_before(self, other: Placed) -> bool
        ensures { result ≡ goes_before self.process self.row other.process other.row }
    {
        match (self.row.inside, other.row.inside) {
            (true, false) => true,
            (false, true) => false,
            (true, true) | (false, false) => self.has_greater_priority_than(other),
        }
    }
}

/// Whether another process is Ready and goes before this one.
fn is_other_ahead(rows: &[Row], process: u8, other: u8) -> bool
    ensures { result ≡ is_ahead rows.now process other }
{
    let there = Placed::of(rows, other);
    there.row.is_ready() && there.goes_before(Placed::of(rows, process))
}

/// How many Ready rows go before the process; it gives up past 256 processes.
fn place_among(rows: &[Row], process: u8) -> Result<usize, AllocError>
    ensures { IfOk result (λ place. place ≡ place_of rows.now process) }
{
    let mut count = 0;
    'places: for place in 0..rows.len() {
        if is_other_ahead(rows, process, process_at(place)?) {
            count += 1;
        }
    }
    Ok(count)
}

/// Whether the process is among the first Ready ones, of which there are as many as lanes.
pub(crate) fn is_in_first(rows: &[Row], process: u8, lanes: u8) -> Result<bool, AllocError>
    ensures { IfOk result (λ is_first. IsTrue is_first ↔ IsInFirst lanes rows.now process) }
{
    Ok(row_at(rows, process).is_ready() && place_among(rows, process)? < usize::from(lanes))
}

/// The first process that is Ready.
pub(crate) fn first_ready(rows: &[Row]) -> Result<Option<u8>, AllocError>
    ensures found { IfOk result (λ found. IfSome found (IsInFirst 1 rows.now)) }
    ensures none { IfOk result (λ found. IfNone found ((p : ℕ) → is_ready (row_in rows.now p) ≡ false)) }
{
    'places: for place in 0..rows.len() {
        let process = process_at(place)?;
        if is_in_first(rows, process, 1)? {
            return Ok(Some(process));
        }
    }
    Ok(None)
}
