//! Rows of tables, and lists of them.

ghost use Rattle.std.specs.Prelude.{◌≡◌, ◌↔◌, ◌++◌, ℕ, List, Option, ◌<◌, ◌^◌, length, IsTrue, OnOk, flat_map};
ghost use Rattle.hal_object.specs.Fields.{Gives, rows_at, list_at};
ghost use Rattle.std.specs.List.{AllByRecursion};
ghost use Rattle.hal_object.specs.Numbers.{list_bytes, AreFew};

use crate::fault::ReadFault;
use crate::numbers::{four_of, put_four};
use hal_values::Listing;
use std::alloc::{AllocError, Global};

/// A list has fewer rows.
const LIST_LIMIT: usize = 4_294_967_296;

/// What stands in a table.
pub(crate) trait Row: Drop {
    /// How it is read.
    ghost at: { List ℕ → Option (Self × List ℕ) };

    /// Its bytes.
    ghost spelling: { Self → List ℕ };

    /// It has these bytes.
    ghost fits: { Self → Type 0 };

    /// Whether it has them.
    fn has_bytes(&self) -> bool
        ensures { IsTrue result ↔ fits self.now };

    /// A row at the front of bytes, and the bytes behind it.
    fn read(alloc: Global, bytes: &[u8]) -> Result<(Self, &[u8]), ReadFault>
        ensures { Gives (λ x. (x.0, x.1.now)) result (at bytes.now) };

    /// Its bytes, behind others.
    fn write(&self, into: &mut Vec<u8>) -> Result<(), AllocError>
        requires { fits self.now }
        ensures { OnOk result (into.new.items ≡ into.old.items ++ spelling self.now) };
}

/// So many rows.
pub(crate) fn rows_of<T: Row>(
    alloc: Global,
    count: u64,
    bytes: &[u8],
) -> Result<(Listing<T>, &[u8]), ReadFault>
    ensures { Gives (λ x. (x.0, x.1.now)) result (rows_at T.at count bytes.now) }
{
    let mut rows = Listing::empty(alloc);
    let mut rest = bytes;
    for _ in 0..count {
        let (row, after) = T::read(alloc, rest)?;
        rows.push(row)?;
        rest = after;
    }
    Ok((rows, rest))
}

/// Rows behind their count.
pub(crate) fn list_of<T: Row>(alloc: Global, bytes: &[u8]) -> Result<(Listing<T>, &[u8]), ReadFault>
    ensures { Gives (λ x. (x.0, x.1.now)) result (list_at T.at bytes.now) }
{
    let (count, rest) = four_of(bytes)?;
    rows_of(alloc, u64::from(count), rest)
}

/// Whether all rows have bytes.
pub(crate) fn have_bytes<T: Row>(rows: &[T]) -> bool
    ensures { IsTrue result ↔ AllByRecursion T.fits rows.now }
{
    for row in rows {
        if !row.has_bytes() {
            return false;
        }
    }
    true
}

/// Whether rows behind their count have bytes.
pub(crate) fn has_list_bytes<T: Row>(rows: &Listing<T>) -> bool
    ensures { IsTrue result ↔ AreFew (2 ^ 32) T.fits rows.now }
{
    let rows = rows.as_slice();
    rows.len() < LIST_LIMIT && have_bytes(rows)
}

/// The bytes of rows, one after another.
pub(crate) fn write_rows<T: Row>(rows: &[T], into: &mut Vec<u8>) -> Result<(), AllocError>
    requires { AllByRecursion T.fits rows.now }
    ensures { OnOk result (into.new.items ≡ into.old.items ++ flat_map T.spelling rows.now) }
{
    for row in rows {
        row.write(into)?;
    }
    Ok(())
}

/// The bytes of rows behind their count.
pub(crate) fn write_list<T: Row>(rows: &Listing<T>, into: &mut Vec<u8>) -> Result<(), AllocError>
    requires { AreFew (2 ^ 32) T.fits rows.now }
    ensures { OnOk result (into.new.items ≡ into.old.items ++ list_bytes T.spelling rows.now) }
{
    let rows = rows.as_slice();
    put_four(rows.len() as u32, into)?;
    write_rows(rows, into)
}
