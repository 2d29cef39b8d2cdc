ghost use Rattle.std.specs.Prelude.{◌≡◌, ◌≢◌, ◌≤◌, ◌↔◌, ◌⊎◌, length, None, Ok, Err, IfOk, IsErrOf, alloc_error};
ghost use Rattle.hal_base.specs.Shelf.{EmptyButAll};
ghost use Rattle.hal_base.specs.Faults.{Rose, faults_after};

use crate::shelf::{Found, Shelf, ShelfFault};
use std::alloc::{AllocError, Global};
use std::io::{ErrorKind, Read};
use std::marker::Model;
use std::rt::Files;
use std::{fs, io};

/// The files of the disk, each under its path. It tells none of them, and its count of faults
/// rises at each error.
#[derive(Drop)]
pub struct DiskShelf<'a, R: Files> {
    disk: &'a R,
    faults: u64,
}

impl<'a, R: Files> Model for DiskShelf<'a, R> {
    ghost use Rattle.std.specs.Prelude.{ℕ};

    ghost Value = { ℕ };

    ghost view = { λ s. s.faults };
}

impl<'a, R: Files> DiskShelf<'a, R> {
    /// A shelf with no fault so far.
    pub fn new(disk: &'a R) -> DiskShelf<'a, R>
        ensures { result ≡ 0 }
    {
        DiskShelf { disk, faults: 0 }
    }

    /// Reads a file, if there is one, up to one byte beyond the limit, which tells whether it is too long.
    fn read(&self, name: &str, limit: u64, into: &mut Vec<u8>) -> io::Result<Found>
        ensures present { IfOk result (λ found. found ≢ Found.Absent) }
        ensures whole { IfOk result (λ found.
            (found ≡ Found.All) ↔ (length into.new.items ≤ limit)) }
    {
        into.clear();
        let file = fs::open(self.disk, name)?;
        file.take(limit.saturating_add(1)).read_to_end(into)?;
        if into.len() as u64 > limit {
            return Ok(Found::TooLong);
        }
        Ok(Found::All)
    }
}

/// What a failed read says of the file; a path through something that is no folder names no file.
fn found_by(kind: ErrorKind) -> Result<Found, ShelfFault>
    ensures absent { (result ≡ Ok Found.Absent)
        ↔ ((kind ≡ ErrorKind.NotFound) ⊎ (kind ≡ ErrorKind.NotADirectory)) }
    ensures nothing_else { IfOk result (λ found. found ≡ Found.Absent) }
    ensures memory { (result ≡ Err (ShelfFault.Memory alloc_error)) ↔ (kind ≡ ErrorKind.OutOfMemory) }
{
    match kind {
        ErrorKind::NotFound | ErrorKind::NotADirectory => Ok(Found::Absent),
        ErrorKind::OutOfMemory => Err(ShelfFault::Memory(AllocError)),
        _ => Err(ShelfFault::Failed),
    }
}

impl<'a, R: Files> Shelf for DiskShelf<'a, R> {
    ghost files = { λ _. None };

    ghost faults = { λ s. s };

    fn fetch(
        &mut self,
        _alloc: Global,
        name: &str,
        limit: u64,
        into: &mut Vec<u8>,
    ) -> Result<Found, ShelfFault>
        ensures emptied { EmptyButAll result into.new.items }
        ensures within { length into.new.items ≤ limit }
        ensures later { self.old ≤ self.new }
        ensures failed { IsErrOf result ShelfFault.Failed → Rose self.old self.new }
        ensures counted { self.new ≡ faults_after self.old result }
    {
        let found = match self.read(name, limit, into) {
            Ok(found) => Ok(found),
            Err(error) => found_by(error.kind()),
        };
        if found != Ok(Found::All) {
            into.clear();
        }
        if found.is_err() {
            self.faults = self.faults.saturating_add(1);
        }
        found
    }
}
