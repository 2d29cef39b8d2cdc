ghost use Rattle.std.specs.Prelude.{◌≡◌, ◌≤◌, IfSome, IsErrOf};
ghost use Rattle.hal_base.specs.Faults.{Rose};
ghost use Rattle.hal_top.specs.Told.{FetchesFile};

use hal_base::{Found, Shelf, ShelfFault};
use std::alloc::Global;

/// Why a file's bytes aren't there.
#[derive(Clone, Copy, PartialEq, Eq)]
pub enum NoFile {
    Absent,
    TooLong,
    Shelf,
    Memory,
}

/// The bytes of a file, of which there may be so many.
pub fn fetched<S: Shelf>(
    alloc: Global,
    shelf: &mut S,
    name: &str,
    limit: u64,
) -> Result<Vec<u8>, NoFile>
    ensures answer { IfSome (S.files shelf.old) (λ files. FetchesFile files (record { name = name.now; limit = limit }) result) }
    ensures failed { IsErrOf result NoFile.Shelf → Rose (S.faults shelf.old) (S.faults shelf.new) }
    ensures same { S.files shelf.new ≡ S.files shelf.old }
    ensures later { S.faults shelf.old ≤ S.faults shelf.new }
{
    let mut bytes = Vec::new(alloc);
    match shelf.fetch(alloc, name, limit, &mut bytes) {
        Ok(Found::All) => Ok(bytes),
        Ok(Found::Absent) => Err(NoFile::Absent),
        Ok(Found::TooLong) => Err(NoFile::TooLong),
        Err(ShelfFault::Failed) => Err(NoFile::Shelf),
        Err(ShelfFault::Memory(_)) => Err(NoFile::Memory),
    }
}
