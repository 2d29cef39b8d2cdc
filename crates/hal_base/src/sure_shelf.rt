ghost use Rattle.std.specs.Prelude.{◌≡◌, ◌≢◌, ◌≤◌, length, ℕ, Some, Err};
ghost use Rattle.hal_base.specs.Files.{files_in};
ghost use Rattle.hal_base.specs.Shelf.{Fetches, EmptyButAll};

use crate::files::copy_file;
use crate::shelf::{Found, Shelf, ShelfFault};
use std::alloc::Global;
use std::marker::Model;

/// Files in memory, on a shelf that never fails.
#[derive(Drop)]
pub struct SureShelf {
    files: Vec<(String, Vec<u8>)>,
}

impl Model for SureShelf {
    ghost use Rattle.std.specs.Prelude.{List};
    ghost use Rattle.hal_base.specs.Files.{File, files_in};

    ghost Value = { List File };

    ghost view = { λ s. files_in s.files.items };
}

impl SureShelf {
    /// A shelf of these names and bytes.
    pub fn new(files: Vec<(String, Vec<u8>)>) -> SureShelf
        ensures { result ≡ files_in files.items }
    {
        SureShelf { files }
    }
}

impl Shelf for SureShelf {
    ghost files = { λ s. Some s };

    ghost faults = { λ _. 0 };

    fn fetch(
        &mut self,
        _alloc: Global,
        name: &str,
        limit: u64,
        into: &mut Vec<u8>,
    ) -> Result<Found, ShelfFault>
        ensures answer { Fetches (Some self.old) name.now limit result into.new.items }
        ensures emptied { EmptyButAll result into.new.items }
        ensures within { length into.new.items ≤ limit }
        ensures same { self.new ≡ self.old }
        ensures sure { result ≢ Err ShelfFault.Failed }
    {
        Ok(copy_file(&self.files, name, limit, into)?)
    }
}
