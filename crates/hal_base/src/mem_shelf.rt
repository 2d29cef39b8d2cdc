ghost use Rattle.std.specs.Prelude.{◌≡◌, ◌↔◌, ◌≤◌, length, Some, IsTrue, IsErrOf};
ghost use Rattle.hal_base.specs.Files.{files_in};
ghost use Rattle.hal_base.specs.Shelf.{Fetches, EmptyButAll};
ghost use Rattle.hal_base.specs.MemShelf.{next_fails, after_fetch};
ghost use Rattle.hal_base.specs.Faults.{Rose};

use crate::files::copy_file;
use crate::shelf::{Found, Shelf, ShelfFault};
use std::alloc::Global;
use std::marker::Model;

/// Files in memory, and the numbers of the calls that are to fail.
#[derive(Drop)]
pub struct MemShelf {
    files: Vec<(String, Vec<u8>)>,
    fails: Vec<u64>,
    calls: u64,
    faults: u64,
}

impl Model for MemShelf {
    ghost use Rattle.hal_base.specs.Files.{files_in};
    ghost use Rattle.hal_base.specs.MemShelf.{Shelved};

    ghost Value = { Shelved };

    ghost view = { λ s. record {
      files = files_in s.files.items;
      fails = s.fails.items;
      calls = s.calls;
      faults = s.faults;
    } };
}

impl MemShelf {
    /// A shelf of these names and bytes, whose calls numbered in `fails` fail; the first is 1.
    pub fn new(files: Vec<(String, Vec<u8>)>, fails: Vec<u64>) -> MemShelf
        ensures { result ≡ record {
          files = files_in files.items;
          fails = fails.items;
          calls = 0;
          faults = 0;
        } }
    {
        MemShelf {
            files,
            fails,
            calls: 0,
            faults: 0,
        }
    }

    /// Counts a call, and says whether it is to fail.
    fn is_failing(&mut self) -> bool
        ensures fails { result ≡ next_fails self.old }
        ensures counted { self.new ≡ after_fetch self.old }
        ensures later { self.old.faults ≤ self.new.faults }
    {
        self.calls = self.calls.saturating_add(1);
        let is_numbered = self.fails.contains(&self.calls);
        if is_numbered {
            self.faults = self.faults.saturating_add(1);
        }
        is_numbered
    }
}

impl Shelf for MemShelf {
    ghost files = { λ s. Some s.files };

    ghost faults = { λ s. s.faults };

    fn fetch(
        &mut self,
        _alloc: Global,
        name: &str,
        limit: u64,
        into: &mut Vec<u8>,
    ) -> Result<Found, ShelfFault>
        ensures answer { Fetches (Some self.old.files) name.now limit result into.new.items }
        ensures emptied { EmptyButAll result into.new.items }
        ensures within { length into.new.items ≤ limit }
        ensures same { self.new.files ≡ self.old.files }
        ensures later { self.old.faults ≤ self.new.faults }
        ensures failed { IsErrOf result ShelfFault.Failed → Rose self.old.faults self.new.faults }
        ensures numbered { IsErrOf result ShelfFault.Failed ↔ IsTrue (next_fails self.old) }
        ensures counted { self.new ≡ after_fetch self.old }
    {
        into.clear();
        if self.is_failing() {
            return Err(ShelfFault::Failed);
        }
        Ok(copy_file(&self.files, name, limit, into)?)
    }
}
