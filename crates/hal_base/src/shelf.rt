ghost use Rattle.std.specs.Prelude.{◌≡◌, ℕ, ◌≤◌, List, length, Option, Err, IsErrOf};
ghost use Rattle.hal_base.specs.Files.{File};
ghost use Rattle.hal_base.specs.Shelf.{Fetches, EmptyButAll};
ghost use Rattle.hal_base.specs.Faults.{Rose};
ghost use Rattle.hal_base.specs.declared.shelf.ShelfFault.TheVariants.{Memory};

use std::alloc::{AllocError, Global};
use thiserror::Error;

/// What a shelf has under a name.
#[derive(Clone, Copy, PartialEq, Eq)]
pub enum Found {
    /// The file, and all its bytes were handed out.
    All,
    /// No file of that name.
    Absent,
    /// A file with more bytes than were asked for.
    TooLong,
}

/// Why a shelf gave no answer.
#[derive(Debug, Drop, PartialEq, Eq, Error)]
pub enum ShelfFault {
    #[error("the shelf failed")]
    Failed,
    #[error("out of memory")]
    Memory(AllocError),
}

impl From<AllocError> for ShelfFault {
    ghost from_gives = { λ error fault. fault ≡ Memory error };

    fn from(error: AllocError) -> ShelfFault {
        ShelfFault::Memory(error)
    }
}

/// Where files come from.
pub trait Shelf {
    /// The files, where the shelf tells them; the first one of a name counts.
    ghost files: { Self → Option (List File) };

    /// How many faults there were, a count of 64 bits that stands still at its last value.
    ghost faults: { Self → ℕ };

    /// Puts the bytes of the file `name` in place of what `into` holds, if they are at most
    /// `limit` bytes.
    ///
    /// After any answer but `All`, an error among them, `into` is empty. `Failed` comes only where
    /// the count of faults rose, and `Memory` only for want of memory.
    fn fetch(
        &mut self,
        alloc: Global,
        name: &str,
        limit: u64,
        into: &mut Vec<u8>,
    ) -> Result<Found, ShelfFault>
        ensures answer { Fetches (files self.old) name.now limit result into.new.items }
        ensures emptied { EmptyButAll result into.new.items }
        ensures within { length into.new.items ≤ limit }
        ensures same { files self.new ≡ files self.old }
        ensures later { faults self.old ≤ faults self.new }
        ensures failed { IsErrOf result ShelfFault.Failed → Rose (faults self.old) (faults self.new) };
}
