ghost use Rattle.std.specs.Prelude.{◌≡◌, IfOk};

use hal_words::Word;
use std::alloc::{AllocError, Global};

/// A part of what stands in place of a name: a word, or the parts of another name, which has this
/// number and at least two of them.
#[derive(Drop)]
pub(crate) enum Child {
    Word(Word),
    Name(usize),
}

impl Child {
    /// A copy of the part, or want of memory.
    pub(crate) fn copy(&self, alloc: Global) -> Result<Child, AllocError>
        ensures { IfOk result (λ copy. copy ≡ self.now) }
    {
        match self {
            Child::Word(word) => Ok(Child::Word(word.copy(alloc)?)),
            Child::Name(number) => Ok(Child::Name(*number)),
        }
    }
}
