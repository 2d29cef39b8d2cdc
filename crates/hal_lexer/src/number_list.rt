//! The numbers of the words of a text, on the heap: what is kept of a text is small then, and more of it stands close by.

use std::alloc::{AllocError, Global};
use std::marker::Model;

/// Numbers of words, which a contract sees as a list.
#[derive(Drop)]
pub(crate) struct NumberList {
    inner: Box<Vec<u32>>,
}

impl Model for NumberList {
    ghost use Rattle.std.specs.Prelude.{ℕ, List};

    ghost Value = { List ℕ };

    ghost view = { λ l. l.inner.value.items };
}

impl NumberList {
    ghost use Rattle.std.specs.Prelude.{◌≡◌, IfOk};

    /// These numbers on the heap, or want of memory.
    pub(crate) fn new(alloc: Global, numbers: Vec<u32>) -> Result<NumberList, AllocError>
        ensures { IfOk result (λ list. list ≡ numbers.items) }
    {
        match Box::new(alloc, numbers) {
            Ok(inner) => Ok(NumberList { inner }),
            Err(_) => Err(AllocError),
        }
    }

    /// The numbers.
    pub(crate) fn as_slice(&self) -> &[u32]
        ensures { result.now ≡ self.now }
    {
        self.inner.as_slice()
    }
}

/// The numbers of the words of a text.
#[derive(Drop)]
pub(crate) struct Numbers {
    pub(crate) items: NumberList,
}
