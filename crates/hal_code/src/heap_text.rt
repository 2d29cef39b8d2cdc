//! A text on the heap: what holds it is small then.

use hal_values::Text;
use std::alloc::{AllocError, Global};
use std::marker::Model;

/// A text whose bytes stand on the heap. A contract sees the list of its bytes.
#[derive(Drop)]
pub struct HeapText {
    inner: Box<Text>,
}

impl Model for HeapText {
    ghost use Rattle.std.specs.Prelude.{ℕ, List};

    ghost Value = { List ℕ };

    ghost view = { λ text. text.inner.value };
}

impl HeapText {
    ghost use Rattle.std.specs.Prelude.{◌≡◌, ◌≤◌, length, IfOk};

    /// This text on the heap, or want of memory.
    pub fn new(alloc: Global, text: Text) -> Result<HeapText, AllocError>
        ensures { IfOk result (λ kept. kept ≡ text) }
    {
        match Box::new(alloc, text) {
            Ok(inner) => Ok(HeapText { inner }),
            Err(_) => Err(AllocError),
        }
    }

    /// The text.
    pub fn text(&self) -> &Text
        ensures { result.now ≡ self.now }
    {
        &self.inner
    }
}

impl PartialEq for HeapText {
    ghost use Rattle.std.specs.Prelude.{nat_eq};
    ghost use Rattle.std.specs.Cmp.{partial_equiv_from_equiv};
    ghost use Rattle.std.specs.Cmp.Lexicographic.{pointwise, nat_list_eq_equiv};

    ghost eq = { pointwise nat_eq };

    ghost laws = { partial_equiv_from_equiv nat_list_eq_equiv };

    fn eq(&self, other: &Self) -> bool {
        self.text().bytes() == other.text().bytes()
    }
}

impl Eq for HeapText {
    ghost use Rattle.std.specs.Cmp.Lexicographic.{nat_list_eq_equiv};

    ghost laws = { nat_list_eq_equiv };
}
