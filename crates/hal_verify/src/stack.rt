//! The sorts of the operands on the stack.

ghost use Rattle.std.specs.Prelude.{◌≡◌, [], ◌∷◌, length, slice_get, OnOk};
ghost use Rattle.std.specs.Option.{option_map};
ghost use Rattle.hal_verify.specs.SeenSorts.{seen_sort, seen_stack, IsPopped};

use crate::sort::Sort;
use std::alloc::{AllocError, Global};

/// The sorts of the operands on the stack, the top one at the end.
#[derive(Drop)]
pub(crate) struct Stack {
    pub sorts: Vec<Sort>,
}

impl Stack {
    /// An empty stack. It takes no memory.
    pub(crate) fn new(alloc: Global) -> Stack
        ensures { seen_stack result ≡ [] }
    {
        Stack {
            sorts: Vec::new(alloc),
        }
    }

    /// Takes all away.
    pub(crate) fn clear(&mut self)
        ensures { seen_stack self.new ≡ [] }
    {
        self.sorts.clear();
    }

    /// How many there are.
    #[tactic(auto, using(crate::proofs::Stacks::same_length))]
    pub(crate) fn len(&self) -> usize
        ensures { result ≡ length (seen_stack self.now) }
    {
        self.sorts.len()
    }

    /// Puts one on top.
    pub(crate) fn push(&mut self, sort: Sort) -> Result<(), AllocError>
        ensures { OnOk result (seen_stack self.new ≡ seen_sort sort ∷ seen_stack self.old) }
    {
        self.sorts.push(sort)?;
        Ok(())
    }

    /// Takes the top one off, if there is one.
    pub(crate) fn pop(&mut self) -> Option<Sort>
        ensures { IsPopped (seen_stack self.old) result (seen_stack self.new) }
    {
        self.sorts.pop()
    }

    /// The one that lies so deep below the top.
    #[tactic(auto, using(crate::proofs::Stacks::from_end, crate::proofs::Stacks::past_end))]
    pub(crate) fn at(&self, depth: usize) -> Option<Sort>
        ensures { option_map seen_sort result ≡ slice_get (seen_stack self.now) depth }
    {
        let count = self.sorts.len();
        if depth < count {
            Some(self.sorts[count - 1 - depth])
        } else {
            None
        }
    }
}
