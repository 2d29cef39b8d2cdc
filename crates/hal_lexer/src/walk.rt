use crate::child::Child;
use std::alloc::{AllocError, Global};
use std::marker::Model;

/// The children that a walk hasn't come to yet. A contract sees the lists of them, the innermost first.
#[derive(Drop)]
pub(crate) struct Walk<'a> {
    left: Vec<&'a [Child]>,
}

impl<'a> Model for Walk<'a> {
    ghost use Rattle.std.specs.Prelude.{List, reverse, map};
    ghost use Rattle.hal_lexer.specs.declared.child.Child.{Child};
    ghost use Rattle.hal_lexer.specs.Walks.{list_of};

    ghost Value = { List (List Child) };

    ghost view = { λ w. reverse (map list_of w.left.items) };
}

impl<'a> Walk<'a> {
    ghost use Rattle.std.specs.Prelude.{◌≡◌, ◌∷◌, [], OnOk, IfSome, IfNone, length};

    /// No child.
    pub(crate) fn new(alloc: Global) -> Walk<'a>
        ensures { result ≡ [] }
    {
        Walk {
            left: Vec::new(alloc),
        }
    }

    /// How many lists there are.
    pub(crate) fn len(&self) -> usize
        ensures { result ≡ length self.now }
    {
        self.left.len()
    }

    /// Adds children to be walked over first.
    pub(crate) fn push(&mut self, children: &'a [Child]) -> Result<(), AllocError>
        ensures { OnOk result (self.new ≡ children.now ∷ self.old) }
    {
        if self.left.push(children).is_err() {
            return Err(AllocError);
        }
        Ok(())
    }

    /// Takes the innermost list.
    pub(crate) fn pop(&mut self) -> Option<&'a [Child]>
        ensures some { IfSome result (λ children. self.old ≡ children.now ∷ self.new) }
        ensures none { IfNone result (self.old ≡ []) }
    {
        self.left.pop()
    }
}
