use crate::comes::Given;
use std::alloc::{AllocError, Global};
use std::marker::Model;

/// The parts that a walk hasn't come to yet. A contract sees the lists of them, the innermost first.
#[derive(Drop)]
pub(crate) struct GivenWalk<'a> {
    left: Vec<&'a [Given]>,
}

impl<'a> Model for GivenWalk<'a> {
    ghost use Rattle.std.specs.Prelude.{List, reverse, map};
    ghost use Rattle.hal_lexer.specs.declared.comes.Given.{Given};
    ghost use Rattle.hal_lexer.specs.Walks.{list_of};

    ghost Value = { List (List Given) };

    ghost view = { λ w. reverse (map list_of w.left.items) };
}

impl<'a> GivenWalk<'a> {
    ghost use Rattle.std.specs.Prelude.{◌≡◌, ◌∷◌, [], OnOk, IfSome, IfNone, length};

    /// No part.
    pub(crate) fn new(alloc: Global) -> GivenWalk<'a>
        ensures { result ≡ [] }
    {
        GivenWalk {
            left: Vec::new(alloc),
        }
    }

    /// How many lists there are.
    pub(crate) fn len(&self) -> usize
        ensures { result ≡ length self.now }
    {
        self.left.len()
    }

    /// Adds parts to be walked over first.
    pub(crate) fn push(&mut self, parts: &'a [Given]) -> Result<(), AllocError>
        ensures { OnOk result (self.new ≡ parts.now ∷ self.old) }
    {
        if self.left.push(parts).is_err() {
            return Err(AllocError);
        }
        Ok(())
    }

    /// Takes the innermost list.
    pub(crate) fn pop(&mut self) -> Option<&'a [Given]>
        ensures some { IfSome result (λ parts. self.old ≡ parts.now ∷ self.new) }
        ensures none { IfNone result (self.old ≡ []) }
    {
        self.left.pop()
    }
}
