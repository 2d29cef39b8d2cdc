use hal_values::{ErrNo, Listing, Value};
use std::marker::Model;

/// An answer that is kept.
#[derive(Drop)]
pub(crate) enum Kept {
    Begun,
    Value(Value),
    Done,
    Wrong(ErrNo),
    /// The UPDATE block is done: what the shared cells held before it, and the number of its turns.
    Block(Listing<Value>, u16),
    Killed,
}

/// An answer that a process got. A contract sees what the definitions see.
#[derive(Drop)]
pub(crate) struct Given {
    kept: Kept,
}

impl Model for Given {
    ghost use Rattle.hal_values.specs.Answers.{Answered};
    ghost use Rattle.exec_rows.specs.Playing.{kept_answer};

    ghost Value = { Answered };

    ghost view = { λ given. kept_answer given.kept };
}

impl Given {
    ghost use Rattle.std.specs.Prelude.{◌≡◌, ◌↔◌, IsTrue};
    ghost use Rattle.hal_values.specs.Answers.{Killed};
    ghost use Rattle.exec_rows.specs.Playing.{kept_answer};

    /// This answer.
    pub(crate) fn new(kept: Kept) -> Given
        ensures { result ≡ kept_answer kept }
    {
        Given { kept }
    }

    /// What is kept of it.
    pub(crate) fn kept(&self) -> &Kept
        ensures { kept_answer result.now ≡ self.now }
    {
        &self.kept
    }
}
