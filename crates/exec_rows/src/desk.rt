use crate::kept::{Given, Kept};
use hal_values::{Answer, Listing, Value};
use std::alloc::{AllocError, Global};
use std::marker::Model;

/// A look at an UPDATE block: the store that it was made over, and the number of turns.
#[derive(Drop)]
pub(crate) struct Looked {
    store: Listing<Value>,
    turns: u16,
}

impl Model for Looked {
    ghost use Rattle.exec_model.specs.Processes.{Look};

    ghost Value = { Look };

    ghost view = { λ looked. record { store = looked.store; turns = looked.turns } };
}

/// What is kept of a process: its answers, its room for further ones, and its last look.
pub(crate) struct Desk {
    answers: Vec<Given>,
    room: usize,
    look: Option<Looked>,
}

impl Drop for Desk {
    fn drop(self) {
        let Desk {
            answers: _answers,
            room: _,
            look: _look,
        } = self;
    }
}

impl Model for Desk {
    ghost use Rattle.std.specs.Prelude.{◌+◌, ◌≤◌, vec_len, vec_capacity};
    ghost use Rattle.exec_rows.specs.Playing.{Held};

    ghost Value = { Held };

    ghost view = { λ desk. record { answers = desk.answers.items; room = desk.room; look = desk.look } };

    ghost invariant = { λ desk. vec_len desk.answers + desk.room ≤ vec_capacity desk.answers };
}

ghost use Rattle.std.specs.Prelude.{◌≡◌, option_map};
ghost use Rattle.exec_model.specs.Processes.{told_answer};
ghost use Rattle.exec_rows.specs.Playing.{kept_answer};

/// What is kept of an answer, after this look.
fn kept_of(answer: Answer, look: Option<Looked>) -> Option<Kept>
    ensures { told_answer look answer ≡ option_map kept_answer result }
{
    match answer {
        Answer::Begun => Some(Kept::Begun),
        Answer::Value(value) => Some(Kept::Value(value)),
        Answer::Done => Some(Kept::Done),
        Answer::Wrong(error) => Some(Kept::Wrong(error)),
        Answer::Opened => None,
        Answer::Closed => match look {
            None => None,
            Some(looked) => Some(Kept::Block(looked.store, looked.turns)),
        },
        Answer::Killed => Some(Kept::Killed),
    }
}

impl Desk {
    ghost use Rattle.std.specs.Prelude.{◌≡◌, ◌+◌, ◌<◌, ◌≤◌, [], ◌∷◌, ◌++◌, IsSome, IfSome, OnOk, Some};
    ghost use Rattle.exec_model.specs.Processes.{told_answer, reserved_room};
    ghost use Rattle.exec_rows.specs.Playing.{nothing_held};

    /// Nothing is kept.
    pub(crate) fn new(alloc: Global) -> Desk
        ensures { result ≡ nothing_held }
    {
        Desk {
            answers: Vec::new(alloc),
            room: 0,
            look: None,
        }
    }

    /// The answers.
    pub(crate) fn answers(&self) -> &[Given]
        ensures { result.now ≡ self.now.answers }
    {
        self.answers.as_slice()
    }

    /// Makes room for at least four further answers.
    pub(crate) fn reserve(&mut self) -> Result<(), AllocError>
        ensures answers { self.new.answers ≡ self.old.answers }
        ensures look { self.new.look ≡ self.old.look }
        ensures no_lower { self.old.room ≤ self.new.room }
        ensures room { OnOk result (reserved_room ≤ self.new.room) }
    {
        if self.room < 4 {
            self.answers.reserve(4)?;
            self.room = 4;
        }
        Ok(())
    }

    /// Keeps a look.
    pub(crate) fn look(&mut self, store: Listing<Value>, turns: u16)
        ensures { self.new ≡ record self.old { look = Some (record { store = store; turns = turns }) } }
    {
        self.look = Some(Looked { store, turns });
    }

    /// Keeps an answer, and forgets the look.
    pub(crate) fn tell(&mut self, answer: Answer)
        requires room { 0 < self.old.room }
        requires says { IsSome (told_answer self.old.look answer) }
        ensures told { IfSome (told_answer self.old.look answer) (λ given. self.new.answers ≡ self.old.answers ++ given ∷ []) }
        ensures room { self.new.room + 1 ≡ self.old.room }
    {
        if let Some(kept) = kept_of(answer, self.look.take()) {
            let _has_room = self.answers.push(Given::new(kept)).is_ok();
            self.room -= 1;
        }
    }
}
