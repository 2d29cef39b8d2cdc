//! What an instruction comes to.

use crate::operands::Place;
use hal_values::{ErrNo, Kind, Plan, Request, Value};

/// When a process runs again, as it is written.
#[derive(Clone, Copy)]
pub enum Again {
    Never,
    AtOnce,
    Every(i64),
    After(i64),
}

/// What is still to be done of an instruction after an event was changed or a question was answered.
#[derive(Drop)]
pub enum Rest {
    Nothing,
    /// A value is put at a place.
    Puts(Place, Value),
    Asks(Request),
    /// Something is asked to which an error may be the answer.
    Tries(Request),
    /// The same for a plan whose cycle is still to be tested.
    Plans(Plan, Again),
}

/// What is done with an answer.
#[derive(Drop)]
pub enum Wait {
    Then(Rest),
    /// Its value, of this kind, is put on the stack.
    Pushes(Kind),
    /// An error that it is arises.
    Tried,
    /// Its value is put on the stack, or an error arises; without a value control goes on at the target.
    Takes(usize),
    /// Its value, of this kind, is put at the own place, and the cells of the shape behind so many are copied from the place on.
    Copies {
        kind: Kind,
        shape: u32,
        done: usize,
        from: Place,
        place: u32,
    },
    /// An UPDATE block of these groups begins.
    Opens(u16),
    /// The next cycle begins.
    Renews,
    /// The process ends with this error.
    Halts(ErrNo),
}

/// What an instruction comes to.
#[derive(Clone, Copy)]
pub enum Stepped {
    Moves,
    /// A turn of an UPDATE block was counted.
    Counts,
    /// Something is asked; the machine knows what, and what is done with the answer.
    Waits,
}
