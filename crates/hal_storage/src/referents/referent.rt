//! What names refer to.

use crate::cells::Storing;
use crate::elements::Shape;
use hal_scope::Builtin;
use hal_values::Value;

/// What a phrase declares, as far as code goes by it.
#[derive(Drop)]
pub enum Referent {
    /// Data: the number of the phrase, the way in which they are stored, and their shape.
    Data {
        declared: usize,
        stored: Storing,
        shape: Shape,
    },
    /// A constant. Its value is on the heap, so that a referent is small: each phrase has one, and few are constants.
    Constant(Box<Value>),
    /// An event or a process, by the number of its event.
    Event(u16),
    /// A block that is called, by the number of its phrase.
    Block(usize),
    Nothing,
}

/// What a name refers to.
#[derive(Clone, Copy)]
pub enum Meant<'a> {
    Declared(&'a Referent),
    Builtin(Builtin),
    Nothing,
}
