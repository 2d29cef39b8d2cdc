use crate::environment::ErrNo;
use crate::value::Value;

/// What the executive answers.
#[derive(Drop, PartialEq, Eq)]
pub enum Answer {
    /// To Begin.
    Begun,
    /// What was asked for.
    Value(Value),
    /// It is done.
    Done,
    /// It isn't done, for this error.
    Wrong(ErrNo),
    /// Inside an UPDATE block alone: it has begun.
    Opened,
    /// The UPDATE block is done, and its writes are made.
    Closed,
    /// To any request: the process was ended.
    Killed,
}
