use hal_values::{ErrNo, Value};

/// An answer that the executive has for a process, but for that to an UPDATE block.
#[derive(Drop)]
pub(crate) enum Reply {
    Begun,
    Value(Value),
    Done,
    Wrong(ErrNo),
    Killed,
}

/// An answer for a process that it hasn't been told yet.
#[derive(Drop)]
pub(crate) struct Told {
    pub(crate) process: u8,
    pub(crate) reply: Reply,
}
