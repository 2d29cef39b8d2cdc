//! The operands of instructions that are no plain numbers.

/// A time.
#[derive(Clone, Copy, PartialEq, Eq)]
pub enum Time {
    /// None; no image that is right has one.
    Absent,
    /// So many seconds as the integer on the stack.
    Seconds,
    /// So many milliseconds.
    Milliseconds(u64),
}

/// When a process starts.
#[derive(Clone, Copy, PartialEq, Eq)]
pub enum Start {
    Now,
    /// At a time of the clock.
    At(Time),
    /// So long after now.
    In(Time),
    /// Once the event expression of this number is TRUE.
    On(u32),
}

/// How a process goes on after a cycle.
#[derive(Clone, Copy, PartialEq, Eq)]
pub enum Round {
    Once,
    /// At once.
    Repeat,
    /// So long after the beginning of the last cycle.
    Every(Time),
    /// So long after the end of the last cycle.
    After(Time),
}

/// What cancels a process. An event expression is given by its number.
#[derive(Clone, Copy, PartialEq, Eq)]
pub enum Limit {
    Free,
    /// The event expression is FALSE.
    While(u32),
    /// The event expression is TRUE.
    Until(u32),
    /// The clock has come to this time.
    UntilTime(Time),
}

/// What a process waits for.
#[derive(Clone, Copy, PartialEq, Eq)]
pub enum Delay {
    /// So long from now on.
    For(Time),
    /// Until this time of the clock.
    Until(Time),
    /// Until the event expression of this number is TRUE.
    Event(u32),
    /// Until no dependent is active.
    Dependents,
}

/// Which places of a bit string or a text are chosen by integers on the stack.
#[derive(Clone, Copy, PartialEq, Eq)]
pub enum Places {
    /// One place.
    One,
    /// From the first of two integers to the second.
    To,
    /// So many as the first of two integers says, from the second on.
    At,
}

/// What is done about an error.
#[derive(Clone, Copy, PartialEq, Eq)]
pub enum Response {
    /// The process ends.
    System,
    /// The process goes on.
    Ignore,
    /// The statement at the target runs.
    Statement,
}

/// What is done to an event.
#[derive(Clone, Copy, PartialEq, Eq)]
pub enum EventChange {
    Nothing,
    Signal,
    Set,
    Reset,
}
