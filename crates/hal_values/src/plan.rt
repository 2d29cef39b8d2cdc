//! What a SCHEDULE asks for, and what a WAIT waits for. Times are in milliseconds, and an event
//! expression is given by its number.

/// When a process starts.
#[derive(Clone, Copy, PartialEq, Eq)]
pub enum When {
    Now,
    /// At this time of the clock.
    At(i64),
    /// So long after now.
    After(i64),
    /// Once the event expression is TRUE.
    On(u32),
}

/// How a process goes on after a cycle.
#[derive(Clone, Copy, PartialEq, Eq)]
pub enum Cycle {
    Once,
    /// The next cycle begins at once.
    Again,
    /// The next cycle begins so long after the beginning of this one.
    Every(u64),
    /// The next cycle begins so long after the end of this one.
    After(u64),
}

/// What cancels a process.
#[derive(Clone, Copy, PartialEq, Eq)]
pub enum Guard {
    Free,
    /// The event expression is FALSE.
    While(u32),
    /// The process has started, and the event expression is TRUE.
    Until(u32),
    /// The process has started, and the clock has come to this time.
    UntilTime(i64),
}

/// What a SCHEDULE asks for.
#[derive(Clone, Copy, PartialEq, Eq)]
pub struct Plan {
    pub process: u8,
    pub when: When,
    pub priority: u8,
    pub dependent: bool,
    pub cycle: Cycle,
    pub guard: Guard,
}

/// What a WAIT waits for.
#[derive(Clone, Copy, PartialEq, Eq)]
pub enum Pause {
    /// So long from now on.
    For(i64),
    /// Until this time of the clock.
    Till(i64),
    /// Until the event expression is TRUE.
    Event(u32),
    /// Until no dependent is active.
    Dependents,
}
