use hal_values::ErrNo;

/// How a process ends.
#[derive(Clone, Copy, PartialEq, Eq)]
pub enum How {
    /// Its last cycle is done.
    Closed,
    /// It was cancelled.
    Cancelled,
    /// It was terminated.
    Terminated,
    /// By this error.
    Error(ErrNo),
}

/// What a process waits for. Times are milliseconds of the clock, and an event expression is given by
/// its number.
#[derive(Clone, Copy, PartialEq, Eq)]
pub enum Status {
    /// For a SCHEDULE: it isn't active.
    Idle,
    /// For the time of its first cycle.
    Start(u64),
    /// For its first cycle, until the event expression is TRUE.
    StartOn(u32),
    /// For its turn.
    Ready,
    /// In a WAIT, for a time.
    Time(u64),
    /// In a WAIT, until the event expression is TRUE.
    Event(u32),
    /// In a WAIT, until no dependent is active.
    Dependents,
    /// For the time of its next cycle.
    Gap(u64),
    /// For its dependents, and then it has ended.
    Ending(How),
}

/// The end of a process.
#[derive(Clone, Copy, PartialEq, Eq)]
pub struct End {
    pub process: u8,
    /// The time of the clock, in milliseconds.
    pub clock: u64,
    pub how: How,
    /// How many cycles it had finished.
    pub cycles: u64,
}
