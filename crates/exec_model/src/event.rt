use hal_values::Listing;

/// What the executive does at once. Processes are given by their numbers.
#[derive(Clone, Copy, PartialEq, Eq)]
pub enum Event {
    /// A request of the process is answered.
    Act(u8),
    /// The process's UPDATE block begins.
    Open(u8),
    /// The process's UPDATE block is done, after so many turns.
    Block(u8, u16),
    /// The clock goes on by so many milliseconds.
    Tick(u64),
    /// The process gives way to others of its priority.
    Preempt(u8),
}

/// The events of a run in order.
pub type Journal = Listing<Event>;
