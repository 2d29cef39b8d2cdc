/// What may become of a row by itself, in the order in which it is tried.
#[derive(Clone, Copy)]
pub enum Change {
    /// Its guard asks for a cancel.
    Cancels,
    /// It is cancelled, and no cycle has begun.
    Drops,
    /// It has ended, and no dependent is active.
    Leaves,
    /// Its wait is over.
    Readies,
}
