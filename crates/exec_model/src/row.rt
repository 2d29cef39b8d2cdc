use crate::status::Status;
use hal_values::{Cycle, Guard};

/// What the executive keeps of a process.
#[derive(Clone, Copy, PartialEq, Eq)]
pub struct Row {
    pub status: Status,
    /// 0 to 255, and the greater goes first.
    pub priority: u8,
    /// When it became Ready, among those of its priority.
    pub stamp: u64,
    /// The process whose dependent it is.
    pub father: Option<u8>,
    pub cycle: Cycle,
    pub guard: Guard,
    /// A cycle has begun.
    pub begun: bool,
    /// Its first cycle has begun.
    pub started: bool,
    /// It is to end before its next cycle.
    pub cancelled: bool,
    /// It is to end after its UPDATE block.
    pub doomed: bool,
    /// It is inside an UPDATE block.
    pub inside: bool,
    /// The time from which its cycle counts, in milliseconds of the clock.
    pub start: u64,
    /// How many cycles it has finished.
    pub cycles: u64,
}
