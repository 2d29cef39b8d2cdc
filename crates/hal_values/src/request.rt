use crate::environment::ErrNo;
use crate::line::Line;
use crate::plan::{Pause, Plan};
use crate::value::{Kind, Value};

/// What is read outside UPDATE blocks.
#[derive(Clone, Copy, PartialEq, Eq)]
pub enum Spot {
    /// A shared cell.
    Cell(u16),
    /// An event.
    Event(u16),
}

/// What a process asks of the executive.
#[derive(Drop, PartialEq, Eq)]
pub enum Request {
    /// A cycle begins.
    Begin,
    /// The value of a shared cell or of an event.
    Read(Spot),
    /// The shared cell is to hold the value.
    Write(u16, Value),
    /// A turn is made.
    Pass,
    /// An UPDATE block begins, with a bit for each of its lock groups.
    Update(u16),
    /// A process is to be scheduled.
    Schedule(Plan),
    /// The process is to be cancelled.
    Cancel(u8),
    /// The process is to end with its descendants.
    Terminate(u8),
    /// A wait begins.
    Wait(Pause),
    /// The event is TRUE for a moment.
    Signal(u16),
    /// The event becomes TRUE.
    Set(u16),
    /// The event becomes FALSE.
    Reset(u16),
    /// The process is to have this priority.
    Priority(u8, u8),
    /// The line goes to the channel, 0 to 31.
    Print(u8, Line),
    /// The next datum of the channel, 0 to 31, for a receiver of this kind.
    Input(u8, Kind),
    /// The clock in seconds.
    Now,
    /// The process ends with this error.
    Stop(ErrNo),
    /// A cycle is done.
    Finish,
    /// Inside an UPDATE block alone: the value of a shared cell.
    Look(u16),
    /// Inside an UPDATE block alone: it ends after so many turns.
    Close(u16),
}
