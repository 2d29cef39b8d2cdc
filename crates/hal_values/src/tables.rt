use crate::listing::Listing;
use crate::text::Text;
use crate::value::{Kind, Value};

/// A shared cell.
#[derive(Drop, PartialEq, Eq)]
pub struct Cell {
    pub kind: Kind,
    /// The lock group, 0 for data without LOCK.
    pub group: u8,
    pub initial: Value,
}

/// How a declared event begins.
#[derive(Clone, Copy, PartialEq, Eq)]
pub enum EventStart {
    /// It is FALSE but while it is signalled.
    Unlatched,
    /// It is latched, and has this value at first.
    Latched(bool),
}

/// An item of an event expression, which is written with its operands first.
#[derive(Clone, Copy, PartialEq, Eq)]
pub enum Item {
    /// The value of the event.
    Event(u16),
    Not,
    And,
    Or,
}

/// Where the elements of a report's name lie.
#[derive(Clone, Copy, PartialEq, Eq)]
pub enum ReportBase {
    /// Among the shared cells.
    Shared,
    /// Among the process's own places.
    Own(u8),
    /// It is an event.
    Event,
}

/// A variable or a latched event that the report shows.
#[derive(Drop)]
pub struct ReportName {
    pub name: Listing<u8>,
    pub base: ReportBase,
    /// The number of the first element, or of the event.
    pub first: u32,
    /// How many copies there are, 0 for data without copies.
    pub copies: u32,
    /// How far the next copy is.
    pub stride: u32,
    /// The sizes of the array's dimensions.
    pub dimensions: Listing<u32>,
}

/// What the executive knows of a load. Event p is the name of process p, and the declared events
/// follow.
#[derive(Drop)]
pub struct Tables {
    pub cells: Listing<Cell>,
    /// The processes' names.
    pub processes: Listing<Text>,
    /// The process that starts at the opening.
    pub first: u8,
    /// The declared events.
    pub events: Listing<EventStart>,
    pub expressions: Listing<Listing<Item>>,
    pub names: Listing<ReportName>,
}
