use crate::choice::Choice;
use crate::instr::Instr;
use crate::row::{Block, OwnPlace, Process, Run, View};
use hal_values::{Cell, EventStart, Item, Kind, Listing, ReportName};

/// The parts of an image: its tables, and its code.
#[derive(Drop)]
pub struct ImageParts {
    /// The shared cells.
    pub cells: Listing<Run<Cell>>,
    /// The declared events.
    pub events: Listing<Choice<EventStart>>,
    /// The own places that each process has.
    pub common: Listing<Run<OwnPlace>>,
    pub processes: Listing<Process>,
    /// The process that starts at the opening.
    pub first: u8,
    /// The kinds of the cells of each shape.
    pub shapes: Listing<Listing<Run<Kind>>>,
    pub views: Listing<View>,
    /// The event expressions.
    pub expressions: Listing<Listing<Item>>,
    pub blocks: Listing<Block>,
    /// The names of the report.
    pub names: Listing<ReportName>,
    pub code: Listing<Instr>,
}
