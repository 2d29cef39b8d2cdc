//! Layouts.

use crate::event_expressions::Stated;
use crate::own_places::OwnPlaces;
use hal_values::{Cell, EventStart, ReportName};

/// The layout of a set of files.
#[derive(Drop)]
pub struct Layout {
    /// The shared cells, in order.
    pub cells: Vec<Cell>,
    /// The own places of the processes.
    pub own: OwnPlaces,
    /// The names of the processes, in order, in bytes.
    pub processes: Vec<Vec<u8>>,
    /// The process that starts at the opening, from 0.
    pub first: usize,
    /// How the declared events begin, in order.
    pub events: Vec<EventStart>,
    /// The event expressions, in the order in which they stand.
    pub expressions: Vec<Stated>,
    /// The names that the report shows, in the order of the declarations.
    pub names: Vec<ReportName>,
}
