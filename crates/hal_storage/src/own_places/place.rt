//! Own places.

use hal_values::{Kind, Value};

/// An own place of a process (language document, Places).
#[derive(Drop)]
pub struct Place {
    /// The number of the phrase that it belongs to: a declaration's or a group's.
    pub owner: usize,
    /// The kind of what it holds; a reference has none.
    pub kind: Option<Kind>,
    /// What it holds at first.
    pub initial: Value,
    /// Whether it holds that again whenever its block is entered.
    pub automatic: bool,
}

/// The own places of the processes of a set of files: first the common ones, which each process has, and then its others, process by process.
#[derive(Drop)]
pub struct OwnPlaces {
    /// Those of the blocks that several processes reach.
    pub common: Vec<Place>,
    /// For each process those of the blocks that it alone reaches.
    pub processes: Vec<Vec<Place>>,
}
