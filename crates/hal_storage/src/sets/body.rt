//! Bodies.

use hal_tree::Unit;

/// A unit that is entered: the number of its phrase, the unit, and the numbers of the phrases in it that are looked up: its groups, UPDATE blocks, statements of ON
/// ERROR and real-time statements, in order (language document, Units).
#[derive(Drop)]
pub struct Body<'a> {
    pub number: usize,
    pub unit: &'a Unit,
    pub marks: Vec<usize>,
}
