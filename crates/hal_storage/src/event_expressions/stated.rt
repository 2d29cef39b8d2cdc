//! Event expressions.

use hal_values::Item;

/// An event expression.
#[derive(Drop)]
pub struct Stated {
    /// The number of the phrase of the statement in which it stands.
    pub statement: usize,
    /// Its items, operands first.
    pub items: Vec<Item>,
}
