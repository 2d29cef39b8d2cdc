//! The views of a set, which are what references choose of its data, and how many cells it has and its views reach.
#![tactic(auto)]

mod laws;

pub use laws::{a_set_with_room_has_few_cells, views_are_those_of_phrases};
