//! That the meaning of a set, which goes through the trees, looks names up where their phrases stand.
#![tactic(auto)]

mod laws;

pub use laws::{statements_look_names_up_where_they_stand, units_look_names_up_where_they_stand};
