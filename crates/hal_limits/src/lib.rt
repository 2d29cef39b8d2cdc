//! The limits of a set of files: how many cells it has and its views reach, how many processes and how many declared events.
#![tactic(auto)]

mod cells;
mod choices;
mod components;
mod equality;
mod laws;
mod limits;
mod own;
mod reached;
mod shapes;
mod sizes;
mod view;
mod views;

pub use laws::a_set_within_its_limits_has_room;
pub use limits::check_limits;
