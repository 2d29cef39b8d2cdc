//! Where data are stored and what names lead to, module by module.
#![tactic(auto)]

pub mod cells;
pub mod elements;
pub mod event_expressions;
pub mod events;
pub mod first_values;
pub mod layout;
pub mod own_places;
pub mod processes;
pub mod referents;
mod report_names;
pub mod sets;
