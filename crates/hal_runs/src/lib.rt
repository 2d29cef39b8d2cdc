//! Rows of an image's tables in runs, where equal neighbours are one run.
#![tactic(auto)]

mod joining;
mod row;

pub use joining::push_run;
pub use row::{Row, is_same_value};
