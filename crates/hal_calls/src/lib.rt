//! The rules of calls, 901 to 905, over a set of files.
#![tactic(auto)]

mod blocks;
mod checking;
mod contended;
mod placed;
mod programs;
mod rules;

pub use checking::{check_calls, check_program};
