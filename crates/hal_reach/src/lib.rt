//! Which blocks a set of files calls, which units reach which by calls, and the processes that reach each unit.
#![tactic(auto)]

mod call;
mod callers;
mod calls;
mod marked;
mod marks;
mod meanings;
mod numbers;
mod places;
mod programs;
mod reached;
mod recursive;
mod reentrant;
mod sorts;
mod unit;
mod units;

pub use calls::callee;
pub use meanings::meant;
pub use numbers::{processes_of, unit_numbers};
pub use places::{is_among, place_among};
pub use programs::{is_program, is_program_at};
pub use reentrant::{is_reentrant, is_reentrant_at};
pub use sorts::{is_process, is_unit};
pub use unit::{Reached, Units};
