//! The rules of locks, 801 to 807, over a set of files.
#![tactic(auto)]

mod barred;
mod callees;
mod checking;
mod lockable;
mod locked;
mod passed;
mod placed;
mod rules;
mod updates;

pub use checking::check_locks;
