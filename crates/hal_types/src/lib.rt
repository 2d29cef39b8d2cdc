//! The rules of types, 322, 323, 325 to 329 and 701 to 725, over a set of files.
#![tactic(auto)]

mod checking;
mod rules;

pub use checking::check_types;
