//! What trees and code say of a running process in the same words: where data lie and what a process keeps, how shared data are reached, values that
//! are made to be of a kind, lines of WRITE, and times. All of it stands in `specs/`; two laws of it are said here.
#![tactic(auto)]

mod laws;

pub use laws::{a_made_time_is_within_the_limit, a_made_value_is_of_its_kind};
