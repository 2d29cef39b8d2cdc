//! Constant expressions: what the checks know of one is what it comes to wherever it stands. `specs/` says when the names in it are for the meaning what they are for the
//! checks; what holds of them is said in `laws`.
#![tactic(auto)]

mod laws;

pub use laws::what_the_checks_know_is_constant;
