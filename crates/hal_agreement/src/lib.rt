//! Code that stands for a set of files: which instructions stand where for each phrase, and that a process of such an image asks what the process of the
//! set asks.
#![tactic(auto)]

mod laws;

pub use laws::code_that_stands_for_a_set_agrees_with_it;
