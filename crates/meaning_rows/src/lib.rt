//! Rows of the meaning of sets of files, which the checker computes.
#![tactic(auto)]
