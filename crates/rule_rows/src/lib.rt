//! Rows of the rules of names, types, locks, calls and templates, which the checker computes.
#![tactic(auto)]
