//! Rows of the machine, which the checker computes: what instructions do, and which images are right.
#![tactic(auto)]
