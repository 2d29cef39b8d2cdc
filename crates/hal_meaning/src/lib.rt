//! What the source of a set of files means: where its data are stored, and what its processes ask for after the answers that they got.
//! The definitions are in `specs/`; what holds of each set is said in `laws`.
#![tactic(auto)]

mod laws;

pub use laws::{a_set_is_a_load, bits_become_a_condition};
