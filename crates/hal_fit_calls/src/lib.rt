//! What is known of the units that are called: that what UPDATE blocks call does nothing they may not do. `specs/` says which units these are; what holds of all sets is
//! said in `laws`.
#![tactic(auto)]

mod laws;

pub use laws::what_update_blocks_call_is_harmless;
