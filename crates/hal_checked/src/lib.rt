//! What is known of the texts of a set and of their files before code is made: whose files the texts are, which rules these keep, and what they are linked to. All of it is
//! definitions; what follows from them is said in `laws`.
#![tactic(auto)]

mod laws;

pub use laws::texts_are_those_of_one_list_of_files;
