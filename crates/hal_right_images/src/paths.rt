//! References with a path, to parts of structures, are for the meaning what they are for the checks, in a set that breaks no rule.
//! What holds of all sets is said in `laws`.

mod laws;

pub use laws::{kinds_of_parts_are_known, references_with_a_path_are_known};
