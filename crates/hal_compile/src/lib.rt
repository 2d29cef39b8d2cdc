//! From the texts of a set's units to its image.
#![tactic(auto)]

mod compiling;
mod faults;
mod fitness;
mod lacking;
mod laws;
mod linking;
mod reading;
mod texts;

pub use faults::image_fault;
pub use laws::{a_set_has_one_meaning, a_set_with_a_meaning_breaks_nothing};
pub use texts::image_of_texts;
