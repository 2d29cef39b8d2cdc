//! The rules of initial values: 702 and 704 of values that the cells don't take, 706 of their number, over a set of files. A CONSTANT's values are initial values too.
#![tactic(auto)]

mod falling;
mod initials;
mod laying;
mod repetition;
mod suiting;

pub use initials::{misinitialed, missigned};
