//! Code that fits: what control goes through from one instruction to another finds its operands on the stack, and so is right.
//! `specs/` says what that is, for code of any kind; what follows from it is said in `laws`.
#![tactic(auto)]

mod laws;

pub use laws::{an_image_is_right_where_its_instructions_are, code_that_fits_is_right};
