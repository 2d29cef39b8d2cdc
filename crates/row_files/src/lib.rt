//! Files of rows. A row is a line that says what something is to give for some text, and a program of rows writes each row anew from
//! what it really gives: a row is kept where that is the row itself. `line` says what else stands in such a file, and `notation` how
//! a row writes bytes.
#![tactic(auto)]

mod line;
mod notation;
mod rows;
mod tally;

pub use notation::{bytes_of, notation_of};
pub use rows::{Rows, try_file, try_files};
pub use tally::Tally;
