//! The parser of expressions: from words to the longest expression that they begin with. It is a descent through the levels of the grammar, at most as deep
//! as expressions may be nested; every list is a loop, and each word is looked at a few times a level.
#![tactic(auto)]

mod factors;
mod joint;
mod leading;
mod leaves;
mod levels;
mod lists;
mod longest;
mod macros;
mod opening;
mod positions;
mod primaries;
mod readers;
mod references;
mod subscripts;
mod sums;

pub use leading::{past, past_symbol};
pub use leaves::{integer, literal_of, name, sign};
pub use longest::{expression, readings_are_longest};
pub use readers::{read_arguments, read_expression, read_expressions, read_reference};
