//! The operations of HAL/S expressions, the conversions of stores and the components of bit strings and texts, tried on rows. Each
//! row was worked out by hand from the words that say what the operation gives, and names the operands, the outcome, and where that is
//! an error the value that stands in its place after it was ignored. `way` says what rows are tried on, and `reader` how they write values.

mod operands;
mod reader;
mod trial;
mod way;
mod writer;

pub(crate) use trial::ValueRows;
