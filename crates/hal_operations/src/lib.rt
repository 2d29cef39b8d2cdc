//! The operations of HAL/S expressions, the conversions of stores, and the components of bit strings
//! and texts: the value of each, the error that it raises, and the value after an ignored error.
//! `specs/` has them as a table, by whole numbers and lists. None takes memory.
#![tactic(auto)]

mod apply;
mod conversions;
mod errors;
mod integers;
mod laws;
mod mend;
mod operation;
mod part;
mod parts;
mod stores;
mod strings;
mod texts;

pub use apply::{apply1, apply2, integer_of_two, string_of_two};
pub use laws::{
    a_replaced_part_is_chosen, bits_come_back, bitwise_operations_are_symmetric,
    comparisons_order_texts, divisions_fit_together, shifts_come_back,
};
pub use mend::{mend1, mend2};
pub use operation::{Op1, Op2};
pub use part::Part;
pub use parts::{mend_patch, mend_pick, patch, pick, place_count};
pub use stores::{fit, mend_fit};
pub use strings::{BitString, fit_string};
pub use texts::index;
