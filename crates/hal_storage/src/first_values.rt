//! What elements of data hold at first.

mod filling;
mod given;
mod holding;

pub use filling::first_values;
pub use holding::{held, nothing};
