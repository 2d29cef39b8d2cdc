//! A set of files as code is made of it: its names, constants, layout, and the units that are entered.

mod bodies;
mod body;
mod marks;
mod set;
mod units;

pub use bodies::bodies_of;
pub use body::Body;
pub use set::Set;
