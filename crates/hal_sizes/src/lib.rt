//! Sizes that constants tell: the places of arrays, the copies and the bottom parts of structures, how many cells data have; and the rules of expressions that have
//! to be constant: 704, 710 of sizes and 718 over a set of files.
#![tactic(auto)]

mod cells;
mod constancy;
mod counts;
mod dimensions;
mod extent;
mod parts;
mod sizes;

pub use cells::{cells_of_item, cells_of_parts};
pub use constancy::inconstant;
pub use counts::{add, times};
pub use dimensions::misdimensioned;
pub use extent::Extent;
pub use parts::{bottom, extent_of_part, kind_of_part, parts_of, structure_named};
pub use sizes::{copies_of, extent_of, places_in};
