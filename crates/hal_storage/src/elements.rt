//! The elements of data in the order of storage: the components that data have, their kinds and sizes, how many elements they have, and the kinds of all elements.

mod component;
mod counts;
mod kinds;
mod shapes;
mod sizes;
mod structures;

pub use component::{Component, Shape};
pub use counts::{copy_size, count};
pub use kinds::kinds_of;
pub use shapes::shape_of;
