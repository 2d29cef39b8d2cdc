//! The layout of a set of files: what code and linking take of its storage, processes, events and report names.

mod laws;
mod laying;
mod layout;
mod tables;

pub use laws::tables_are_those_of_the_set;
pub use laying::layout_of;
pub use layout::Layout;
pub use tables::{items_of, tables_of};
