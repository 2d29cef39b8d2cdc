//! What kind of value each name and each expression of a set of files has, as far as no constant has to be known for it: its class, its array and its copies.
#![tactic(auto)]

mod attributes;
mod called;
mod choice;
mod choosing;
mod class;
mod classes;
mod data;
mod named;
mod references;

pub use attributes::{
    constant_among, constant_of, has_mark, initial_among, initial_of, is_marked, sizes_among,
    sizes_of,
};
pub use choice::Choice;
pub use choosing::{chosen, class_in, has_copies_left, has_places_left, is_miscounted};
pub use class::Class;
pub use classes::{beside, class_of, class_of_literal, joined};
pub use data::Data;
pub use named::{
    class_of_type, component_of, data_at, data_named, is_event_type, is_parameter,
    is_structure_type, part_data,
};
pub use references::{class_of_head, class_of_name, class_of_reference, class_of_returns};
