//! What the rules of names say of the parts of structures: a path that leads to a part at the bottom chooses the one component that it is.
//! What holds of all sets is said in `laws`.
#![tactic(auto)]

mod laws;

pub use laws::{
    a_part_at_the_bottom_is_what_its_component_is, a_path_to_a_bottom_part_chooses_its_component,
};
