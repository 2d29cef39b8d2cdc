//! What layout and linking give an image: where the own places of declarations lie among those of a process, and that instructions which name them fit.
//! `specs/` says what a place among others is; what holds of all sets is said in `laws`.
#![tactic(auto)]

mod laws;

pub use laws::{
    a_called_unit_stands_before_those_that_call_it, an_image_has_no_more_cells_than_its_set,
    clear_instructions_name_places_that_hold_values, own_places_of_a_declaration_lie_together,
    whole_parameters_have_their_places,
};
