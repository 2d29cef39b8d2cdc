//! What the rules of a set give its image: which units call themselves, what of a set is small, and which rows of the image's tables are right.
//! What holds of all sets is said in `laws`.

mod laws;

pub use laws::{
    a_set_that_breaks_no_rule_of_calls_has_no_cycles, a_set_within_its_limits_is_small,
    each_view_of_a_set_has_a_purpose, each_view_of_an_image_has_a_cell,
    elements_of_items_lie_in_own_places, elements_of_items_lie_in_shared_cells,
    input_parameters_lie_in_own_places, parameters_of_units_are_stored,
    phrases_stand_in_blocks_of_their_units, references_of_processes_are_to_shapes,
    the_names_of_an_image_are_right, the_shapes_of_an_image_are_right,
    units_reach_what_stands_around_those_that_they_reach, views_of_an_image_are_formed,
};
