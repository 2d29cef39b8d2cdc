//! What the views are for that the code of an image names.
//! What holds of all images is said in `laws`.

mod laws;

pub use laws::{
    names_of_parts_lead_to_components, the_blocks_of_a_process_name_views_for_its_phrases,
    views_lie_where_all_that_they_are_for_does, views_lie_where_what_is_left_of_data_holds,
};
