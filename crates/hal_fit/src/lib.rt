//! When statements fit, form by form, and that the code that stands for them leads from one to the next, each instruction of it right.
//! `specs/` has this as plain definitions over trees, and what an image has to have for them; what holds of them is said in `laws`.
#![tactic(auto)]

mod laws;

pub use laws::{
    a_unit_that_fits_inside_asks_nothing, the_code_of_a_process_is_right,
    the_code_of_a_unit_is_right, the_code_of_items_fits, the_code_of_receivers_fits,
    the_code_of_statements_leads_on,
};
