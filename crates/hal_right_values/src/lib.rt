//! What holds of the values of a right image's processes: all that a process holds are right values, and each instruction takes the operands that it meets.
//! `specs/` says when what a process holds is right; that it always is, is said in `laws`.
#![tactic(auto)]

mod laws;
mod ranges;

pub use laws::{
    a_right_image_keeps_its_bounds, each_instruction_of_a_right_image_finds_what_it_takes,
    each_step_of_a_right_image_holds_right_values, the_operands_of_a_right_image_fit,
    the_processes_of_a_right_image_hold_right_values,
    the_views_of_a_right_image_lead_to_small_numbers,
};
pub use ranges::is_in_range;
