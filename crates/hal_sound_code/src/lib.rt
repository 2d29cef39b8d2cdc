//! What holds of the code of a right image: no process ever stands before an instruction that doesn't fit its operands.
//! `specs/` says when what the machine holds fits its image; that it always does is said in `laws`.
#![tactic(auto)]

mod laws;

pub use laws::{
    a_right_image_calls_downwards, a_right_image_is_never_stuck, each_step_of_a_right_image_fits,
    entries_have_room, operands_have_room, the_stack_of_a_right_image_has_its_sorts,
};
