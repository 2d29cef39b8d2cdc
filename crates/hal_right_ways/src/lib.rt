//! The way of a right image's process from one request to the next: all its instructions find what they take, so that the machine can run it.
#![tactic(auto)]

mod laws;

pub use laws::{
    no_process_uses_the_turns_of_an_answer, the_answers_of_a_right_image_fit,
    the_way_of_a_right_image_fits,
};
