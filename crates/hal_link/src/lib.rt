//! Images of sets of files: which code each process has, and each unit that it calls, and that the image agrees with the set.
#![tactic(auto)]

mod called_views;
mod first_placed;
mod image;
mod laws;
mod linking;
mod members;
mod outlines;
mod places;
mod processes;
mod ranks;
mod rows;
mod shapes;
mod units;
mod unlinked;
mod views;

pub use image::link;
pub use laws::{
    each_block_of_a_linked_image_is_of_a_process_or_a_unit, the_image_of_a_set_agrees_with_it,
};
pub use unlinked::Unlinked;
