//! When a linked image is right: its blocks are those of processes and of units that these call, and it is where their statements fit and its rows are right.
//! `specs/` says when blocks fit; what holds of such an image is said in `laws`.

mod laws;
mod texts;

pub use laws::{a_linked_image_is_right, an_image_of_blocks_that_fit_is_right};
pub use texts::{
    an_image_of_checked_texts_is_whole, files_of_checked_texts_are_accepted,
    the_words_of_texts_spell_their_files,
};
