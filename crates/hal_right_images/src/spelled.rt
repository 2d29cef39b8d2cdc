//! What words spell of files: right literals, no empty lists, and times within their limit. `specs/` says which words are right; that the words of a text
//! are, and what holds of the files that they spell, is said in `laws`.

mod laws;

pub use laws::{the_words_of_a_text_are_right, what_right_words_spell_is_spelled};
