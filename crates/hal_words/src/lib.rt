//! The words of HAL/S: what a word is, and which words a file has. The definitions stand in `specs/`.
#![tactic(auto)]

mod bounded;
mod boxed_literal;
mod literal;
mod name;
mod reserved;
mod rows;
mod word;

pub use boxed_literal::BoxedLiteral;
pub use literal::Literal;
pub use name::Name;
pub use reserved::{Reserved, left_out, reserved_word};
pub use rows::{items_of_a_file, marks_that_open_no_text, pieces_of_texts, words_of_files};
pub use word::{Symbol, Token, Word};
