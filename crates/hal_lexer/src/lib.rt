//! The words of a file: its items with REPLACE applied, each of them a word, and few enough.
#![tactic(auto)]

mod child;
mod comes;
mod compiled;
mod compiling;
mod cut;
mod definitions;
mod file;
mod file_words;
mod frames;
mod fronts;
mod given_walk;
mod laws;
mod number_list;
mod order;
mod plan;
mod replacing;
mod summary;
mod temporaries;
mod text;
mod text_words;
mod token_list;
mod walk;
mod writing;

pub use file::tokens;
pub use laws::a_text_with_words_breaks_nothing;
pub use token_list::Tokens;
