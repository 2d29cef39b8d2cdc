//! The grammar of HAL/S: what trees are, which words spell them, and the laws that hold of it. The definitions stand in `specs/`.
#![tactic(auto)]

mod laws;
mod left_out;
mod rows;

pub use laws::{
    expression_goes_on, one_declaration, one_expression, one_statement, one_tree, one_unit,
    stands_at_its_first_word, takes_a_word,
};
pub use left_out::{
    left_out_of_declarations, left_out_of_schedules, left_out_of_statements, left_out_of_units,
};
pub use rows::{nesting_of_trees, words_of_larger_trees, words_of_trees};
