//! Copies of trees: what is seen of a copy is what is seen of the tree. A copy takes memory, and gives an error where there is none.
#![tactic(auto)]

mod declarations;
mod expressions;
mod parts;
mod simple_statements;
mod statement_parts;
mod statements;
mod units;

pub use declarations::{copy_attributes, copy_declaration, copy_declarations, copy_type};
pub use expressions::{
    copy_expression, copy_expressions, copy_names, copy_optional, copy_reference, copy_references,
};
pub use statements::{copy_statement, copy_statements};
pub use units::{copy_file, copy_head, copy_template, copy_unit};
