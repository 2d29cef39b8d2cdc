//! The sorts of expressions, and that the code that stands for an expression leaves a value of its sort.
//! `specs/` has the sorts as plain definitions over trees, and what an image has to have for them; what holds of each expression is said in `laws`.
#![tactic(auto)]

mod laws;

pub use laws::the_code_of_an_expression_fits;
