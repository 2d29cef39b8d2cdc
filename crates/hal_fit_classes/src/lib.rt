//! The rules of kinds and the sorts of operands: an expression whose operands break no rule has the sort of its class.
//! `specs/` says when operands break none, over trees; what follows from it is said in `laws`.
#![tactic(auto)]

mod laws;

pub use laws::an_expression_of_a_class_has_its_sort;
