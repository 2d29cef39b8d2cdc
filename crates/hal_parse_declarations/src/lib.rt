//! The parser of declarations: from words to names, types, attributes and declarations.
#![tactic(auto)]

mod attribute_words;
mod attributes;
mod declarations;
mod initials;
mod items;
mod kinds;
mod names;
mod parentheses;

pub use declarations::read_declarations;
pub use kinds::kind;
pub use names::{label, labels, name_end, name_option, names_end, read_names};
pub use parentheses::enclosed_expression;
