//! The trees of HAL/S source as the program holds them. `specs/` says which tree of the grammar each of them is.
#![tactic(auto)]

mod declaration;
mod expression;
mod kept_literal;
mod leaf;
mod statement;
mod unit;

pub use declaration::{Attribute, Declaration, Declared, Initial, Mark, Part, Type};
pub use expression::{Expr, Position, Reference, SignedTerm, Sub, Subscript};
pub use kept_literal::KeptLiteral;
pub use leaf::{Conversion, Identifier, LiteralValue, Relation, Sign};
pub use statement::{
    Basic, Cycle, EventAction, EventChange, Group, Guard, Response, Schedule, Selector, Span,
    Start, Statement,
};
pub use unit::{Element, File, Head, Mode, Precision, Preface, Returns, Template, Unit};
