//! The phrases of a set of files in order, each with its number, what stands around it, and what it is. One walk writes the list; every check is a loop over it.
#![tactic(auto)]

mod around;
mod declarations;
mod expressions;
mod initials;
mod node;
mod parts;
mod role;
mod simple_statements;
mod statement_parts;
mod statements;
mod units;

pub use around::Around;
pub use node::{Node, Phrase};
pub use role::Role;
pub use units::phrases_of;
