//! The parser of statements: from words to the statement that they begin with, and all that stands inside it.
#![tactic(auto)]

mod beginning;
mod branches;
mod conditions;
mod events;
mod groups;
mod handlers;
mod inside;
mod phrases;
mod schedules;
mod selectors;
mod simple;
mod statements;
mod updates;
mod waits;

pub use statements::read_statement;
