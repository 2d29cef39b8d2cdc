//! The parser of files: from words to units and the whole file.
#![tactic(auto)]

mod files;
mod heading;
mod heads;
mod modes;
mod parsing;
mod returns;
mod stuck;
mod templates;
mod units;

pub use parsing::parse;
