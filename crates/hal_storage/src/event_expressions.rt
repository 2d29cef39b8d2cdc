//! The event expressions of a set of files.

mod numbers;
mod postfix;
mod stated;
mod statements;

pub use numbers::{event_named, event_of};
pub use stated::Stated;
pub use statements::stated_of;
