//! The top call: words, files, script, units and images come in, and a report, an image or one line of refusal goes out.
#![tactic(auto)]

mod fetch;
mod outcome;
mod perform;
mod prepare;
mod refuse;
mod refused;
mod tasks;
mod top;
mod words;

pub use outcome::Outcome;
pub use top::hal;
