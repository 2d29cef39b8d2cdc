//! Runs of a script on the plain executive, over any processes, and the report of the moment to which a
//! run leads.
#![tactic(auto)]

mod owners;
mod performed;
mod run;

pub use owners::Owners;
pub use performed::{Performed, play, played};
