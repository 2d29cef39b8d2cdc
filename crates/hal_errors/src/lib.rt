//! The error environments of a process, in room that is taken at once: the blocks that are entered, with their entries, and what an error meets in them.
//! Only taking room takes memory. `specs/` says what a contract sees of them.
#![tactic(auto)]

mod block;
mod entries;
mod environments;
mod found;

pub use environments::Environments;
pub use found::Found;
