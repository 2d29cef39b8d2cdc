//! The processes of an image for the plain executive: an image as a load, and its processes as the machine runs them.
#![tactic(auto)]

mod course;
mod history;
mod load;
mod look;
mod owning;
mod procs;
mod ranges;
mod replies;
mod reserving;
mod starting;
mod tables;
mod telling;

pub use load::ImageLoad;
pub use procs::ImageProcs;
