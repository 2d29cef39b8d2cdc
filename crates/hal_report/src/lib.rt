//! The report of a plain executive's moment, byte by byte, and how a text is put into a sink.
#![tactic(auto)]

mod draining;
mod elements;
mod report;
mod values;

pub use draining::drain;
pub use elements::{Shown, elements_of};
pub use report::report_text;
