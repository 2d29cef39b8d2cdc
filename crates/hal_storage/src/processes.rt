//! The paths of units, the names of the processes of a set of files, and the process that starts at the opening.

mod first;
mod paths;

pub use first::first_of;
pub use paths::{joined, path_of, process_names};
