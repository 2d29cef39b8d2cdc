//! What names refer to in a set of files, as far as code goes by it.

mod cells;
mod declaring;
mod meaning;
mod referent;

pub use cells::FirstCells;
pub use declaring::referents_of;
pub use meaning::referent_in;
pub use referent::{Meant, Referent};
