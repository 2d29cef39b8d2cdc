//! Where data are stored, and the shared cells of a set of files.

mod cells;
mod groups;
mod sharing;
mod storing;
mod storings;

pub use cells::{cells_of, push_cells_at};
pub use storing::Storing;
pub use storings::{is_in_unit, parameter, storing_of};
