//! The own places of the processes of a set of files.

mod groups;
mod owning;
mod place;
mod places;
mod sole;

pub use groups::PlacedGroups;
pub(crate) use owning::own_places;
pub use place::{OwnPlaces, Place};
pub use sole::is_sole;
