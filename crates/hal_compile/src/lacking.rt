//! What keeps a set that breaks no other rule from having an image.

use hal_base::Place;

/// What a set lacks for an image that can run.
pub(crate) enum Lacking {
    /// Code: of the phrase at this place, or of none known, at the beginning of the set.
    Code(Place),
    /// Room for its cells: its shapes have too many, or its views give too many.
    Room,
}
