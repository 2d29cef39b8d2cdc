//! What a subscript of copies or of an array chooses.

/// What one subscript chooses among the copies or the places of a dimension.
#[derive(Clone, Copy, PartialEq, Eq)]
pub enum Reach {
    /// One place.
    One,
    /// So many places, one behind another.
    Many(u16),
    /// A range that isn't constant or doesn't lie inside.
    Outside,
    /// Another rule is broken.
    Unfit,
}
