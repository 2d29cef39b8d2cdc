//! What is chosen of a dimension.

/// What is chosen of a dimension.
#[derive(Clone, Copy, PartialEq, Eq)]
pub struct Span {
    /// The size of the dimension.
    pub size: u16,
    /// How many places are chosen, one behind another.
    pub length: u16,
    /// Whether a dimension is left.
    pub kept: bool,
}
