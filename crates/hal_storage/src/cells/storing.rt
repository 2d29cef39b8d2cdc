//! How a declaration is stored.

/// How a declaration is stored (language document, Places).
#[derive(Clone, Copy, PartialEq, Eq)]
pub enum Storing {
    /// In shared cells of this lock group, 0 for data without LOCK.
    InCells(u8),
    /// In own places.
    InPlaces,
    /// As a reference, in one own place.
    ByReference,
    /// Not at all.
    Unstored,
}
