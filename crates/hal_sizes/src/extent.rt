//! The dimensions of an array.

/// The sizes of up to three dimensions; 0 where there is no such dimension.
#[derive(Clone, Copy, PartialEq, Eq)]
pub struct Extent {
    pub first: u16,
    pub second: u16,
    pub third: u16,
}
