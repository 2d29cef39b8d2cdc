//! Data.

use crate::class::Class;

/// What kind of data a name is, before subscripts.
#[derive(Clone, Copy)]
pub struct Data {
    /// That of one element.
    pub class: Class,
    /// How many dimensions its array has; 0 where it is none.
    pub dimensions: usize,
    /// Whether it is, or is a part of, a structure that has copies.
    pub copies: bool,
}
