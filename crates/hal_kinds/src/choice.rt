//! What a subscript chooses.

/// How many subscripts choose copies, array places and places of a component, and whether one of the first two sorts chooses several.
#[derive(Clone, Copy)]
pub struct Choice {
    pub copies: usize,
    pub places: usize,
    pub components: usize,
    pub many_copies: bool,
    pub many_places: bool,
}
