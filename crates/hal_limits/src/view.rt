//! Views.

use hal_words::Name;

/// What a subscript chooses of copies, or of a dimension of an array (language document, Views).
#[derive(Clone, Copy)]
pub enum Choice {
    /// One place, whichever it may be.
    OnePlace,
    AllPlaces,
    /// Those from one to another, from 1.
    Places { first: u32, last: u32 },
}

/// What a name chooses of stored data (language document, Views).
#[derive(Drop)]
pub struct View {
    /// The number of the phrase that declares the data.
    pub declared: usize,
    /// The names that lead to a component.
    pub path: Vec<Name>,
    /// What is chosen of the copies, where there are copies.
    pub copies: Option<Choice>,
    /// What is chosen of each dimension of the component.
    pub places: Vec<Choice>,
}
