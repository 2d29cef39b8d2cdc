//! The components of data.

use hal_values::Kind;
use hal_words::Name;

/// A component that has no parts of its own. Data that are no structure are one component.
#[derive(Drop)]
pub struct Component {
    /// The names of the parts that lead to it, the outermost first.
    pub path: Vec<Name>,
    pub kind: Kind,
    /// The sizes of its dimensions, in places.
    pub sizes: Vec<u16>,
}

/// How many copies data have, where they have copies, and the components of one copy.
#[derive(Drop)]
pub struct Shape {
    pub copies: Option<u16>,
    pub components: Vec<Component>,
}
