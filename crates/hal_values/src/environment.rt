//! Errors, and the entries by which blocks answer them.

/// The group and the number of an error, each 1 to 255.
#[derive(Clone, Copy, PartialEq, Eq)]
pub struct ErrNo {
    pub group: u8,
    pub number: u8,
}

/// The errors that an entry is for.
#[derive(Clone, Copy, PartialEq, Eq)]
pub enum Selector {
    All,
    Group(u8),
    One(ErrNo),
}

/// The event statement that is done before the entry takes effect.
#[derive(Clone, Copy, PartialEq, Eq)]
pub enum Side {
    Nothing,
    Signal(u16),
    Set(u16),
    Reset(u16),
}

/// What is done about an error.
#[derive(Clone, Copy, PartialEq, Eq)]
pub enum Act {
    /// The process ends with the error.
    System(Side),
    /// The process goes on.
    Ignore(Side),
    /// The statement at this address runs.
    Statement(u64),
}

/// An entry of a block.
#[derive(Clone, Copy, PartialEq, Eq)]
pub struct Entry {
    pub selector: Selector,
    pub act: Act,
}

/// What a search for an error's entry finds.
#[derive(Clone, Copy, PartialEq, Eq)]
pub struct Action {
    pub act: Act,
    /// The place, from 0, of the entered block whose entry it is; 0 without an entry.
    pub block: usize,
}
