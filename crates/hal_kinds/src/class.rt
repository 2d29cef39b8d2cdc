//! The classes of values.

/// What kind of value an expression has, without its length and precision (language document, Kinds).
#[derive(Clone, Copy, PartialEq, Eq)]
pub enum Class {
    Integer,
    Bits,
    Text,
    /// A comparison, or what is made of some.
    Condition,
    /// A whole structure, or a part of one that has parts of its own.
    Structure,
    /// Several elements of an array, or of a component in several copies.
    Array,
}
