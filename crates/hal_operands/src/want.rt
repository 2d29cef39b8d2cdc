//! What is wanted of operands.

/// What is wanted of an operand.
#[derive(Clone, Copy, PartialEq, Eq)]
pub enum Want {
    Integer,
    Bits,
    Text,
    /// Bits or a text.
    String,
    /// Bits or a condition.
    Truth,
    /// An integer, bits or a text.
    Value,
    /// One of these or a condition.
    Single,
    /// Another rule says what.
    Anything,
}
