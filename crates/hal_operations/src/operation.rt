//! The operations of expressions, in the order of their codes.

/// An operation with one operand.
#[derive(Clone, Copy, PartialEq, Eq)]
pub enum Op1 {
    Minus,
    Abs,
    Signum,
    Odd,
    Not,
    Length,
    Trim,
    Character,
    Integer,
    Bit,
}

/// An operation with two operands.
#[derive(Clone, Copy, PartialEq, Eq)]
pub enum Op2 {
    Plus,
    Minus,
    Product,
    Power,
    Div,
    Remainder,
    Mod,
    Shl,
    Shr,
    And,
    Or,
    Xor,
    Cat,
    Equal,
    NotEqual,
    Less,
    Greater,
    LessOrEqual,
    GreaterOrEqual,
    Index,
    Ljust,
    Rjust,
}
