//! What a constant expression comes to.

use hal_values::Value;

/// What an expression comes to where a constant is wanted.
#[derive(Drop)]
pub enum Constant {
    /// A value.
    Worth(Value),
    /// An error.
    Failed,
    /// It is no constant expression.
    Open,
    /// Another rule is broken: an operand is wrong, or a name unknown.
    Unfit,
}
