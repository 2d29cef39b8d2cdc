//! What built-in functions compute of constants.

use hal_operations::{Op1, Op2};

/// What a built-in function computes.
#[derive(Clone, Copy)]
pub enum Operation {
    /// Of one argument.
    One(Op1),
    /// Of two arguments.
    Two(Op2),
    /// The size of its argument, which is no constant.
    Size,
    /// Nothing, with a list of arguments.
    Nothing,
}
