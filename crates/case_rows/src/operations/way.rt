//! What rows are tried on, each under the name that files of rows give it.

use hal_operations::{Op1, Op2};

/// What a row is tried on.
#[derive(Clone, Copy)]
pub(crate) enum Way {
    /// An operation with one operand.
    One(Op1),
    /// An operation with two operands.
    Two(Op2),
    /// A store of a value in a cell of a kind.
    Fit,
    /// The part of a value.
    Pick,
    /// A value with a part replaced by another one.
    Patch,
    /// The number of places of a value.
    Places,
}

const WAYS: [(&str, Way); 36] = [
    ("-a", Way::One(Op1::Minus)),
    ("ABS(a)", Way::One(Op1::Abs)),
    ("SIGNUM(a)", Way::One(Op1::Signum)),
    ("ODD(a)", Way::One(Op1::Odd)),
    ("NOT a", Way::One(Op1::Not)),
    ("LENGTH(a)", Way::One(Op1::Length)),
    ("TRIM(a)", Way::One(Op1::Trim)),
    ("CHARACTER(a)", Way::One(Op1::Character)),
    ("INTEGER(a)", Way::One(Op1::Integer)),
    ("BIT(a)", Way::One(Op1::Bit)),
    ("a + b", Way::Two(Op2::Plus)),
    ("a - b", Way::Two(Op2::Minus)),
    ("a b", Way::Two(Op2::Product)),
    ("a ** b", Way::Two(Op2::Power)),
    ("DIV(a, b)", Way::Two(Op2::Div)),
    ("REMAINDER(a, b)", Way::Two(Op2::Remainder)),
    ("MOD(a, b)", Way::Two(Op2::Mod)),
    ("SHL(a, b)", Way::Two(Op2::Shl)),
    ("SHR(a, b)", Way::Two(Op2::Shr)),
    ("a AND b", Way::Two(Op2::And)),
    ("a OR b", Way::Two(Op2::Or)),
    ("XOR(a, b)", Way::Two(Op2::Xor)),
    ("a CAT b", Way::Two(Op2::Cat)),
    ("a = b", Way::Two(Op2::Equal)),
    ("a NOT = b", Way::Two(Op2::NotEqual)),
    ("a < b", Way::Two(Op2::Less)),
    ("a > b", Way::Two(Op2::Greater)),
    ("a <= b", Way::Two(Op2::LessOrEqual)),
    ("a >= b", Way::Two(Op2::GreaterOrEqual)),
    ("INDEX(a, b)", Way::Two(Op2::Index)),
    ("LJUST(a, b)", Way::Two(Op2::Ljust)),
    ("RJUST(a, b)", Way::Two(Op2::Rjust)),
    ("store", Way::Fit),
    ("component", Way::Pick),
    ("assigned component", Way::Patch),
    ("number of places", Way::Places),
];

impl Way {
    /// The way that has this name.
    pub(crate) fn named(name: &str) -> Option<Way> {
        for (named, way) in WAYS {
            if named == name {
                return Some(way);
            }
        }
        None
    }
}
