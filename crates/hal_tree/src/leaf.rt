//! The leaves of the trees.

use hal_base::Place;
use hal_words::{Literal, Name};

/// A name where it stands.
#[derive(Clone, Copy, PartialEq, Eq)]
pub struct Identifier {
    pub place: Place,
    pub name: Name,
}

/// The sign of a term.
#[derive(Clone, Copy, PartialEq, Eq)]
pub enum Sign {
    Plus,
    Minus,
}

/// How two values are compared; the last three are `NOT =`, `NOT <`, `NOT >`.
#[derive(Clone, Copy, PartialEq, Eq)]
pub enum Relation {
    Equal,
    Less,
    Greater,
    AtMost,
    AtLeast,
    NotEqual,
    NotLess,
    NotGreater,
}

/// What a conversion makes: `INTEGER(x)`, `BIT(x)`, `CHARACTER(x)`.
#[derive(Clone, Copy, PartialEq, Eq)]
pub enum Conversion {
    Integer,
    Bit,
    Character,
}

/// A literal.
#[derive(Clone, Copy, PartialEq, Eq)]
pub enum LiteralValue {
    /// 0 to 2147483647.
    Integer(u32),
    Text(Literal),
    /// The last `len` bits of the word, 1 to 32.
    Bits { len: u8, word: u32 },
    True,
    False,
    On,
    Off,
}
