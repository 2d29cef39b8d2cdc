ghost use Rattle.std.specs.Prelude.{◌≡◌};
ghost use Rattle.hal_pieces.specs.Kinds.{kind_of};

use crate::bytes::{capital, is_blank};

/// What a line is, by its first byte.
#[derive(Clone, Copy, PartialEq, Eq)]
pub enum Kind {
    Comment,
    Directive,
    Main,
    /// A line of exponents or of subscripts.
    Script,
    Other,
}

/// The kind of a line.
pub fn line_kind(line: &[u8]) -> Kind
    ensures { result ≡ kind_of line.now }
{
    let [byte, ..] = line else {
        return Kind::Main;
    };
    let first = capital(*byte);
    if first == b'C' {
        Kind::Comment
    } else if first == b'D' {
        Kind::Directive
    } else if is_blank(*byte) || first == b'M' {
        Kind::Main
    } else if first == b'E' || first == b'S' {
        Kind::Script
    } else {
        Kind::Other
    }
}
