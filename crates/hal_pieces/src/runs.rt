//! What a text begins with, as far as its bytes are of one class.

ghost use Rattle.std.specs.Prelude.{◌≡◌, ◌≤◌, ◌+◌, length, take_while, drop};
ghost use Rattle.std.specs.List.{prefix_len};
ghost use Rattle.hal_pieces.specs.Classes.{is_of};

use crate::bytes::{is_blank, is_digit, is_name_byte};

/// A class of bytes that stand together.
#[derive(Clone, Copy)]
pub(crate) enum Class {
    Blank,
    Digit,
    NameByte,
    /// Any byte but `'`.
    NoQuote,
    /// Any byte but `"`.
    NoMark,
}

impl Class {
    /// Whether the byte is of the class.
    fn has(self, byte: u8) -> bool
        ensures { result ≡ is_of self byte }
    {
        match self {
            Class::Blank => is_blank(byte),
            Class::Digit => is_digit(byte),
            Class::NameByte => is_name_byte(byte),
            Class::NoQuote => byte != b'\'',
            Class::NoMark => byte != b'"',
        }
    }
}

/// How many bytes of the class the text begins with.
fn run_len(class: Class, text: &[u8]) -> usize
    ensures count { result ≡ prefix_len (is_of class) text.now }
    ensures within { result ≤ length text.now }
{
    let mut rest = text;
    'run: while let [byte, more @ ..] = rest {
        if !class.has(*byte) {
            return text.len() - rest.len();
        }
        rest = more;
    }
    text.len()
}

/// The bytes of the class that the text begins with, and the rest.
pub(crate) fn front(class: Class, text: &[u8]) -> (&[u8], &[u8])
    ensures run { result.0.now ≡ take_while (is_of class) text.now }
    ensures rest { result.1.now ≡ drop (length (take_while (is_of class) text.now)) text.now }
    ensures sizes { length result.0.now + length result.1.now ≡ length text.now }
{
    text.split_at(run_len(class, text))
}
