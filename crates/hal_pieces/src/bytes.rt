//! The classes of bytes.

ghost use Rattle.std.specs.Prelude.{◌≡◌};
ghost use Rattle.hal_base.specs.Digits.{is_digit};
ghost use Rattle.hal_words.specs.Letters.{is_blank, is_capital, is_small, is_letter, is_name_byte, capital, is_plain};

/// A blank, or a tab.
pub fn is_blank(byte: u8) -> bool
    ensures { result ≡ is_blank byte }
{
    byte == b' ' || byte == b'\t'
}

fn is_capital(byte: u8) -> bool
    ensures { result ≡ is_capital byte }
{
    b'A' <= byte && byte <= b'Z'
}

fn is_small(byte: u8) -> bool
    ensures { result ≡ is_small byte }
{
    b'a' <= byte && byte <= b'z'
}

pub(crate) fn is_letter(byte: u8) -> bool
    ensures { result ≡ is_letter byte }
{
    is_capital(byte) || is_small(byte)
}

pub(crate) fn is_digit(byte: u8) -> bool
    ensures { result ≡ is_digit byte }
{
    b'0' <= byte && byte <= b'9'
}

/// A letter, a digit or the underscore.
pub(crate) fn is_name_byte(byte: u8) -> bool
    ensures { result ≡ is_name_byte byte }
{
    is_letter(byte) || is_digit(byte) || byte == b'_'
}

/// A small letter as a capital.
pub(crate) fn capital(byte: u8) -> u8
    ensures { result ≡ capital byte }
{
    if is_small(byte) { byte - 32 } else { byte }
}

/// A byte that may stand outside comments: a printing one, a blank or a tab.
pub(crate) fn is_plain(byte: u8) -> bool
    ensures { result ≡ is_plain byte }
{
    b' ' <= byte && byte <= b'~' || byte == b'\t'
}
