//! Integers as texts and as bits, and back.

ghost use Rattle.std.specs.Prelude.{◌≡◌};
ghost use Rattle.std.specs.Fmt.{signed_decimal};
ghost use Rattle.hal_values.specs.BitTexts.{bits_text};
ghost use Rattle.hal_operations.specs.Integers.{two_complement, from_two_complement};
ghost use Rattle.hal_operations.specs.Operands.{IsString};
ghost use Rattle.hal_operations.specs.Texts.{integer_of, read};

use crate::errors::NO_INTEGER;
use hal_values::{ErrNo, Text, Value};
use itoa::Buffer;

/// The decimal text of an integer.
pub(crate) fn decimal(number: i32) -> Text
    ensures { result ≡ signed_decimal number }
{
    let mut buffer = Buffer::new();
    let mut text = Text::new();
    text.extend(buffer.format(number).as_bytes());
    text
}

/// The bits as 0 and 1.
pub(crate) fn bits_text(len: u8, word: u32) -> Text
    requires { IsString len word }
    ensures { result ≡ bits_text len word }
{
    let mut text = Text::new();
    let mut rest = len;
    'bits: while 0 < rest {
        rest -= 1;
        text.push(b'0' + ((word >> rest) % 2) as u8);
    }
    text
}

/// The integer that a text writes.
pub(crate) fn read(text: &[u8]) -> Result<Value, ErrNo>
    ensures { result ≡ read (integer_of text.now) }
{
    let Ok(text) = str::from_utf8(text) else {
        return Err(NO_INTEGER);
    };
    match text.parse::<i32>() {
        Ok(number) => Ok(Value::Int(number)),
        Err(_) => Err(NO_INTEGER),
    }
}

/// What stands for an integer in 32 bits.
pub(crate) fn two_complement(number: i32) -> u32
    ensures { result ≡ two_complement number }
{
    number.cast_unsigned()
}

/// The integer that a word stands for.
pub(crate) fn from_two_complement(word: u32) -> i32
    ensures { result ≡ from_two_complement word }
{
    word.cast_signed()
}
