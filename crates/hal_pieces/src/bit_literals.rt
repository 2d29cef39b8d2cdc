//! Bit literals.

ghost use Rattle.std.specs.Prelude.{◌≡◌, ◌<◌, ◌≤◌, ◌+◌, ◌^◌, length, map, IfSome};
ghost use Rattle.std.specs.Option.{option_map};
ghost use Rattle.hal_words.specs.Literals.{base_of, digit_value, radix, bit_count, bits_between};
ghost use Rattle.hal_words.specs.Pieces.{bits, bits_or_wrong};
ghost use Rattle.hal_pieces.specs.Bases.{base_seen, capped_number, digits_within, decimal_within, within_capped};
ghost use Rattle.hal_pieces.specs.Seen.{seen};

use crate::bytes::is_digit;
use crate::piece::Piece;
use crate::runs::{Class, front};
use hal_base::rules::{INVALID_LITERAL, UNENDED_LITERAL_OR_COMMENT};
use hal_base::{BIT_LIMIT, Rule};
use hal_words::Word;

/// Bit strings are below this.
const BITS_LIMIT: u64 = 4_294_967_296;

/// The base of a bit literal.
#[derive(Clone, Copy)]
pub(crate) enum Base {
    Bin,
    Oct,
    Hex,
    Dec,
}

/// The base that is written so.
pub(crate) fn base_of(run: &[u8]) -> Option<Base>
    ensures { option_map base_seen result ≡ base_of run.now }
{
    match run {
        b"BIN" => Some(Base::Bin),
        b"OCT" => Some(Base::Oct),
        b"HEX" => Some(Base::Hex),
        b"DEC" => Some(Base::Dec),
        _ => None,
    }
}

/// A bit literal, behind its first quote, and its size with the `before` bytes of base and blanks.
pub(crate) fn bits<'a>(base: Base, before: usize, text: &[u8]) -> (Piece<'a>, usize)
    requires { before + length text.now < 2 ^ 63 }
    ensures what { seen result.0 ≡ (bits (base_seen base) before text.now).0 }
    ensures size { result.1 ≡ (bits (base_seen base) before text.now).1 }
{
    let (bytes, rest) = front(Class::NoQuote, text);
    match rest {
        [b'\'', ..] => (bits_or_wrong(base, bytes), before + (bytes.len() + 2)),
        _ => (
            Piece::Wrong(Rule(UNENDED_LITERAL_OR_COMMENT)),
            before + (text.len() + 1),
        ),
    }
}

/// The bit literal with these bytes between its quotes.
fn bits_or_wrong<'a>(base: Base, bytes: &[u8]) -> Piece<'a>
    ensures { seen result ≡ bits_or_wrong (bits_between (base_seen base) bytes.now) }
{
    match bits_between(base, bytes) {
        Some((len, word)) => Piece::Word(Word::Bits { len, word }),
        None => Piece::Wrong(Rule(INVALID_LITERAL)),
    }
}

/// The length and the number of a bit literal with these bytes between its quotes.
#[tactic(auto, using(crate::proofs::BitNumbers::between_none, crate::proofs::BitNumbers::between_some))]
fn bits_between(base: Base, bytes: &[u8]) -> Option<(u8, u32)>
    ensures { result ≡ bits_between (base_seen base) bytes.now }
{
    if bytes.is_empty() {
        return None;
    }
    let number = number_in(radix(base), bytes)?;
    within(base, bytes.len(), number)
}

/// The number whose values of digits a base has.
fn radix(base: Base) -> u64
    ensures value { result ≡ radix (base_seen base) }
    ensures least { 2 ≤ result }
    ensures most { result ≤ 16 }
{
    match base {
        Base::Bin => 2,
        Base::Oct => 8,
        Base::Hex => 16,
        Base::Dec => 10,
    }
}

/// The number that the digits write, or 2 to the 32nd where that is less.
fn number_in(radix: u64, bytes: &[u8]) -> Option<u64>
    requires least { 2 ≤ radix }
    requires most { radix ≤ 16 }
    ensures { result ≡ capped_number radix (map digit_value bytes.now) }
{
    let mut number = 0;
    for byte in bytes {
        let digit = digit_value(*byte);
        if radix <= digit {
            return None;
        }
        number = (number * radix + digit).min(BITS_LIMIT);
    }
    Some(number)
}

/// The value of a digit, 16 for another byte.
fn digit_value(byte: u8) -> u64
    ensures value { result ≡ digit_value byte }
    ensures small { result ≤ 16 }
{
    if is_digit(byte) {
        u64::from(byte - b'0')
    } else if b'A' <= byte && byte <= b'F' {
        u64::from(byte - 55)
    } else {
        16
    }
}

/// The length of so many digits, which write the number, where both are of a bit string.
fn within(base: Base, count: usize, number: u64) -> Option<(u8, u32)>
    ensures { result ≡ within_capped (base_seen base) count number }
{
    match base {
        Base::Bin => digits_within(1, count, number),
        Base::Oct => digits_within(3, count, number),
        Base::Hex => digits_within(4, count, number),
        Base::Dec => decimal_within(number),
    }
}

/// The length of so many digits of so many bits each.
fn digits_within(bits: usize, count: usize, number: u64) -> Option<(u8, u32)>
    ensures { result ≡ digits_within bits count number }
{
    let len = bits.saturating_mul(count);
    if len <= BIT_LIMIT as usize && number < BITS_LIMIT {
        Some((len as u8, number as u32))
    } else {
        None
    }
}

/// The length of a number without leading zeros.
fn decimal_within(number: u64) -> Option<(u8, u32)>
    ensures { result ≡ decimal_within number }
{
    if number < BITS_LIMIT {
        Some((bit_count(BIT_LIMIT, number), number as u32))
    } else {
        None
    }
}

/// How many bits a number has without leading zeros, at least one and at most one more than `most`.
fn bit_count(most: u8, number: u64) -> u8
    requires { most ≤ 32 }
    ensures count { result ≡ bit_count most number }
    ensures least { 1 ≤ result }
    ensures within { result ≤ most + 1 }
{
    if most == 0 || number < 2 {
        return 1;
    }
    bit_count(most - 1, number / 2) + 1
}
