//! Numbers: digits, with one point or without.

ghost use Rattle.std.specs.Prelude.{◌≡◌, ◌<◌, ◌+◌, ◌-◌, ◌^◌, length, min, IfSome};
ghost use Rattle.hal_words.specs.Numbers.{written, begins, begins_number, front_digits, after_digits, number_size};
ghost use Rattle.hal_words.specs.Pieces.{number_piece};
ghost use Rattle.hal_pieces.specs.NumberParts.{values, is_followed, integer_piece, fraction_value, decimal_piece};
ghost use Rattle.hal_pieces.specs.Seen.{seen};

use crate::bytes::{is_digit, is_letter};
use crate::piece::Piece;
use crate::runs::{Class, front};
use hal_base::Rule;
use hal_base::rules::{INVALID_LITERAL, LETTER_BEHIND_NUMBER};
use hal_words::Word;

/// Numbers are below this before their point.
const NUMBER_LIMIT: u64 = 2_147_483_648;

/// The text begins with a digit, or with a point directly followed by one.
pub(crate) fn begins_number(text: &[u8]) -> bool
    ensures { result ≡ begins_number text.now }
{
    match text {
        [b'.', digit, ..] => is_digit(*digit),
        [digit, ..] => is_digit(*digit),
        [] => false,
    }
}

/// The number that a text begins with, and its size.
pub(crate) fn number(text: &[u8]) -> (Piece<'_>, usize)
    ensures what { seen result.0 ≡ number_piece text.now }
    ensures size { result.1 ≡ number_size text.now }
{
    let (whole, after) = digits(text);
    match after {
        [b'.', after @ ..] => {
            let (fraction, rest) = digits(after);
            (
                decimal(whole, fraction, rest),
                whole.len() + 1 + fraction.len(),
            )
        }
        _ => (integer(whole, after), whole.len()),
    }
}

/// The digits that a text begins with, and the rest.
fn digits(text: &[u8]) -> (&[u8], &[u8])
    ensures digits { values result.0.now ≡ front_digits text.now }
    ensures count { length result.0.now ≡ length (front_digits text.now) }
    ensures rest { result.1.now ≡ after_digits text.now }
    ensures sizes { length result.0.now + length result.1.now ≡ length text.now }
{
    front(Class::Digit, text)
}

/// What digits with no point are.
fn integer<'a>(whole: &[u8], rest: &[u8]) -> Piece<'a>
    ensures { seen result ≡ integer_piece whole.now rest.now }
{
    if is_followed(rest) {
        return Piece::Wrong(Rule(LETTER_BEHIND_NUMBER));
    }
    let number = capped_value(whole);
    if number < NUMBER_LIMIT {
        Piece::Word(Word::Integer(number as u32))
    } else {
        Piece::Wrong(Rule(INVALID_LITERAL))
    }
}

/// What digits with a point are.
fn decimal<'a>(whole: &[u8], fraction: &[u8], rest: &[u8]) -> Piece<'a>
    ensures { seen result ≡ decimal_piece whole.now fraction.now rest.now }
{
    if is_followed(rest) {
        return Piece::Wrong(Rule(LETTER_BEHIND_NUMBER));
    }
    let number = capped_value(whole);
    match fraction_value(fraction) {
        Some(thousandths) if number < NUMBER_LIMIT => {
            Piece::Word(Word::Decimal(number * 1000 + thousandths))
        }
        _ => Piece::Wrong(Rule(INVALID_LITERAL)),
    }
}

/// A letter or an underscore follows the number directly.
fn is_followed(rest: &[u8]) -> bool
    ensures { result ≡ is_followed rest.now }
{
    match rest {
        [byte, ..] => is_letter(*byte) || *byte == b'_',
        [] => false,
    }
}

/// The number that the digits write, or the limit where that is less: so it fits, however many they are.
fn capped_value(digits: &[u8]) -> u64
    ensures { result ≡ min (written 10 (values digits.now)) NUMBER_LIMIT }
{
    let mut number: u64 = 0;
    for digit in digits {
        number = (number * 10 + value(*digit)).min(NUMBER_LIMIT);
    }
    number
}

/// The value of a digit.
fn value(digit: u8) -> u64
    ensures value { result ≡ digit - 48 }
    ensures small { result < 256 }
{
    u64::from(digit.saturating_sub(b'0'))
}

/// The digits after a point in thousandths, where there are at most three.
fn fraction_value(digits: &[u8]) -> Option<u64>
    ensures value { result ≡ fraction_value digits.now }
    ensures small { IfSome result (λ thousandths. thousandths < 2 ^ 32) }
{
    match digits {
        [] => Some(0),
        [tenth] => Some(value(*tenth) * 100),
        [tenth, hundredth] => Some((value(*tenth) * 10 + value(*hundredth)) * 10),
        [tenth, hundredth, last] => {
            Some((value(*tenth) * 10 + value(*hundredth)) * 10 + value(*last))
        }
        _ => None,
    }
}
