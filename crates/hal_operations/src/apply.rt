//! The operations by their table.

ghost use Rattle.std.specs.Prelude.{◌≡◌, Ok};
ghost use Rattle.hal_values.specs.declared.value.Value.TheVariants as value;
ghost use Rattle.hal_operations.specs.Integers.{integer};
ghost use Rattle.hal_operations.specs.Operands.{IsString, Takes, TakesBoth};
ghost use Rattle.hal_operations.specs.Strings.{bits_of};
ghost use Rattle.hal_operations.specs.Values.{of_integer, of_string, of_text, compared, is_comparison, computed, of_integers, of_strings, of_texts, of_text_and_integer, of_integer_and_text, value_of_one, value_of_two};

use crate::conversions::{bits_text, decimal, from_two_complement, read, two_complement};
use crate::errors::RANGE_ERROR;
use crate::integers::{left_shift, modulus, power, quotient, ranged, remainder, right_shift};
use crate::operation::{Op1, Op2};
use crate::strings::{BitString, and, are_equal, joined as joined_bits, not, one_bit, or, xor};
use crate::texts::{
    index, is_before, is_width, joined, left_justified, right_justified, trimmed, width,
};
use hal_base::BIT_LIMIT;
use hal_values::{ErrNo, Text, Value};

/// An integer as a value.
fn integer(computed: Result<i32, ErrNo>) -> Result<Value, ErrNo>
    ensures { result ≡ integer computed }
{
    match computed {
        Ok(number) => Ok(Value::Int(number)),
        Err(error) => Err(error),
    }
}

/// Of an integer.
fn of_integer(op: Op1, a: i32) -> Result<Value, ErrNo>
    ensures { result ≡ of_integer op a }
{
    match op {
        Op1::Minus => integer(ranged(-i64::from(a))),
        Op1::Abs => integer(ranged(i64::from(a).abs())),
        Op1::Signum => Ok(Value::Int(a.signum())),
        Op1::Odd => Ok(one_bit(a.unsigned_abs() % 2 == 1).value()),
        Op1::Character => Ok(Value::Text(decimal(a))),
        Op1::Bit => Ok(Value::Bits {
            len: BIT_LIMIT,
            word: two_complement(a),
        }),
        _ => Ok(Value::Int(a)),
    }
}

/// Of a string of bits.
fn of_string(op: Op1, len: u8, word: u32) -> Result<Value, ErrNo>
    requires { IsString len word }
    ensures { result ≡ of_string op len word }
{
    match op {
        Op1::Not => Ok(not(len, word)),
        Op1::Character => Ok(Value::Text(bits_text(len, word))),
        Op1::Integer => Ok(Value::Int(from_two_complement(word))),
        _ => Ok(Value::Bits { len, word }),
    }
}

/// Of a text.
fn of_text(op: Op1, text: &Text) -> Result<Value, ErrNo>
    ensures { result ≡ of_text op text.now }
{
    match op {
        Op1::Length => Ok(Value::Int(text.bytes().len() as i32)),
        Op1::Trim => Ok(Value::Text(trimmed(text.bytes()))),
        Op1::Integer => read(text.bytes()),
        _ => Ok(Value::Text(text.copy())),
    }
}

/// The value of an operation with one operand, or the error that it raises: 1:1 for an integer outside
/// 32 bits, 1:5 for a text that isn't an integer of 32 bits. The table is in docs/LANGUAGE.md, "Operations".
pub fn apply1(op: Op1, a: &Value) -> Result<Value, ErrNo>
    requires { Takes op a.now }
    ensures { result ≡ value_of_one op a.now }
{
    match a {
        Value::Int(a) => of_integer(op, *a),
        Value::Bits { len, word } => of_string(op, *len, *word),
        Value::Text(text) => of_text(op, text),
    }
}

/// A comparison, where the left operand comes before the right one, or after it, or neither.
fn compared(op: Op2, before: bool, after: bool) -> bool
    ensures { result ≡ compared op before after }
{
    match op {
        Op2::Equal => !before && !after,
        Op2::NotEqual => before || after,
        Op2::Greater => after,
        Op2::LessOrEqual => !after,
        Op2::GreaterOrEqual => !before,
        _ => before,
    }
}

/// Whether the operation compares.
fn is_comparison(op: Op2) -> bool
    ensures { result ≡ is_comparison op }
{
    matches!(
        op,
        Op2::Equal
            | Op2::NotEqual
            | Op2::Less
            | Op2::Greater
            | Op2::LessOrEqual
            | Op2::GreaterOrEqual
    )
}

/// The integer that two integers give, or the error that the operation raises; of a comparison, the left operand. It makes no value,
/// which has the room of a text. The table is in docs/LANGUAGE.md, "Operations".
pub fn integer_of_two(op: Op2, a: i32, b: i32) -> Result<i32, ErrNo>
    ensures { result ≡ computed op a b }
{
    match op {
        Op2::Plus => ranged(i64::from(a) + i64::from(b)),
        Op2::Minus => ranged(i64::from(a) - i64::from(b)),
        Op2::Product => ranged(i64::from(a) * i64::from(b)),
        Op2::Power => power(a, b),
        Op2::Div => quotient(a, b),
        Op2::Remainder => remainder(a, b),
        Op2::Mod => modulus(a, b),
        Op2::Shl => left_shift(a, b),
        Op2::Shr => right_shift(a, b),
        _ => Ok(a),
    }
}

/// Of two integers. The value is made once, at the end, since a value has the room of a text.
fn of_integers(op: Op2, a: i32, b: i32) -> Result<Value, ErrNo>
    ensures { result ≡ of_integers op a b }
{
    if is_comparison(op) {
        return Ok(one_bit(compared(op, a < b, b < a)).value());
    }
    integer(integer_of_two(op, a, b))
}

/// The string of bits that two strings give, of a comparison one bit. It makes no value, which has the room of a text. The table is in
/// docs/LANGUAGE.md, "Operations".
#[tactic(auto, using(crate::proofs::BitWords::bits_string))]
pub fn string_of_two(op: Op2, m: u8, x: u32, n: u8, y: u32) -> BitString
    requires left { IsString m x }
    requires right { IsString n y }
    ensures { of_strings op (bits_of m x) (bits_of n y) ≡ Ok (value.Bits result.len result.word) }
{
    match op {
        Op2::And => and(m, x, n, y),
        Op2::Or => or(m, x, n, y),
        Op2::Xor => xor(m, x, n, y),
        Op2::Cat => joined_bits(m, x, n, y),
        Op2::Equal => one_bit(are_equal(m, x, n, y)),
        Op2::NotEqual => one_bit(!are_equal(m, x, n, y)),
        _ => BitString { len: m, word: x },
    }
}

/// Of two texts.
fn of_texts(op: Op2, x: &Text, y: &Text) -> Result<Value, ErrNo>
    ensures { result ≡ of_texts op x.now y.now }
{
    let (x, y) = (x.bytes(), y.bytes());
    match op {
        Op2::Cat => Ok(Value::Text(joined(x, y))),
        Op2::Index => Ok(Value::Int(index(x, y))),
        _ => Ok(one_bit(compared(op, is_before(x, y), is_before(y, x))).value()),
    }
}

/// Of a text and an integer.
fn of_text_and_integer(op: Op2, x: &Text, b: i32) -> Result<Value, ErrNo>
    ensures { result ≡ of_text_and_integer op x.now b }
{
    match op {
        Op2::Cat => Ok(Value::Text(joined(x.bytes(), decimal(b).bytes()))),
        Op2::Ljust | Op2::Rjust if !is_width(b) => Err(RANGE_ERROR),
        Op2::Ljust => Ok(Value::Text(left_justified(width(b), x.bytes()))),
        Op2::Rjust => Ok(Value::Text(right_justified(width(b), x.bytes()))),
        _ => Ok(Value::Text(x.copy())),
    }
}

/// Of an integer and a text.
fn of_integer_and_text(op: Op2, a: i32, y: &Text) -> Result<Value, ErrNo>
    ensures { result ≡ of_integer_and_text op a y.now }
{
    match op {
        Op2::Cat => Ok(Value::Text(joined(decimal(a).bytes(), y.bytes()))),
        _ => Ok(Value::Int(a)),
    }
}

/// The value of an operation with two operands, or the error that it raises: 1:1 for an integer outside
/// 32 bits, and for places or a length out of range; 1:2 for a division by zero. The table is in
/// docs/LANGUAGE.md, "Operations".
pub fn apply2(op: Op2, a: &Value, b: &Value) -> Result<Value, ErrNo>
    requires { TakesBoth op a.now b.now }
    ensures { result ≡ value_of_two op a.now b.now }
{
    match (a, b) {
        (Value::Int(a), Value::Int(b)) => of_integers(op, *a, *b),
        (Value::Bits { len: m, word: x }, Value::Bits { len: n, word: y }) => {
            Ok(string_of_two(op, *m, *x, *n, *y).value())
        }
        (Value::Text(x), Value::Text(y)) => of_texts(op, x, y),
        (Value::Text(x), Value::Int(b)) => of_text_and_integer(op, x, *b),
        (Value::Int(a), Value::Text(y)) => of_integer_and_text(op, *a, y),
        _ => Ok(a.copy()),
    }
}
