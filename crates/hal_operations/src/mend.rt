//! The operations after an ignored error.

ghost use Rattle.std.specs.Prelude.{◌≡◌};
ghost use Rattle.hal_operations.specs.Operands.{Takes, TakesBoth};
ghost use Rattle.hal_operations.specs.Mended.{stand_in_of_one, stand_in_of_integers, stand_in_of_text, stand_in_of_two, mended_of_one, mended_of_two};

use crate::apply::{apply1, apply2};
use crate::integers::{halved, mended_left_shift, mended_power, mended_quotient, nearest};
use crate::operation::{Op1, Op2};
use crate::texts::{left_justified, right_justified, width};
use hal_values::{Text, Value};

/// What stands in place of the value of one operand.
fn stand_in_of_one(op: Op1, a: &Value) -> Value
    ensures { result ≡ stand_in_of_one op a.now }
{
    match (op, a) {
        (Op1::Minus, Value::Int(a)) => Value::Int(nearest(-i64::from(*a))),
        (Op1::Abs, Value::Int(a)) => Value::Int(nearest(i64::from(*a).abs())),
        (Op1::Integer, Value::Text(_)) => Value::Int(0),
        _ => a.copy(),
    }
}

/// The value of an operation with one operand, after an ignored error: the nearest bound for 1:1, 0 for
/// 1:5. See docs/LANGUAGE.md, "Operations".
pub fn mend1(op: Op1, a: &Value) -> Value
    requires { Takes op a.now }
    ensures { result ≡ mended_of_one op a.now }
{
    match apply1(op, a) {
        Ok(value) => value,
        Err(_) => stand_in_of_one(op, a),
    }
}

/// What stands in place of the value of two integers.
fn stand_in_of_integers(op: Op2, a: i32, b: i32) -> Value
    ensures { result ≡ stand_in_of_integers op a b }
{
    match op {
        Op2::Plus => Value::Int(nearest(i64::from(a) + i64::from(b))),
        Op2::Minus => Value::Int(nearest(i64::from(a) - i64::from(b))),
        Op2::Product => Value::Int(nearest(i64::from(a) * i64::from(b))),
        Op2::Power => Value::Int(mended_power(a, b)),
        Op2::Div => Value::Int(mended_quotient(a, b)),
        Op2::Remainder | Op2::Mod => Value::Int(0),
        Op2::Shl => Value::Int(mended_left_shift(a, b)),
        Op2::Shr => Value::Int(halved(a, b)),
        _ => Value::Int(a),
    }
}

/// What stands in place of a justified text.
fn stand_in_of_text(op: Op2, x: &Text, b: i32) -> Value
    ensures { result ≡ stand_in_of_text op x.now b }
{
    match op {
        Op2::Ljust => Value::Text(left_justified(width(b), x.bytes())),
        Op2::Rjust => Value::Text(right_justified(width(b), x.bytes())),
        _ => Value::Text(x.copy()),
    }
}

/// What stands in place of the value of two operands.
fn stand_in_of_two(op: Op2, a: &Value, b: &Value) -> Value
    ensures { result ≡ stand_in_of_two op a.now b.now }
{
    match (a, b) {
        (Value::Int(a), Value::Int(b)) => stand_in_of_integers(op, *a, *b),
        (Value::Text(x), Value::Int(b)) => stand_in_of_text(op, x, *b),
        _ => a.copy(),
    }
}

/// The value of an operation with two operands, after an ignored error: the nearest places or length and
/// then the nearest bound for 1:1, 0 for 1:2. See docs/LANGUAGE.md, "Operations".
pub fn mend2(op: Op2, a: &Value, b: &Value) -> Value
    requires { TakesBoth op a.now b.now }
    ensures { result ≡ mended_of_two op a.now b.now }
{
    match apply2(op, a, b) {
        Ok(value) => value,
        Err(_) => stand_in_of_two(op, a, b),
    }
}
