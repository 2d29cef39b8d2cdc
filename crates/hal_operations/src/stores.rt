//! The conversions of stores.

ghost use Rattle.std.specs.Prelude.{◌≡◌, ◌≤◌};
ghost use Rattle.hal_operations.specs.Operands.{IsStorable};
ghost use Rattle.hal_operations.specs.Integers.{single, integer, ranged, nearest};
ghost use Rattle.hal_operations.specs.Stores.{stored_integer, stored, nearest_single, mended_store};

use crate::conversions::decimal;
use crate::errors::RANGE_ERROR;
use crate::strings::fit_string;
use crate::texts::front;
use hal_values::{ErrNo, Kind, Value};

/// An integer in a SINGLE, or the error of one that it can't hold.
fn single(a: i32) -> Result<Value, ErrNo>
    ensures { result ≡ integer (ranged single a) }
{
    match i16::try_from(a) {
        Ok(_) => Ok(Value::Int(a)),
        Err(_) => Err(RANGE_ERROR),
    }
}

/// An integer in a cell.
fn stored_integer(kind: Kind, a: i32) -> Result<Value, ErrNo>
    ensures { result ≡ stored_integer kind a }
{
    match kind {
        Kind::Single => single(a),
        Kind::Double | Kind::Bits(_) => Ok(Value::Int(a)),
        Kind::Text(n) => Ok(Value::Text(front(n, decimal(a).bytes()))),
    }
}

/// What a cell of the kind holds after a store, or error 1:1 for an integer that a SINGLE can't hold: bits
/// keep their last `n`, texts their first `n` bytes. See docs/LANGUAGE.md, "Operations", on stores.
pub fn fit(kind: Kind, a: &Value) -> Result<Value, ErrNo>
    requires { IsStorable kind a.now }
    ensures { result ≡ stored kind a.now }
{
    match (kind, a) {
        (kind, Value::Int(a)) => stored_integer(kind, *a),
        (Kind::Bits(n), Value::Bits { len, word }) => Ok(Value::Bits {
            len: n,
            word: fit_string(n, *len, *word),
        }),
        (Kind::Text(n), Value::Text(text)) => Ok(Value::Text(front(n, text.bytes()))),
        _ => Ok(a.copy()),
    }
}

/// The nearest integer that a SINGLE can hold.
fn nearest_single(a: &Value) -> Value
    ensures { result ≡ nearest_single a.now }
{
    match a {
        Value::Int(a) => Value::Int((*a).clamp(i32::from(i16::MIN), i32::from(i16::MAX))),
        _ => a.copy(),
    }
}

/// What the cell holds after an ignored error: the nearest integer of a SINGLE.
pub fn mend_fit(kind: Kind, a: &Value) -> Value
    requires { IsStorable kind a.now }
    ensures { result ≡ mended_store kind a.now }
{
    match fit(kind, a) {
        Ok(value) => value,
        Err(_) => nearest_single(a),
    }
}
