//! Whether an operation, a store or a component takes its operands, so that a row that gives others fails.

ghost use Rattle.std.specs.Prelude.{IsTrue};
ghost use Rattle.hal_operations.specs.Operands.{IsString, TakesInteger, TakesString, TakesText, Takes, IsEquality, IsOrder, TakesIntegers, TakesStrings, TakesTexts, TakesTextAndInteger, TakesIntegerAndText, TakesBoth, IsStorable, HasComponents, TakesPart};

use hal_operations::{Op1, Op2};
use hal_values::{Kind, Value};

/// Whether these are 1 to 32 bits, and the word has no others.
pub(crate) fn is_string(len: u8, word: u32) -> bool
    ensures { IsTrue result → IsString len word }
{
    1 <= len && len <= 32 && u64::from(word) < 1u64 << len
}

fn takes_integer(op: Op1) -> bool
    ensures { IsTrue result → TakesInteger op }
{
    matches!(
        op,
        Op1::Minus | Op1::Abs | Op1::Signum | Op1::Odd | Op1::Character | Op1::Bit
    )
}

fn takes_string(op: Op1) -> bool
    ensures { IsTrue result → TakesString op }
{
    matches!(op, Op1::Not | Op1::Character | Op1::Integer)
}

fn takes_text(op: Op1) -> bool
    ensures { IsTrue result → TakesText op }
{
    matches!(op, Op1::Length | Op1::Trim | Op1::Character | Op1::Integer)
}

/// Whether the operation takes the operand.
pub(crate) fn takes(op: Op1, a: &Value) -> bool
    ensures { IsTrue result → Takes op a.now }
{
    match a {
        Value::Int(_) => takes_integer(op),
        Value::Bits { len, word } => takes_string(op) && is_string(*len, *word),
        Value::Text(_) => takes_text(op),
    }
}

fn is_equality(op: Op2) -> bool
    ensures { IsTrue result → IsEquality op }
{
    matches!(op, Op2::Equal | Op2::NotEqual)
}

fn is_order(op: Op2) -> bool
    ensures { IsTrue result → IsOrder op }
{
    matches!(
        op,
        Op2::Less | Op2::Greater | Op2::LessOrEqual | Op2::GreaterOrEqual
    )
}

fn takes_integers(op: Op2) -> bool
    ensures { IsTrue result → TakesIntegers op }
{
    !matches!(
        op,
        Op2::And | Op2::Or | Op2::Xor | Op2::Cat | Op2::Index | Op2::Ljust | Op2::Rjust
    )
}

fn takes_strings(op: Op2) -> bool
    ensures { IsTrue result → TakesStrings op }
{
    match op {
        Op2::And | Op2::Or | Op2::Xor | Op2::Cat => true,
        _ => is_equality(op),
    }
}

fn takes_texts(op: Op2) -> bool
    ensures { IsTrue result → TakesTexts op }
{
    match op {
        Op2::Cat | Op2::Index | Op2::Equal | Op2::NotEqual => true,
        _ => is_order(op),
    }
}

fn takes_text_and_integer(op: Op2) -> bool
    ensures { IsTrue result → TakesTextAndInteger op }
{
    matches!(op, Op2::Cat | Op2::Ljust | Op2::Rjust)
}

fn takes_integer_and_text(op: Op2) -> bool
    ensures { IsTrue result → TakesIntegerAndText op }
{
    matches!(op, Op2::Cat)
}

/// Whether the operation takes the operands.
pub(crate) fn takes_both(op: Op2, a: &Value, b: &Value) -> bool
    ensures { IsTrue result → TakesBoth op a.now b.now }
{
    match (a, b) {
        (Value::Int(_), Value::Int(_)) => takes_integers(op),
        (Value::Bits { len: m, word: x }, Value::Bits { len: n, word: y }) => {
            takes_strings(op) && is_string(*m, *x) && is_string(*n, *y)
        }
        (Value::Text(_), Value::Text(_)) => takes_texts(op),
        (Value::Text(_), Value::Int(_)) => takes_text_and_integer(op),
        (Value::Int(_), Value::Text(_)) => takes_integer_and_text(op),
        _ => false,
    }
}

/// Whether a cell of the kind takes the value.
pub(crate) fn is_storable(kind: Kind, a: &Value) -> bool
    ensures { IsTrue result → IsStorable kind a.now }
{
    match (kind, a) {
        (Kind::Single | Kind::Double, Value::Int(_)) => true,
        (Kind::Bits(n), Value::Bits { len, word }) => {
            1 <= n && n <= 32 && is_string(*len, *word)
        }
        (Kind::Text(n), Value::Int(_) | Value::Text(_)) => 1 <= n,
        _ => false,
    }
}

/// Whether the value has components.
pub(crate) fn has_components(a: &Value) -> bool
    ensures { IsTrue result → HasComponents a.now }
{
    match a {
        Value::Int(_) => false,
        Value::Bits { len, word } => is_string(*len, *word),
        Value::Text(_) => true,
    }
}

/// Whether a part of the value takes the other value.
pub(crate) fn takes_part(a: &Value, new: &Value) -> bool
    ensures { IsTrue result → TakesPart a.now new.now }
{
    match (a, new) {
        (Value::Bits { len: m, word: x }, Value::Bits { len: n, word: y }) => {
            is_string(*m, *x) && is_string(*n, *y)
        }
        (Value::Text(_), Value::Int(_) | Value::Text(_)) => true,
        _ => false,
    }
}
