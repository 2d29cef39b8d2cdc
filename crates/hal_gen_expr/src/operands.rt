//! Whether operations take values.

ghost use Rattle.std.specs.Prelude.{◌≡◌, IsTrue};
ghost use Rattle.hal_operations.specs.Operands.{HasComponents, Takes, TakesBoth};
ghost use Rattle.hal_constants.specs.Operands as operands;

use hal_base::BIT_LIMIT;
use hal_operations::{Op1, Op2};
use hal_values::Value;

/// Whether this is a string of 1 to 32 bits.
fn is_string(len: u8, word: u32) -> bool
    ensures { result ≡ operands.is_string len word }
{
    1 <= len && len <= BIT_LIMIT && u64::from(word) < 2u64.pow(u32::from(len))
}

fn takes_integer(op: Op1) -> bool
    ensures { result ≡ operands.takes_integer op }
{
    matches!(
        op,
        Op1::Minus | Op1::Abs | Op1::Signum | Op1::Odd | Op1::Character | Op1::Bit
    )
}

fn takes_string(op: Op1) -> bool
    ensures { result ≡ operands.takes_string op }
{
    matches!(op, Op1::Not | Op1::Character | Op1::Integer)
}

fn takes_text(op: Op1) -> bool
    ensures { result ≡ operands.takes_text op }
{
    matches!(op, Op1::Length | Op1::Trim | Op1::Character | Op1::Integer)
}

/// Whether an operation takes an operand.
#[tactic(auto, using(hal_constants::proofs::Taking::taken), unfolding(hal_constants::specs::Operands::takes_one))]
pub(crate) fn takes_one(op: Op1, value: &Value) -> bool
    ensures value { result ≡ operands.takes_one op value.now }
    ensures taken { IsTrue result → Takes op value.now }
{
    match value {
        Value::Int(_) => takes_integer(op),
        Value::Bits { len, word } => takes_string(op) && is_string(*len, *word),
        Value::Text(_) => takes_text(op),
    }
}

fn takes_integers(op: Op2) -> bool
    ensures { result ≡ operands.takes_integers op }
{
    !matches!(
        op,
        Op2::And | Op2::Or | Op2::Xor | Op2::Cat | Op2::Index | Op2::Ljust | Op2::Rjust
    )
}

fn takes_strings(op: Op2) -> bool
    ensures { result ≡ operands.takes_strings op }
{
    matches!(op, Op2::And | Op2::Or | Op2::Xor | Op2::Cat)
}

fn takes_texts(op: Op2) -> bool
    ensures { result ≡ operands.takes_texts op }
{
    matches!(op, Op2::Cat | Op2::Index)
}

fn takes_text_and_integer(op: Op2) -> bool
    ensures { result ≡ operands.takes_text_and_integer op }
{
    matches!(op, Op2::Cat | Op2::Ljust | Op2::Rjust)
}

fn takes_integer_and_text(op: Op2) -> bool
    ensures { result ≡ operands.takes_integer_and_text op }
{
    matches!(op, Op2::Cat)
}

/// Whether an operation, other than a comparison, takes two operands.
#[tactic(auto, using(hal_constants::proofs::Taking::both_taken), unfolding(hal_constants::specs::Operands::takes_two))]
pub(crate) fn takes_two(op: Op2, left: &Value, right: &Value) -> bool
    ensures value { result ≡ operands.takes_two op left.now right.now }
    ensures taken { IsTrue result → TakesBoth op left.now right.now }
{
    match (left, right) {
        (Value::Int(_), Value::Int(_)) => takes_integers(op),
        (Value::Int(_), Value::Text(_)) => takes_integer_and_text(op),
        (Value::Bits { len: m, word: x }, Value::Bits { len: n, word: y }) => {
            takes_strings(op) && (is_string(*m, *x) && is_string(*n, *y))
        }
        (Value::Text(_), Value::Int(_)) => takes_text_and_integer(op),
        (Value::Text(_), Value::Text(_)) => takes_texts(op),
        _ => false,
    }
}

/// Whether a value has components.
#[tactic(auto, using(hal_constants::proofs::Taking::parted), unfolding(hal_constants::specs::Operands::has_components))]
pub(crate) fn has_components(value: &Value) -> bool
    ensures value { result ≡ operands.has_components value.now }
    ensures parted { IsTrue result → HasComponents value.now }
{
    match value {
        Value::Int(_) => false,
        Value::Bits { len, word } => is_string(*len, *word),
        Value::Text(_) => true,
    }
}
