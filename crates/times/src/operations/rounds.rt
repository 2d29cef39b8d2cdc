//! Rounds of one operation. Their operands are made before the first round, or are what the round before
//! came to, so that a round costs little besides its operation. The sum of the outcomes needs each of them.

ghost use Rattle.hal_operations.specs.Operands.{TakesIntegers};

use hal_operations::{Op2, apply2};
use hal_values::{ErrNo, Text, Value};

/// What rounds do.
#[derive(Clone, Copy)]
pub(crate) enum Kind {
    /// They add 7 to -6 and to 7 in turn.
    Sum,
    /// They ask of -6 and of 7 in turn whether it is less than 7.
    Comparison,
    /// They put 0 and 1 in turn before a text of 255 bytes, which stays as long.
    Cat,
}

pub(crate) const KINDS: [Kind; 3] = [Kind::Sum, Kind::Comparison, Kind::Cat];

impl Kind {
    pub(crate) fn name(self) -> &'static str {
        match self {
            Kind::Sum => "sum",
            Kind::Comparison => "comparison",
            Kind::Cat => "cat",
        }
    }

    /// Does so many rounds, and answers the sum of their outcomes, or of the last text's bytes.
    pub(crate) fn run(self, rounds: u32) -> i32 {
        match self {
            Kind::Sum => total(Op2::Plus, rounds),
            Kind::Comparison => total(Op2::Less, rounds),
            Kind::Cat => byte_sum(&text(rounds)),
        }
    }
}

/// An integer, or a bit as 0 or 1; 0 for an error.
fn number(outcome: &Result<Value, ErrNo>) -> i32 {
    match outcome {
        Ok(Value::Int(number)) => *number,
        Ok(Value::Bits { word, .. }) => (*word % 2) as i32,
        _ => 0,
    }
}

/// The sum of the outcomes.
fn total(op: Op2, rounds: u32) -> i32
    requires { TakesIntegers op }
{
    let (low, high) = (Value::Int(-6), Value::Int(7));
    let mut total = 0i32;
    for round in 0..rounds {
        let outcome = if round % 2 == 0 {
            number(&apply2(op, &low, &high))
        } else {
            number(&apply2(op, &high, &high))
        };
        total = total.saturating_add(outcome);
    }
    total
}

/// CAT of two texts; of other values the first.
fn joined(a: &Value, b: &Value) -> Result<Value, ErrNo> {
    match (a, b) {
        (Value::Text(_), Value::Text(_)) => apply2(Op2::Cat, a, b),
        _ => Ok(a.copy()),
    }
}

fn text_of(bytes: &[u8]) -> Value {
    Value::Text(Text::of(bytes).unwrap_or(Text::new()))
}

fn text(rounds: u32) -> Value {
    let (even, odd) = (text_of(b"0"), text_of(b"1"));
    let mut text = text_of(&[b' '; 255]);
    for round in 0..rounds {
        let digit = if round % 2 == 0 { &even } else { &odd };
        match joined(digit, &text) {
            Ok(longer) => text = longer,
            Err(_) => text = text_of(b""),
        }
    }
    text
}

fn byte_sum(value: &Value) -> i32 {
    let Value::Text(text) = value else {
        return 0;
    };
    let mut sum = 0i32;
    for byte in text.bytes() {
        sum = sum.saturating_add(i32::from(*byte));
    }
    sum
}
