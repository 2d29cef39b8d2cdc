//! What operations give of constants.

ghost use Rattle.std.specs.Prelude.{◌≡◌};
ghost use Rattle.hal_constants.specs.Results as results;

use crate::constant::Constant;
use crate::operands::{has_components, takes_one, takes_two};
use hal_operations::{Op1, Op2, Part, apply1, apply2, pick, place_count};
use hal_values::{ErrNo, Value};

/// A value, or an error.
#[tactic(auto, unfolding(crate::specs::Results::worth))]
fn worth(outcome: Result<Value, ErrNo>) -> Constant
    ensures { result ≡ results.worth outcome }
{
    match outcome {
        Ok(value) => Constant::Worth(value),
        Err(_) => Constant::Failed,
    }
}

/// Of two constants that aren't both values, what their result is (language document, Constant expressions).
#[tactic(auto, unfolding(crate::specs::Results::worse))]
pub fn worse(one: &Constant, other: &Constant) -> Constant
    ensures { result ≡ results.worse one.now other.now }
{
    match (one, other) {
        (Constant::Open, _) | (_, Constant::Open) => Constant::Open,
        (Constant::Unfit, _) | (_, Constant::Unfit) => Constant::Unfit,
        _ => Constant::Failed,
    }
}

/// An operation with one operand.
#[tactic(auto, unfolding(crate::specs::Results::apply_one))]
pub(crate) fn apply_one(op: Op1, operand: Constant) -> Constant
    ensures { result ≡ results.apply_one op operand }
{
    match operand {
        Constant::Worth(value) => {
            if takes_one(op, &value) {
                worth(apply1(op, &value))
            } else {
                Constant::Unfit
            }
        }
        other => other,
    }
}

/// An operation with two operands.
#[tactic(auto, unfolding(crate::specs::Results::apply_two))]
pub(crate) fn apply_two(op: Op2, left: &Constant, right: &Constant) -> Constant
    ensures { result ≡ results.apply_two op left.now right.now }
{
    match (left, right) {
        (Constant::Worth(v), Constant::Worth(w)) => {
            if takes_two(op, v, w) {
                worth(apply2(op, v, w))
            } else {
                Constant::Unfit
            }
        }
        _ => worse(left, right),
    }
}

/// An integer, unless it is too great (language document, Constant expressions).
pub fn whole(number: u32) -> Constant
    ensures { result ≡ results.whole number }
{
    match i32::try_from(number) {
        Ok(number) => Constant::Worth(Value::Int(number)),
        Err(_) => Constant::Failed,
    }
}

/// A component, where the value has some.
fn component(value: &Value, part: Part) -> Constant
    ensures { result ≡ results.component value.now part }
{
    if has_components(value) {
        worth(pick(value, part))
    } else {
        Constant::Unfit
    }
}

/// One place of a value.
#[tactic(auto, unfolding(crate::specs::Results::picked_one, crate::specs::Results::component_at))]
pub(crate) fn picked_one(value: &Value, place: Constant) -> Constant
    ensures { result ≡ results.picked_one value.now place }
{
    match place {
        Constant::Worth(Value::Int(place)) => component(value, Part::One(place)),
        Constant::Worth(_) => Constant::Unfit,
        other => other,
    }
}

/// The places of a value from one to another.
#[tactic(auto, unfolding(crate::specs::Results::picked_to, crate::specs::Results::component_to))]
pub(crate) fn picked_to(value: &Value, first: &Constant, last: &Constant) -> Constant
    ensures { result ≡ results.picked_to value.now first.now last.now }
{
    match (first, last) {
        (Constant::Worth(Value::Int(first)), Constant::Worth(Value::Int(last))) => component(
            value,
            Part::To {
                first: *first,
                last: *last,
            },
        ),
        (Constant::Worth(_), Constant::Worth(_)) => Constant::Unfit,
        _ => worse(first, last),
    }
}

/// So many places of a value from one on.
#[tactic(auto, unfolding(crate::specs::Results::picked_from, crate::specs::Results::component_from))]
pub(crate) fn picked_from(value: &Value, count: &Constant, first: &Constant) -> Constant
    ensures { result ≡ results.picked_from value.now count.now first.now }
{
    match (count, first) {
        (Constant::Worth(Value::Int(count)), Constant::Worth(Value::Int(first))) => component(
            value,
            Part::At {
                count: *count,
                first: *first,
            },
        ),
        (Constant::Worth(_), Constant::Worth(_)) => Constant::Unfit,
        _ => worse(count, first),
    }
}

/// All places of a value.
pub(crate) fn picked_all(value: &Value) -> Constant
    ensures { result ≡ results.picked_all value.now }
{
    component(
        value,
        Part::To {
            first: 1,
            last: i32::from(place_count(value)),
        },
    )
}
