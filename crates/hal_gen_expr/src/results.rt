//! What operations give of values that are known.

ghost use Rattle.std.specs.Prelude.{◌≡◌};
ghost use Rattle.std.specs.Option.{option_map};
ghost use Rattle.hal_tree.specs.SeenLeaves.{seen_conversion, seen_sign};
ghost use Rattle.hal_meaning.specs.Expressions as meaning;
ghost use Rattle.hal_gen_expr.specs.Constants as constants;

use crate::operands::{has_components, takes_one, takes_two};
use hal_constants::{operation_of_conversion, operation_of_sign};
use hal_operations::{Op1, Op2, Part, apply1, apply2, pick};
use hal_tree::{Conversion, Sign};
use hal_values::Value;

/// An operation with one operand, where it is known, the operation takes it, and no error arises.
pub(crate) fn apply_one(op: Op1, operand: &Option<Value>) -> Option<Value>
    ensures { result ≡ constants.apply_one op operand.now }
{
    match operand {
        None => None,
        Some(value) => {
            if takes_one(op, value) {
                apply1(op, value).ok()
            } else {
                None
            }
        }
    }
}

/// An operation with two operands, where both are known, the operation takes them, and no error arises.
pub(crate) fn apply_two(op: Op2, left: &Option<Value>, right: &Option<Value>) -> Option<Value>
    ensures { result ≡ constants.apply_two op left.now right.now }
{
    match (left, right) {
        (Some(left), Some(right)) => {
            if takes_two(op, left, right) {
                apply2(op, left, right).ok()
            } else {
                None
            }
        }
        _ => None,
    }
}

/// A conversion of a value.
#[tactic(auto, unfolding(hal_constants::specs::Constants::operation_of_conversion))]
pub(crate) fn convert(conversion: Conversion, operand: &Option<Value>) -> Option<Value>
    ensures { result ≡ constants.apply_one (meaning.operation_of_conversion (seen_conversion conversion)) operand.now }
{
    apply_one(operation_of_conversion(conversion), operand)
}

/// A term that is added to a value or taken from it.
#[tactic(auto, unfolding(hal_constants::specs::Constants::operation_of_sign))]
pub(crate) fn add(sign: Sign, so_far: &Option<Value>, term: &Option<Value>) -> Option<Value>
    ensures { result ≡ constants.apply_two (meaning.operation_of_sign (seen_sign sign)) so_far.now term.now }
{
    apply_two(operation_of_sign(sign), so_far, term)
}

/// A value with the sign of a sum's first term.
pub(crate) fn signed(sign: Option<Sign>, term: Option<Value>) -> Option<Value>
    ensures { result ≡ constants.signed (option_map seen_sign sign) term }
{
    match sign {
        None => term,
        Some(Sign::Plus) => term,
        Some(Sign::Minus) => apply_one(Op1::Minus, &term),
    }
}

/// The integer that a value is.
pub(crate) fn integer_in(value: &Option<Value>) -> Option<i32>
    ensures { result ≡ constants.integer_in value.now }
{
    match value {
        None => None,
        Some(Value::Int(number)) => Some(*number),
        Some(Value::Bits { .. }) => None,
        Some(Value::Text(_)) => None,
    }
}

/// A component of a value, where its places are known and lie in the value.
pub(crate) fn part_of(value: &Value, part: Option<Part>) -> Option<Value>
    ensures { result ≡ constants.part_of value.now part }
{
    match part {
        None => None,
        Some(part) => {
            if has_components(value) {
                pick(value, part).ok()
            } else {
                None
            }
        }
    }
}

/// One place.
pub(crate) fn one_place(place: Option<i32>) -> Option<Part>
    ensures { result ≡ constants.one_place place }
{
    let place = place?;
    Some(Part::One(place))
}

/// The places from one to another.
pub(crate) fn places_to(first: Option<i32>, last: Option<i32>) -> Option<Part>
    ensures { result ≡ constants.places_to first last }
{
    let first = first?;
    let last = last?;
    Some(Part::To { first, last })
}

/// So many places at one.
pub(crate) fn places_at(count: Option<i32>, first: Option<i32>) -> Option<Part>
    ensures { result ≡ constants.places_at count first }
{
    let count = count?;
    let first = first?;
    Some(Part::At { count, first })
}
