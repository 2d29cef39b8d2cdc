//! Rows that can be compared.

ghost use Rattle.std.specs.Prelude.{◌≡◌, Bool};
ghost use Rattle.hal_code.specs.Sorts as sorts;
ghost use Rattle.hal_runs.specs.Same as same;

use hal_code::OwnPlace;
use hal_values::{Cell, Kind, Value};

/// A row of a table of an image.
pub trait Row {
    /// Whether two rows are the same.
    ghost same: { Self → Self → Bool };

    /// Whether this row is the same as another one.
    fn is_same(&self, other: &Self) -> bool
        ensures { result ≡ same self.now other.now };
}

/// Whether two values are the same.
pub fn is_same_value(one: &Value, other: &Value) -> bool
    ensures { result ≡ same.same_value one.now other.now }
{
    match (one, other) {
        (Value::Int(number), Value::Int(another)) => number == another,
        (
            Value::Bits { len, word },
            Value::Bits {
                len: length,
                word: bits,
            },
        ) => len == length && word == bits,
        (Value::Text(text), Value::Text(another)) => text.bytes() == another.bytes(),
        _ => false,
    }
}

/// Whether two kinds are the same.
fn is_same_kind(one: Kind, other: Kind) -> bool
    ensures { result ≡ sorts.same_kind one other }
{
    match (one, other) {
        (Kind::Single, Kind::Single) | (Kind::Double, Kind::Double) => true,
        (Kind::Bits(length), Kind::Bits(another)) | (Kind::Text(length), Kind::Text(another)) => {
            length == another
        }
        _ => false,
    }
}

impl Row for Kind {
    ghost same = { sorts.same_kind };

    fn is_same(&self, other: &Self) -> bool {
        is_same_kind(*self, *other)
    }
}

impl Row for Cell {
    ghost same = { same.same_cell };

    fn is_same(&self, other: &Self) -> bool {
        is_same_kind(self.kind, other.kind)
            && self.group == other.group
            && is_same_value(&self.initial, &other.initial)
    }
}

impl Row for OwnPlace {
    ghost same = { same.same_place };

    fn is_same(&self, other: &Self) -> bool {
        match (self, other) {
            (
                OwnPlace::Data { kind, initial },
                OwnPlace::Data {
                    kind: another,
                    initial: value,
                },
            ) => is_same_kind(*kind, *another) && is_same_value(initial, value),
            (OwnPlace::Reference(shape), OwnPlace::Reference(another)) => shape == another,
            _ => false,
        }
    }
}
