//! Kinds, values, cells and own places, both ways.

ghost use Rattle.std.specs.Prelude.{◌≡◌, ◌↔◌, ◌++◌, ◌∷◌, IsTrue, OnOk};
ghost use Rattle.hal_object.specs.Numbers.{integer_bytes, in_four, text_bytes};
ghost use Rattle.hal_object.specs.Kinds.{kind_bytes, FitsKind, value_bytes, FitsValue, cell_bytes, FitsCell, place_bytes, FitsPlace};
ghost use Rattle.hal_object.specs.Fields.{Gives};
ghost use Rattle.hal_object.specs.Reading.{zero_at, kind_at, value_at, cell_at, data_at, reference_at, place_at};

use crate::fault::ReadFault;
use crate::fits::{fits_four, fits_integer, fits_kind, fits_one, fits_text};
use crate::numbers::{byte_of, four_of, integer_of, put_four, text_of};
use crate::row::Row;
use hal_code::OwnPlace;
use hal_values::{Cell, Kind, Text, Value};
use std::alloc::{AllocError, Global};

/// Nothing, behind a byte 0.
#[tactic(auto, unfolding(crate::specs::Reading::zero_at))]
fn zero_of<T: Copy>(value: T, bytes: &[u8]) -> Result<(T, &[u8]), ReadFault>
    ensures { Gives (λ x. (x.0, x.1.now)) result (zero_at value bytes.now) }
{
    match bytes {
        [0, rest @ ..] => Ok((value, rest)),
        _ => Err(ReadFault::NotImage),
    }
}

/// A kind.
#[tactic(auto, unfolding(crate::specs::Reading::kind_at))]
pub(crate) fn kind_of(bytes: &[u8]) -> Result<(Kind, &[u8]), ReadFault>
    ensures { Gives (λ x. (x.0, x.1.now)) result (kind_at bytes.now) }
{
    let (code, rest) = byte_of(bytes)?;
    match code {
        1 => zero_of(Kind::Single, rest),
        2 => zero_of(Kind::Double, rest),
        3 => {
            let (bits, rest) = byte_of(rest)?;
            Ok((Kind::Bits(bits), rest))
        }
        4 => {
            let (most, rest) = byte_of(rest)?;
            Ok((Kind::Text(most), rest))
        }
        _ => Err(ReadFault::NotImage),
    }
}

/// An initial value of a kind.
#[tactic(auto, unfolding(crate::specs::Reading::value_at))]
pub(crate) fn value_of(kind: Kind, bytes: &[u8]) -> Result<(Value, &[u8]), ReadFault>
    ensures { Gives (λ x. (x.0, x.1.now)) result (value_at kind bytes.now) }
{
    match kind {
        Kind::Single | Kind::Double => {
            let (number, rest) = integer_of(bytes)?;
            Ok((Value::Int(number), rest))
        }
        Kind::Bits(len) => {
            let (word, rest) = four_of(bytes)?;
            Ok((Value::Bits { len, word }, rest))
        }
        Kind::Text(_) => {
            let (text, rest) = text_of(bytes)?;
            Ok((Value::Text(text), rest))
        }
    }
}

/// A place that holds values.
#[tactic(auto, unfolding(crate::specs::Reading::data_at))]
fn data_of(bytes: &[u8]) -> Result<(OwnPlace, &[u8]), ReadFault>
    ensures { Gives (λ x. (x.0, x.1.now)) result (data_at bytes.now) }
{
    let (kind, rest) = kind_of(bytes)?;
    let (initial, rest) = value_of(kind, rest)?;
    Ok((OwnPlace::Data { kind, initial }, rest))
}

/// A place that refers, behind its first byte.
#[tactic(auto, unfolding(crate::specs::Reading::reference_at))]
fn reference_of(bytes: &[u8]) -> Result<(OwnPlace, &[u8]), ReadFault>
    ensures { Gives (λ x. (x.0, x.1.now)) result (reference_at bytes.now) }
{
    let (_, rest) = zero_of(0_u8, bytes)?;
    let (shape, rest) = four_of(rest)?;
    Ok((OwnPlace::Reference(shape), rest))
}

/// Whether an initial value has the form of a kind.
fn has_form(kind: Kind, value: &Value) -> bool
    ensures { IsTrue result ↔ FitsValue kind value.now }
{
    match (kind, value) {
        (Kind::Single | Kind::Double, Value::Int(number)) => {
            fits_integer(*number);
            true
        }
        (Kind::Bits(bits), Value::Bits { len, word }) => {
            fits_four(*word);
            *len == bits
        }
        (Kind::Text(_), Value::Text(text)) => {
            fits_text(text);
            true
        }
        _ => false,
    }
}

/// The bytes of a kind, behind others.
pub(crate) fn write_kind(kind: Kind, into: &mut Vec<u8>) -> Result<(), AllocError>
    ensures { OnOk result (into.new.items ≡ into.old.items ++ kind_bytes kind) }
{
    let bytes = match kind {
        Kind::Single => [1, 0],
        Kind::Double => [2, 0],
        Kind::Bits(bits) => [3, bits],
        Kind::Text(most) => [4, most],
    };
    into.extend_from_slice(&bytes)
}

/// The bytes of a text and of its length, behind others.
pub(crate) fn write_text(text: &Text, into: &mut Vec<u8>) -> Result<(), AllocError>
    ensures { OnOk result (into.new.items ≡ into.old.items ++ text_bytes text.now) }
{
    let bytes = text.bytes();
    into.push(bytes.len() as u8)?;
    into.extend_from_slice(bytes)?;
    Ok(())
}

/// The bytes of a value, behind others.
pub(crate) fn write_value(value: &Value, into: &mut Vec<u8>) -> Result<(), AllocError>
    ensures { OnOk result (into.new.items ≡ into.old.items ++ value_bytes value.now) }
{
    match value {
        Value::Int(number) => put_four(number.cast_unsigned(), into),
        Value::Bits { word, .. } => put_four(*word, into),
        Value::Text(text) => write_text(text, into),
    }
}

impl Row for Kind {
    ghost at = { kind_at };

    ghost spelling = { kind_bytes };

    ghost fits = { FitsKind };

    fn has_bytes(&self) -> bool {
        fits_kind(*self);
        true
    }

    fn read(alloc: Global, bytes: &[u8]) -> Result<(Kind, &[u8]), ReadFault> {
        kind_of(bytes)
    }

    fn write(&self, into: &mut Vec<u8>) -> Result<(), AllocError> {
        write_kind(*self, into)
    }
}

impl Row for Cell {
    ghost at = { cell_at };

    ghost spelling = { cell_bytes };

    ghost fits = { FitsCell };

    fn has_bytes(&self) -> bool {
        fits_kind(self.kind);
        fits_one(self.group);
        has_form(self.kind, &self.initial)
    }

    #[tactic(auto, unfolding(crate::specs::Reading::cell_at))]
    fn read(alloc: Global, bytes: &[u8]) -> Result<(Cell, &[u8]), ReadFault> {
        let (kind, rest) = kind_of(bytes)?;
        let (group, rest) = byte_of(rest)?;
        let (initial, rest) = value_of(kind, rest)?;
        Ok((
            Cell {
                kind,
                group,
                initial,
            },
            rest,
        ))
    }

    fn write(&self, into: &mut Vec<u8>) -> Result<(), AllocError> {
        write_kind(self.kind, into)?;
        into.push(self.group)?;
        write_value(&self.initial, into)
    }
}

impl Row for OwnPlace {
    ghost at = { place_at };

    ghost spelling = { place_bytes };

    ghost fits = { FitsPlace };

    fn has_bytes(&self) -> bool {
        match self {
            OwnPlace::Data { kind, initial } => {
                fits_kind(*kind);
                has_form(*kind, initial)
            }
            OwnPlace::Reference(shape) => {
                fits_four(*shape);
                true
            }
        }
    }

    #[tactic(auto, unfolding(crate::specs::Reading::place_at))]
    fn read(alloc: Global, bytes: &[u8]) -> Result<(OwnPlace, &[u8]), ReadFault> {
        let (byte, rest) = byte_of(bytes)?;
        if byte == 5 {
            reference_of(rest)
        } else {
            data_of(bytes)
        }
    }

    fn write(&self, into: &mut Vec<u8>) -> Result<(), AllocError> {
        match self {
            OwnPlace::Data { kind, initial } => {
                write_kind(*kind, into)?;
                write_value(initial, into)
            }
            OwnPlace::Reference(shape) => {
                into.extend_from_slice(&[5, 0])?;
                put_four(*shape, into)
            }
        }
    }
}
