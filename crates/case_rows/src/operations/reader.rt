//! How rows write values. An integer is decimal, as `-5`. A text stands in quotes, as `'AB'`, and bits stand in quotes after
//! a `b`, as `b'0101'`. `row_files` says how bytes are written in the quotes.

use hal_operations::Part;
use hal_values::{Kind, Text, Value};
use row_files::bytes_of;
use std::alloc::{AllocError, Global};

/// What stands in the quotes.
fn text(alloc: Global, quoted: &str) -> Result<Option<Text>, AllocError> {
    match bytes_of(alloc, quoted)? {
        None => Ok(None),
        Some(bytes) => Ok(Text::of(bytes.as_slice())),
    }
}

/// The bits whose digits these are.
fn bits(digits: &Text) -> Option<Value> {
    let len = u8::try_from(digits.bytes().len()).ok()?;
    let digits = str::from_utf8(digits.bytes()).ok()?;
    let word = u32::from_str_radix(digits, 2).ok()?;
    Some(Value::Bits { len, word })
}

/// What stands between quotes behind this beginning.
fn quoted<'a>(notation: &'a str, beginning: &str) -> Option<&'a str> {
    notation.strip_prefix(beginning)?.strip_suffix("'")
}

/// A value.
pub(crate) fn value(alloc: Global, notation: &str) -> Result<Option<Value>, AllocError> {
    if let Some(quoted) = quoted(notation, "b'") {
        return match text(alloc, quoted)? {
            None => Ok(None),
            Some(digits) => Ok(bits(&digits)),
        };
    }
    if let Some(quoted) = quoted(notation, "'") {
        return match text(alloc, quoted)? {
            None => Ok(None),
            Some(text) => Ok(Some(Value::Text(text))),
        };
    }
    match notation.parse::<i32>() {
        Ok(number) => Ok(Some(Value::Int(number))),
        Err(_) => Ok(None),
    }
}

/// The kind of a cell, as a declaration writes it.
pub(crate) fn kind(notation: &str) -> Option<Kind> {
    if notation == "SINGLE" {
        return Some(Kind::Single);
    }
    if notation == "DOUBLE" {
        return Some(Kind::Double);
    }
    let (name, rest) = notation.split_once("(")?;
    let size = rest.strip_suffix(")")?.parse::<u8>().ok()?;
    match name {
        "BIT" => Some(Kind::Bits(size)),
        "CHARACTER" => Some(Kind::Text(size)),
        _ => None,
    }
}

/// A component subscript: `2`, `2 TO 4`, or `3 AT 2`.
pub(crate) fn part(notation: &str) -> Option<Part> {
    if let Some((first, last)) = notation.split_once(" TO ") {
        return Some(Part::To {
            first: first.parse::<i32>().ok()?,
            last: last.parse::<i32>().ok()?,
        });
    }
    if let Some((count, first)) = notation.split_once(" AT ") {
        return Some(Part::At {
            count: count.parse::<i32>().ok()?,
            first: first.parse::<i32>().ok()?,
        });
    }
    Some(Part::One(notation.parse::<i32>().ok()?))
}
