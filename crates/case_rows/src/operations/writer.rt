//! Values as rows write them.

use crate::operations::operands::is_string;
use hal_values::{ErrNo, Value};
use row_files::notation_of;
use std::alloc::{AllocError, Global};

/// Bytes in quotes, after what opens them.
fn quoted(alloc: Global, open: &str, bytes: &[u8]) -> Result<String, AllocError> {
    let bytes = notation_of(alloc, bytes)?;
    format!(in alloc; "{open}{bytes}'")
}

/// Bits; where the word has others beyond its length, which no row writes, its number.
fn bits(alloc: Global, len: u8, word: u32) -> Result<String, AllocError> {
    if !is_string(len, word) {
        return format!(in alloc; "{len} bits of {word}");
    }
    let mut digits = Vec::new(alloc);
    for place in 0..len {
        let is_set = (word >> (len - 1 - place)) % 2 == 1;
        digits.push(if is_set { b'1' } else { b'0' })?;
    }
    quoted(alloc, "b'", digits.as_slice())
}

/// A value.
pub(crate) fn value(alloc: Global, value: &Value) -> Result<String, AllocError> {
    match value {
        Value::Int(number) => format!(in alloc; "{number}"),
        Value::Bits { len, word } => bits(alloc, *len, *word),
        Value::Text(text) => quoted(alloc, "'", text.bytes()),
    }
}

/// A value, or the number of the error.
pub(crate) fn outcome(alloc: Global, outcome: &Result<Value, ErrNo>) -> Result<String, AllocError> {
    match outcome {
        Ok(found) => value(alloc, found),
        Err(error) => format!(in alloc; "error {}:{}", error.group, error.number),
    }
}
