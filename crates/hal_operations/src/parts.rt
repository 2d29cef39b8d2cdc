//! Components of bit strings and texts.

ghost use Rattle.std.specs.Prelude.{◌≡◌, ◌≤◌, length, List, ℕ};
ghost use Rattle.hal_operations.specs.Operands.{HasComponents, TakesPart};
ghost use Rattle.hal_operations.specs.Parts.{new_bytes, picked, nearest_part, mended_pick, patched, nearest_patch, nearest_patched, mended_patch, place_count};

use crate::conversions::decimal;
use crate::errors::NO_PLACE;
use crate::part::{Part, Span, nearest_span, string_span, text_span};
use crate::strings::{patched as patched_string, taken as taken_bits};
use crate::texts::{patched as patched_text, taken as taken_bytes};
use hal_values::{ErrNo, Text, Value};

/// The number of places, which `#` stands for; 0 for an integer.
pub fn place_count(value: &Value) -> u8
    ensures { result ≡ place_count value.now }
{
    match value {
        Value::Int(_) => 0,
        Value::Bits { len, .. } => *len,
        Value::Text(text) => text.bytes().len() as u8,
    }
}

/// A part of a bit string or a text, or error 1:4 where it doesn't lie in it. See docs/LANGUAGE.md,
/// "Operations", on components.
pub fn pick(value: &Value, part: Part) -> Result<Value, ErrNo>
    requires { HasComponents value.now }
    ensures { result ≡ picked value.now part }
{
    match value {
        Value::Int(number) => Ok(Value::Int(*number)),
        Value::Bits { len, word } => match string_span(*len, part) {
            Some(span) => Ok(taken_bits(span.from, span.to, *len, *word)),
            None => Err(NO_PLACE),
        },
        Value::Text(text) => match text_span(text.bytes().len() as u8, part) {
            Some(span) => Ok(Value::Text(taken_bytes(span.from, span.to, text.bytes()))),
            None => Err(NO_PLACE),
        },
    }
}

/// The part of the nearest places.
fn nearest_part(value: &Value, part: Part) -> Value
    requires { HasComponents value.now }
    ensures { result ≡ nearest_part value.now part }
{
    match value {
        Value::Int(number) => Value::Int(*number),
        Value::Bits { len, word } => {
            let span = nearest_span(*len, part);
            taken_bits(span.from, span.to, *len, *word)
        }
        Value::Text(text) if text.bytes().is_empty() => Value::Text(Text::new()),
        Value::Text(text) => {
            let span = nearest_span(text.bytes().len() as u8, part);
            Value::Text(taken_bytes(span.from, span.to, text.bytes()))
        }
    }
}

/// A part after an ignored error: that of the nearest places.
pub fn mend_pick(value: &Value, part: Part) -> Value
    requires { HasComponents value.now }
    ensures { result ≡ mended_pick value.now part }
{
    match pick(value, part) {
        Ok(value) => value,
        Err(_) => nearest_part(value, part),
    }
}

/// The text that takes the place of a part of a text.
fn new_text(new: &Value) -> Text
    ensures { result ≡ new_bytes new.now }
{
    match new {
        Value::Int(number) => decimal(*number),
        Value::Bits { .. } => Text::new(),
        Value::Text(text) => text.copy(),
    }
}

/// A text with a part replaced, or the error where the part doesn't lie in it.
fn patch_text(text: &Text, part: Part, new: &Text) -> Result<Value, ErrNo>
    ensures { result ≡ patched (Value.Text text.now) part (Value.Text new.now) }
{
    match text_span(text.bytes().len() as u8, part) {
        Some(span) => Ok(Value::Text(patched_text(span.from, span.to, new.bytes(), text.bytes()))),
        None => Err(NO_PLACE),
    }
}

/// A bit string or a text with a part replaced: the new one is cut or filled, bits on their left with
/// zeros, texts on their right with blanks. Or error 1:4 where the part doesn't lie in it.
pub fn patch(value: &Value, part: Part, new: &Value) -> Result<Value, ErrNo>
    requires { TakesPart value.now new.now }
    ensures { result ≡ patched value.now part new.now }
{
    match (value, new) {
        (Value::Bits { len, word }, Value::Bits { len: n, word: y }) => {
            match string_span(*len, part) {
                Some(span) => Ok(patched_string(span.from, span.to, *n, *y, *len, *word)),
                None => Err(NO_PLACE),
            }
        }
        (Value::Text(text), new) => patch_text(text, part, &new_text(new)),
        _ => Ok(value.copy()),
    }
}

/// A text with the part of the nearest places replaced; the empty text takes no part.
fn nearest_patch(text: &Text, part: Part, new: &Text) -> Text
    ensures { result ≡ nearest_patch part new.now text.now }
{
    if text.bytes().is_empty() {
        return Text::new();
    }
    let span = nearest_span(text.bytes().len() as u8, part);
    patched_text(span.from, span.to, new.bytes(), text.bytes())
}

/// A bit string or a text with the part of the nearest places replaced.
fn nearest_patched(value: &Value, part: Part, new: &Value) -> Value
    requires { TakesPart value.now new.now }
    ensures { result ≡ nearest_patched value.now part new.now }
{
    match (value, new) {
        (Value::Bits { len, word }, Value::Bits { len: n, word: y }) => {
            let span = nearest_span(*len, part);
            patched_string(span.from, span.to, *n, *y, *len, *word)
        }
        (Value::Text(text), new) => Value::Text(nearest_patch(text, part, &new_text(new))),
        _ => value.copy(),
    }
}

/// A bit string or a text with a part replaced, after an ignored error.
pub fn mend_patch(value: &Value, part: Part, new: &Value) -> Value
    requires { TakesPart value.now new.now }
    ensures { result ≡ mended_patch value.now part new.now }
{
    match patch(value, part, new) {
        Ok(value) => value,
        Err(_) => nearest_patched(value, part, new),
    }
}
