//! Rows of nesting, which is 64 at most, and of which the PROGRAM around a row's source is the first. A source is written `before~opening~middle~closing~behind`,
//! and says how many times its opening and its closing may stand there, and what once more of them breaks; or that 150 may stand there.
//! Once less, so many and once more are tried.

use crate::trees::source::{Source, broken};
use std::alloc::{AllocError, Global};

/// So many times are tried at most.
const MOST: usize = 150;

/// What a row repeats, and what stands around it.
#[derive(Clone, Copy)]
struct Nest<'a> {
    before: &'a str,
    opening: &'a str,
    middle: &'a str,
    closing: &'a str,
    behind: &'a str,
}

/// What a notation says.
fn nest_of(notation: &str) -> Option<Nest<'_>> {
    let mut parts = notation.split("~");
    let before = parts.next().unwrap_or("");
    let opening = parts.next().unwrap_or("");
    let middle = parts.next().unwrap_or("");
    let closing = parts.next().unwrap_or("");
    let behind = parts.next()?;
    Some(Nest {
        before,
        opening,
        middle,
        closing,
        behind,
    })
}

/// The source in which the opening and the closing stand so many times.
fn source_of(alloc: Global, nest: Nest<'_>, count: usize) -> Result<String, AllocError> {
    let Nest {
        before,
        middle,
        behind,
        ..
    } = nest;
    let opening = nest.opening.repeat(alloc, count)?;
    let closing = nest.closing.repeat(alloc, count)?;
    format!(in alloc; "{before}{opening}{middle}{closing}{behind}")
}

/// The number that a text begins with, no more than `MOST`.
fn number(text: &str) -> usize {
    let mut number = 0;
    for byte in text.as_bytes() {
        match *byte {
            b'0'..=b'9' if number < MOST => number = number * 10 + usize::from(*byte - b'0'),
            _ => break,
        }
    }
    number.min(MOST)
}

/// How many times they may stand there, and what once more breaks, where they are tried about so many times.
fn deepest(
    alloc: Global,
    source: Source,
    nest: Nest<'_>,
    about: usize,
) -> Result<String, AllocError> {
    let last = about.saturating_add(1).min(MOST);
    for count in about.saturating_sub(1)..=last {
        let text = source_of(alloc, nest, count)?;
        if let Some(fault) = broken(alloc, source, text.as_bytes())? {
            return format!(in alloc; "{}, then {fault}", count.saturating_sub(1));
        }
    }
    format!(in alloc; "{last}")
}

/// What the row of this source says.
pub(crate) fn given(
    alloc: Global,
    source: Source,
    notation: &str,
    said: &str,
) -> Result<String, AllocError> {
    match nest_of(notation) {
        None => String::from_str(alloc, "a source with nothing to repeat"),
        Some(nest) => deepest(alloc, source, nest, number(said)),
    }
}
