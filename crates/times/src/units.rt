//! Makes a unit of so many bytes, as the second word says, 1000 where there is none, and parses its words so many times as the
//! third word says, once where there is none; of the kind that the fourth word names, or of each kind. It prints how many
//! words the unit has, and how often they were parsed. bench/parsing.py times it. Kinds of units that are full of names have so
//! many of them, and it is the rules of names that are tried so many times; bench/names.py times that. Of kinds of units whose
//! types take work it is the rules of types; bench/types.py times that.

mod names;
mod texts;
mod typings;

use crate::asked::{is_asked, number};
use hal_constants::Known;
use hal_lexer::tokens;
use hal_names::Names;
use hal_parse::parse;
use hal_scope::resolve;
use hal_types::check_types;
use names::{NAMINGS, Naming};
use std::alloc::Global;
use std::io;
use std::slice::from_ref;
use texts::{KINDS, Kind};
use typings::{TYPINGS, Typing};

/// How many words the text has, and how often of so many times they are parsed; no word where a rule of words is broken.
fn counts_of(alloc: Global, text: &[u8], times: usize) -> (usize, usize) {
    let Ok(tokens) = tokens(alloc, text, 0) else {
        return (0, 0);
    };
    let mut count = 0usize;
    for _ in 0..times {
        if parse(alloc, tokens.as_slice(), 0).is_ok() {
            count = count.saturating_add(1);
        }
    }
    (tokens.as_slice().len(), count)
}

/// How many words the text has, and how often of so many times its unit breaks no rule of names; no word where it is none.
fn named_counts_of(alloc: Global, text: &[u8], times: usize) -> (usize, usize) {
    let Ok(tokens) = tokens(alloc, text, 0) else {
        return (0, 0);
    };
    let Ok(file) = parse(alloc, tokens.as_slice(), 0) else {
        return (0, 0);
    };
    let mut count = 0usize;
    for _ in 0..times {
        if resolve(alloc, from_ref(&file)).is_ok() {
            count = count.saturating_add(1);
        }
    }
    (tokens.as_slice().len(), count)
}

/// Whether a set of files with these names breaks no rule of types, by the values of its constants.
fn is_typed(alloc: Global, names: &Names<'_>) -> bool {
    match Known::of(alloc, names) {
        Ok(known) => check_types(alloc, names, &known).is_ok(),
        Err(_) => false,
    }
}

/// How many words the text has, and how often of so many times its unit breaks no rule of types; no word where it breaks another one.
fn typed_counts_of(alloc: Global, text: &[u8], times: usize) -> (usize, usize) {
    let Ok(tokens) = tokens(alloc, text, 0) else {
        return (0, 0);
    };
    let Ok(file) = parse(alloc, tokens.as_slice(), 0) else {
        return (0, 0);
    };
    let Ok(names) = resolve(alloc, from_ref(&file)) else {
        return (0, 0);
    };
    let mut count = 0usize;
    for _ in 0..times {
        if is_typed(alloc, &names) {
            count = count.saturating_add(1);
        }
    }
    (tokens.as_slice().len(), count)
}

/// Parses a unit of a kind, and tells it.
fn try_kind(rt: &HostRuntime, kind: Kind, size: usize, times: usize) -> io::Result<()> {
    let text = kind.text(rt.alloc(), size)?;
    let (count, parsed) = counts_of(rt.alloc(), text.as_slice(), times);
    let name = kind.name();
    println!(rt; "{name} {count} words parsed {parsed}")
}

/// Tries the rules of names on a unit that is full of names, and tells it.
fn try_naming(rt: &HostRuntime, naming: Naming, size: usize, times: usize) -> io::Result<()> {
    let text = naming.text(rt.alloc(), size)?;
    let (count, right) = named_counts_of(rt.alloc(), text.as_bytes(), times);
    let name = naming.name();
    println!(rt; "{name} {count} words resolved {right}")
}

/// Tries the rules of types on a unit whose types take work, and tells it.
fn try_typing(rt: &HostRuntime, typing: Typing, size: usize, times: usize) -> io::Result<()> {
    let text = typing.text(rt.alloc(), size)?;
    let (count, right) = typed_counts_of(rt.alloc(), text.as_bytes(), times);
    let name = typing.name();
    println!(rt; "{name} {count} words typed {right}")
}

pub(crate) fn run(rt: &HostRuntime, words: &[String]) -> io::Result<()> {
    let size = number(words, 1, 1_000);
    let times = number(words, 2, 1);
    for kind in KINDS {
        if is_asked(words, 3, kind.name()) {
            try_kind(rt, kind, size, times)?;
        }
    }
    for naming in NAMINGS {
        if is_asked(words, 3, naming.name()) {
            try_naming(rt, naming, size, times)?;
        }
    }
    for typing in TYPINGS {
        if is_asked(words, 3, typing.name()) {
            try_typing(rt, typing, size, times)?;
        }
    }
    Ok(())
}
