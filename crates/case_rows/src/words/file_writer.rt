//! What a file gives, as rows write it: its words, each with line and column, as `N 1:2, = 1:4, 2 1:6, Close 2:2`,
//! where a name stands in capitals and a reserved word has small letters; of more than `MOST` words their number,
//! the first and the last; `nothing` where there is no word; or the broken rule and its place, as `rule 101 3:1`.

use crate::words::piece_writer;
use crate::words::trial::UNIT;
use hal_base::{Fault, Place};
use hal_lexer::Tokens;
use hal_words::{Symbol, Token, Word};
use row_files::notation_of;
use std::alloc::{AllocError, Global};

/// So many words are written out.
const MOST: usize = 40;

/// A symbol as it stands in a file.
fn sign(symbol: Symbol) -> &'static str {
    match symbol {
        Symbol::Plus => "+",
        Symbol::Minus => "-",
        Symbol::Power => "**",
        Symbol::Star => "*",
        Symbol::Point => ".",
        Symbol::Equals => "=",
        Symbol::Less => "<",
        Symbol::Greater => ">",
        Symbol::AtMost => "<=",
        Symbol::AtLeast => ">=",
        Symbol::LeftParenthesis => "(",
        Symbol::RightParenthesis => ")",
        Symbol::Comma => ",",
        Symbol::Semicolon => ";",
        Symbol::Colon => ":",
        Symbol::Dollar => "$",
        Symbol::Number => "#",
    }
}

/// A word; the usual ones stand for themselves.
fn word(alloc: Global, word: &Word) -> Result<String, AllocError> {
    match word {
        Word::Reserved(reserved) => format!(in alloc; "{reserved:?}"),
        Word::Name(name) => notation_of(alloc, name.bytes()),
        Word::Integer(number) => format!(in alloc; "{number}"),
        Word::Symbol(symbol) => String::from_str(alloc, sign(*symbol)),
        Word::Decimal(_) | Word::Text(_) | Word::Bits { .. } => piece_writer::word(alloc, word),
    }
}

/// A place in the file, or in another one.
fn place(alloc: Global, place: Place) -> Result<String, AllocError> {
    if place.unit == UNIT {
        format!(in alloc; "{}:{}", place.line, place.column)
    } else {
        format!(in alloc; "{}:{} of file {}", place.line, place.column, place.unit)
    }
}

/// A word with its place.
fn token(alloc: Global, token: &Token) -> Result<String, AllocError> {
    let word = word(alloc, &token.word)?;
    let place = place(alloc, token.place)?;
    format!(in alloc; "{word} {place}")
}

/// Words, all of them written out.
fn each(alloc: Global, tokens: &[Token]) -> Result<String, AllocError> {
    let mut line = String::new(alloc);
    for one in tokens {
        if !line.is_empty() {
            line.push_str(", ")?;
        }
        let one = token(alloc, one)?;
        line.push_str(one.as_str())?;
    }
    Ok(line)
}

/// The words of a file.
fn words(alloc: Global, tokens: &[Token]) -> Result<String, AllocError> {
    match tokens {
        [] => String::from_str(alloc, "nothing"),
        [first, .., last] if MOST < tokens.len() => {
            let count = tokens.len();
            let first = token(alloc, first)?;
            let last = token(alloc, last)?;
            format!(in alloc; "{count} words, {first} to {last}")
        }
        _ => each(alloc, tokens),
    }
}

/// What a file gives.
pub(crate) fn given(alloc: Global, given: &Result<Tokens, Fault>) -> Result<String, AllocError> {
    match given {
        Ok(tokens) => words(alloc, tokens.as_slice()),
        Err(Fault::Broken(refusal)) => {
            let place = place(alloc, refusal.place)?;
            format!(in alloc; "rule {} {place}", refusal.rule.0)
        }
        Err(Fault::Memory(_)) => Err(AllocError),
    }
}
