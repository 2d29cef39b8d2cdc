//! What a text begins with, as rows write it: `integer 7`, `decimal 40` in thousandths, `name STEP_2`,
//! `reserved Close`, `symbol Power`, `text [DON'T]`, `bits 8 255` with their number and what they write,
//! `replacement [N + 2]`, `open`, or the rule that is broken, as `rule 203`.

use hal_pieces::{Piece, literal_in};
use hal_words::{Literal, Word};
use row_files::notation_of;
use std::alloc::{AllocError, Global};

/// A word.
pub(crate) fn word(alloc: Global, word: &Word) -> Result<String, AllocError> {
    match word {
        Word::Reserved(reserved) => format!(in alloc; "reserved {reserved:?}"),
        Word::Name(name) => {
            let name = notation_of(alloc, name.bytes())?;
            format!(in alloc; "name {name}")
        }
        Word::Integer(number) => format!(in alloc; "integer {number}"),
        Word::Decimal(thousandths) => format!(in alloc; "decimal {thousandths}"),
        Word::Text(text) => literal(alloc, &text.literal()),
        Word::Bits { len, word } => format!(in alloc; "bits {len} {word}"),
        Word::Symbol(symbol) => format!(in alloc; "symbol {symbol:?}"),
    }
}

/// A text literal.
fn literal(alloc: Global, literal: &Literal) -> Result<String, AllocError> {
    let text = notation_of(alloc, literal.bytes())?;
    format!(in alloc; "text [{text}]")
}

/// What a text begins with.
pub(crate) fn piece(alloc: Global, piece: &Piece<'_>) -> Result<String, AllocError> {
    match piece {
        Piece::Word(found) => word(alloc, found),
        Piece::Text(text) => match literal_in(text) {
            Ok(text) => literal(alloc, &text),
            Err(rule) => format!(in alloc; "rule {}", rule.0),
        },
        Piece::Replacement(text) => {
            let text = notation_of(alloc, text)?;
            format!(in alloc; "replacement [{text}]")
        }
        Piece::Open => String::from_str(alloc, "open"),
        Piece::Wrong(rule) => format!(in alloc; "rule {}", rule.0),
    }
}
