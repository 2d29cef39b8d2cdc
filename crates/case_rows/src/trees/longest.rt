//! Rows of texts: the longest expression that the words of a text begin with, and how many words stand behind it.

use crate::trees::pen::{Pen, UNIT};
use crate::trees::show_expressions::expression;
use crate::trees::source::write_fault;
use hal_lexer::tokens;
use hal_words::Token;
use std::alloc::{AllocError, Global};

/// Writes the longest expression that words begin with, and how many words are behind it.
fn write_longest(alloc: Global, words: &[Token], pen: &mut Pen) {
    match hal_parse_expr::expression(alloc, words) {
        Err(_) => pen.cut(),
        Ok(None) => pen.word("none"),
        Ok(Some((tree, rest))) => {
            expression(&tree, pen);
            pen.number(rest.len() as u64);
        }
    }
}

/// What a text gives.
pub(crate) fn given(alloc: Global, text: &[u8]) -> Result<String, AllocError> {
    let mut pen = Pen::new(alloc, false);
    match tokens(alloc, text, UNIT) {
        Err(fault) => write_fault(&fault, &mut pen),
        Ok(words) => write_longest(alloc, words.as_slice(), &mut pen),
    }
    pen.into_text()
}
