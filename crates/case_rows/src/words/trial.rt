//! Rows of texts, `TEXT | what it begins with | how many bytes that takes`, which are tried as `text`; and rows of files,
//! `FILE | what it gives`, which are tried as `file`, or as `file behind ..` where the row leaves out how its file begins.

use crate::words::beginning::beginning_of;
use crate::words::{file_writer, piece_writer};
use hal_lexer::tokens;
use hal_pieces::first_piece;
use row_files::{Rows, bytes_of};
use std::alloc::{AllocError, Global};

/// What a row separates its fields with.
const BAR: &str = " | ";

/// The number of each file.
pub(crate) const UNIT: u32 = 7;

/// Rows of words.
#[derive(Clone, Copy)]
pub(crate) struct WordRows;

impl Rows for WordRows {
    fn written(&self, alloc: Global, way: &str, row: &str) -> Result<String, AllocError> {
        let Some((notation, _)) = row.split_once(BAR) else {
            return String::from_str(alloc, "a row with nothing to try");
        };
        match bytes_of(alloc, notation)? {
            None => String::from_str(alloc, "bytes that can't be read"),
            Some(bytes) => tried(alloc, way, notation, bytes.as_slice()),
        }
    }
}

/// The row of these bytes, tried in this way.
fn tried(alloc: Global, way: &str, notation: &str, bytes: &[u8]) -> Result<String, AllocError> {
    if way == "text" {
        return of_text(alloc, notation, bytes);
    }
    match beginning_of(alloc, way)? {
        None => String::from_str(alloc, "a way in which nothing is tried"),
        Some(file) => of_file(alloc, file, notation, bytes),
    }
}

/// Whether it is said what the text begins with: it isn't empty, and begins with no blank and no comment.
fn is_asked(text: &[u8]) -> bool {
    !matches!(text, [] | [b' ' | b'\t', ..] | [b'/', b'*', ..])
}

/// The row of a text.
fn of_text(alloc: Global, notation: &str, text: &[u8]) -> Result<String, AllocError> {
    if !is_asked(text) {
        return String::from_str(alloc, "a text that isn't asked");
    }
    let (piece, size) = first_piece(text);
    let piece = piece_writer::piece(alloc, &piece)?;
    format!(in alloc; "{notation}{BAR}{piece}{BAR}{size}")
}

/// The row of a file that begins in this way.
fn of_file(
    alloc: Global,
    beginning: String,
    notation: &str,
    rest: &[u8],
) -> Result<String, AllocError> {
    let mut file = beginning.into_bytes();
    file.extend_from_slice(rest)?;
    let given = tokens(alloc, file.as_slice(), UNIT);
    let given = file_writer::given(alloc, &given)?;
    format!(in alloc; "{notation}{BAR}{given}")
}
