//! Parts of rows.

use row_files::bytes_of;
use std::alloc::{AllocError, Global};

/// The numbers of a part, with blanks between them; a word that is no number is passed over.
pub(crate) fn numbers(alloc: Global, part: &str) -> Result<Vec<u64>, AllocError> {
    let mut numbers = Vec::new(alloc);
    for word in part.split(" ") {
        if let Ok(number) = word.parse::<u64>() {
            numbers.push(number)?;
        }
    }
    Ok(numbers)
}

/// The size that a part says; one that says none is an empty one.
pub(crate) fn size(part: &str) -> usize {
    part.parse::<usize>().unwrap_or(0)
}

/// The bytes that a part writes as rows do, or a text that says that they can't be read.
pub(crate) fn bytes_in(alloc: Global, part: &str) -> Result<Vec<u8>, AllocError> {
    match bytes_of(alloc, part)? {
        None => b"bytes that can't be read".to_vec(alloc),
        Some(bytes) => Ok(bytes),
    }
}

/// What stands before a bar and what stands behind it, or nothing before and all behind it where there is none.
pub(crate) fn halves(part: &str) -> (&str, &str) {
    part.split_once(" | ").unwrap_or(("", part))
}
