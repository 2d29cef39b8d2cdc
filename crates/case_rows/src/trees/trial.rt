//! Rows, `SOURCE => what it gives`, each written anew from what the program gives for its source.

use crate::trees::source::Source;
use crate::trees::way::Way;
use crate::trees::{longest, nesting, source};
use row_files::{Rows, bytes_of};
use std::alloc::{AllocError, Global};

/// What a row separates its source from its tree with.
const ARROW: &str = " => ";

/// Rows of trees.
#[derive(Clone, Copy)]
pub(crate) struct TreeRows;

impl Rows for TreeRows {
    fn written(&self, alloc: Global, way: &str, row: &str) -> Result<String, AllocError> {
        let Some((notation, said)) = row.split_once(ARROW) else {
            return String::from_str(alloc, "a row with no source");
        };
        let given = given(alloc, Way::named(way), notation, said)?;
        format!(in alloc; "{notation}{ARROW}{given}")
    }
}

/// What a source gives that is tried so.
fn given(
    alloc: Global,
    way: Option<Way>,
    notation: &str,
    said: &str,
) -> Result<String, AllocError> {
    match way {
        None => String::from_str(alloc, "a way in which nothing is tried"),
        Some(Way::Nest(source)) => nesting::given(alloc, source, notation, said),
        Some(Way::Longest) => of_longest(alloc, notation),
        Some(Way::Tree(source)) => of_tree(alloc, source, false, notation),
        Some(Way::Places(source)) => of_tree(alloc, source, true, notation),
    }
}

fn unread(alloc: Global) -> Result<String, AllocError> {
    String::from_str(alloc, "a source that can't be read")
}

/// The tree of a source that is written so.
fn of_tree(
    alloc: Global,
    source: Source,
    has_places: bool,
    notation: &str,
) -> Result<String, AllocError> {
    match bytes_of(alloc, notation)? {
        None => unread(alloc),
        Some(text) => source::given(alloc, source, has_places, text.as_slice()),
    }
}

/// The longest expression of a text that is written so.
fn of_longest(alloc: Global, notation: &str) -> Result<String, AllocError> {
    match bytes_of(alloc, notation)? {
        None => unread(alloc),
        Some(text) => longest::given(alloc, text.as_slice()),
    }
}
