//! What the program's words ask for.

/// Whether this is the first word.
pub(crate) fn is_first(words: &[String], name: &str) -> bool {
    match words.first() {
        None => false,
        Some(word) => word.as_str() == name,
    }
}

/// The number that the word at this place says, or this one.
pub(crate) fn number(words: &[String], place: usize, or: usize) -> usize {
    match words.get(place) {
        None => or,
        Some(word) => word.parse::<usize>().unwrap_or(or),
    }
}

/// Whether the word at this place is the name of a kind, or there is none.
pub(crate) fn is_asked(words: &[String], place: usize, name: &str) -> bool {
    match words.get(place) {
        None => true,
        Some(word) => word.as_str() == name,
    }
}
