//! How rows are tried. Files of rows write `tree: file`: what is looked at, and what the row's source is.

use crate::trees::source::Source;

/// How a row is tried.
#[derive(Clone, Copy)]
pub(crate) enum Way {
    /// The tree that a source spells.
    Tree(Source),
    /// The same with the places of its nodes.
    Places(Source),
    /// How often parts of a source nest.
    Nest(Source),
    /// The longest expression that a text begins with.
    Longest,
}

fn source_named(name: &str) -> Option<Source> {
    match name {
        "file" => Some(Source::File),
        "inside a program" => Some(Source::Inside),
        "returned value" => Some(Source::Value),
        _ => None,
    }
}

/// The way that looks at this of a source.
fn way_of(what: &str, source: Source) -> Option<Way> {
    match what {
        "tree" => Some(Way::Tree(source)),
        "places" => Some(Way::Places(source)),
        "nest" => Some(Way::Nest(source)),
        _ => None,
    }
}

impl Way {
    /// The way that has this name.
    pub(crate) fn named(name: &str) -> Option<Way> {
        if name == "longest: expression" {
            return Some(Way::Longest);
        }
        let (what, source) = name.split_once(": ").unwrap_or((name, ""));
        match source_named(source) {
            None => None,
            Some(source) => way_of(what, source),
        }
    }
}
