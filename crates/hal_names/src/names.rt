//! The names of a set of files.

ghost use Rattle.std.specs.Prelude.{◌≡◌, [], map};
ghost use Rattle.hal_phrases.specs.SeenPhrases.{seen_phrase};
ghost use Rattle.hal_names.specs.Declarations.{with_places};
ghost use Rattle.hal_names.specs.Index.{IsIndex};
ghost use Rattle.hal_names.specs.Spans.{AreSpans};
ghost use Rattle.hal_names.specs.Tasks.{with_homes};

use crate::key::Key;
use crate::spans::Span;
use hal_phrases::Phrase;
use indexmap::IndexMap;

/// The phrases of a set of files, and which of them declares each name. A contract sees the list of the phrases.
#[derive(Drop)]
pub struct Names<'a> {
    pub(crate) phrases: Vec<Phrase<'a>>,
    /// The places of those phrases that declare something.
    pub(crate) declared: Vec<usize>,
    pub(crate) index: IndexMap<Key, usize>,
    /// The units in which TASKs stand directly, one for each TASK.
    pub(crate) tasks: Vec<usize>,
    /// Where the phrases of each home stand.
    pub(crate) spans: IndexMap<usize, Span>,
    ghost declaring: { declared.items ≡ with_places [] 0 (map seen_phrase phrases.items) },
    ghost indexed: { IsIndex index.entries (map seen_phrase phrases.items) },
    ghost tasked: { tasks.items ≡ with_homes [] (map seen_phrase phrases.items) },
    ghost spanned: { AreSpans spans.entries (map seen_phrase phrases.items) },
}
