//! Where the phrases of each home stand.

ghost use Rattle.std.specs.Prelude.{◌≡◌, ◌<◌, filter, map, IfOk, OnOk};
ghost use Rattle.hal_phrases.specs.SeenPhrases.{seen_phrase};
ghost use Rattle.hal_names.specs.Spans.{AreSpans, IsNoted, is_of, or_nothing, span_of, up_to};

use hal_phrases::Phrase;
use indexmap::IndexMap;
use std::alloc::{AllocError, Global};

/// The phrases from the first to the last one of a home, by their places.
#[derive(Clone, Copy)]
pub struct Span {
    /// The place of the first one.
    pub(crate) first: usize,
    /// The place behind the last one.
    pub(crate) end: usize,
}

/// The span of the home with this number.
fn span_of(spans: &IndexMap<usize, Span>, home: usize) -> Option<Span>
    ensures { result ≡ span_of spans.now.entries home }
{
    spans.get(&home).copied()
}

/// The span of a home; of one that no phrase has, an empty one.
fn or_nothing(known: Option<Span>) -> Span
    ensures { result ≡ or_nothing known }
{
    match known {
        Some(span) => span,
        None => Span { first: 0, end: 0 },
    }
}

/// A span that was known, or none, up to this place.
fn up_to(end: usize, known: Option<Span>) -> Span
    requires counted { 0 < end }
    ensures { result ≡ up_to end known }
{
    match known {
        Some(span) => Span {
            first: span.first,
            end,
        },
        None => Span {
            first: end - 1,
            end,
        },
    }
}

/// Notes that a phrase of the home with this number stands before the place `end`, and none behind it so far.
fn note(spans: &mut IndexMap<usize, Span>, end: usize, home: usize) -> Result<(), AllocError>
    requires counted { 0 < end }
    ensures { OnOk result (IsNoted spans.old.entries spans.new.entries end home) }
{
    let span = up_to(end, span_of(spans, home));
    spans.insert(home, span)?;
    Ok(())
}

/// The spans of the homes of phrases.
pub(crate) fn spans_of(
    alloc: Global,
    phrases: &[Phrase<'_>],
) -> Result<IndexMap<usize, Span>, AllocError>
    ensures { IfOk result (λ spans. AreSpans spans.entries (map seen_phrase phrases.now)) }
{
    let mut spans = IndexMap::new(alloc);
    let mut end = 0;
    for phrase in phrases {
        end += 1;
        note(&mut spans, end, phrase.around.home)?;
    }
    Ok(spans)
}

/// Phrases that stand from the first to the last one of a home.
pub(crate) fn phrases_in<'s, 'a>(
    spans: &IndexMap<usize, Span>,
    phrases: &'s [Phrase<'a>],
    home: usize,
) -> &'s [Phrase<'a>]
    requires spans { AreSpans spans.now.entries (map seen_phrase phrases.now) }
    ensures { filter (is_of home) (map seen_phrase result.now) ≡ filter (is_of home) (map seen_phrase phrases.now) }
{
    let span = or_nothing(span_of(spans, home));
    &phrases[span.first..span.end]
}
