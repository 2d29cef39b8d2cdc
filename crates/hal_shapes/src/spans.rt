//! What subscripts choose of an array, and whether its cells follow each other in storage.

ghost use Rattle.std.specs.Prelude.{◌≡◌, map};
ghost use Rattle.hal_tree.specs.Rows.{subscripts};
ghost use Rattle.hal_tree.specs.SeenExpressions.{seen_sub, seen_subscript};
ghost use Rattle.hal_phrases.specs.SeenPhrases.{seen_phrase};
ghost use Rattle.hal_names.specs.SeenNames.{seen_names};
ghost use Rattle.hal_constants.specs.SeenKnown.{seen_known};
ghost use Rattle.hal_shapes.specs.Spans as spans;

use crate::reach::Reach;
use crate::reaches::reach_of;
use crate::span::Span;
use hal_constants::Known;
use hal_names::Names;
use hal_phrases::Phrase;
use hal_sizes::Extent;
use hal_tree::{Sub, Subscript};

/// A whole dimension; where there is none it is one place that leaves none.
fn whole_span(size: u16) -> Span
    ensures { result ≡ spans.whole_span size }
{
    if size == 0 {
        Span {
            size: 1,
            length: 1,
            kept: false,
        }
    } else {
        Span {
            size,
            length: size,
            kept: true,
        }
    }
}

/// What is reached of a dimension, where that is inside.
#[tactic(auto, unfolding(crate::specs::Spans::span_by))]
fn span_by(size: u16, reach: Reach) -> Option<Span>
    ensures { result ≡ spans.span_by size reach }
{
    match reach {
        Reach::One => Some(Span {
            size,
            length: 1,
            kept: false,
        }),
        Reach::Many(length) => Some(Span {
            size,
            length,
            kept: true,
        }),
        _ => None,
    }
}

/// What the first of these subscripts chooses of a dimension; without one it is whole.
#[tactic(auto, unfolding(crate::specs::Spans::first_span, hal_tree::specs::Rows::subscripts))]
fn first_span(
    names: &Names<'_>,
    known: &Known,
    phrase: &Phrase<'_>,
    size: u16,
    subs: &[Sub],
) -> Option<Span>
    ensures { result ≡ spans.first_span (seen_names names.now) (seen_known known.now) (seen_phrase phrase.now) size (subscripts (map seen_sub subs.now)) }
{
    match subs.split_first() {
        None => Some(whole_span(size)),
        Some((sub, _)) => span_by(size, reach_of(names, known, phrase, size, sub)),
    }
}

/// The subscripts behind the first one.
#[tactic(auto, unfolding(crate::specs::Spans::later_subs, hal_tree::specs::Rows::subscripts))]
pub(crate) fn later_subs<'a>(subs: &'a [Sub]) -> &'a [Sub]
    ensures { subscripts (map seen_sub result.now) ≡ spans.later_subs (subscripts (map seen_sub subs.now)) }
{
    match subs.split_first() {
        None => subs,
        Some((_, others)) => others,
    }
}

/// Whether two arrays have the same dimensions.
pub(crate) fn same_extent(one: Extent, other: Extent) -> bool
    ensures { result ≡ spans.same_extent one other }
{
    one.first == other.first && (one.second == other.second && one.third == other.third)
}

/// What is left where so much is chosen of a dimension, before what is left of the others.
fn left_before(span: Span, others: Extent) -> Extent
    ensures { result ≡ spans.left_before span others }
{
    if span.kept {
        Extent {
            first: span.length,
            second: others.first,
            third: others.second,
        }
    } else {
        others
    }
}

/// The dimensions that are left.
fn left_of(first: Span, second: Span, third: Span) -> Extent
    ensures { result ≡ spans.left_of first second third }
{
    let nothing = Extent {
        first: 0,
        second: 0,
        third: 0,
    };
    left_before(first, left_before(second, left_before(third, nothing)))
}

/// Whether the chosen cells follow each other: one place before some dimension, all places behind it.
fn follows(first: Span, second: Span, third: Span) -> bool
    ensures { result ≡ spans.follows first second third }
{
    let rest_is_full = third.length == third.size;
    (second.length == second.size && rest_is_full)
        || ((first.length == 1 && rest_is_full) || (first.length == 1 && second.length == 1))
}

/// Whether three choices leave these dimensions, of cells that follow each other; true where a choice isn't inside.
#[tactic(auto, unfolding(crate::specs::Spans::leave))]
fn leave(wanted: Extent, first: Option<Span>, second: Option<Span>, third: Option<Span>) -> bool
    ensures { result ≡ spans.leave wanted first second third }
{
    match (first, second, third) {
        (Some(first), Some(second), Some(third)) => {
            same_extent(wanted, left_of(first, second, third)) && follows(first, second, third)
        }
        _ => true,
    }
}

/// The subscripts of array places, of data that have an array: those with the mark, else those without one.
#[tactic(auto, using(hal_kinds::proofs::Lists::subscripts_counted, hal_tree::proofs::MadeExpressions::made_unsubscripted, hal_tree::proofs::MadeExpressions::made_by_name, hal_tree::proofs::MadeExpressions::made_by_integer, hal_tree::proofs::MadeExpressions::made_by_parts), unfolding(crate::specs::Spans::array_subs, hal_tree::specs::Rows::subscripts))]
pub(crate) fn array_subs<'a>(subscript: &'a Subscript) -> &'a [Sub]
    ensures { subscripts (map seen_sub result.now) ≡ spans.array_subs (seen_subscript subscript.now) }
{
    match subscript {
        Subscript::None => &[],
        Subscript::Name { .. } => &[],
        Subscript::Integer { .. } => &[],
        Subscript::Parts {
            place: _,
            copies: _,
            arrays,
            components,
        } => {
            if arrays.len() == 0 {
                components
            } else {
                arrays
            }
        }
    }
}

/// Whether what these subscripts choose of an array has the dimensions that are wanted, and cells that follow each other.
pub(crate) fn selects(
    names: &Names<'_>,
    known: &Known,
    phrase: &Phrase<'_>,
    wanted: Extent,
    extent: Extent,
    subs: &[Sub],
) -> bool
    ensures { result ≡ spans.selects (seen_names names.now) (seen_known known.now) (seen_phrase phrase.now) wanted extent (subscripts (map seen_sub subs.now)) }
{
    let second = later_subs(subs);
    leave(
        wanted,
        first_span(names, known, phrase, extent.first, subs),
        first_span(names, known, phrase, extent.second, second),
        first_span(names, known, phrase, extent.third, later_subs(second)),
    )
}
