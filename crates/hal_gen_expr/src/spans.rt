//! Several places of a dimension that a subscript chooses: they are constant and lie inside it.

ghost use Rattle.std.specs.Prelude.{◌≡◌, map, min};
ghost use Rattle.hal_states.specs.Numbers as numbers;
ghost use Rattle.hal_tree.specs.Rows.{subscripts};
ghost use Rattle.hal_tree.specs.SeenExpressions.{seen_sub};
ghost use Rattle.hal_storage.specs.elements.SeenComponents.{seen_shape};
ghost use Rattle.hal_meaning.specs.Expressions.{copies_of};
ghost use Rattle.hal_meaning.specs.Variables.{dimensions_of};
ghost use Rattle.hal_gen_expr.specs.SeenSites.{seen_site, IsSite};
ghost use Rattle.hal_gen_expr.specs.Spans as spans;

use crate::constants::{integer_of, place_of};
use crate::led::stride;
use crate::site::Site;
use hal_storage::elements::{Shape, copy_size};
use hal_tree::Sub;

/// Places of a dimension, from one to another, as they are counted from 1.
#[derive(Clone, Copy)]
pub struct Span {
    pub first: i64,
    pub last: i64,
}

/// The places from one to another.
fn from_to(first: Option<i32>, last: Option<i32>) -> Option<Span>
    ensures { result ≡ spans.from_to first last }
{
    let first = first?;
    let last = last?;
    Some(Span {
        first: i64::from(first),
        last: i64::from(last),
    })
}

/// So many places at one.
fn so_many_at(count: Option<i32>, first: Option<i32>) -> Option<Span>
    ensures { result ≡ spans.so_many_at count first }
{
    let count = count?;
    let first = first?;
    Some(Span {
        first: i64::from(first),
        last: i64::from(first) + i64::from(count) - 1,
    })
}

/// The places of so many that a subscript chooses, where it chooses several, which are constant (language document, Subscripts).
#[tactic(auto, using(hal_tree::proofs::MadeExpressions::made_every, hal_tree::proofs::MadeExpressions::made_one, hal_tree::proofs::MadeExpressions::made_range, hal_tree::proofs::MadeExpressions::made_portion))]
fn span_of(sub: &Sub, size: u16, site: &Site<'_>) -> Option<Span>
    requires site { IsSite site.now }
    ensures { result ≡ spans.span_of (seen_site site.now) size (seen_sub sub.now) }
{
    match sub {
        Sub::Every { place: _ } => Some(Span {
            first: 1,
            last: i64::from(size),
        }),
        Sub::One { .. } => None,
        Sub::Range { first, last } => {
            from_to(place_of(first, size, site), place_of(last, size, site))
        }
        Sub::Portion { count, first } => {
            so_many_at(integer_of(count, site), place_of(first, size, site))
        }
    }
}

/// Whether a place lies in a dimension.
fn is_inside(size: u16, place: i64) -> bool
    ensures { result ≡ numbers.is_inside size place }
{
    !(place < 1) && !(i64::from(size) < place)
}

/// How many places lie before the nearest one of a dimension.
fn before_nearest(size: u16, place: i64) -> u32
    ensures { result ≡ numbers.before_nearest size place }
{
    let nearest = 1_i64.max(place.min(i64::from(size)));
    (nearest - 1).unsigned_abs() as u32
}

/// How many places lie before several, where they lie inside.
fn places_before_span(size: u16, span: Span) -> Option<u32>
    ensures { result ≡ spans.places_before_span size span }
{
    if is_inside(size, span.first) && is_inside(size, span.last) {
        Some(before_nearest(size, span.first))
    } else {
        None
    }
}

/// How many places lie before those that a subscript chooses, where it chooses several, which are constant and lie inside.
pub(crate) fn places_skipped(sub: &Sub, size: u16, site: &Site<'_>) -> Option<u32>
    requires site { IsSite site.now }
    ensures { result ≡ spans.places_skipped (seen_site site.now) size (seen_sub sub.now) }
{
    let span = span_of(sub, size, site)?;
    places_before_span(size, span)
}

/// How many elements lie before those that a subscript of a dimension chooses as several, 4,294,967,295 where there are more.
fn elements_skipped(sub: &Sub, size: u16, stride: u32, site: &Site<'_>) -> u32
    requires site { IsSite site.now }
    ensures { result ≡ min (spans.elements_behind stride (spans.places_skipped (seen_site site.now) size (seen_sub sub.now))) 4294967295 }
{
    match places_skipped(sub, size, site) {
        None => 0,
        Some(places) => places.saturating_mul(stride),
    }
}

/// The same of the subscripts of copies.
#[tactic(auto, using(crate::proofs::Skipped::copies_capped), unfolding(hal_tree::specs::Rows::subscripts))]
pub(crate) fn copies_skipped(subs: &[Sub], shape: &Shape, site: &Site<'_>) -> u32
    requires site { IsSite site.now }
    ensures { result ≡ min (spans.skips (seen_site site.now) (subscripts (map seen_sub subs.now)) (copies_of (seen_shape shape.now))) 4294967295 }
{
    let Some((first, _)) = subs.split_first() else {
        return 0;
    };
    let Some(count) = shape.copies else {
        return 0;
    };
    elements_skipped(first, count, copy_size(&shape.components), site)
}

/// The same of those of an array of these sizes.
#[tactic(auto, using(crate::proofs::Skipped::next_capped), unfolding(hal_tree::specs::Rows::subscripts))]
pub(crate) fn places_of_array_skipped(subs: &[Sub], sizes: &[u16], site: &Site<'_>) -> u32
    requires site { IsSite site.now }
    ensures { result ≡ min (spans.skips (seen_site site.now) (subscripts (map seen_sub subs.now)) (dimensions_of sizes.now)) 4294967295 }
{
    let Some((first, more)) = subs.split_first() else {
        return 0;
    };
    let Some((size, others)) = sizes.split_first() else {
        return 0;
    };
    let here = elements_skipped(first, *size, stride(others), site);
    here.saturating_add(places_of_array_skipped(more, others, site))
}
