//! Whether a reference is an array with the kind and the dimensions that are wanted.

ghost use Rattle.std.specs.Prelude.{◌≡◌, map};
ghost use Rattle.hal_tree.specs.SeenExpressions.{seen_reference, seen_subscript};
ghost use Rattle.hal_phrases.specs.SeenPhrases.{seen_phrase};
ghost use Rattle.hal_names.specs.SeenNames.{seen_names};
ghost use Rattle.hal_constants.specs.SeenKnown.{seen_known};
ghost use Rattle.hal_shapes.specs.Shapes as shapes;

use crate::selections::{copies_chosen, declared_for, extent_at, kind_at};
use crate::spans::{array_subs, same_extent, selects};
use hal_constants::Known;
use hal_names::Names;
use hal_phrases::Phrase;
use hal_sizes::Extent;
use hal_tree::{Reference, Subscript};
use hal_values::Kind;

/// Whether two kinds are the same.
#[tactic(auto, unfolding(crate::specs::Shapes::same_kind))]
fn same_kind(one: Kind, other: Kind) -> bool
    ensures { result ≡ shapes.same_kind one other }
{
    match (one, other) {
        (Kind::Single, Kind::Single) => true,
        (Kind::Double, Kind::Double) => true,
        (Kind::Bits(m), Kind::Bits(n)) => m == n,
        (Kind::Text(m), Kind::Text(n)) => m == n,
        _ => false,
    }
}

/// The same, as far as both are known.
#[tactic(auto, unfolding(crate::specs::Shapes::may_equal))]
pub(crate) fn may_equal(one: Option<Kind>, other: Option<Kind>) -> bool
    ensures { result ≡ shapes.may_equal one other }
{
    match (one, other) {
        (Some(one), Some(other)) => same_kind(one, other),
        _ => true,
    }
}

/// Whether two arrays have the same dimensions, as far as they are known.
#[tactic(auto, unfolding(crate::specs::Shapes::may_match))]
pub(crate) fn may_match(one: Option<Extent>, other: Option<Extent>) -> bool
    ensures { result ≡ shapes.may_match one other }
{
    match (one, other) {
        (Some(one), Some(other)) => same_extent(one, other),
        _ => true,
    }
}

/// Whether no copy is left beside another one.
#[tactic(auto, unfolding(crate::specs::Shapes::is_lone))]
fn is_lone(copies: Option<u16>) -> bool
    ensures { result ≡ shapes.is_lone copies }
{
    match copies {
        Some(count) => count == 0,
        None => true,
    }
}

/// Whether a choice from an array has these dimensions.
#[tactic(auto, unfolding(crate::specs::Shapes::chooses))]
fn chooses(
    names: &Names<'_>,
    known: &Known,
    phrase: &Phrase<'_>,
    wanted: Option<Extent>,
    extent: Option<Extent>,
    subscript: &Subscript,
) -> bool
    ensures { result ≡ shapes.chooses (seen_names names.now) (seen_known known.now) (seen_phrase phrase.now) wanted extent (seen_subscript subscript.now) }
{
    match (wanted, extent) {
        (Some(wanted), Some(extent)) => {
            selects(names, known, phrase, wanted, extent, array_subs(subscript))
        }
        _ => true,
    }
}

/// Whether a reference is an array of this kind and these dimensions.
#[tactic(auto, using(hal_tree::proofs::MadeExpressions::made_reference), unfolding(crate::specs::Shapes::fits_array))]
pub(crate) fn fits_array(
    names: &Names<'_>,
    known: &Known,
    phrase: &Phrase<'_>,
    kind: Option<Kind>,
    wanted: Option<Extent>,
    reference: &Reference,
) -> bool
    ensures { result ≡ shapes.fits_array (seen_names names.now) (seen_known known.now) (seen_phrase phrase.now) kind wanted (seen_reference reference.now) }
{
    let Some(declared) = declared_for(names, phrase, &reference.name) else {
        return true;
    };
    let copies = copies_chosen(names, known, phrase, &reference.subscript, &declared);
    let own = kind_at(names, known, &declared, &reference.further);
    let extent = extent_at(names, known, &declared, &reference.further);
    is_lone(copies)
        && (may_equal(own, kind)
            && chooses(names, known, phrase, wanted, extent, &reference.subscript))
}
