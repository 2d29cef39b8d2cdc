//! Ranges of copies and of array places.

ghost use Rattle.std.specs.Prelude.{◌≡◌, map};
ghost use Rattle.hal_tree.specs.Rows.{subscripts};
ghost use Rattle.hal_tree.specs.SeenExpressions.{seen_reference, seen_sub, seen_subscript};
ghost use Rattle.hal_tree.specs.SeenLeaves.{seen_name};
ghost use Rattle.hal_phrases.specs.SeenPhrases.{seen_phrase};
ghost use Rattle.hal_names.specs.SeenNames.{seen_names};
ghost use Rattle.hal_constants.specs.SeenKnown.{seen_known};
ghost use Rattle.hal_shapes.specs.Ranges as ranges;

use crate::reach::Reach;
use crate::reaches::{place_of_sub, reach_of};
use crate::selections::{copies_at, copy_subs, declared_for, extent_at};
use crate::spans::{array_subs, later_subs};
use hal_base::Place;
use hal_base::rules::NOT_CONSTANT;
use hal_constants::Known;
use hal_names::Names;
use hal_phrases::{Node, Phrase};
use hal_sizes::Extent;
use hal_tree::{Identifier, Reference, Sub, Subscript};

/// Whether this is outside.
#[tactic(auto, unfolding(crate::specs::Ranges::is_outside))]
fn is_outside(reach: Reach) -> bool
    ensures { result ≡ ranges.is_outside reach }
{
    match reach {
        Reach::Outside => true,
        _ => false,
    }
}

/// A subscript among so many places; where there are none another rule is broken.
fn range_fault(
    names: &Names<'_>,
    known: &Known,
    phrase: &Phrase<'_>,
    size: u16,
    sub: &Sub,
) -> Option<(u16, Place)>
    ensures { result ≡ ranges.range_fault (seen_names names.now) (seen_known known.now) (seen_phrase phrase.now) size (seen_sub sub.now) }
{
    if size == 0 {
        return None;
    }
    if is_outside(reach_of(names, known, phrase, size, sub)) {
        Some((NOT_CONSTANT, place_of_sub(sub)))
    } else {
        None
    }
}

/// The first of these subscripts.
#[tactic(auto, unfolding(crate::specs::Ranges::first_range, hal_tree::specs::Rows::subscripts))]
fn first_range(
    names: &Names<'_>,
    known: &Known,
    phrase: &Phrase<'_>,
    size: u16,
    subs: &[Sub],
) -> Option<(u16, Place)>
    ensures { result ≡ ranges.first_range (seen_names names.now) (seen_known known.now) (seen_phrase phrase.now) size (subscripts (map seen_sub subs.now)) }
{
    let (sub, _) = subs.split_first()?;
    range_fault(names, known, phrase, size, sub)
}

/// Subscripts of an array, dimension by dimension.
fn array_ranges(
    names: &Names<'_>,
    known: &Known,
    phrase: &Phrase<'_>,
    extent: Extent,
    subs: &[Sub],
) -> Option<(u16, Place)>
    ensures { result ≡ ranges.array_ranges (seen_names names.now) (seen_known known.now) (seen_phrase phrase.now) extent (subscripts (map seen_sub subs.now)) }
{
    let second = later_subs(subs);
    let later = first_range(names, known, phrase, extent.third, later_subs(second));
    let later = first_range(names, known, phrase, extent.second, second).or(later);
    first_range(names, known, phrase, extent.first, subs).or(later)
}

/// A subscript of data with so many copies, where that is known.
fn copy_fault(
    names: &Names<'_>,
    known: &Known,
    phrase: &Phrase<'_>,
    subscript: &Subscript,
    copies: Option<u16>,
) -> Option<(u16, Place)>
    ensures { result ≡ ranges.copy_fault (seen_names names.now) (seen_known known.now) (seen_phrase phrase.now) (seen_subscript subscript.now) copies }
{
    first_range(names, known, phrase, copies?, copy_subs(subscript))
}

/// A subscript of data with these dimensions, where they are known.
fn array_fault(
    names: &Names<'_>,
    known: &Known,
    phrase: &Phrase<'_>,
    subscript: &Subscript,
    extent: Option<Extent>,
) -> Option<(u16, Place)>
    ensures { result ≡ ranges.array_fault (seen_names names.now) (seen_known known.now) (seen_phrase phrase.now) (seen_subscript subscript.now) extent }
{
    array_ranges(names, known, phrase, extent?, array_subs(subscript))
}

/// The subscript of data that a phrase declares, and of a path.
fn selection_fault(
    names: &Names<'_>,
    known: &Known,
    phrase: &Phrase<'_>,
    path: &[Identifier],
    subscript: &Subscript,
    declared: &Phrase<'_>,
) -> Option<(u16, Place)>
    ensures { result ≡ ranges.selection_fault (seen_names names.now) (seen_known known.now) (seen_phrase phrase.now) (map seen_name path.now) (seen_subscript subscript.now) (seen_phrase declared.now) }
{
    let extent = extent_at(names, known, declared, path);
    let later = array_fault(names, known, phrase, subscript, extent);
    let copies = copies_at(names, known, declared);
    copy_fault(names, known, phrase, subscript, copies).or(later)
}

/// The subscript of a reference.
#[tactic(auto, using(hal_tree::proofs::MadeExpressions::made_reference), unfolding(crate::specs::Ranges::reference_ranges))]
fn reference_ranges(
    names: &Names<'_>,
    known: &Known,
    phrase: &Phrase<'_>,
    reference: &Reference,
) -> Option<(u16, Place)>
    ensures { result ≡ ranges.reference_ranges (seen_names names.now) (seen_known known.now) (seen_phrase phrase.now) (seen_reference reference.now) }
{
    let declared = declared_for(names, phrase, &reference.name)?;
    selection_fault(
        names,
        known,
        phrase,
        &reference.further,
        &reference.subscript,
        &declared,
    )
}

/// Where a phrase breaks rule 704 by a range of copies or of array places (language document, Kinds).
#[tactic(auto, unfolding(crate::specs::Ranges::misranged))]
pub fn misranged(names: &Names<'_>, known: &Known, phrase: &Phrase<'_>) -> Option<(u16, Place)>
    ensures { result ≡ ranges.misranged (seen_names names.now) (seen_known known.now) (seen_phrase phrase.now) (seen_phrase phrase.now).node }
{
    match phrase.node {
        Node::Reference { role: _, reference } => {
            reference_ranges(names, known, phrase, reference)
        }
        _ => None,
    }
}
