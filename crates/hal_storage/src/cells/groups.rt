//! The lock groups of data.

ghost use Rattle.std.specs.Prelude.{◌≡◌, map};
ghost use Rattle.hal_tree.specs.SeenDeclarations.{seen_attribute, seen_declared};
ghost use Rattle.hal_phrases.specs.SeenPhrases.{seen_phrase};
ghost use Rattle.hal_names.specs.SeenNames.{seen_names};
ghost use Rattle.hal_constants.specs.SeenKnown.{seen_known};
ghost use Rattle.hal_meaning.specs.Places as places;
ghost use Rattle.hal_storage.specs.cells.Groups as groups;

use hal_constants::{Known, constant_of, size_of};
use hal_names::Names;
use hal_phrases::Phrase;
use hal_tree::{Attribute, Declared};

/// The lock group that an attribute gives, 0 where its number isn't known.
#[tactic(auto, using(hal_tree::proofs::MadeDeclarations::made_dimensions, hal_tree::proofs::MadeDeclarations::made_typed, hal_tree::proofs::MadeDeclarations::made_marked, hal_tree::proofs::MadeDeclarations::made_lock_group, hal_tree::proofs::MadeDeclarations::made_lock_any, hal_tree::proofs::MadeDeclarations::made_initial, hal_tree::proofs::MadeDeclarations::made_constant))]
fn group_in(
    names: &Names<'_>,
    known: &Known,
    phrase: &Phrase<'_>,
    attribute: &Attribute,
) -> Option<u8>
    ensures { result ≡ places.group_in (seen_names names.now) (seen_known known.now) (seen_phrase phrase.now) (seen_attribute attribute.now) }
{
    match attribute {
        Attribute::LockGroup { place: _, group } => {
            match size_of(15, &constant_of(group, names, known, phrase)) {
                None => Some(0),
                Some(number) => Some(number as u8),
            }
        }
        Attribute::Typed(_) => None,
        Attribute::Marked { .. } => None,
        Attribute::LockAny { .. } => None,
        Attribute::Dimensions { .. } => None,
        Attribute::Initial { .. } => None,
        Attribute::Constant { .. } => None,
    }
}

/// The first among attributes.
fn group_among(
    names: &Names<'_>,
    known: &Known,
    phrase: &Phrase<'_>,
    attributes: &[Attribute],
) -> Option<u8>
    ensures { result ≡ places.group_among (seen_names names.now) (seen_known known.now) (seen_phrase phrase.now) (map seen_attribute attributes.now) }
{
    for attribute in attributes {
        let group = group_in(names, known, phrase, attribute);
        if group.is_some() {
            return group;
        }
    }
    None
}

/// The lock group of what a phrase declares behind these common attributes.
#[tactic(auto, using(hal_tree::proofs::MadeDeclarations::made_declared))]
pub(crate) fn group_of(
    names: &Names<'_>,
    known: &Known,
    phrase: &Phrase<'_>,
    common: &[Attribute],
    item: &Declared,
) -> Option<u8>
    ensures { result ≡ groups.group_of (seen_names names.now) (seen_known known.now) (seen_phrase phrase.now) (map seen_attribute common.now) (seen_declared item.now) }
{
    let own = group_among(names, known, phrase, &item.attributes);
    if own.is_some() {
        return own;
    }
    group_among(names, known, phrase, common)
}
