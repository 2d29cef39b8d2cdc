//! How many own places blocks have.

ghost use Rattle.std.specs.Prelude.{◌≡◌, length, map, IfOk};
ghost use Rattle.hal_tree.specs.SeenDeclarations.{seen_attribute, seen_declared};
ghost use Rattle.hal_phrases.specs.SeenPhrases.{seen_phrase};
ghost use Rattle.hal_names.specs.SeenNames.{seen_names};
ghost use Rattle.hal_constants.specs.SeenKnown.{seen_known};
ghost use Rattle.hal_storage.specs.cells.SeenStoring.{seen_storing};
ghost use Rattle.hal_storage.specs.own_places.PlacedGroups.{ArePlaced};
ghost use Rattle.hal_meaning.specs.Places as places;
ghost use Rattle.hal_limits.specs.Counts.{capped, counted};
ghost use Rattle.hal_limits.specs.Sizes as sizes;

use crate::sizes::size_of_item;
use hal_constants::Known;
use hal_names::Names;
use hal_phrases::{Node, Phrase};
use hal_storage::cells::{Storing, storing_of};
use hal_storage::own_places::PlacedGroups;
use hal_tree::{Attribute, Declared};
use std::alloc::{AllocError, Global};

/// How many places what a phrase declares has.
#[tactic(auto, using(crate::proofs::Sized::places_sized))]
fn places_of_item(
    alloc: Global,
    names: &Names<'_>,
    known: &Known,
    phrase: &Phrase<'_>,
    common: &[Attribute],
    item: &Declared,
    storing: Storing,
) -> Result<u32, AllocError>
    ensures { IfOk result (λ count. count ≡ capped (length (places.places_of_item (seen_names names.now) (seen_known known.now) (seen_phrase phrase.now) (map seen_attribute common.now) (seen_declared item.now) (seen_storing storing)))) }
{
    match storing {
        Storing::InPlaces => size_of_item(alloc, names, known, phrase, common, item),
        Storing::ByReference => Ok(1),
        Storing::InCells(_) => Ok(0),
        Storing::Unstored => Ok(0),
    }
}

/// How many places a group without a TEMPORARY variable has.
fn places_of_group(groups: &PlacedGroups, group: usize) -> u32
    ensures { result ≡ sizes.places_by groups.now group }
{
    if groups.has(group) { 4 } else { 0 }
}

/// How many places a phrase has.
#[tactic(auto, using(crate::proofs::Sized::group_sized))]
fn places_at(
    alloc: Global,
    names: &Names<'_>,
    known: &Known,
    groups: &PlacedGroups,
    phrase: &Phrase<'_>,
) -> Result<u32, AllocError>
    requires groups { ArePlaced (seen_names names.now) groups.now }
    ensures { IfOk result (λ count. count ≡ capped (length (places.places_at (seen_names names.now) (seen_known known.now) (seen_phrase phrase.now) (seen_phrase phrase.now).node))) }
{
    let storing = storing_of(names, known, phrase);
    match phrase.node {
        Node::Item { common, item } => {
            places_of_item(alloc, names, known, phrase, common, item, storing)
        }
        Node::TemporaryGroup {
            labels: _,
            variable: _,
        } => Ok(5),
        Node::Group {
            labels: _,
            looping: _,
        } => Ok(places_of_group(groups, phrase.number)),
        _ => Ok(0),
    }
}

/// How many places a phrase has in the block with this number.
fn places_at_in(
    alloc: Global,
    names: &Names<'_>,
    known: &Known,
    groups: &PlacedGroups,
    block: usize,
    phrase: &Phrase<'_>,
) -> Result<u32, AllocError>
    requires groups { ArePlaced (seen_names names.now) groups.now }
    ensures { IfOk result (λ count. count ≡ capped (sizes.places_of_phrase (seen_names names.now) (seen_known known.now) block (seen_phrase phrase.now))) }
{
    if phrase.around.home == block {
        places_at(alloc, names, known, groups, phrase)
    } else {
        Ok(0)
    }
}

/// How many own places these phrases have in the block with this number.
#[tactic(auto, unfolding(crate::specs::Counts::counted))]
fn places_among(
    alloc: Global,
    names: &Names<'_>,
    known: &Known,
    groups: &PlacedGroups,
    block: usize,
    phrases: &[Phrase<'_>],
) -> Result<u32, AllocError>
    requires groups { ArePlaced (seen_names names.now) groups.now }
    ensures { IfOk result (λ count. count ≡ counted (sizes.places_of_phrase (seen_names names.now) (seen_known known.now) block) 0 (map seen_phrase phrases.now)) }
{
    let mut count: u32 = 0;
    for phrase in phrases {
        count = count.saturating_add(places_at_in(alloc, names, known, groups, block, phrase)?);
    }
    Ok(count)
}

/// How many own places the block with this number has, 4,294,967,295 where it has more (language document, Places).
#[tactic(auto, using(crate::proofs::Celled::places_of_home))]
pub(crate) fn places_in(
    alloc: Global,
    names: &Names<'_>,
    known: &Known,
    groups: &PlacedGroups,
    block: usize,
) -> Result<u32, AllocError>
    requires groups { ArePlaced (seen_names names.now) groups.now }
    ensures { IfOk result (λ count. count ≡ capped (length (places.places_in (seen_names names.now) (seen_known known.now) block))) }
{
    places_among(alloc, names, known, groups, block, names.of_home(block))
}
