//! The own places of blocks.

ghost use Rattle.std.specs.Prelude.{◌≡◌, [], ◌∷◌, ◌++◌, map, OnOk};
ghost use Rattle.hal_tree.specs.SeenDeclarations.{seen_attribute, seen_declared};
ghost use Rattle.hal_phrases.specs.SeenPhrases.{seen_phrase};
ghost use Rattle.hal_names.specs.SeenNames.{seen_names};
ghost use Rattle.hal_constants.specs.SeenKnown.{seen_known};
ghost use Rattle.hal_storage.specs.cells.SeenStoring.{seen_storing};
ghost use Rattle.hal_meaning.specs.Places as places;
ghost use Rattle.hal_storage.specs.own_places.Owned as owned;
ghost use Rattle.hal_storage.specs.own_places.PlacedGroups as placed;
ghost use Rattle.hal_storage.specs.own_places.SeenPlaces.{seen_place};

use crate::cells::{Storing, storing_of};
use crate::elements::{kinds_of, shape_of};
use crate::first_values::{first_values, nothing};
use crate::own_places::groups::PlacedGroups;
use crate::own_places::place::Place;
use hal_constants::Known;
use hal_kinds::is_marked;
use hal_names::Names;
use hal_phrases::{Node, Phrase};
use hal_tree::{Attribute, Declared, Mark};
use hal_values::{Kind, Value};
use std::alloc::{AllocError, Global};

/// Adds a place that holds values of a kind.
#[tactic(auto, using(crate::proofs::elements::Repeated::one_mapped))]
fn push_place(
    into: &mut Vec<Place>,
    owner: usize,
    automatic: bool,
    kind: Kind,
    initial: Value,
) -> Result<(), AllocError>
    ensures { OnOk result (map seen_place into.new.items ≡ map seen_place into.old.items ++ (places.place_from owner automatic kind initial ∷ [])) }
{
    into.push(Place {
        owner,
        kind: Some(kind),
        initial,
        automatic,
    })?;
    Ok(())
}

/// Adds places of what the phrase with this number declares, with these kinds and first values.
#[tactic(auto, using(crate::proofs::elements::Repeated::behind, crate::proofs::elements::Repeated::none_behind, crate::proofs::own_places::Owned::one_more, crate::proofs::own_places::Owned::none_left))]
fn push_places(
    into: &mut Vec<Place>,
    owner: usize,
    automatic: bool,
    kinds: &[Kind],
    values: &[Value],
) -> Result<(), AllocError>
    ensures { OnOk result (map seen_place into.new.items ≡ map seen_place into.old.items ++ places.places_from owner automatic kinds.now values.now) }
{
    let mut rest = kinds;
    let mut left = values;
    while let Some((kind, later)) = rest.split_first() {
        let Some((value, others)) = left.split_first() else {
            return Ok(());
        };
        push_place(into, owner, automatic, *kind, value.copy())?;
        rest = later;
        left = others;
    }
    Ok(())
}

/// Adds so many places of a loop's or a case's own.
#[tactic(auto, using(crate::proofs::elements::Repeated::behind, crate::proofs::elements::Repeated::none_behind, crate::proofs::own_places::Owned::one_more))]
fn push_hidden(into: &mut Vec<Place>, owner: usize, count: usize) -> Result<(), AllocError>
    ensures { OnOk result (map seen_place into.new.items ≡ map seen_place into.old.items ++ places.hidden owner count) }
{
    let mut left = count;
    while let Some(fewer) = left.checked_sub(1) {
        push_place(into, owner, false, Kind::Double, nothing(Kind::Double))?;
        left = fewer;
    }
    Ok(())
}

/// Adds the place of a reference.
#[tactic(auto, using(crate::proofs::own_places::Owned::one_more))]
fn push_reference(into: &mut Vec<Place>, owner: usize) -> Result<(), AllocError>
    ensures { OnOk result (map seen_place into.new.items ≡ map seen_place into.old.items ++ owned.reference owner) }
{
    into.push(Place {
        owner,
        kind: None,
        initial: nothing(Kind::Double),
        automatic: false,
    })?;
    Ok(())
}

/// Adds the places of what a phrase declares in own places.
#[tactic(auto, using(crate::proofs::elements::Attributes::mark_behind))]
fn push_data(
    alloc: Global,
    into: &mut Vec<Place>,
    names: &Names<'_>,
    known: &Known,
    phrase: &Phrase<'_>,
    common: &[Attribute],
    item: &Declared,
) -> Result<(), AllocError>
    ensures { OnOk result (map seen_place into.new.items ≡ map seen_place into.old.items ++ owned.places_of_data (seen_names names.now) (seen_known known.now) (seen_phrase phrase.now) (map seen_attribute common.now) (seen_declared item.now)) }
{
    let shape = shape_of(alloc, names, known, phrase, common, item)?;
    let kinds = kinds_of(alloc, &shape)?;
    let values = first_values(alloc, names, known, phrase, common, item, &kinds)?;
    let automatic = is_marked(Mark::Automatic, common, item);
    push_places(into, phrase.number, automatic, &kinds, &values)
}

/// Adds the places of what a phrase declares.
#[tactic(auto, using(crate::proofs::elements::Repeated::none_behind))]
fn push_item(
    alloc: Global,
    into: &mut Vec<Place>,
    names: &Names<'_>,
    known: &Known,
    phrase: &Phrase<'_>,
    common: &[Attribute],
    item: &Declared,
    storing: Storing,
) -> Result<(), AllocError>
    ensures { OnOk result (map seen_place into.new.items ≡ map seen_place into.old.items ++ places.places_of_item (seen_names names.now) (seen_known known.now) (seen_phrase phrase.now) (map seen_attribute common.now) (seen_declared item.now) (seen_storing storing)) }
{
    match storing {
        Storing::InPlaces => push_data(alloc, into, names, known, phrase, common, item),
        Storing::ByReference => push_reference(into, phrase.number),
        Storing::InCells(_) => Ok(()),
        Storing::Unstored => Ok(()),
    }
}

/// Adds the places of a group without a TEMPORARY variable.
#[tactic(auto, using(crate::proofs::elements::Repeated::none_behind))]
fn push_group(into: &mut Vec<Place>, groups: &PlacedGroups, group: usize) -> Result<(), AllocError>
    ensures { OnOk result (map seen_place into.new.items ≡ map seen_place into.old.items ++ placed.places_by groups.now group) }
{
    if groups.has(group) {
        push_hidden(into, group, 4)
    } else {
        Ok(())
    }
}

/// Adds the places of a phrase.
#[tactic(auto, using(crate::proofs::elements::Repeated::none_behind, crate::proofs::own_places::Marked::group_placed))]
fn push_phrase(
    alloc: Global,
    into: &mut Vec<Place>,
    names: &Names<'_>,
    known: &Known,
    groups: &PlacedGroups,
    phrase: &Phrase<'_>,
) -> Result<(), AllocError>
    requires groups { placed.ArePlaced (seen_names names.now) groups.now }
    ensures { OnOk result (map seen_place into.new.items ≡ map seen_place into.old.items ++ places.places_at (seen_names names.now) (seen_known known.now) (seen_phrase phrase.now) (seen_phrase phrase.now).node) }
{
    let storing = storing_of(names, known, phrase);
    match phrase.node {
        Node::Item { common, item } => {
            push_item(alloc, into, names, known, phrase, common, item, storing)
        }
        Node::TemporaryGroup {
            labels: _,
            variable: _,
        } => push_hidden(into, phrase.number, 5),
        Node::Group {
            labels: _,
            looping: _,
        } => push_group(into, groups, phrase.number),
        _ => Ok(()),
    }
}

/// Adds the own places that these phrases have in the block with this number.
#[tactic(auto, using(crate::proofs::elements::Repeated::behind, crate::proofs::elements::Repeated::none_behind))]
fn push_phrases(
    alloc: Global,
    into: &mut Vec<Place>,
    names: &Names<'_>,
    known: &Known,
    groups: &PlacedGroups,
    block: usize,
    phrases: &[Phrase<'_>],
) -> Result<(), AllocError>
    requires groups { placed.ArePlaced (seen_names names.now) groups.now }
    ensures { OnOk result (map seen_place into.new.items ≡ map seen_place into.old.items ++ owned.places_among (seen_names names.now) (seen_known known.now) block (map seen_phrase phrases.now)) }
{
    for phrase in phrases {
        if phrase.around.home == block {
            push_phrase(alloc, into, names, known, groups, phrase)?;
        }
    }
    Ok(())
}

/// Adds the own places of the block with this number.
#[tactic(auto, using(crate::proofs::own_places::Owned::of_home))]
pub(crate) fn push_block(
    alloc: Global,
    into: &mut Vec<Place>,
    names: &Names<'_>,
    known: &Known,
    groups: &PlacedGroups,
    block: usize,
) -> Result<(), AllocError>
    requires groups { placed.ArePlaced (seen_names names.now) groups.now }
    ensures { OnOk result (map seen_place into.new.items ≡ map seen_place into.old.items ++ places.places_in (seen_names names.now) (seen_known known.now) block) }
{
    push_phrases(
        alloc,
        into,
        names,
        known,
        groups,
        block,
        names.of_home(block),
    )
}
