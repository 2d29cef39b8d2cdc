//! The shared cells.

ghost use Rattle.std.specs.Prelude.{◌≡◌, ◌++◌, map, IfOk, OnOk};
ghost use Rattle.hal_tree.specs.SeenDeclarations.{seen_attribute, seen_declared};
ghost use Rattle.hal_phrases.specs.SeenPhrases.{seen_phrase};
ghost use Rattle.hal_names.specs.SeenNames.{seen_names};
ghost use Rattle.hal_constants.specs.SeenKnown.{seen_known};
ghost use Rattle.hal_meaning.specs.Places as places;
ghost use Rattle.hal_meaning.specs.Sets as sets;
ghost use Rattle.hal_storage.specs.cells.Cells as cells;

use crate::cells::storing::Storing;
use crate::cells::storings::storing_of;
use crate::elements::{kinds_of, shape_of};
use crate::first_values::first_values;
use hal_constants::Known;
use hal_names::Names;
use hal_phrases::{Node, Phrase};
use hal_tree::{Attribute, Declared};
use hal_values::{Cell, Kind, Value};
use std::alloc::{AllocError, Global};

/// Adds cells of one group, with these kinds and first values.
#[tactic(auto, using(crate::proofs::elements::Repeated::behind, crate::proofs::elements::Repeated::none_behind, crate::proofs::cells::Celled::none_left))]
fn push_cells(
    into: &mut Vec<Cell>,
    group: u8,
    kinds: &[Kind],
    values: &[Value],
) -> Result<(), AllocError>
    ensures { OnOk result (into.new.items ≡ into.old.items ++ places.cells_from group kinds.now values.now) }
{
    let mut rest = kinds;
    let mut left = values;
    while let Some((kind, later)) = rest.split_first() {
        let Some((value, others)) = left.split_first() else {
            return Ok(());
        };
        into.push(Cell {
            kind: *kind,
            group,
            initial: value.copy(),
        })?;
        rest = later;
        left = others;
    }
    Ok(())
}

/// Adds the cells of what a phrase declares in cells of this group.
fn push_item(
    alloc: Global,
    into: &mut Vec<Cell>,
    names: &Names<'_>,
    known: &Known,
    phrase: &Phrase<'_>,
    common: &[Attribute],
    item: &Declared,
    group: u8,
) -> Result<(), AllocError>
    ensures { OnOk result (into.new.items ≡ into.old.items ++ cells.cells_of_group (seen_names names.now) (seen_known known.now) (seen_phrase phrase.now) (map seen_attribute common.now) (seen_declared item.now) group) }
{
    let shape = shape_of(alloc, names, known, phrase, common, item)?;
    let kinds = kinds_of(alloc, &shape)?;
    let values = first_values(alloc, names, known, phrase, common, item, &kinds)?;
    push_cells(into, group, &kinds, &values)
}

/// Adds the shared cells of what a phrase declares (language document, Places).
#[tactic(auto, using(crate::proofs::elements::Repeated::none_behind))]
pub fn push_cells_at(
    alloc: Global,
    into: &mut Vec<Cell>,
    names: &Names<'_>,
    known: &Known,
    phrase: &Phrase<'_>,
) -> Result<(), AllocError>
    ensures { OnOk result (into.new.items ≡ into.old.items ++ places.cells_at (seen_names names.now) (seen_known known.now) (seen_phrase phrase.now) (seen_phrase phrase.now).node) }
{
    let storing = storing_of(names, known, phrase);
    match phrase.node {
        Node::Item { common, item } => match storing {
            Storing::InCells(group) => {
                push_item(alloc, into, names, known, phrase, common, item, group)
            }
            Storing::InPlaces => Ok(()),
            Storing::ByReference => Ok(()),
            Storing::Unstored => Ok(()),
        },
        _ => Ok(()),
    }
}

/// The shared cells of a set of files, in order: their kinds, lock groups and first values (language document, Places).
#[tactic(auto, using(crate::proofs::elements::Repeated::behind, crate::proofs::elements::Repeated::none_behind))]
pub fn cells_of(alloc: Global, names: &Names<'_>, known: &Known) -> Result<Vec<Cell>, AllocError>
    ensures { IfOk result (λ list. list.items ≡ sets.cells_of (seen_names names.now) (seen_known known.now)) }
{
    let mut list = Vec::new(alloc);
    let phrases = names.declarations(alloc)?;
    for phrase in &phrases {
        push_cells_at(alloc, &mut list, names, known, phrase)?;
    }
    Ok(list)
}
