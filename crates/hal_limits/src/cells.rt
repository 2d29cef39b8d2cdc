//! How many cells a set of files has.

ghost use Rattle.std.specs.Prelude.{◌≡◌, IfOk};
ghost use Rattle.hal_phrases.specs.SeenPhrases.{seen_phrase};
ghost use Rattle.hal_names.specs.SeenNames.{seen_names};
ghost use Rattle.hal_constants.specs.SeenKnown.{seen_known};
ghost use Rattle.hal_meaning.specs.Places as places;
ghost use Rattle.hal_storage.specs.own_places.PlacedGroups.{ArePlaced};
ghost use Rattle.hal_limits.specs.Counts.{capped, counted};
ghost use Rattle.hal_limits.specs.Sizes as sizes;

use crate::own::places_in;
use crate::sizes::{capped, size_of_item};
use hal_constants::Known;
use hal_names::Names;
use hal_phrases::{Node, Phrase};
use hal_reach::{is_reentrant_at, processes_of, unit_numbers};
use hal_storage::cells::{Storing, storing_of};
use hal_storage::own_places::PlacedGroups;
use std::alloc::{AllocError, Global};

/// How many shared cells a phrase declares.
#[tactic(auto, using(crate::proofs::Sized::cells_sized))]
fn cells_at(
    alloc: Global,
    names: &Names<'_>,
    known: &Known,
    phrase: &Phrase<'_>,
) -> Result<u32, AllocError>
    ensures { IfOk result (λ count. count ≡ capped (sizes.cells_of_phrase (seen_names names.now) (seen_known known.now) (seen_phrase phrase.now))) }
{
    let storing = storing_of(names, known, phrase);
    match phrase.node {
        Node::Item { common, item } => match storing {
            Storing::InCells(_) => size_of_item(alloc, names, known, phrase, common, item),
            Storing::InPlaces => Ok(0),
            Storing::ByReference => Ok(0),
            Storing::Unstored => Ok(0),
        },
        _ => Ok(0),
    }
}

/// How many shared cells a set has.
#[tactic(auto, using(crate::proofs::Celled::cells_declared), unfolding(crate::specs::Counts::counted))]
fn shared_cells(alloc: Global, names: &Names<'_>, known: &Known) -> Result<u32, AllocError>
    ensures { IfOk result (λ count. count ≡ counted (sizes.cells_of_phrase (seen_names names.now) (seen_known known.now)) 0 (seen_names names.now)) }
{
    let mut count: u32 = 0;
    let phrases = names.declarations(alloc)?;
    for phrase in &phrases {
        count = count.saturating_add(cells_at(alloc, names, known, phrase)?);
    }
    Ok(count)
}

/// How many cells the own places of a unit are, where a set has so many processes.
#[tactic(auto, using(hal_storage::proofs::elements::Capped::capped))]
fn cells_of_unit(
    alloc: Global,
    names: &Names<'_>,
    known: &Known,
    groups: &PlacedGroups,
    processes: u32,
    unit: usize,
) -> Result<u32, AllocError>
    requires groups { ArePlaced (seen_names names.now) groups.now }
    ensures { IfOk result (λ count. count ≡ capped (sizes.cells_of_unit (seen_names names.now) (seen_known known.now) processes unit)) }
{
    let count = places_in(alloc, names, known, groups, unit)?;
    if is_reentrant_at(names, unit) {
        Ok(processes.saturating_mul(count))
    } else {
        Ok(count)
    }
}

/// How many cells units have besides so many, where a set has so many processes.
#[tactic(auto, unfolding(crate::specs::Counts::counted))]
fn cells_with(
    alloc: Global,
    names: &Names<'_>,
    known: &Known,
    groups: &PlacedGroups,
    processes: u32,
    shared: u32,
    units: &[usize],
) -> Result<u32, AllocError>
    requires groups { ArePlaced (seen_names names.now) groups.now }
    ensures { IfOk result (λ count. count ≡ counted (sizes.cells_of_unit (seen_names names.now) (seen_known known.now) processes) shared units.now) }
{
    let mut count = shared;
    for unit in units {
        count = count.saturating_add(cells_of_unit(alloc, names, known, groups, processes, *unit)?);
    }
    Ok(count)
}

/// How many cells a set of files has, 4,294,967,295 where it has more (language document, Places).
#[tactic(auto, using(crate::proofs::Celled::all_cells))]
pub(crate) fn cell_count(alloc: Global, names: &Names<'_>, known: &Known) -> Result<u32, AllocError>
    ensures { IfOk result (λ count. count ≡ capped (places.cell_count (seen_names names.now) (seen_known known.now))) }
{
    let processes = capped(processes_of(alloc, names)?.len());
    let units = unit_numbers(alloc, names)?;
    let groups = PlacedGroups::of(alloc, names)?;
    let shared = shared_cells(alloc, names, known)?;
    cells_with(alloc, names, known, &groups, processes, shared, &units)
}
