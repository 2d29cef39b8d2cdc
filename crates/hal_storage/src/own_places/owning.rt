//! The own places of processes.

ghost use Rattle.std.specs.Prelude.{◌≡◌, map, IfOk};
ghost use Rattle.hal_names.specs.SeenNames.{seen_names};
ghost use Rattle.hal_constants.specs.SeenKnown.{seen_known};
ghost use Rattle.hal_meaning.specs.Bodies.{processes_of};
ghost use Rattle.hal_reach.specs.Calls.{reached_of};
ghost use Rattle.hal_reach.specs.SeenUnits.{seen_reached};
ghost use Rattle.hal_storage.specs.own_places.Owned as owned;
ghost use Rattle.hal_storage.specs.own_places.PlacedGroups as placed;
ghost use Rattle.hal_storage.specs.own_places.SeenPlaces.{seen_own, seen_place, seen_places};

use crate::own_places::groups::PlacedGroups;
use crate::own_places::place::{OwnPlaces, Place};
use crate::own_places::places::push_block;
use crate::own_places::sole::{are_several, is_sole};
use hal_constants::Known;
use hal_names::Names;
use hal_reach::Reached;
use std::alloc::{AllocError, Global};

/// The common places, by the units and the processes that reach each of them.
#[tactic(auto, using(crate::proofs::elements::Repeated::behind, crate::proofs::elements::Repeated::none_behind), unfolding(crate::specs::own_places::Owned::common_among))]
fn common_places(
    alloc: Global,
    names: &Names<'_>,
    known: &Known,
    groups: &PlacedGroups,
    units: &[Reached],
) -> Result<Vec<Place>, AllocError>
    requires groups { placed.ArePlaced (seen_names names.now) groups.now }
    ensures { IfOk result (λ list. map seen_place list.items ≡ owned.common_among (seen_names names.now) (seen_known known.now) (map seen_reached units.now)) }
{
    let mut list = Vec::new(alloc);
    for unit in units {
        if are_several(&unit.processes) {
            push_block(alloc, &mut list, names, known, groups, unit.unit)?;
        }
    }
    Ok(list)
}

/// The other places of a process.
#[tactic(auto, using(crate::proofs::elements::Repeated::behind, crate::proofs::elements::Repeated::none_behind), unfolding(crate::specs::own_places::Owned::sole_among))]
fn sole_places(
    alloc: Global,
    names: &Names<'_>,
    known: &Known,
    groups: &PlacedGroups,
    units: &[Reached],
    all: &[usize],
    process: usize,
) -> Result<Vec<Place>, AllocError>
    requires groups { placed.ArePlaced (seen_names names.now) groups.now }
    ensures { IfOk result (λ list. map seen_place list.items ≡ owned.sole_among (seen_names names.now) (seen_known known.now) (map seen_reached units.now) all.now process) }
{
    let mut list = Vec::new(alloc);
    for unit in units {
        if is_sole(all, process, &unit.processes) {
            push_block(alloc, &mut list, names, known, groups, unit.unit)?;
        }
    }
    Ok(list)
}

/// Those of each process.
fn all_sole_places(
    alloc: Global,
    names: &Names<'_>,
    known: &Known,
    groups: &PlacedGroups,
    units: &[Reached],
    all: &[usize],
) -> Result<Vec<Vec<Place>>, AllocError>
    requires groups { placed.ArePlaced (seen_names names.now) groups.now }
    ensures { IfOk result (λ lists. map seen_places lists.items ≡ map (owned.sole_among (seen_names names.now) (seen_known known.now) (map seen_reached units.now) all.now) all.now) }
{
    let mut lists = Vec::new(alloc);
    for process in all {
        lists.push(sole_places(alloc, names, known, groups, units, all, *process)?)?;
    }
    Ok(lists)
}

/// The own places of the processes of a set of files, in order, by the units with the processes that reach them, and the processes (language document,
/// Places).
#[tactic(auto, using(crate::proofs::own_places::Owned::common_seen, crate::proofs::own_places::Owned::sole_seen))]
pub(crate) fn own_places(
    alloc: Global,
    names: &Names<'_>,
    known: &Known,
    units: &[Reached],
    all: &[usize],
) -> Result<OwnPlaces, AllocError>
    requires units { map seen_reached units.now ≡ reached_of (seen_names names.now) }
    requires all { all.now ≡ processes_of (seen_names names.now) }
    ensures { IfOk result (λ own. seen_own own ≡ owned.own_places (seen_names names.now) (seen_known known.now)) }
{
    let groups = PlacedGroups::of(alloc, names)?;
    Ok(OwnPlaces {
        common: common_places(alloc, names, known, &groups, units)?,
        processes: all_sole_places(alloc, names, known, &groups, units, all)?,
    })
}
