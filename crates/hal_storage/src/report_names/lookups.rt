//! What rows are looked up in.

ghost use Rattle.std.specs.Prelude.{◌≡◌, IfOk};
ghost use Rattle.hal_names.specs.SeenNames.{seen_names};
ghost use Rattle.hal_constants.specs.SeenKnown.{seen_known};
ghost use Rattle.hal_storage.specs.report_names.Rows as rows;
ghost use Rattle.hal_storage.specs.report_names.SeenLookups.{seen_lookups};

use crate::events::declared_events;
use crate::own_places::{OwnPlaces, own_places};
use hal_constants::Known;
use hal_reach::{Reached, Units, processes_of};
use std::alloc::{AllocError, Global};

/// What rows are looked up in, made once for a set of files.
#[derive(Drop)]
pub struct Lookups {
    /// The units with the processes that reach them.
    pub units: Vec<Reached>,
    /// The numbers of the phrases of the processes.
    pub processes: Vec<usize>,
    /// The numbers of the phrases of the declared events.
    pub events: Vec<usize>,
    /// The own places of the processes.
    pub own: OwnPlaces,
}

/// What rows of the set of these units are looked up in.
pub(crate) fn lookups_of(
    alloc: Global,
    units: &Units<'_>,
    known: &Known,
) -> Result<Lookups, AllocError>
    ensures { IfOk result (λ lookups. seen_lookups lookups ≡ rows.lookups_of (seen_names units.now.names.now) (seen_known known.now)) }
{
    let names = units.names();
    let reached = units.reached(alloc)?;
    let processes = processes_of(alloc, names)?;
    let events = declared_events(alloc, names)?;
    let own = own_places(alloc, names, known, &reached, &processes)?;
    Ok(Lookups {
        units: reached,
        processes,
        events,
        own,
    })
}
