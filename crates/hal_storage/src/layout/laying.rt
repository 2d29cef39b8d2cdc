//! The layout of a set of files.

ghost use Rattle.std.specs.Prelude.{◌≡◌, ◌≤◌, ◌+◌, IfOk, length, map};
ghost use Rattle.hal_base.specs.declared.limits.TheConstants.{CELL_LIMIT, PROCESS_LIMIT};
ghost use Rattle.hal_names.specs.Laws.{IsCounted};
ghost use Rattle.hal_names.specs.SeenNames.{seen_names};
ghost use Rattle.hal_constants.specs.SeenKnown.{seen_known};
ghost use Rattle.hal_meaning.specs.Bodies as bodies;
ghost use Rattle.hal_meaning.specs.Events as meant;
ghost use Rattle.hal_meaning.specs.Places as places;
ghost use Rattle.hal_storage.specs.event_expressions.SeenStated.{seen_stated};
ghost use Rattle.hal_storage.specs.layout.Layouts as layouts;
ghost use Rattle.hal_storage.specs.layout.SeenLayout.{seen_layout};

use crate::cells::cells_of;
use crate::event_expressions::{Stated, stated_of};
use crate::events::{declared_events, event_starts};
use crate::layout::layout::Layout;
use crate::processes::{first_of, process_names};
use crate::report_names::{lookups_of, report_names};
use hal_constants::Known;
use hal_names::Names;
use hal_reach::{Units, processes_of};
use std::alloc::{AllocError, Global};

/// The event expressions of a set of files.
fn expressions_of(alloc: Global, names: &Names<'_>) -> Result<Vec<Stated>, AllocError>
    requires few { length (bodies.processes_of (seen_names names.now)) + length (meant.declared_events (seen_names names.now)) ≤ 65535 }
    ensures { IfOk result (λ list. map seen_stated list.items ≡ meant.stated (seen_names names.now)) }
{
    let processes = processes_of(alloc, names)?;
    let declared = declared_events(alloc, names)?;
    stated_of(alloc, names, &processes, &declared)
}

/// The layout of the set of files of these units, with at most 65,536 cells, 128 processes, and 65,535 processes and declared events (language document, Places,
/// Events and Report names).
pub fn layout_of(alloc: Global, units: &Units<'_>, known: &Known) -> Result<Layout, AllocError>
    requires counted { IsCounted (seen_names units.now.names.now) }
    requires few_cells { places.cell_count (seen_names units.now.names.now) (seen_known known.now) ≤ CELL_LIMIT }
    requires few_processes { length (bodies.processes_of (seen_names units.now.names.now)) ≤ PROCESS_LIMIT }
    requires few_events { length (bodies.processes_of (seen_names units.now.names.now)) + length (meant.declared_events (seen_names units.now.names.now)) ≤ 65535 }
    ensures { IfOk result (λ layout. seen_layout layout ≡ layouts.layout_of (seen_names units.now.names.now) (seen_known known.now)) }
{
    let names = units.names();
    let lookups = lookups_of(alloc, units, known)?;
    let shown = report_names(alloc, names, known, &lookups)?;
    Ok(Layout {
        cells: cells_of(alloc, names, known)?,
        own: lookups.own,
        processes: process_names(alloc, names)?,
        first: first_of(alloc, names)?,
        events: event_starts(alloc, names, known)?,
        expressions: expressions_of(alloc, names)?,
        names: shown,
    })
}
