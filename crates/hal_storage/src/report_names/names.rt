//! The names that the report shows of a set of files.

ghost use Rattle.std.specs.Prelude.{◌≡◌, ◌≤◌, ◌+◌, ◌++◌, IfOk, OnOk, length};
ghost use Rattle.hal_base.specs.declared.limits.TheConstants.{CELL_LIMIT, PROCESS_LIMIT};
ghost use Rattle.hal_names.specs.Laws.{IsCounted};
ghost use Rattle.hal_names.specs.SeenNames.{seen_names};
ghost use Rattle.hal_constants.specs.SeenKnown.{seen_known};
ghost use Rattle.hal_meaning.specs.Bodies as bodies;
ghost use Rattle.hal_meaning.specs.Events as events;
ghost use Rattle.hal_meaning.specs.Places as places;
ghost use Rattle.hal_meaning.specs.ReportNames as reports;
ghost use Rattle.hal_storage.specs.report_names.Rooms as rooms;
ghost use Rattle.hal_storage.specs.report_names.Rows as rows;
ghost use Rattle.hal_storage.specs.report_names.SeenLookups.{seen_lookups};

use crate::cells::push_cells_at;
use crate::report_names::items::push_phrase;
use crate::report_names::lookups::Lookups;
use hal_constants::Known;
use hal_names::Names;
use hal_values::ReportName;
use std::alloc::{AllocError, Global};

/// Adds the rows of all phrases.
#[tactic(auto, using(crate::proofs::elements::Repeated::behind, crate::proofs::elements::Repeated::none_behind, crate::proofs::report_names::Roomy::one_further))]
fn push_all(
    alloc: Global,
    into: &mut Vec<ReportName>,
    names: &Names<'_>,
    known: &Known,
    lookups: &Lookups,
) -> Result<(), AllocError>
    requires few { rooms.AreFew (seen_lookups lookups.now) }
    requires room { rooms.HaveRows (seen_names names.now) (seen_known known.now) (seen_lookups lookups.now) 0 (seen_names names.now) }
    ensures { OnOk result (into.new.items ≡ into.old.items ++ reports.rows_of (seen_names names.now) (seen_known known.now)) }
{
    let mut cells = Vec::new(alloc);
    let phrases = names.declarations(alloc)?;
    for phrase in &phrases {
        push_phrase(alloc, into, names, known, lookups, cells.len(), phrase)?;
        push_cells_at(alloc, &mut cells, names, known, phrase)?;
    }
    Ok(())
}

/// The names that the report shows of a set of files with at most 65,536 cells, 128 processes and 65,535 processes and declared events, in the
/// order of the declarations, by what rows of the set are looked up in (language document, Report names).
pub(crate) fn report_names(
    alloc: Global,
    names: &Names<'_>,
    known: &Known,
    lookups: &Lookups,
) -> Result<Vec<ReportName>, AllocError>
    requires counted { IsCounted (seen_names names.now) }
    requires few_cells { places.cell_count (seen_names names.now) (seen_known known.now) ≤ CELL_LIMIT }
    requires few_processes { length (bodies.processes_of (seen_names names.now)) ≤ PROCESS_LIMIT }
    requires few_events { length (bodies.processes_of (seen_names names.now)) + length (events.declared_events (seen_names names.now)) ≤ 65535 }
    requires lookups { seen_lookups lookups.now ≡ rows.lookups_of (seen_names names.now) (seen_known known.now) }
    ensures { IfOk result (λ list. list.items ≡ reports.rows_of (seen_names names.now) (seen_known known.now)) }
{
    let mut list = Vec::new(alloc);
    push_all(alloc, &mut list, names, known, lookups)?;
    Ok(list)
}
