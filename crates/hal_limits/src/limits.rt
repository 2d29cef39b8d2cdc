//! The check of limits.

ghost use Rattle.std.specs.Prelude.{◌≡◌, IfErr, IfOk, OnOk};
ghost use Rattle.hal_names.specs.SeenNames.{seen_names};
ghost use Rattle.hal_constants.specs.SeenKnown.{seen_known};
ghost use Rattle.hal_limits.specs.Limits.{IsBeyondBy, IsWithin, Tells};

use crate::cells::cell_count;
use crate::reached::view_cells;
use hal_base::rules::{TOO_MANY_CELLS, TOO_MANY_EVENTS, TOO_MANY_PROCESSES};
use hal_base::{CELL_LIMIT, EVENT_LIMIT, Fault, PROCESS_LIMIT, Place, Refusal, Rule};
use hal_constants::Known;
use hal_names::Names;
use hal_reach::processes_of;
use hal_storage::events::declared_events;
use std::alloc::{AllocError, Global};

/// How many cells the views of a set reach at most, each view counted by itself.
const VIEW_LIMIT: u32 = 1_048_576;

/// A rule of limits that a set of files breaks, where it breaks one.
fn broken(alloc: Global, names: &Names<'_>, known: &Known) -> Result<Option<u16>, AllocError>
    ensures { IfOk result (Tells (seen_names names.now) (seen_known known.now)) }
{
    if CELL_LIMIT < cell_count(alloc, names, known)? {
        return Ok(Some(TOO_MANY_CELLS));
    }
    if VIEW_LIMIT < view_cells(alloc, names, known)? {
        return Ok(Some(TOO_MANY_CELLS));
    }
    if (PROCESS_LIMIT as usize) < processes_of(alloc, names)?.len() {
        return Ok(Some(TOO_MANY_PROCESSES));
    }
    if (EVENT_LIMIT as usize) < declared_events(alloc, names)?.len() {
        return Ok(Some(TOO_MANY_EVENTS));
    }
    Ok(None)
}

/// Tries the rules 951, 952 and 954 over a set of files: that it has no more cells, processes and declared events, and its views
/// reach no more cells, than there may be. The place of each is the beginning of the first unit (language document, Limits).
pub fn check_limits(alloc: Global, names: &Names<'_>, known: &Known) -> Result<(), Fault>
    ensures within { OnOk result (IsWithin (seen_names names.now) (seen_known known.now)) }
    ensures broken { IfErr result (IsBeyondBy (seen_names names.now) (seen_known known.now)) }
{
    let found = match broken(alloc, names, known) {
        Ok(found) => found,
        Err(error) => return Err(Fault::Memory(error)),
    };
    match found {
        None => Ok(()),
        Some(rule) => Err(Fault::Broken(Refusal {
            rule: Rule(rule),
            place: Place {
                unit: 0,
                line: 1,
                column: 1,
            },
        })),
    }
}
