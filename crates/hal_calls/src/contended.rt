//! The units that more than one process reaches.

ghost use Rattle.std.specs.Prelude.{◌≡◌, IfOk, map};
ghost use Rattle.hal_names.specs.SeenNames.{seen_names};
ghost use Rattle.hal_reach.specs.SeenUnits.{seen_reached};
ghost use Rattle.hal_calls.specs.Blocks as blocks;

use hal_reach::{Reached, Units};
use std::alloc::{AllocError, Global};

/// Those of units with the processes that reach them.
#[tactic(auto, unfolding(crate::specs::Blocks::contended_among))]
fn contended_among(alloc: Global, rows: &[Reached]) -> Result<Vec<usize>, AllocError>
    ensures { IfOk result (λ units. units.items ≡ blocks.contended_among (map seen_reached rows.now)) }
{
    let mut units = Vec::new(alloc);
    for row in rows {
        if row.processes.len() > 1 {
            units.push(row.unit)?;
        }
    }
    Ok(units)
}

/// The numbers of those of a set of files, in order.
#[tactic(auto, using(crate::proofs::Contention::all_contended))]
pub(crate) fn contended_units(alloc: Global, units: &Units<'_>) -> Result<Vec<usize>, AllocError>
    ensures { IfOk result (λ list. list.items ≡ blocks.contended (seen_names units.now.names.now)) }
{
    let rows = units.reached(alloc)?;
    contended_among(alloc, &rows)
}
