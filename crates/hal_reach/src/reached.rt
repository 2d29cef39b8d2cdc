//! The processes that reach each unit.

ghost use Rattle.std.specs.Prelude.{◌≡◌, IfOk, map};
ghost use Rattle.hal_names.specs.SeenNames.{seen_names};
ghost use Rattle.hal_reach.specs.Calls as calls;
ghost use Rattle.hal_reach.specs.Marks as marks;
ghost use Rattle.hal_reach.specs.SeenUnits.{seen_reached, seen_unit};

use crate::marks::reaching;
use crate::unit::{Reached, Unit, Units};
use std::alloc::{AllocError, Global};
use std::slice::from_ref;

/// The processes among the units that are marked.
#[tactic(auto, unfolding(crate::specs::Marks::processes_marked))]
fn processes_marked(
    alloc: Global,
    units: &[Unit],
    marked: &[bool],
) -> Result<Vec<usize>, AllocError>
    ensures { IfOk result (λ found. found.items ≡ marks.processes_marked (map seen_unit units.now) marked.now) }
{
    let mut found = Vec::new(alloc);
    let mut rest = units;
    let mut marks = marked;
    while let Some((unit, others)) = rest.split_first() {
        let Some((mark, more)) = marks.split_first() else {
            return Ok(found);
        };
        if unit.process && *mark {
            found.push(unit.number)?;
        }
        rest = others;
        marks = more;
    }
    Ok(found)
}

/// Each unit with the processes that reach it.
#[tactic(auto, unfolding(crate::specs::Marks::rows))]
fn rows(alloc: Global, units: &[Unit]) -> Result<Vec<Reached>, AllocError>
    ensures { IfOk result (λ rows. map seen_reached rows.items ≡ marks.rows (map seen_unit units.now)) }
{
    let mut rows = Vec::new(alloc);
    for unit in units {
        let marked = reaching(alloc, units, from_ref(&unit.number))?;
        let processes = processes_marked(alloc, units, &marked)?;
        rows.push(Reached {
            unit: unit.number,
            processes,
        })?;
    }
    Ok(rows)
}

impl Units<'_> {
    /// Each unit of the set with the processes that reach it, in order (language document, Units).
    #[tactic(auto, using(crate::proofs::Reaching::all_rows))]
    pub fn reached(&self, alloc: Global) -> Result<Vec<Reached>, AllocError>
        ensures { IfOk result (λ rows. map seen_reached rows.items ≡ calls.reached_of (seen_names self.now.names.now)) }
    {
        rows(alloc, &self.list)
    }
}
