//! How many units reach each unit.

ghost use Rattle.std.specs.Prelude.{◌≡◌, IfOk, map};
ghost use Rattle.hal_names.specs.SeenNames.{seen_names};
ghost use Rattle.hal_reach.specs.Calls as calls;
ghost use Rattle.hal_reach.specs.Marks as marks;
ghost use Rattle.hal_reach.specs.SeenUnits.{seen_unit};

use crate::marked::numbers_marked;
use crate::marks::reaching;
use crate::unit::{Unit, Units};
use std::alloc::{AllocError, Global};
use std::slice::from_ref;

/// How many of these units reach each of them.
#[tactic(auto, unfolding(crate::specs::Marks::counts))]
fn counts(alloc: Global, units: &[Unit]) -> Result<Vec<usize>, AllocError>
    ensures { IfOk result (λ counts. counts.items ≡ marks.counts (map seen_unit units.now)) }
{
    let mut counts = Vec::new(alloc);
    for unit in units {
        let marked = reaching(alloc, units, from_ref(&unit.number))?;
        counts.push(numbers_marked(alloc, units, &marked)?.len())?;
    }
    Ok(counts)
}

impl Units<'_> {
    /// How many units reach each unit of the set by calls, itself among them, in order (language document, Units).
    #[tactic(auto, using(crate::proofs::Reaching::all_counts))]
    pub fn callers(&self, alloc: Global) -> Result<Vec<usize>, AllocError>
        ensures { IfOk result (λ counts. counts.items ≡ calls.callers_of (seen_names self.now.names.now)) }
    {
        counts(alloc, &self.list)
    }
}
