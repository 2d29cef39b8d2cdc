//! The units that reach themselves.

ghost use Rattle.std.specs.Prelude.{◌≡◌, IfOk, map};
ghost use Rattle.hal_names.specs.SeenNames.{seen_names};
ghost use Rattle.hal_reach.specs.Calls as calls;
ghost use Rattle.hal_reach.specs.Marks as marks;
ghost use Rattle.hal_reach.specs.SeenUnits.{seen_unit};

use crate::marks::{is_any_marked, reaching};
use crate::unit::{Unit, Units};
use std::alloc::{AllocError, Global};
use std::slice::from_ref;

/// Whether a unit calls one that reaches it.
#[tactic(auto, unfolding(crate::specs::Marks::calls_itself))]
fn calls_itself(alloc: Global, units: &[Unit], unit: &Unit) -> Result<bool, AllocError>
    ensures { IfOk result (λ does. does ≡ marks.calls_itself (map seen_unit units.now) (seen_unit unit.now)) }
{
    let marked = reaching(alloc, units, from_ref(&unit.number))?;
    Ok(is_any_marked(&marked, &unit.callees))
}

/// The numbers of the units that do.
#[tactic(auto, unfolding(crate::specs::Marks::recursive, crate::specs::Marks::recursive_among))]
fn recursive(alloc: Global, units: &[Unit]) -> Result<Vec<usize>, AllocError>
    ensures { IfOk result (λ found. found.items ≡ marks.recursive (map seen_unit units.now)) }
{
    let mut found = Vec::new(alloc);
    for unit in units {
        if calls_itself(alloc, units, unit)? {
            found.push(unit.number)?;
        }
    }
    Ok(found)
}

impl Units<'_> {
    /// The numbers of the units of the set that reach themselves by one call or more, in order (language document, Calls).
    #[tactic(auto, using(crate::proofs::Recursion::all_recursive))]
    pub fn recursive(&self, alloc: Global) -> Result<Vec<usize>, AllocError>
        ensures { IfOk result (λ list. list.items ≡ calls.recursive (seen_names self.now.names.now)) }
    {
        recursive(alloc, &self.list)
    }
}
