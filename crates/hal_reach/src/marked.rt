//! The units that reach one of some blocks.

ghost use Rattle.std.specs.Prelude.{◌≡◌, IfOk, map};
ghost use Rattle.hal_names.specs.SeenNames.{seen_names};
ghost use Rattle.hal_reach.specs.Calls as calls;
ghost use Rattle.hal_reach.specs.Marks as marks;
ghost use Rattle.hal_reach.specs.SeenUnits.{seen_unit};

use crate::marks::reaching;
use crate::unit::{Unit, Units};
use std::alloc::{AllocError, Global};

/// The units that are marked.
#[tactic(auto, unfolding(crate::specs::Marks::numbers_marked))]
pub(crate) fn numbers_marked(
    alloc: Global,
    units: &[Unit],
    marked: &[bool],
) -> Result<Vec<usize>, AllocError>
    ensures { IfOk result (λ found. found.items ≡ marks.numbers_marked (map seen_unit units.now) marked.now) }
{
    let mut found = Vec::new(alloc);
    let mut rest = units;
    let mut marks = marked;
    while let Some((unit, others)) = rest.split_first() {
        let Some((mark, more)) = marks.split_first() else {
            return Ok(found);
        };
        if *mark {
            found.push(unit.number)?;
        }
        rest = others;
        marks = more;
    }
    Ok(found)
}

impl Units<'_> {
    /// The numbers of the units that reach one of these blocks by calls, or are one of them, in order (language document, Units).
    #[tactic(auto, using(crate::proofs::Reaching::all_reaching))]
    pub fn reaching_any(&self, alloc: Global, blocks: &[usize]) -> Result<Vec<usize>, AllocError>
        ensures { IfOk result (λ list. list.items ≡ calls.reaching (seen_names self.now.names.now) blocks.now) }
    {
        let marked = reaching(alloc, &self.list, blocks)?;
        numbers_marked(alloc, &self.list, &marked)
    }
}
