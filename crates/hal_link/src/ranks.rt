//! Units, with those that reach them by calls.

ghost use Rattle.std.specs.Prelude.{◌≡◌, IfOk, map};
ghost use Rattle.hal_reach.specs.SeenUnits.{seen_reached};
ghost use Rattle.hal_link.specs.SeenOutlines as seen;

use hal_reach::Reached;
use std::alloc::{AllocError, Global};

/// A unit, the processes that reach it, and how many units do.
#[derive(Clone, Copy)]
pub(crate) struct Rank<'a> {
    pub(crate) unit: usize,
    pub(crate) processes: &'a [usize],
    pub(crate) callers: usize,
}

/// The units that processes reach so, and that so many units reach, one number a unit.
#[tactic(auto, unfolding(crate::specs::SeenOutlines::ranks_with))]
pub(crate) fn ranks_of<'a>(
    alloc: Global,
    reached: &'a [Reached],
    callers: &[usize],
) -> Result<Vec<Rank<'a>>, AllocError>
    ensures { IfOk result (λ ranks. map seen.seen_rank ranks.items ≡ seen.ranks_with (map seen_reached reached.now) callers.now) }
{
    let mut ranks = Vec::new(alloc);
    let mut rest = reached;
    let mut counts = callers;
    while let Some((one, others)) = rest.split_first() {
        let Some((count, more)) = counts.split_first() else {
            return Ok(ranks);
        };
        ranks.push(Rank {
            unit: one.unit,
            processes: &one.processes,
            callers: *count,
        })?;
        rest = others;
        counts = more;
    }
    Ok(ranks)
}
