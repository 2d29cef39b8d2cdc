//! The UPDATE blocks of a set of files.

ghost use Rattle.std.specs.Prelude.{◌≡◌, IfOk};
ghost use Rattle.hal_names.specs.SeenNames.{seen_names};
ghost use Rattle.hal_constants.specs.SeenKnown.{seen_known};
ghost use Rattle.hal_lock_groups.specs.Gathering as gathering;
ghost use Rattle.hal_lock_groups.specs.Updates as updates;

use crate::adding::gathered;
use crate::shared::shared_of;
use crate::updates::has_updates;
use hal_constants::Known;
use hal_reach::Units;
use std::alloc::{AllocError, Global};

/// The lock groups of the UPDATE block with this number by the list of all: 0 behind its end (language document, Lock groups).
pub fn groups_at(list: &[u16], update: usize) -> u16
    ensures { result ≡ gathering.bits_for list.now update }
{
    match list.get(update) {
        None => 0,
        Some(bits) => *bits,
    }
}

/// The lock groups of all UPDATE blocks of a set of files, a bit for each, at the numbers of their phrases: 0 at other numbers, and behind the end of the list (language
/// document, Lock groups). Where a set has no UPDATE block, nothing else of it is looked at.
#[tactic(auto, using(crate::proofs::Gathering::all_gathered, crate::proofs::Gathering::none_gathered))]
pub fn all_groups(alloc: Global, units: &Units<'_>, known: &Known) -> Result<Vec<u16>, AllocError>
    ensures { IfOk result (λ list. updates.AreGroups (seen_names units.now.names.now) (seen_known known.now) list.items) }
{
    let names = units.names();
    if !has_updates(names) {
        return Ok(Vec::new(alloc));
    }
    let shared = shared_of(alloc, units, known)?;
    gathered(alloc, names, &shared)
}
