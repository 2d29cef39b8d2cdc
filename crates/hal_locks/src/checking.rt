//! The check of locks.

ghost use Rattle.std.specs.Prelude.{◌≡◌, IfErr, IfOk, OnOk};
ghost use Rattle.hal_names.specs.SeenNames.{seen_names};
ghost use Rattle.hal_scope.specs.Rules.{IsSound};
ghost use Rattle.hal_constants.specs.Known as facts;
ghost use Rattle.hal_constants.specs.SeenKnown.{seen_known};
ghost use Rattle.hal_locks.specs.Callees.{barred_units};
ghost use Rattle.hal_locks.specs.Rules.{first_with, lock_rows};
ghost use Rattle.hal_locks.specs.Faults.{IsMislockedBy};

use crate::callees::barred_units;
use crate::rules::first_fault;
use hal_base::{Fault, Place, Refusal, Rule};
use hal_constants::Known;
use hal_lock_groups::has_updates;
use hal_reach::Units;
use std::alloc::{AllocError, Global};

/// The first rule of locks that a set of files breaks, and where, unless memory is wanting. Which units an UPDATE block may not call is found out only where
/// the set has one.
#[tactic(auto, using(crate::proofs::Tables::without_updates))]
fn found(
    alloc: Global,
    units: &Units<'_>,
    known: &Known,
) -> Result<Option<(u16, Place)>, AllocError>
    requires constants { seen_known known.now ≡ facts.known (seen_names units.now.names.now) }
    ensures { IfOk result (λ found. found ≡ first_with (seen_names units.now.names.now) (facts.known (seen_names units.now.names.now)) (barred_units (seen_names units.now.names.now)) (seen_names units.now.names.now)) }
{
    let names = units.names();
    let barred = if has_updates(names) {
        barred_units(alloc, units)?
    } else {
        Vec::new(alloc)
    };
    Ok(first_fault(names, known, &barred))
}

/// Whether a set of files with these units and constants breaks no rule of locks, 801 to 807; or one that is broken, at its place; or want of memory. See
/// docs/LANGUAGE.md, "Locks".
#[tactic(auto, using(crate::proofs::Tables::broken_with))]
pub fn check_locks(alloc: Global, units: &Units<'_>, known: &Known) -> Result<(), Fault>
    requires constants { seen_known known.now ≡ facts.known (seen_names units.now.names.now) }
    ensures sound { OnOk result (IsSound lock_rows (seen_names units.now.names.now)) }
    ensures broken { IfErr result (IsMislockedBy (seen_names units.now.names.now)) }
{
    let first = match found(alloc, units, known) {
        Ok(first) => first,
        Err(error) => return Err(Fault::Memory(error)),
    };
    match first {
        None => Ok(()),
        Some((rule, place)) => Err(Fault::Broken(Refusal {
            rule: Rule(rule),
            place,
        })),
    }
}
