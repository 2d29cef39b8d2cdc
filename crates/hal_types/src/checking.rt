//! The check of types.

ghost use Rattle.std.specs.Prelude.{◌≡◌, IfErr, OnOk};
ghost use Rattle.hal_names.specs.SeenNames.{seen_names};
ghost use Rattle.hal_scope.specs.Rules.{IsSound};
ghost use Rattle.hal_constants.specs.Known as facts;
ghost use Rattle.hal_constants.specs.SeenKnown.{seen_known};
ghost use Rattle.hal_types.specs.Rules.{type_rows};
ghost use Rattle.hal_types.specs.Faults.{IsMistypedBy};

use crate::rules::first_fault;
use hal_base::{Fault, Place, Refusal, Rule};
use hal_constants::Known;
use hal_names::Names;
use std::alloc::Global;

/// Whether a set of files with these names and constants breaks no rule of types, 322, 323, 325 to 329 and 701 to 725; or one that is broken, at its
/// place; or want of memory. See docs/LANGUAGE.md, "Kinds".
#[tactic(auto, using(crate::proofs::Tables::broken_by))]
pub fn check_types(alloc: Global, names: &Names<'_>, known: &Known) -> Result<(), Fault>
    requires constants { seen_known known.now ≡ facts.known (seen_names names.now) }
    ensures sound { OnOk result (IsSound type_rows (seen_names names.now)) }
    ensures broken { IfErr result (IsMistypedBy (seen_names names.now)) }
{
    let first = match first_fault(alloc, names, known) {
        Ok(first) => first,
        Err(error) => return Err(Fault::Memory(error)),
    };
    match first {
        None => Ok(()),
        Some((rule, place)) => Err(Fault::Broken(Refusal {
            rule: Rule(rule),
            place,
        })),
    }
}
