//! The checks of calls.

ghost use Rattle.std.specs.Prelude.{◌≡◌, true, IfErr, IfOk, OnOk};
ghost use Rattle.hal_names.specs.SeenNames.{seen_names};
ghost use Rattle.hal_scope.specs.Rules.{IsSound};
ghost use Rattle.hal_reach.specs.Calls.{recursive};
ghost use Rattle.hal_calls.specs.Blocks.{contended};
ghost use Rattle.hal_calls.specs.Programs as programs;
ghost use Rattle.hal_calls.specs.Rules.{call_rows, first_with};
ghost use Rattle.hal_calls.specs.Faults.{IsMiscalledBy, IsOfNoProgram};

use crate::contended::contended_units;
use crate::programs::has_program;
use crate::rules::first_fault;
use hal_base::rules::NO_PROGRAM;
use hal_base::{Fault, Place, Refusal, Rule};
use hal_names::Names;
use hal_reach::Units;
use std::alloc::{AllocError, Global};

/// Whether a set of files with these names has a PROGRAM; or rule 905, at the beginning of the first unit. See docs/LANGUAGE.md, "Calls".
pub fn check_program(names: &Names<'_>) -> Result<(), Fault>
    ensures has { OnOk result (programs.has_program (seen_names names.now) ≡ true) }
    ensures broken { IfErr result (IsOfNoProgram (seen_names names.now)) }
{
    if has_program(names) {
        return Ok(());
    }
    Err(Fault::Broken(Refusal {
        rule: Rule(NO_PROGRAM),
        place: Place {
            unit: 0,
            line: 1,
            column: 1,
        },
    }))
}

/// The first of the rules 901 to 904 that a set of files breaks, and where, unless memory is wanting.
fn found(alloc: Global, units: &Units<'_>) -> Result<Option<(u16, Place)>, AllocError>
    ensures { IfOk result (λ found. found ≡ first_with (seen_names units.now.names.now) (recursive (seen_names units.now.names.now)) (contended (seen_names units.now.names.now)) (seen_names units.now.names.now)) }
{
    let recursive = units.recursive(alloc)?;
    let contended = contended_units(alloc, units)?;
    Ok(first_fault(units.names(), &recursive, &contended))
}

/// Whether a set of files with these units breaks none of the rules 901 to 904; or one that is broken, at its place, of several the first in the
/// order of the source; or want of memory. See docs/LANGUAGE.md, "Calls".
#[tactic(auto, using(crate::proofs::Tables::broken_with))]
pub fn check_calls(alloc: Global, units: &Units<'_>) -> Result<(), Fault>
    ensures sound { OnOk result (IsSound call_rows (seen_names units.now.names.now)) }
    ensures broken { IfErr result (IsMiscalledBy (seen_names units.now.names.now)) }
{
    let first = match found(alloc, units) {
        Ok(first) => first,
        Err(error) => return Err(Fault::Memory(error)),
    };
    match first {
        None => Ok(()),
        Some((rule, place)) => Err(Fault::Broken(Refusal {
            rule: Rule(rule),
            place,
        })),
    }
}
