//! The check of names.

ghost use Rattle.std.specs.Prelude.{◌≡◌, map, IfOk, IfErr, OnOk};
ghost use Rattle.hal_tree.specs.SeenUnits.{seen_file};
ghost use Rattle.hal_phrases.specs.GatheredUnits.{phrases_of};
ghost use Rattle.hal_names.specs.SeenNames.{seen_names};
ghost use Rattle.hal_scope.specs.Rules.{rows, IsSound};
ghost use Rattle.hal_scope.specs.Faults.{IsBrokenBy};

use crate::rules::first_fault;
use hal_base::{Fault, Refusal, Rule};
use hal_names::Names;
use hal_phrases::phrases_of;
use hal_tree::File;
use std::alloc::{AllocError, Global};

/// The names of a set of files, or an error where there is no memory.
fn names_of<'a>(alloc: Global, files: &'a [File]) -> Result<Names<'a>, AllocError>
    ensures { IfOk result (λ names. seen_names names ≡ phrases_of (map seen_file files.now)) }
{
    Names::of(alloc, phrases_of(alloc, files)?)
}

/// Whether no rule of names is broken by files with these names, 601 to 608; or one that is, at its place.
/// See docs/LANGUAGE.md, "Names".
#[tactic(auto, using(crate::proofs::Broken::broken))]
pub fn check_names(names: &Names<'_>) -> Result<(), Fault>
    ensures sound { OnOk result (IsSound rows (seen_names names.now)) }
    ensures broken { IfErr result (IsBrokenBy (seen_names names.now)) }
{
    match first_fault(names) {
        None => Ok(()),
        Some((rule, place)) => Err(Fault::Broken(Refusal {
            rule: Rule(rule),
            place,
        })),
    }
}

/// The names of a set of files where no rule of names is broken, 601 to 608; or one that is, at its place; or
/// want of memory. See docs/LANGUAGE.md, "Names".
#[tactic(auto, using(crate::proofs::Broken::broken_here))]
pub fn resolve<'a>(alloc: Global, files: &'a [File]) -> Result<Names<'a>, Fault>
    ensures names { IfOk result (λ names. seen_names names ≡ phrases_of (map seen_file files.now)) }
    ensures sound { IfOk result (λ names. IsSound rows (phrases_of (map seen_file files.now))) }
    ensures broken { IfErr result (IsBrokenBy (phrases_of (map seen_file files.now))) }
{
    let names = match names_of(alloc, files) {
        Ok(names) => names,
        Err(error) => return Err(Fault::Memory(error)),
    };
    match check_names(&names) {
        Ok(()) => Ok(names),
        Err(fault) => Err(fault),
    }
}
