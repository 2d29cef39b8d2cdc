//! The check of templates.

ghost use Rattle.std.specs.Prelude.{◌≡◌, IfErr, OnOk};
ghost use Rattle.hal_names.specs.SeenNames.{seen_names};
ghost use Rattle.hal_scope.specs.Rules.{IsSound};
ghost use Rattle.hal_constants.specs.Known as facts;
ghost use Rattle.hal_constants.specs.SeenKnown.{seen_known};
ghost use Rattle.hal_templates.specs.Rules.{template_rows};
ghost use Rattle.hal_templates.specs.Faults.{IsMismatchedBy};

use crate::rules::first_fault;
use hal_base::{Fault, Place, Refusal, Rule};
use hal_constants::Known;
use hal_names::Names;
use std::alloc::Global;

/// Whether a set of files with these names and constants breaks no rule of templates, 501 to 503; or one that is broken, at its place, of several the first in the
/// order of the source; or want of memory. See docs/LANGUAGE.md, "Templates".
#[tactic(auto, using(crate::proofs::Tables::broken_by))]
pub fn match_templates(alloc: Global, names: &Names<'_>, known: &Known) -> Result<(), Fault>
    requires constants { seen_known known.now ≡ facts.known (seen_names names.now) }
    ensures sound { OnOk result (IsSound template_rows (seen_names names.now)) }
    ensures broken { IfErr result (IsMismatchedBy (seen_names names.now)) }
{
    let first = match first_fault(alloc, names, known) {
        Ok(first) => first,
        Err(error) => return Err(Fault::Memory(error)),
    };
    match first {
        None => Ok(()),
        Some((rule, place)) => Err(Fault::Broken(Refusal {
            rule: Rule(rule),
            place,
        })),
    }
}
