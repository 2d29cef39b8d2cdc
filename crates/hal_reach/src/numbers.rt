//! The numbers of processes and units.

ghost use Rattle.std.specs.Prelude.{◌≡◌, IfOk};
ghost use Rattle.hal_names.specs.SeenNames.{seen_names};
ghost use Rattle.hal_meaning.specs.Bodies as bodies;
ghost use Rattle.hal_meaning.specs.Places as places;

use crate::sorts::{is_process, is_unit};
use hal_names::Names;
use std::alloc::{AllocError, Global};

/// The numbers of the phrases of the processes, in order (language document, Units).
#[tactic(auto, using(crate::proofs::Declared::processes_declared))]
pub fn processes_of(alloc: Global, names: &Names<'_>) -> Result<Vec<usize>, AllocError>
    ensures { IfOk result (λ list. list.items ≡ bodies.processes_of (seen_names names.now)) }
{
    let mut list = Vec::new(alloc);
    let phrases = names.declarations(alloc)?;
    for phrase in &phrases {
        if is_process(phrase.node) {
            list.push(phrase.number)?;
        }
    }
    Ok(list)
}

/// The numbers of the phrases of the units, in order (language document, Units).
#[tactic(auto, using(crate::proofs::Declared::units_declared))]
pub fn unit_numbers(alloc: Global, names: &Names<'_>) -> Result<Vec<usize>, AllocError>
    ensures { IfOk result (λ list. list.items ≡ places.unit_numbers (seen_names names.now)) }
{
    let mut list = Vec::new(alloc);
    let phrases = names.declarations(alloc)?;
    for phrase in &phrases {
        if is_unit(phrase.node) {
            list.push(phrase.number)?;
        }
    }
    Ok(list)
}
