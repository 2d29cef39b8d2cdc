//! From the bytes of scripts, units and images to what is to be done.

ghost use Rattle.std.specs.Prelude.{◌≤◌, IfOk, IsErrOf, length, map};
ghost use Rattle.exec_model.specs.Scripts.{IsScript};
ghost use Rattle.hal_base.specs.declared.limits.TheConstants.{UNIT_LIMIT};
ghost use Rattle.hal_compile.specs.Reading.{seen_text};
ghost use Rattle.hal_top.specs.Works.{BuildsTo, ExecutesTo, IsChecked, IsFit, IsImageIn, IsImageOfUnits, IsScriptIn, RunsTo};

use crate::prepare::{Task, Work};
use crate::refused::Refused;
use exec_model::Script;
use hal_base::Fault;
use hal_code::ImageParts;
use hal_compile::{image_fault, image_of_texts};
use hal_object::{ReadFault, read_image};
use hal_script::{ScriptError, read_script};
use std::alloc::Global;

/// The script of these bytes.
fn script_in(alloc: Global, text: &[u8]) -> Result<Script, Refused>
    ensures script { IsScriptIn text.now result }
    ensures limits { IfOk result IsScript }
{
    match read_script(alloc, text) {
        Ok(script) => Ok(script),
        Err(ScriptError::Faulty(fault)) => Err(Refused::Script(fault)),
        Err(ScriptError::Memory(_)) => Err(Refused::Memory),
    }
}

/// The image of the set of these units.
fn image_of_units(alloc: Global, units: &[Vec<u8>]) -> Result<ImageParts, Refused>
    requires few { length units.now ≤ UNIT_LIMIT }
    ensures { IsImageOfUnits (map seen_text units.now) result }
{
    match image_of_texts(alloc, units) {
        Ok(image) => Ok(image),
        Err(Fault::Broken(refusal)) => Err(Refused::Rule(refusal)),
        Err(Fault::Memory(_)) => Err(Refused::Memory),
    }
}

/// An image with nothing at fault, or what is.
fn checked(alloc: Global, image: ImageParts) -> Result<ImageParts, Refused>
    ensures { IsChecked image result }
{
    match image_fault(alloc, &image) {
        Ok(None) => Ok(image),
        Ok(Some(number)) => Err(Refused::Unsound(number)),
        Err(_) => Err(Refused::Memory),
    }
}

/// The image of these bytes, which can run.
#[tactic(auto, using(crate::proofs::Prepared::image_read, crate::proofs::Prepared::not_image))]
fn image_in(alloc: Global, bytes: &[u8]) -> Result<ImageParts, Refused>
    ensures { IsImageIn bytes.now result }
{
    match read_image(alloc, bytes) {
        Ok(image) => checked(alloc, image),
        Err(ReadFault::NotImage) => Err(Refused::NotImage),
        Err(ReadFault::Memory(_)) => Err(Refused::Memory),
    }
}

/// A run of a set of units.
#[tactic(auto, using(crate::proofs::Prepared::runs_of, crate::proofs::Refusals::run_unread, crate::proofs::Refusals::run_broken, crate::proofs::Refusals::script_not_usage, crate::proofs::Refusals::script_not_shelf, crate::proofs::Refusals::units_not_usage, crate::proofs::Refusals::units_not_shelf))]
pub fn run(alloc: Global, text: &[u8], units: &[Vec<u8>]) -> Result<Task, Refused>
    requires few { length units.now ≤ UNIT_LIMIT }
    ensures task { RunsTo text.now (map seen_text units.now) result }
    ensures fit { IfOk result IsFit }
    ensures usage { IsErrOf result Refused.Usage → ⊥ }
    ensures shelf { IsErrOf result Refused.Shelf → ⊥ }
{
    let script = script_in(alloc, text)?;
    let image = image_of_units(alloc, units)?;
    Ok(Task::Run(Work { script, image }))
}

/// The image of a set of units, to be written.
#[tactic(auto, using(crate::proofs::Prepared::spelling_of, crate::proofs::Refusals::build_broken, crate::proofs::Refusals::units_not_usage, crate::proofs::Refusals::units_not_shelf))]
pub fn built(alloc: Global, units: &[Vec<u8>]) -> Result<Task, Refused>
    requires few { length units.now ≤ UNIT_LIMIT }
    ensures task { BuildsTo (map seen_text units.now) result }
    ensures fit { IfOk result IsFit }
    ensures usage { IsErrOf result Refused.Usage → ⊥ }
    ensures shelf { IsErrOf result Refused.Shelf → ⊥ }
{
    let image = image_of_units(alloc, units)?;
    Ok(Task::Write(image))
}

/// A run of an image.
#[tactic(auto, using(crate::proofs::Refusals::exec_unread, crate::proofs::Refusals::exec_bad, crate::proofs::Refusals::script_not_usage, crate::proofs::Refusals::script_not_shelf, crate::proofs::Refusals::image_not_usage, crate::proofs::Refusals::image_not_shelf))]
pub fn executed(alloc: Global, text: &[u8], bytes: &[u8]) -> Result<Task, Refused>
    ensures task { ExecutesTo text.now bytes.now result }
    ensures fit { IfOk result IsFit }
    ensures usage { IsErrOf result Refused.Usage → ⊥ }
    ensures shelf { IsErrOf result Refused.Shelf → ⊥ }
{
    let script = script_in(alloc, text)?;
    let image = image_in(alloc, bytes)?;
    Ok(Task::Execute(Work { script, image }))
}
