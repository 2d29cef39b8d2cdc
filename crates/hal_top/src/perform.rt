//! What is done, and what is printed of it.

ghost use Rattle.std.specs.Prelude.{◌≡◌, ◌≤◌, [], IfOk};
ghost use Rattle.exec_model.specs.Scripts.{IsScript};
ghost use Rattle.hal_compile.specs.Compiling.{CanRun};
ghost use Rattle.hal_object.specs.Images.{image_bytes, IsSpelled};
ghost use Rattle.hal_top.specs.Performed.{ComesTo, HasImageReport, Reported};
ghost use Rattle.hal_top.specs.Works.{IsFit};

use crate::outcome::Outcome;
use crate::prepare::{Task, Work};
use hal_base::{Sink, TURN_LIMIT};
use hal_code::ImageParts;
use hal_object::write_image;
use hal_report::drain;
use hal_values::Listing;
use image_procs::ImageProcs;
use script_run::{Performed, play};
use std::alloc::{AllocError, Global};

/// Runs the script on the processes of the image, and writes the report.
fn played(alloc: Global, work: Work) -> Result<Performed, AllocError>
    requires limits { IsScript work.script }
    requires runs { CanRun work.image }
    ensures { IfOk result (λ performed. HasImageReport work.script work.image performed.journal performed.report.items) }
{
    let procs = ImageProcs::start(alloc, work.image, TURN_LIMIT)?;
    let performed = play(alloc, procs, &work.script)?;
    Ok(performed)
}

/// Writes the image.
fn written(alloc: Global, image: &ImageParts) -> Result<Performed, AllocError>
    requires { IsSpelled image.now }
    ensures journal { IfOk result (λ performed. performed.journal ≡ []) }
    ensures bytes { IfOk result (λ performed. performed.report.items ≡ image_bytes image.now) }
{
    let mut report = Vec::new(alloc);
    write_image(image, &mut report)?;
    Ok(Performed {
        journal: Listing::empty(alloc),
        report,
    })
}

/// Does what is to be done.
pub fn perform(alloc: Global, task: Task) -> Result<Performed, AllocError>
    requires { IsFit task }
    ensures { IfOk result (λ performed. ComesTo task performed.journal performed.report.items) }
{
    match task {
        Task::Run(work) => played(alloc, work),
        Task::Execute(work) => played(alloc, work),
        Task::Write(image) => written(alloc, &image),
    }
}

/// Prints the bytes, or a front of them where the sink fails.
pub fn print<O: Sink>(performed: Performed, out: &mut O) -> Outcome
    ensures printed { Reported (O.taken out.old) (O.taken out.new) performed.report.items (O.faults out.old) (O.faults out.new) result.status }
    ensures journal { result.journal ≡ performed.journal }
    ensures file { result.file ≡ None }
    ensures refused { result.refused ≡ None }
    ensures script_fault { result.script_fault ≡ None }
    ensures image_fault { result.image_fault ≡ None }
    ensures later { O.faults out.old ≤ O.faults out.new }
{
    let status = match drain(performed.report.as_slice(), out) {
        Ok(()) => 0,
        Err(_) => 8,
    };
    Outcome {
        status,
        journal: performed.journal,
        file: None,
        refused: None,
        script_fault: None,
        image_fault: None,
    }
}
