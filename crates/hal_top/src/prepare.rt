//! From the words of a call to what is to be done.

ghost use Rattle.std.specs.Prelude.{◌≡◌, ◌≤◌, ◌↔◌, ◌+◌, ◌++◌, ◌∷◌, [], IfErr, IfOk, IfSome, IsErrOf, OnOk, length, map};
ghost use Rattle.hal_base.specs.Faults.{Rose};
ghost use Rattle.hal_base.specs.declared.limits.TheConstants.{TEXT_LIMIT, UNIT_LIMIT};
ghost use Rattle.hal_compile.specs.Reading.{seen_text};
ghost use Rattle.hal_top.specs.CommandLine.{texts, HasNoForm, IsCommand, IsUnitCount, Runs, Builds, Executes};
ghost use Rattle.hal_top.specs.Told.{FetchesOne, FetchesUnits};
ghost use Rattle.hal_top.specs.declared.refused.Refused.TheVariants.{Memory};
ghost use Rattle.hal_top.specs.Works.{IsCauseOfFile, IsFit, Prepared, Told};

use crate::fetch::{NoFile, fetched};
use crate::refused::Refused;
use crate::tasks::{built, executed, run};
use crate::words::{Command, command_of};
use exec_model::Script;
use hal_base::{IMAGE_LIMIT, Shelf, TEXT_LIMIT};
use hal_code::ImageParts;
use std::alloc::Global;

/// A script, and the image that is run under it.
#[derive(Drop)]
pub struct Work {
    pub script: Script,
    pub image: ImageParts,
}

/// What is to be done.
#[derive(Drop)]
pub enum Task {
    /// The image of a set of units is run.
    Run(Work),
    /// The image of a set of units is written.
    Write(ImageParts),
    /// The image of a file is run.
    Execute(Work),
}

/// The refusal for a file that isn't fit.
fn refused_file(fault: NoFile, number: u32) -> Refused
    ensures { IsCauseOfFile fault number result }
{
    match fault {
        NoFile::Absent => Refused::Absent(number),
        NoFile::TooLong => Refused::TooLong(number),
        NoFile::Shelf => Refused::Shelf,
        NoFile::Memory => Refused::Memory,
    }
}

/// The bytes of the file with this number, of which there may be so many.
#[tactic(auto, using(crate::proofs::Fetching::one_refused))]
fn fetched_file<S: Shelf>(
    alloc: Global,
    shelf: &mut S,
    name: &str,
    limit: u64,
    number: u32,
) -> Result<Vec<u8>, Refused>
    ensures answer { IfSome (S.files shelf.old) (λ files. FetchesOne files number (record { name = name.now; limit = limit }) result) }
    ensures usage { IsErrOf result Refused.Usage → ⊥ }
    ensures failed { IsErrOf result Refused.Shelf → Rose (S.faults shelf.old) (S.faults shelf.new) }
    ensures same { S.files shelf.new ≡ S.files shelf.old }
    ensures later { S.faults shelf.old ≤ S.faults shelf.new }
{
    match fetched(alloc, shelf, name, limit) {
        Ok(bytes) => Ok(bytes),
        Err(fault) => Err(refused_file(fault, number)),
    }
}

/// Adds the text of a unit.
fn push_text(units: &mut Vec<Vec<u8>>, text: Vec<u8>) -> Result<(), Refused>
    ensures added { OnOk result (map seen_text units.new.items ≡ map seen_text units.old.items ++ (seen_text text ∷ [])) }
    ensures one { OnOk result (length units.new.items ≡ length units.old.items + 1) }
    ensures wanting { IfErr result (λ refused. refused ≡ Memory) }
{
    match units.push(text) {
        Ok(()) => Ok(()),
        Err(_) => Err(Refused::Memory),
    }
}

/// The texts of the units with these names, in order; or the first of them that isn't fit, by its number, where the first unit's is this.
fn fetched_units<S: Shelf>(
    alloc: Global,
    shelf: &mut S,
    names: &[String],
    first: u32,
) -> Result<Vec<Vec<u8>>, Refused>
    requires few { length names.now ≤ UNIT_LIMIT }
    requires early { first ≤ 1 }
    ensures answer { IfSome (S.files shelf.old) (λ files. FetchesUnits files first (texts names.now) result) }
    ensures count { IfOk result (λ units. length units.items ≡ length names.now) }
    ensures usage { IsErrOf result Refused.Usage → ⊥ }
    ensures failed { IsErrOf result Refused.Shelf → Rose (S.faults shelf.old) (S.faults shelf.new) }
    ensures same { S.files shelf.new ≡ S.files shelf.old }
    ensures later { S.faults shelf.old ≤ S.faults shelf.new }
{
    let mut units = Vec::new(alloc);
    let mut number = first;
    for name in names {
        let text = match fetched(alloc, shelf, name.as_str(), TEXT_LIMIT) {
            Ok(text) => text,
            Err(fault) => return Err(refused_file(fault, number)),
        };
        push_text(&mut units, text)?;
        number += 1;
    }
    Ok(units)
}

/// A run of a set of units.
#[tactic(auto, using(crate::proofs::Fetching::few_units, crate::proofs::Prepared::script_unfit, crate::proofs::Prepared::unit_unfit, crate::proofs::Prepared::run_told))]
fn prepare_run<S: Shelf>(
    alloc: Global,
    shelf: &mut S,
    script: &str,
    units: &[String],
) -> Result<Task, Refused>
    requires count { IsUnitCount (length (texts units.now)) }
    ensures told { IfSome (S.files shelf.old) (λ files. Prepared files (Runs script.now (texts units.now)) result) }
    ensures fit { IfOk result IsFit }
    ensures usage { IsErrOf result Refused.Usage → ⊥ }
    ensures failed { IsErrOf result Refused.Shelf → Rose (S.faults shelf.old) (S.faults shelf.new) }
    ensures same { S.files shelf.new ≡ S.files shelf.old }
    ensures later { S.faults shelf.old ≤ S.faults shelf.new }
{
    let text = fetched_file(alloc, shelf, script, TEXT_LIMIT, 0)?;
    let units = fetched_units(alloc, shelf, units, 1)?;
    run(alloc, text.as_slice(), units.as_slice())
}

/// The image of a set of units, to be written.
#[tactic(auto, using(crate::proofs::Fetching::few_units, crate::proofs::Prepared::built_unfit, crate::proofs::Prepared::build_told))]
fn prepare_build<S: Shelf>(alloc: Global, shelf: &mut S, units: &[String]) -> Result<Task, Refused>
    requires count { IsUnitCount (length (texts units.now)) }
    ensures told { IfSome (S.files shelf.old) (λ files. Prepared files (Builds (texts units.now)) result) }
    ensures fit { IfOk result IsFit }
    ensures usage { IsErrOf result Refused.Usage → ⊥ }
    ensures failed { IsErrOf result Refused.Shelf → Rose (S.faults shelf.old) (S.faults shelf.new) }
    ensures same { S.files shelf.new ≡ S.files shelf.old }
    ensures later { S.faults shelf.old ≤ S.faults shelf.new }
{
    let units = fetched_units(alloc, shelf, units, 0)?;
    built(alloc, units.as_slice())
}

/// A run of an image.
#[tactic(auto, using(crate::proofs::Prepared::exec_script_unfit, crate::proofs::Prepared::image_unfit, crate::proofs::Prepared::exec_told))]
fn prepare_exec<S: Shelf>(
    alloc: Global,
    shelf: &mut S,
    script: &str,
    image: &str,
) -> Result<Task, Refused>
    ensures told { IfSome (S.files shelf.old) (λ files. Prepared files (Executes script.now image.now) result) }
    ensures fit { IfOk result IsFit }
    ensures usage { IsErrOf result Refused.Usage → ⊥ }
    ensures failed { IsErrOf result Refused.Shelf → Rose (S.faults shelf.old) (S.faults shelf.new) }
    ensures same { S.files shelf.new ≡ S.files shelf.old }
    ensures later { S.faults shelf.old ≤ S.faults shelf.new }
{
    let text = fetched_file(alloc, shelf, script, TEXT_LIMIT, 0)?;
    let bytes = fetched_file(alloc, shelf, image, IMAGE_LIMIT, 1)?;
    executed(alloc, text.as_slice(), bytes.as_slice())
}

/// What the words ask for, or the first thing that is wrong: in the words, in the files as they
/// are named, in the script, in the image or the set of the units.
#[tactic(auto, using(crate::proofs::Prepared::words_told, crate::proofs::Prepared::no_usage))]
pub fn prepare<S: Shelf>(alloc: Global, words: &[String], shelf: &mut S) -> Result<Task, Refused>
    ensures told { IfSome (S.files shelf.old) (λ files. Told files (texts words.now) result) }
    ensures fit { IfOk result IsFit }
    ensures usage { IsErrOf result Refused.Usage ↔ HasNoForm (texts words.now) }
    ensures failed { IsErrOf result Refused.Shelf → Rose (S.faults shelf.old) (S.faults shelf.new) }
    ensures same { S.files shelf.new ≡ S.files shelf.old }
    ensures later { S.faults shelf.old ≤ S.faults shelf.new }
{
    match command_of(words) {
        None => Err(Refused::Usage),
        Some(Command::Run { script, units }) => prepare_run(alloc, shelf, script, units),
        Some(Command::Build { units }) => prepare_build(alloc, shelf, units),
        Some(Command::Exec { script, image }) => prepare_exec(alloc, shelf, script, image),
    }
}
