//! The image of files, by all checks.

ghost use Rattle.std.specs.Prelude.{◌≡◌, IfErr, IfOk, OnOk, map};
ghost use Rattle.hal_tree.specs.SeenUnits.{seen_file};
ghost use Rattle.hal_phrases.specs.GatheredUnits.{phrases_of};
ghost use Rattle.hal_names.specs.SeenNames.{seen_names};
ghost use Rattle.hal_constants.specs.Known as facts;
ghost use Rattle.hal_constants.specs.SeenKnown.{seen_known};
ghost use Rattle.hal_checked.specs.Checking.{IsChecked, IsLawful, LinksWhole};
ghost use Rattle.hal_compile.specs.Compiling.{Compiles, FilesBreakBy, IsOfMemory, IsToldAt, IsToldOfCells, MisdeclaredBy, OversteppedBy};

use crate::lacking::Lacking;
use crate::linking::{BEGINNING, image_in};
use hal_base::rules::{NO_IMAGE, TOO_MANY_CELLS};
use hal_base::{Fault, Place, Refusal, Rule};
use hal_calls::{check_calls, check_program};
use hal_code::ImageParts;
use hal_constants::Known;
use hal_limits::check_limits;
use hal_locks::check_locks;
use hal_names::Names;
use hal_phrases::phrases_of;
use hal_reach::Units;
use hal_scope::check_names;
use hal_templates::match_templates;
use hal_tree::File;
use hal_types::check_types;
use std::alloc::Global;

/// Rule 951, broken at the beginning of the set.
fn overfull() -> Fault
    ensures { IsToldOfCells result }
{
    Fault::Broken(Refusal {
        rule: Rule(TOO_MANY_CELLS),
        place: BEGINNING,
    })
}

/// Rule 410, broken at this place.
fn uncompiled(place: Place) -> Fault
    ensures { IsToldAt place result }
{
    Fault::Broken(Refusal {
        rule: Rule(NO_IMAGE),
        place,
    })
}

/// The names of files, whatever rules they break.
fn names_of<'a>(alloc: Global, files: &'a [File]) -> Result<Names<'a>, Fault>
    ensures names { IfOk result (λ names. seen_names names ≡ phrases_of (map seen_file files.now)) }
    ensures wanting { IfErr result IsOfMemory }
{
    let phrases = match phrases_of(alloc, files) {
        Ok(phrases) => phrases,
        Err(error) => return Err(Fault::Memory(error)),
    };
    match Names::of(alloc, phrases) {
        Ok(names) => Ok(names),
        Err(error) => Err(Fault::Memory(error)),
    }
}

/// The values of the constants.
fn known_of(alloc: Global, names: &Names<'_>) -> Result<Known, Fault>
    ensures known { IfOk result (λ known. seen_known known ≡ facts.known (seen_names names.now)) }
    ensures wanting { IfErr result IsOfMemory }
{
    match Known::of(alloc, names) {
        Ok(known) => Ok(known),
        Err(error) => Err(Fault::Memory(error)),
    }
}

/// The units.
fn units_of<'a>(alloc: Global, names: &'a Names<'a>) -> Result<Units<'a>, Fault>
    ensures units { IfOk result (λ units. seen_names units.names.now ≡ seen_names names.now) }
    ensures wanting { IfErr result IsOfMemory }
{
    match Units::of(alloc, names) {
        Ok(units) => Ok(units),
        Err(error) => Err(Fault::Memory(error)),
    }
}

/// Whether a set with these units and constants breaks no rule of templates, names, types or locks; or one of these that it breaks, at its place; or want of memory.
#[tactic(auto, using(crate::proofs::Broken::wrong_names, crate::proofs::Broken::wrong_templates, crate::proofs::Broken::wrong_types, crate::proofs::Broken::wrong_locks))]
fn check_declared(alloc: Global, units: &Units<'_>, known: &Known) -> Result<(), Fault>
    requires constants { seen_known known.now ≡ facts.known (seen_names units.now.names.now) }
    ensures lawful { OnOk result (IsLawful (seen_names units.now.names.now)) }
    ensures broken { IfErr result (MisdeclaredBy (seen_names units.now.names.now)) }
{
    let names = units.names();
    match_templates(alloc, names, known)?;
    check_names(names)?;
    check_types(alloc, names, known)?;
    check_locks(alloc, units, known)?;
    Ok(())
}

/// Whether a set with these units and constants keeps the rules of calls and of limits; or one of these that it breaks, at its place, those of the
/// beginning of the set first; or want of memory.
#[tactic(auto, using(crate::proofs::Broken::all_kept, crate::proofs::Broken::no_program, crate::proofs::Broken::beyond_limits, crate::proofs::Broken::wrong_calls))]
fn check_whole(alloc: Global, units: &Units<'_>, known: &Known) -> Result<(), Fault>
    requires constants { seen_known known.now ≡ facts.known (seen_names units.now.names.now) }
    requires lawful { IsLawful (seen_names units.now.names.now) }
    ensures checked { OnOk result (IsChecked (seen_names units.now.names.now)) }
    ensures broken { IfErr result (OversteppedBy (seen_names units.now.names.now)) }
{
    let names = units.names();
    check_program(names)?;
    check_limits(alloc, names, known)?;
    check_calls(alloc, units)?;
    Ok(())
}

/// The image of files that keep the rules, but perhaps 410, or 951 by their image; or the one of these that they break, at its place; or want of memory.
#[tactic(auto, using(crate::proofs::Broken::counted, crate::proofs::Broken::without_image, crate::proofs::Broken::overfilled))]
fn image_checked(
    alloc: Global,
    files: &[File],
    units: &Units<'_>,
    known: &Known,
) -> Result<ImageParts, Fault>
    requires names { seen_names units.now.names.now ≡ phrases_of (map seen_file files.now) }
    requires constants { seen_known known.now ≡ facts.known (phrases_of (map seen_file files.now)) }
    requires checked { IsChecked (phrases_of (map seen_file files.now)) }
    requires whole { LinksWhole (map seen_file files.now) }
    ensures compiled { IfOk result (Compiles (map seen_file files.now)) }
    ensures broken { IfErr result (FilesBreakBy (map seen_file files.now)) }
{
    match image_in(alloc, files, units, known) {
        Ok(Ok(image)) => Ok(image),
        Ok(Err(Lacking::Code(place))) => Err(uncompiled(place)),
        Ok(Err(Lacking::Room)) => Err(overfull()),
        Err(error) => Err(Fault::Memory(error)),
    }
}

/// The image of files with these names, or a rule that they break, at its place; or want of memory.
#[tactic(auto, using(crate::proofs::Broken::unnamed, crate::proofs::Broken::misdeclared, crate::proofs::Broken::overstepped))]
fn image_named(alloc: Global, files: &[File], names: &Names<'_>) -> Result<ImageParts, Fault>
    requires names { seen_names names.now ≡ phrases_of (map seen_file files.now) }
    requires whole { IsChecked (phrases_of (map seen_file files.now)) → LinksWhole (map seen_file files.now) }
    ensures checked { IfOk result (λ image. IsChecked (phrases_of (map seen_file files.now))) }
    ensures compiled { IfOk result (Compiles (map seen_file files.now)) }
    ensures broken { IfErr result (FilesBreakBy (map seen_file files.now)) }
{
    let known = known_of(alloc, names)?;
    let units = units_of(alloc, names)?;
    check_declared(alloc, &units, &known)?;
    check_whole(alloc, &units, &known)?;
    image_checked(alloc, files, &units, &known)
}

/// The image of the set of these files, or a rule that it breaks, at its place; or want of memory.
#[tactic(auto, using(crate::proofs::Broken::unnamed))]
pub(crate) fn image_of(alloc: Global, files: &[File]) -> Result<ImageParts, Fault>
    requires whole { IsChecked (phrases_of (map seen_file files.now)) → LinksWhole (map seen_file files.now) }
    ensures checked { IfOk result (λ image. IsChecked (phrases_of (map seen_file files.now))) }
    ensures compiled { IfOk result (Compiles (map seen_file files.now)) }
    ensures broken { IfErr result (FilesBreakBy (map seen_file files.now)) }
{
    let names = names_of(alloc, files)?;
    image_named(alloc, files, &names)
}
