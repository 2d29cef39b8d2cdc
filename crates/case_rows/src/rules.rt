//! Rows of names, types, locks, calls and templates. `UNIT ~~ UNIT => rule 601 0 3:7` is a set of units that breaks a rule in unit 0 at a line and a column, and `UNIT => right` one
//! that breaks none: no rule of names where it is tried as `names`, none of types either where it is tried as `types`, none of locks either where it is tried as
//! `locks`, and none of calls either where it is tried as `calls`. Where it is tried as `templates` the rules of templates come first, and one that is `right` breaks none of
//! all these. A newline in a unit is written `\n`.

ghost use Rattle.std.specs.Prelude.{◌≡◌, IfOk};
ghost use Rattle.hal_names.specs.SeenNames.{seen_names};
ghost use Rattle.hal_constants.specs.Known as facts;
ghost use Rattle.hal_constants.specs.SeenKnown.{seen_known};

use hal_base::{Fault, Place, Refusal, Rule};
use hal_calls::{check_calls, check_program};
use hal_constants::Known;
use hal_lexer::tokens;
use hal_locks::check_locks;
use hal_names::Names;
use hal_parse::parse;
use hal_phrases::phrases_of;
use hal_reach::Units;
use hal_scope::resolve;
use hal_templates::match_templates;
use hal_tree::File;
use hal_types::check_types;
use row_files::{Rows, bytes_of};
use std::alloc::{AllocError, Global};

/// What a row separates its units from the outcome with.
const ARROW: &str = " => ";

/// What a row separates its units with.
const BESIDE: &str = " ~~ ";

/// Rows of rules.
#[derive(Clone, Copy)]
pub(crate) struct RuleRows;

impl Rows for RuleRows {
    fn written(&self, alloc: Global, way: &str, row: &str) -> Result<String, AllocError> {
        let Some((units, _)) = row.split_once(ARROW) else {
            return String::from_str(alloc, "a row with nothing to try");
        };
        let outcome = match way {
            "names" => names_of(alloc, units),
            "types" => types_of(alloc, units),
            "locks" => locks_of(alloc, units),
            "calls" => calls_of(alloc, units),
            "templates" => templates_of(alloc, units),
            _ => return String::from_str(alloc, "a way in which nothing is tried"),
        };
        let came = match outcome {
            Ok(()) => String::from_str(alloc, "right")?,
            Err(Fault::Broken(refusal)) => told(alloc, refusal)?,
            Err(Fault::Memory(error)) => return Err(error),
        };
        format!(in alloc; "{units}{ARROW}{came}")
    }
}

/// A rule and its place.
fn told(alloc: Global, refusal: Refusal) -> Result<String, AllocError> {
    let Rule(rule) = refusal.rule;
    let Place { unit, line, column } = refusal.place;
    format!(in alloc; "rule {rule} {unit} {line}:{column}")
}

/// The file that is unit number `number` of a set.
fn file_of(alloc: Global, notation: &str, number: u32) -> Result<File, Fault> {
    let text = match bytes_of(alloc, notation) {
        Ok(text) => text.unwrap_or(Vec::new(alloc)),
        Err(error) => return Err(Fault::Memory(error)),
    };
    let words = tokens(alloc, text.as_slice(), number)?;
    parse(alloc, words.as_slice(), number)
}

/// The files of a set of units.
fn files_of(alloc: Global, units: &str) -> Result<Vec<File>, Fault> {
    let mut files = Vec::new(alloc);
    let mut number: u32 = 0;
    for unit in units.split(BESIDE) {
        let file = file_of(alloc, unit, number)?;
        if files.push(file).is_err() {
            return Err(Fault::Memory(AllocError));
        }
        number = number.saturating_add(1);
    }
    Ok(files)
}

/// Whether a set of units breaks no rule of names.
fn names_of(alloc: Global, units: &str) -> Result<(), Fault> {
    let files = files_of(alloc, units)?;
    resolve(alloc, files.as_slice())?;
    Ok(())
}

/// The values of the constants of a set of files with these names.
fn known_of(alloc: Global, names: &Names<'_>) -> Result<Known, Fault>
    ensures { IfOk result (λ known. seen_known known ≡ facts.known (seen_names names.now)) }
{
    match Known::of(alloc, names) {
        Ok(known) => Ok(known),
        Err(error) => Err(Fault::Memory(error)),
    }
}

/// The units of that set, as far as calls go.
fn called_of<'a>(alloc: Global, names: &'a Names<'a>) -> Result<Units<'a>, Fault>
    ensures { IfOk result (λ units. seen_names units.names.now ≡ seen_names names.now) }
{
    match Units::of(alloc, names) {
        Ok(units) => Ok(units),
        Err(error) => Err(Fault::Memory(error)),
    }
}

/// Whether a set of files with these names breaks no rule of types and none of locks.
fn keeps_locks(alloc: Global, names: &Names<'_>) -> Result<(), Fault> {
    let known = known_of(alloc, names)?;
    let called = called_of(alloc, names)?;
    check_types(alloc, names, &known)?;
    check_locks(alloc, &called, &known)
}

/// Whether it breaks no rule of calls.
fn keeps_calls(alloc: Global, names: &Names<'_>) -> Result<(), Fault> {
    let called = called_of(alloc, names)?;
    check_program(names)?;
    check_calls(alloc, &called)
}

/// Whether a set of units breaks no rule of names and none of types.
fn types_of(alloc: Global, units: &str) -> Result<(), Fault> {
    let files = files_of(alloc, units)?;
    let names = resolve(alloc, files.as_slice())?;
    let known = known_of(alloc, &names)?;
    check_types(alloc, &names, &known)
}

/// Whether a set of units breaks no rule of names, none of types and none of locks.
fn locks_of(alloc: Global, units: &str) -> Result<(), Fault> {
    let files = files_of(alloc, units)?;
    let names = resolve(alloc, files.as_slice())?;
    keeps_locks(alloc, &names)
}

/// Whether a set of units breaks no rule of names, none of types, none of locks and none of calls.
fn calls_of(alloc: Global, units: &str) -> Result<(), Fault> {
    let files = files_of(alloc, units)?;
    let names = resolve(alloc, files.as_slice())?;
    keeps_locks(alloc, &names)?;
    keeps_calls(alloc, &names)
}

/// The names of a set of files, whatever rules it breaks.
fn any_names<'a>(alloc: Global, files: &'a [File]) -> Result<Names<'a>, AllocError> {
    Names::of(alloc, phrases_of(alloc, files)?)
}

/// Whether a set of units breaks no rule of templates.
fn keeps_templates(alloc: Global, units: &str) -> Result<(), Fault> {
    let files = files_of(alloc, units)?;
    let names = match any_names(alloc, files.as_slice()) {
        Ok(names) => names,
        Err(error) => return Err(Fault::Memory(error)),
    };
    let known = known_of(alloc, &names)?;
    match_templates(alloc, &names, &known)
}

/// Whether a set of units breaks no rule of templates, and none of the others.
fn templates_of(alloc: Global, units: &str) -> Result<(), Fault> {
    keeps_templates(alloc, units)?;
    calls_of(alloc, units)
}
