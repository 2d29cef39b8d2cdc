ghost use Rattle.std.specs.Prelude.{◌≡◌, ◌≤◌, ◌⊎◌, ◌++◌, codes, IfOk};
ghost use Rattle.std.specs.String.{string_bytes};
ghost use Rattle.hal_top.specs.CommandLine as lines;
ghost use Rattle.hal_top.specs.CommandLine.{texts, usage_line};
ghost use Rattle.hal_top.specs.Outcomes.{refusal_line, file_word, rule_text, fault_text, image_text, Prints};
ghost use Rattle.hal_top.specs.Told as told;
ghost use Rattle.hal_top.specs.declared.refused.Refused.TheVariants.{Memory, Usage};

use crate::outcome::Outcome;
use crate::refused::Refused;
use crate::words::is_build;
use hal_base::{Refusal, Sink};
use hal_report::drain;
use hal_script::ScriptFault;
use hal_values::Listing;
use std::alloc::{AllocError, Global};

/// What is printed where the words have no form.
const USAGE: &str =
    "usage: hal run LANES SCRIPT UNIT.. | build UNIT.. | exec LANES SCRIPT IMAGE | make NUMBER SIZE\n";

/// How many files stand before the first unit's.
fn files_before(words: &[String]) -> u32
    ensures { result ≡ lines.files_before (texts words.now) }
{
    if is_build(words) { 0 } else { 1 }
}

/// The number of a unit's file among those that the words name.
fn file_of_unit(words: &[String], unit: u32) -> u32
    ensures { result ≡ lines.file_of_unit (texts words.now) unit }
{
    unit.saturating_add(files_before(words))
}

/// The file that is at fault.
fn file_of(words: &[String], refused: Refused) -> Option<u32>
    ensures { result ≡ told.file_of (texts words.now) refused }
{
    match refused {
        Refused::Usage | Refused::Shelf | Refused::Memory => None,
        Refused::Absent(number) | Refused::TooLong(number) => Some(number),
        Refused::Rule(refusal) => Some(file_of_unit(words, refusal.place.unit)),
        Refused::Script(_) => Some(0),
        Refused::NotImage | Refused::Unsound(_) => Some(1),
    }
}

/// The outcome of a refusal: nothing ran.
fn outcome(alloc: Global, words: &[String], refused: Refused) -> Outcome
    ensures { result ≡ told.outcome_of (texts words.now) refused }
{
    let file = file_of(words, refused);
    let journal = Listing::empty(alloc);
    let (status, rule, script_fault, image_fault) = match refused {
        Refused::Usage => (2, None, None, None),
        Refused::Absent(_) => (3, None, None, None),
        Refused::TooLong(_) => (4, None, None, None),
        Refused::Rule(refusal) => (5, Some(refusal), None, None),
        Refused::Script(fault) => (6, None, Some(fault), None),
        Refused::Shelf => (7, None, None, None),
        Refused::Memory => (9, None, None, None),
        Refused::NotImage => (10, None, None, None),
        Refused::Unsound(number) => (10, None, None, Some(number)),
    };
    Outcome {
        status,
        journal,
        file,
        refused: rule,
        script_fault,
        image_fault,
    }
}

/// How many words stand before the first file's name.
fn words_before(words: &[String]) -> usize
    ensures { result ≡ lines.words_before (texts words.now) }
{
    if is_build(words) { 1 } else { 2 }
}

/// The word that names the file with this number.
fn word_of_file(words: &[String], number: u32) -> &str
    ensures { result.now ≡ file_word (texts words.now) (Some number) }
{
    match words.get(number as usize + words_before(words)) {
        Some(word) => word.as_str(),
        None => "",
    }
}

/// The line of a file that is absent.
fn absent_line(alloc: Global, words: &[String], number: u32) -> Result<String, AllocError>
    ensures { IfOk result (λ text. string_bytes text ≡ file_word (texts words.now) (Some number) ++ codes ": absent\n") }
{
    let name = word_of_file(words, number);
    format!(in alloc; "{name}: absent\n")
}

/// The line of a file that is too long.
fn long_line(alloc: Global, words: &[String], number: u32) -> Result<String, AllocError>
    ensures { IfOk result (λ text. string_bytes text ≡ file_word (texts words.now) (Some number) ++ codes ": too long\n") }
{
    let name = word_of_file(words, number);
    format!(in alloc; "{name}: too long\n")
}

/// The line of bytes that are no image.
fn no_image_line(alloc: Global, words: &[String]) -> Result<String, AllocError>
    ensures { IfOk result (λ text. string_bytes text ≡ file_word (texts words.now) (Some 1) ++ image_text None) }
{
    let name = word_of_file(words, 1);
    format!(in alloc; "{name}: not an image\n")
}

/// The line of an image that can't run.
fn image_line(alloc: Global, words: &[String], number: u64) -> Result<String, AllocError>
    ensures { IfOk result (λ text. string_bytes text ≡ file_word (texts words.now) (Some 1) ++ image_text (Some number)) }
{
    let name = word_of_file(words, 1);
    format!(in alloc; "{name}: instruction {number}\n")
}

/// The line of a unit that breaks a rule.
fn rule_line(alloc: Global, words: &[String], refusal: Refusal) -> Result<String, AllocError>
    ensures { IfOk result (λ text. string_bytes text ≡ file_word (texts words.now) (Some (lines.file_of_unit (texts words.now) refusal.place.unit)) ++ rule_text (Some refusal)) }
{
    let name = word_of_file(words, file_of_unit(words, refusal.place.unit));
    let line = refusal.place.line;
    let column = refusal.place.column;
    let rule = refusal.rule.0;
    format!(in alloc; "{name}:{line}:{column}: rule {rule}\n")
}

/// The line of a script with a faulty line.
fn script_line(alloc: Global, words: &[String], fault: ScriptFault) -> Result<String, AllocError>
    ensures { IfOk result (λ text. string_bytes text ≡ file_word (texts words.now) (Some 0) ++ fault_text (Some fault)) }
{
    let name = word_of_file(words, 0);
    let line = fault.line;
    let reason = fault.reason;
    format!(in alloc; "{name}:{line}: reason {reason}\n")
}

/// The one line of a refusal.
fn refusal_text(alloc: Global, words: &[String], refused: Refused) -> Result<String, AllocError>
    ensures { IfOk result (λ text. string_bytes text ≡ refusal_line (texts words.now) (told.outcome_of (texts words.now) refused)) }
{
    match refused {
        Refused::Usage => String::from_str(alloc, USAGE),
        Refused::Absent(number) => absent_line(alloc, words, number),
        Refused::TooLong(number) => long_line(alloc, words, number),
        Refused::Rule(refusal) => rule_line(alloc, words, refusal),
        Refused::Script(fault) => script_line(alloc, words, fault),
        Refused::NotImage => no_image_line(alloc, words),
        Refused::Unsound(number) => image_line(alloc, words, number),
        Refused::Shelf => String::from_str(alloc, "shelf fault\n"),
        Refused::Memory => String::from_str(alloc, "memory\n"),
    }
}

/// Prints a line; where the sink fails, a front of it.
fn print_line<O: Sink>(line: &[u8], out: &mut O)
    ensures printed { Prints (O.taken out.old) (O.taken out.new) line.now (O.faults out.old) (O.faults out.new) }
    ensures later { O.faults out.old ≤ O.faults out.new }
{
    let _ = drain(line, out);
}

/// Prints the one line of a refusal. Where memory for the line is wanting, that is the refusal; the
/// line on the use of the words needs none.
pub fn refuse<O: Sink>(alloc: Global, words: &[String], refused: Refused, out: &mut O) -> Outcome
    ensures outcome { (result ≡ told.outcome_of (texts words.now) refused) ⊎ (result ≡ told.outcome_of (texts words.now) Memory) }
    ensures usage { refused ≡ Usage → result ≡ told.outcome_of (texts words.now) Usage }
    ensures line { Prints (O.taken out.old) (O.taken out.new) (refusal_line (texts words.now) result) (O.faults out.old) (O.faults out.new) }
    ensures later { O.faults out.old ≤ O.faults out.new }
{
    if let Refused::Usage = refused {
        print_line(USAGE.as_bytes(), out);
        return outcome(alloc, words, Refused::Usage);
    }
    match refusal_text(alloc, words, refused) {
        Ok(text) => {
            print_line(text.as_bytes(), out);
            outcome(alloc, words, refused)
        }
        Err(_) => {
            print_line(b"memory\n", out);
            outcome(alloc, words, Refused::Memory)
        }
    }
}
