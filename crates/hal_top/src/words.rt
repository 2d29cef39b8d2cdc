ghost use Rattle.std.specs.Prelude.{◌≡◌, ℕ, List, IfSome, IfNone, IsTrue, ◌↔◌, length};
ghost use Rattle.std.specs.String.{string_bytes};
ghost use Rattle.hal_top.specs.CommandLine as lines;
ghost use Rattle.hal_top.specs.CommandLine.{texts, IsRunLine, IsBuildLine, IsExecLine, IsUnitCount, IsCommand, HasNoForm, seen_command};

use hal_base::UNIT_LIMIT;

/// What a call is asked for, with the names of the files.
#[derive(Drop)]
pub enum Command<'a> {
    /// A set of units is run under a script: `run 1 SCRIPT UNIT..`.
    Run {
        script: &'a str,
        units: &'a [String],
    },
    /// The image of a set of units is written: `build UNIT..`.
    Build {
        units: &'a [String],
    },
    /// An image is run under a script: `exec 1 SCRIPT IMAGE`.
    Exec {
        script: &'a str,
        image: &'a str,
    },
}

/// The command of these words, None where they have no form.
#[tactic(auto, using(crate::proofs::Forms::no_form))]
pub fn command_of(words: &[String]) -> Option<Command<'_>>
    ensures command { IfSome result (λ command. IsCommand (texts words.now) (seen_command command)) }
    ensures none { IfNone result (HasNoForm (texts words.now)) }
{
    if let Some((script, units)) = run_line(words) {
        return Some(Command::Run { script, units });
    }
    if let Some(units) = build_line(words) {
        return Some(Command::Build { units });
    }
    let (script, image) = exec_line(words)?;
    Some(Command::Exec { script, image })
}

/// The script and the units of `run 1 SCRIPT UNIT..`.
fn run_line(words: &[String]) -> Option<(&str, &[String])>
    ensures run { IfSome result (λ files. IsRunLine (texts words.now) files.0.now (texts files.1.now)) }
    ensures none { IfNone result ((script : List ℕ) (units : List (List ℕ)) → IsRunLine (texts words.now) script units → ⊥) }
{
    match words {
        [run, lanes, script, units @ ..]
            if is_text(run, "run") && is_text(lanes, "1") && is_unit_count(units.len()) => {
            Some((script.as_str(), units))
        }
        _ => None,
    }
}

/// The units of `build UNIT..`.
fn build_line(words: &[String]) -> Option<&[String]>
    ensures build { IfSome result (λ units. IsBuildLine (texts words.now) (texts units.now)) }
    ensures none { IfNone result ((units : List (List ℕ)) → IsBuildLine (texts words.now) units → ⊥) }
{
    match words {
        [build, units @ ..] if is_text(build, "build") && is_unit_count(units.len()) => Some(units),
        _ => None,
    }
}

/// The script and the image of `exec 1 SCRIPT IMAGE`.
fn exec_line(words: &[String]) -> Option<(&str, &str)>
    ensures exec { IfSome result (λ files. IsExecLine (texts words.now) files.0.now files.1.now) }
    ensures none { IfNone result ((script image : List ℕ) → IsExecLine (texts words.now) script image → ⊥) }
{
    match words {
        [exec, lanes, script, image] if is_text(exec, "exec") && is_text(lanes, "1") => {
            Some((script.as_str(), image.as_str()))
        }
        _ => None,
    }
}

/// Whether the words are of `build`, which names no script.
pub fn is_build(words: &[String]) -> bool
    ensures { result ≡ lines.is_build (texts words.now) }
{
    match words {
        [] => false,
        [word, ..] => word.as_str() == "build",
    }
}

/// Whether a word is this text.
fn is_text(word: &String, text: &str) -> bool
    ensures { IsTrue result ↔ (string_bytes word.now ≡ text.now) }
{
    word.as_str() == text
}

/// Whether a command may name so many units.
fn is_unit_count(count: usize) -> bool
    ensures { IsTrue result ↔ IsUnitCount count }
{
    1 <= count && count <= UNIT_LIMIT as usize
}
