ghost use Rattle.std.specs.Prelude.{◌≡◌, ◌++◌, IfOk, IfErr};
ghost use Rattle.std.specs.Option.{option_to_list};
ghost use Rattle.std.specs.Str.Lines.{lines};
ghost use Rattle.hal_script.specs.Readings.{past};
ghost use Rattle.hal_script.specs.ScriptTexts.{IsScriptOf, IsFaultTold};
ghost use Rattle.hal_script.specs.Fits.{Fits};
ghost use Rattle.exec_model.specs.Scripts.{IsScript, is_input as is_input_line};

use crate::fault::{ScriptError, ScriptFault};
use crate::reading::{Reading, SoFar, read_line};
use exec_model::{Script, ScriptLine};
use hal_base::first_line;
use std::alloc::{AllocError, Global};

/// Whether a line gives data to a channel.
fn is_input(line: &ScriptLine) -> bool
    ensures { result ≡ is_input_line line.now }
{
    matches!(line, ScriptLine::Input(..))
}

/// Adds what a good line asks for, and tells how far the script has come after it.
fn add(
    script: &mut Vec<ScriptLine>,
    so_far: SoFar,
    asked: Option<ScriptLine>,
) -> Result<SoFar, AllocError>
    requires { Fits so_far asked }
    ensures { IfOk result (λ next. (script.new.items ≡ script.old.items ++ option_to_list asked) × (next ≡ past so_far asked)) }
{
    let mut next = so_far;
    next.line_count += 1;
    match asked {
        None => Ok(next),
        Some(line) => {
            match line {
                ScriptLine::Run(count) => next.events += count,
                ScriptLine::Tick(time) => next.time += time,
                _ => {}
            }
            next.begun = next.begun || !is_input(&line);
            script.push(line)?;
            Ok(next)
        }
    }
}

/// Reads a script of INPUT lines and, behind them, RUN, TICK and PREEMPT lines. A fault is the first faulty line, with
/// its first reason: 6 too many lines or a sum above its limit, 1 unknown first word, 4 an INPUT behind another
/// kind, 2 operand missing, malformed or followed by more, 3 number out of range, 5 an open quote or a byte
/// outside 32 to 126.
pub fn read_script(alloc: Global, bytes: &[u8]) -> Result<Script, ScriptError>
    ensures found { IfOk result (λ script. IsScriptOf (lines bytes.now) script) }
    ensures limits { IfOk result (λ script. IsScript script) }
    ensures faulty { IfErr result (λ error. IsFaultTold (lines bytes.now) error) }
{
    let mut script = Vec::new(alloc);
    let mut rest = bytes;
    let mut so_far = SoFar {
        line_count: 0,
        begun: false,
        events: 0,
        time: 0,
    };
    'lines: while let Some((line, after)) = first_line(rest) {
        let asked = match read_line(alloc, so_far, line)? {
            Reading::Good(asked) => asked,
            Reading::Faults(reason) => {
                return Err(ScriptError::Faulty(ScriptFault {
                    line: so_far.line_count + 1,
                    reason,
                }));
            }
        };
        so_far = add(&mut script, so_far, asked)?;
        rest = after;
    }
    Ok(Script::new(script))
}
