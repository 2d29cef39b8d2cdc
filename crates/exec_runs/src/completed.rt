//! A script that ends while a process is inside its UPDATE block.

ghost use Rattle.std.specs.Prelude.{◌≡◌, [], replicate};
ghost use Rattle.hal_values.specs.Tables.{process_count};

use crate::loads::load;
use crate::played::{has_made, has_stored};
use crate::row_loads::HELD;
use exec_model::{Event, Procs, Script, ScriptLine};
use exec_rows::ScriptedProcs;
use script_run::played;
use std::alloc::{AllocError, Global};

/// P makes its four events, and D begins and opens its block: that is when the script ends. Then the block is done.
const JOURNAL: [(Event, u32); 4] = [
    (Event::Act(0), 4),
    (Event::Act(1), 1),
    (Event::Open(1), 1),
    (Event::Block(1, 0), 1),
];

/// Whether the block of these processes is done after the last line.
fn is_done<P: Procs + Drop>(alloc: Global, procs: P, script: &Script) -> Result<bool, AllocError>
    requires { P.answers procs ≡ replicate (process_count (P.Of.tables (P.load procs))) [] }
{
    let plain = played(alloc, procs, script)?;
    let made = has_made(alloc, &plain, &JOURNAL)?;
    let stored = has_stored(alloc, &plain, &[2])?;
    Ok(made && stored)
}

/// Whether the load is right, and its open block is done after the last line.
pub(crate) fn is_completed(alloc: Global) -> Result<bool, AllocError> {
    let load = load(alloc, &HELD)?;
    if !load.is_right() {
        return Ok(false);
    }
    let procs = ScriptedProcs::start(alloc, load)?;
    let script = Script::new(vec![in alloc; ScriptLine::Run(6)]?);
    is_done(alloc, procs, &script)
}
