//! Runs that grow.

ghost use Rattle.std.specs.Prelude.{◌≡◌, ◌∷◌, ◌++◌, [], OnOk};
ghost use Rattle.hal_runs.specs.Joined.{with_run, with_some};

use crate::row::Row;
use hal_code::Run;
use std::alloc::AllocError;

/// Adds some rows behind a last run, which counts them too where they are the same.
#[tactic(auto, unfolding(crate::specs::Joined::with_some))]
fn push_behind<T: Row + Drop>(
    runs: &mut Vec<Run<T>>,
    last: Run<T>,
    run: Run<T>,
) -> Result<(), AllocError>
    ensures { OnOk result (runs.new.items ≡ runs.old.items ++ with_some T.same (last ∷ []) run) }
{
    if last.row.is_same(&run.row)
        && let Some(repeat) = last.repeat.checked_add(run.repeat)
    {
        runs.push(Run {
            repeat,
            row: last.row,
        })?;
        return Ok(());
    }
    runs.push(last)?;
    runs.push(run)?;
    Ok(())
}

/// Adds so many rows to runs: equal neighbours become one run (image document, Bytes).
#[tactic(auto, using(crate::proofs::Expanded::some_behind), unfolding(crate::specs::Joined::with_some))]
pub fn push_run<T: Row + Drop>(runs: &mut Vec<Run<T>>, run: Run<T>) -> Result<(), AllocError>
    ensures { OnOk result (runs.new.items ≡ with_run T.same runs.old.items run) }
{
    if run.repeat == 0 {
        return Ok(());
    }
    match runs.pop() {
        None => {
            runs.push(run)?;
            Ok(())
        }
        Some(last) => push_behind(runs, last, run),
    }
}
