ghost use Rattle.std.specs.Prelude.{ℕ, List};
ghost use Rattle.exec_model.specs.declared.event.Event.{Event};
ghost use Rattle.exec_model.specs.declared.script.ScriptLine.{ScriptLine};
ghost use Rattle.exec_model.specs.Meanings.{meaning};
ghost use Rattle.exec_model.specs.Moments.{Moment};
ghost use Rattle.exec_model.specs.Opening.{opening};
ghost use Rattle.exec_model.specs.Sound.{IsStamped};
ghost use Rattle.exec_model.specs.Steps.{Steps};

use hal_values::Load;

/// A law of every load: at each moment to which steps lead from an opening, no two Ready rows have the
/// same stamp. So the order of the Ready rows is decided by marks, priorities and stamps alone.
pub fn ready_rows_have_stamps_of_their_own<Q: Load>(load: &Q)
    ensures { (script : List ScriptLine) (lanes : ℕ) (journal : List Event) (m : Moment)
        → Steps (meaning Q.Load load.now) lanes (opening (Q.tables load.now) script) journal m
        → IsStamped m }
{}
