ghost use Rattle.std.specs.Prelude.{◌≡◌, ℕ, ◌≤◌, true, List};
ghost use Rattle.exec_model.specs.declared.event.Event.{Event};
ghost use Rattle.exec_model.specs.declared.script.ScriptLine.{ScriptLine};
ghost use Rattle.exec_model.specs.Meanings.{meaning};
ghost use Rattle.exec_model.specs.Moments.{Moment, row_of};
ghost use Rattle.exec_model.specs.Rows.{is_ready};
ghost use Rattle.exec_model.specs.Runs.{IsOfProcess, Reaches, IsRunTo};
ghost use Rattle.exec_model.specs.Scripts.{IsScript};
ghost use Rattle.exec_model.specs.Steps.{IsAllowed};

use hal_values::Load;

/// A law of every load: with one lane it has at most one run under a script, and at a moment that script
/// lines reach at most one event of a process may come. With any number of lanes nothing is stuck: where a
/// process is Ready at such a moment, an event of a process may come.
pub fn one_lane_is_one_run<Q: Load>(load: &Q)
    ensures one_event { (script : List ScriptLine) (lines : ℕ) (journal : List Event) (m : Moment)
        → IsScript script
        → Reaches (meaning Q.Load load.now) script 1 lines journal m
        → (e f : Event)
        → IsOfProcess e
        → IsOfProcess f
        → IsAllowed (meaning Q.Load load.now) 1 m e
        → IsAllowed (meaning Q.Load load.now) 1 m f
        → e ≡ f }
    ensures some_event { (script : List ScriptLine) (lanes lines : ℕ) (journal : List Event) (m : Moment)
        → IsScript script
        → 1 ≤ lanes
        → Reaches (meaning Q.Load load.now) script lanes lines journal m
        → (p : ℕ)
        → is_ready (row_of m p) ≡ true
        → (e : Event) × IsOfProcess e × IsAllowed (meaning Q.Load load.now) lanes m e }
    ensures one_run { (script : List ScriptLine) (journal other : List Event) (end other_end : Moment)
        → IsScript script
        → IsRunTo (meaning Q.Load load.now) script 1 journal end
        → IsRunTo (meaning Q.Load load.now) script 1 other other_end
        → (journal ≡ other) × (end ≡ other_end) }
{}
