ghost use Rattle.std.specs.Prelude.{◌≡◌, ℕ, ◌↔◌, List};
ghost use Rattle.hal_values.specs.Loads.{Agree};
ghost use Rattle.exec_model.specs.declared.event.Event.{Event};
ghost use Rattle.exec_model.specs.declared.script.ScriptLine.{ScriptLine};
ghost use Rattle.exec_model.specs.Meanings.{meaning};
ghost use Rattle.exec_model.specs.Moments.{Moment};
ghost use Rattle.exec_model.specs.Report.{report};
ghost use Rattle.exec_model.specs.Runs.{Reaches, IsRunTo, IsRun};
ghost use Rattle.exec_model.specs.Scripts.{IsScript};

use hal_values::Load;

/// A law of loads that agree: under a script and on any number of lanes they have the same runs, to the
/// same moments, and at each moment that a journal reaches, and at the end of a run, the same report.
pub fn loads_that_agree_have_equal_runs<A: Load, B: Load>(a: &A, b: &B)
    ensures runs { Agree (meaning A.Load a.now) (meaning B.Load b.now)
        → (script : List ScriptLine) (lanes : ℕ) (journal : List Event)
        → IsScript script
        → IsRun (meaning A.Load a.now) script lanes journal ↔ IsRun (meaning B.Load b.now) script lanes journal }
    ensures ends { Agree (meaning A.Load a.now) (meaning B.Load b.now)
        → (script : List ScriptLine) (lanes : ℕ) (journal : List Event) (m : Moment)
        → IsScript script
        → IsRunTo (meaning A.Load a.now) script lanes journal m ↔ IsRunTo (meaning B.Load b.now) script lanes journal m }
    ensures reached { Agree (meaning A.Load a.now) (meaning B.Load b.now)
        → (script : List ScriptLine) (lanes lines : ℕ) (journal : List Event) (m : Moment)
        → IsScript script
        → Reaches (meaning A.Load a.now) script lanes lines journal m ↔ Reaches (meaning B.Load b.now) script lanes lines journal m }
    ensures reports { Agree (meaning A.Load a.now) (meaning B.Load b.now)
        → (script : List ScriptLine) (lanes lines : ℕ) (journal : List Event) (m : Moment)
        → IsScript script
        → Reaches (meaning A.Load a.now) script lanes lines journal m
        → report (meaning A.Load a.now) m ≡ report (meaning B.Load b.now) m }
    ensures end_reports { Agree (meaning A.Load a.now) (meaning B.Load b.now)
        → (script : List ScriptLine) (lanes : ℕ) (journal : List Event) (m : Moment)
        → IsScript script
        → IsRunTo (meaning A.Load a.now) script lanes journal m
        → report (meaning A.Load a.now) m ≡ report (meaning B.Load b.now) m }
{}
