//! Runs of a script on the plain executive.

ghost use Rattle.std.specs.Prelude.{◌≡◌, ◌≢◌, ◌<◌, ◌≤◌, ◌+◌, ◌↔◌, ◌++◌, ◌∷◌, ℕ, [], Some, slice_get, sum_by, IfSome, IfNone, OnOk, IsTrue};
ghost use Rattle.hal_base.specs.declared.limits.TheConstants.{PROCESS_LIMIT, TICK_SUM_LIMIT};
ghost use Rattle.hal_values.specs.Tables.{process_count};
ghost use Rattle.exec_model.specs.Meanings.{meaning};
ghost use Rattle.exec_model.specs.Opening.{opening};
ghost use Rattle.exec_model.specs.Running.{running_moment};
ghost use Rattle.exec_model.specs.Runs.{IsLowestNamed, IsUnknown, IsRunTo};
ghost use Rattle.exec_model.specs.Scripts.{asked_time};
ghost use Rattle.exec_model.specs.Sound.{IsSound, KeepsClock};
ghost use Rattle.exec_model.specs.Steps.{IsAllowed, stepped};
ghost use Rattle.script_run.specs.Running.{Continues, IsClosed, RunsBlocks, RunsLine, RunsLines};

use exec_model::{Event, Plain, Procs, Row, Script, ScriptLine};
use hal_values::Tables;
use std::alloc::AllocError;

/// Makes the step of an event that may come.
fn make<P: Procs + Drop>(plain: &mut Plain<P>, event: Event) -> Result<(), AllocError>
    requires allowed { IsAllowed (meaning P.Of.Load (P.load plain.old.procs)) plain.old.lanes (running_moment P.answers plain.old) event }
    requires clock { KeepsClock (running_moment P.answers plain.old) event }
    ensures made { OnOk result (running_moment P.answers plain.new ≡ stepped (meaning P.Of.Load (P.load plain.old.procs)) (running_moment P.answers plain.old) event) }
    ensures written { OnOk result (plain.new.journal ≡ plain.old.journal ++ event ∷ []) }
    ensures load { P.load plain.new.procs ≡ P.load plain.old.procs }
    ensures lanes { plain.new.lanes ≡ plain.old.lanes }
{
    plain.step(event)?;
    Ok(())
}

/// Makes at most `count` events of processes, and fewer only where no process is Ready any more.
fn run_events<P: Procs + Drop>(plain: &mut Plain<P>, count: u32) -> Result<(), AllocError>
    ensures made { OnOk result (Continues (meaning P.Of.Load (P.load plain.old.procs)) plain.old.lanes (running_moment P.answers plain.old) count plain.old.journal plain.new.journal (running_moment P.answers plain.new)) }
    ensures load { P.load plain.new.procs ≡ P.load plain.old.procs }
    ensures lanes { plain.new.lanes ≡ plain.old.lanes }
{
    'events: for _ in 0..count {
        let Some(event) = plain.next_event()? else {
            return Ok(());
        };
        make(plain, event)?;
    }
    Ok(())
}

/// Lets the clock go on.
fn tick<P: Procs + Drop>(plain: &mut Plain<P>, time: u64) -> Result<(), AllocError>
    requires { plain.old.state.clock + time ≤ TICK_SUM_LIMIT }
    ensures made { OnOk result (RunsLine (meaning P.Of.Load (P.load plain.old.procs)) plain.old.lanes (running_moment P.answers plain.old) (ScriptLine.Tick time) plain.old.journal plain.new.journal (running_moment P.answers plain.new)) }
    ensures load { P.load plain.new.procs ≡ P.load plain.old.procs }
    ensures lanes { plain.new.lanes ≡ plain.old.lanes }
{
    make(plain, Event::Tick(time))?;
    Ok(())
}

/// Whether these are the same bytes.
fn are_same(one: &[u8], other: &[u8]) -> bool
    ensures { IsTrue result ↔ (one.now ≡ other.now) }
{
    one == other
}

/// Whether the process at this place has this name.
fn is_named(tables: &Tables, place: usize, name: &[u8]) -> bool
    ensures { IsTrue result ↔ (slice_get tables.now.processes place ≡ Some name.now) }
{
    match tables.processes.as_slice().get(place) {
        Some(text) => are_same(text.bytes(), name),
        None => false,
    }
}

/// The lowest process of this name, if there is one.
fn named(tables: &Tables, name: &[u8]) -> Option<u8>
    requires { process_count tables.now ≤ PROCESS_LIMIT }
    ensures found { IfSome result (IsLowestNamed tables.now name.now) }
    ensures none { IfNone result (IsUnknown tables.now name.now) }
{
    'places: for place in 0..tables.processes.as_slice().len() {
        if is_named(tables, place, name) {
            return Some(place as u8);
        }
    }
    None
}

/// The process of this name gives way, if there is one.
fn preempt<P: Procs + Drop>(plain: &mut Plain<P>, name: &[u8]) -> Result<(), AllocError>
    ensures made { OnOk result (RunsLine (meaning P.Of.Load (P.load plain.old.procs)) plain.old.lanes (running_moment P.answers plain.old) (ScriptLine.Preempt name.now) plain.old.journal plain.new.journal (running_moment P.answers plain.new)) }
    ensures load { P.load plain.new.procs ≡ P.load plain.old.procs }
    ensures lanes { plain.new.lanes ≡ plain.old.lanes }
{
    let Some(process) = named(plain.procs().tables(), name) else {
        return Ok(());
    };
    make(plain, Event::Preempt(process))?;
    Ok(())
}

/// Makes the events of a script line.
fn run_line<P: Procs + Drop>(plain: &mut Plain<P>, line: &ScriptLine) -> Result<(), AllocError>
    requires { plain.old.state.clock + asked_time line.now ≤ TICK_SUM_LIMIT }
    ensures made { OnOk result (RunsLine (meaning P.Of.Load (P.load plain.old.procs)) plain.old.lanes (running_moment P.answers plain.old) line.now plain.old.journal plain.new.journal (running_moment P.answers plain.new)) }
    ensures load { P.load plain.new.procs ≡ P.load plain.old.procs }
    ensures lanes { plain.new.lanes ≡ plain.old.lanes }
{
    match line {
        ScriptLine::Run(count) => run_events(plain, *count),
        ScriptLine::Tick(time) => tick(plain, *time),
        ScriptLine::Preempt(name) => preempt(plain, name.as_slice()),
        ScriptLine::Input(_, _) => Ok(()),
    }
}

/// Makes the events of script lines.
fn run_lines<P: Procs + Drop>(plain: &mut Plain<P>, lines: &[ScriptLine]) -> Result<(), AllocError>
    requires { plain.old.state.clock + sum_by asked_time lines.now ≤ TICK_SUM_LIMIT }
    ensures made { OnOk result (RunsLines (meaning P.Of.Load (P.load plain.old.procs)) plain.old.lanes (running_moment P.answers plain.old) lines.now plain.old.journal plain.new.journal (running_moment P.answers plain.new)) }
    ensures load { P.load plain.new.procs ≡ P.load plain.old.procs }
    ensures lanes { plain.new.lanes ≡ plain.old.lanes }
{
    for line in lines {
        run_line(plain, line)?;
    }
    Ok(())
}

/// Whether no process is inside an UPDATE block.
fn has_no_open_block(rows: &[Row]) -> bool
    ensures { IsTrue result ↔ IsClosed rows.now }
{
    for row in rows {
        if row.inside {
            return false;
        }
    }
    true
}

/// The open UPDATE blocks are done, one after another, in the order of the Ready rows.
fn complete_blocks<P: Procs + Drop>(plain: &mut Plain<P>) -> Result<(), AllocError>
    requires one_lane { plain.old.lanes ≡ 1 }
    requires sound { IsSound (meaning P.Of.Load (P.load plain.old.procs)) (running_moment P.answers plain.old) }
    ensures made { OnOk result (RunsBlocks (meaning P.Of.Load (P.load plain.old.procs)) (running_moment P.answers plain.old) plain.old.journal plain.new.journal (running_moment P.answers plain.new)) }
    ensures load { P.load plain.new.procs ≡ P.load plain.old.procs }
    ensures lanes { plain.new.lanes ≡ plain.old.lanes }
{
    let most = plain.state().rows.as_slice().len();
    'turns: for _ in 0..most {
        if has_no_open_block(plain.state().rows.as_slice()) {
            return Ok(());
        }
        let Some(event) = plain.next_event()? else {
            unreachable!();
        };
        make(plain, event)?;
    }
    Ok(())
}

/// Runs a script to its end on one lane.
pub(crate) fn run_script<P: Procs + Drop>(
    plain: &mut Plain<P>,
    script: &Script,
) -> Result<(), AllocError>
    requires fresh { plain.old.journal ≡ [] }
    requires opening { running_moment P.answers plain.old ≡ opening (P.Of.tables (P.load plain.old.procs)) script.now }
    requires one_lane { plain.old.lanes ≡ 1 }
    ensures run { OnOk result (IsRunTo (meaning P.Of.Load (P.load plain.old.procs)) script.now 1 plain.new.journal (running_moment P.answers plain.new)) }
    ensures load { P.load plain.new.procs ≡ P.load plain.old.procs }
    ensures lanes { plain.new.lanes ≡ plain.old.lanes }
{
    run_lines(plain, script.as_slice())?;
    complete_blocks(plain)?;
    Ok(())
}
