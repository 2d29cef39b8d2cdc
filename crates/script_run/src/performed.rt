ghost use Rattle.std.specs.Prelude.{◌≡◌, [], ℕ, IfOk, map, replicate};
ghost use Rattle.std.specs.List.{range_with_len};
ghost use Rattle.hal_values.specs.Tables.{process_count};
ghost use Rattle.exec_model.specs.Meanings.{meaning};
ghost use Rattle.exec_model.specs.Moments.{answers_in};
ghost use Rattle.exec_model.specs.Running.{running_moment};
ghost use Rattle.exec_model.specs.Runs.{IsRunTo};
ghost use Rattle.hal_report.specs.Arrays.{AreArrays};
ghost use Rattle.script_run.specs.Performed.{Performs};

use crate::owners::Owners;
use crate::run::run_script;
use exec_model::{Event, Journal, Plain, Procs, Script};
use hal_report::report_text;
use hal_values::{Listing, Value};
use std::alloc::{AllocError, Global};

/// A run's journal, and the report of the moment after it.
#[derive(Drop)]
pub struct Performed {
    pub journal: Journal,
    pub report: Vec<u8>,
}

/// The same events once more.
fn copied(alloc: Global, events: &[Event]) -> Result<Journal, AllocError>
    ensures { IfOk result (λ journal. journal ≡ events.now) }
{
    let mut journal = Listing::empty(alloc);
    journal.extend(events)?;
    Ok(journal)
}

/// The plain executive of these processes after a run of the script on one lane. UPDATE blocks that are
/// open after the last line are done.
pub fn played<P: Procs + Drop>(
    alloc: Global,
    procs: P,
    script: &Script,
) -> Result<Plain<P>, AllocError>
    requires { P.answers procs ≡ replicate (process_count (P.Of.tables (P.load procs))) [] }
    ensures run { IfOk result (λ plain. IsRunTo (meaning P.Of.Load (P.load procs)) script.now 1 plain.journal (running_moment P.answers plain)) }
    ensures load { IfOk result (λ plain. P.load plain.procs ≡ P.load procs) }
{
    let mut plain = Plain::start(alloc, procs, script, 1)?;
    run_script(&mut plain, script)?;
    Ok(plain)
}

/// The own values of each process.
fn owns_of<P: Owners>(alloc: Global, procs: &P) -> Result<Vec<Listing<Value>>, AllocError>
    ensures { IfOk result (λ owns. owns.items ≡ map (λ (p : ℕ). P.Of.own (P.load procs.now) p (answers_in (P.answers procs.now) p)) (range_with_len 0 (process_count (P.Of.tables (P.load procs.now))))) }
{
    let mut owns = Vec::new(alloc);
    'places: for place in 0..procs.tables().processes.as_slice().len() {
        owns.push(procs.own(place as u8)?)?;
    }
    Ok(owns)
}

/// Runs the script with these processes on one lane, and writes the report.
pub fn play<P: Owners + Drop>(
    alloc: Global,
    procs: P,
    script: &Script,
) -> Result<Performed, AllocError>
    requires names { AreArrays (P.Of.tables (P.load procs)).names }
    requires fresh { P.answers procs ≡ replicate (process_count (P.Of.tables (P.load procs))) [] }
    ensures { IfOk result (λ performed. Performs (meaning P.Of.Load (P.load procs)) script.now performed.journal performed.report.items) }
{
    let plain = played(alloc, procs, script)?;
    let owns = owns_of(alloc, plain.procs())?;
    let report = report_text(alloc, &plain, owns)?;
    let journal = copied(alloc, plain.journal().as_slice())?;
    Ok(Performed { journal, report })
}
