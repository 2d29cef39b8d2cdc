//! Rows of what is refused, and of scripts. `UNIT => rule 401 1:14` is a unit that breaks a rule at a line and a column, tried as `unit`.
//! `SCRIPT => reason 2 at 1` is a script whose line 1 is faulty for a reason, and `SCRIPT => 3 events` one that makes so many events of HELLO, which has
//! three of its own; both are tried as `script`.

use crate::call::{Called, Files, run_hal};
use hal_base::{Place, Refusal, Rule};
use hal_script::ScriptFault;
use row_files::{Rows, bytes_of, notation_of};
use std::alloc::{AllocError, Global};

/// What a row separates its text from the outcome with.
const ARROW: &str = " => ";

/// `N = 40 + 2`, written to channel 6.
const HELLO: &[u8] =
    b" HELLO: PROGRAM; DECLARE N INTEGER INITIAL(40); N = N + 2; WRITE(6) N; CLOSE HELLO;\n";

/// Rows of what is refused.
#[derive(Clone, Copy)]
pub(crate) struct RefusalRows;

impl Rows for RefusalRows {
    fn written(&self, alloc: Global, way: &str, row: &str) -> Result<String, AllocError> {
        let Some((notation, _)) = row.split_once(ARROW) else {
            return String::from_str(alloc, "a row with nothing to try");
        };
        let Some(text) = bytes_of(alloc, notation)? else {
            return String::from_str(alloc, "bytes that can't be read");
        };
        let came = match way {
            "unit" => of_unit(alloc, text)?,
            "script" => of_script(alloc, text)?,
            _ => String::from_str(alloc, "a way in which nothing is tried")?,
        };
        format!(in alloc; "{notation}{ARROW}{came}")
    }
}

/// The call of a unit under a script.
fn call_of(alloc: Global, script: Vec<u8>, unit: Vec<u8>) -> Result<Called, AllocError> {
    let units = vec![in alloc; ("p.hal".to_string(alloc)?, unit)]?;
    run_hal(alloc, Files { script, units })
}

/// Whether a call came to this status for this file, ran nothing and printed this line.
fn is_refusal(called: &Called, status: u8, file: u32, line: &str) -> bool {
    let outcome = &called.outcome;
    outcome.status == status
        && outcome.file == Some(file)
        && outcome.journal.as_slice().is_empty()
        && called.printed.as_slice() == line.as_bytes()
}

/// What is told of a call that isn't as it should be.
fn unlike(alloc: Global, called: &Called) -> Result<String, AllocError> {
    let printed = notation_of(alloc, called.printed.as_slice())?;
    format!(in alloc; "status {}, {printed}", called.outcome.status)
}

fn of_unit(alloc: Global, unit: Vec<u8>) -> Result<String, AllocError> {
    let called = call_of(alloc, b"RUN 10\n".to_vec(alloc)?, unit)?;
    match called.outcome.refused {
        None => unlike(alloc, &called),
        Some(refusal) => of_refusal(alloc, &called, refusal),
    }
}

fn of_refusal(alloc: Global, called: &Called, refusal: Refusal) -> Result<String, AllocError> {
    let Rule(rule) = refusal.rule;
    let Place { unit, line, column } = refusal.place;
    let printed = format!(in alloc; "p.hal:{line}:{column}: rule {rule}\n")?;
    if unit == 0 && is_refusal(called, 5, 1, printed.as_str()) {
        format!(in alloc; "rule {rule} {line}:{column}")
    } else {
        unlike(alloc, called)
    }
}

fn of_script(alloc: Global, script: Vec<u8>) -> Result<String, AllocError> {
    let called = call_of(alloc, script, HELLO.to_vec(alloc)?)?;
    match called.outcome.script_fault {
        None => of_run(alloc, &called),
        Some(fault) => of_fault(alloc, &called, fault),
    }
}

fn of_run(alloc: Global, called: &Called) -> Result<String, AllocError> {
    if called.outcome.status != 0 {
        return unlike(alloc, called);
    }
    let events = called.outcome.journal.as_slice().len();
    format!(in alloc; "{events} events")
}

fn of_fault(alloc: Global, called: &Called, fault: ScriptFault) -> Result<String, AllocError> {
    let ScriptFault { line, reason } = fault;
    let printed = format!(in alloc; "s.txt:{line}: reason {reason}\n")?;
    if is_refusal(called, 6, 0, printed.as_str()) {
        format!(in alloc; "reason {reason} at {line}")
    } else {
        unlike(alloc, called)
    }
}
