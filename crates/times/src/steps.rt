//! Runs the plain executive over 128 processes, for so many events as the second word says, 300 where there is none. bench/steps.py times it.

ghost use Rattle.std.specs.Prelude.{◌≡◌, [], replicate};
ghost use Rattle.hal_values.specs.Tables.{process_count};

mod load;

use exec_model::{Plain, Procs, Script};
use exec_rows::{Scripted, ScriptedProcs};
use std::alloc::{AllocError, Global};
use std::io;

/// How many events are made where no word says it.
const EVENTS: u32 = 300;

/// The number of events, which the second word says.
fn asked_events(words: &[String]) -> u32 {
    match words.get(1) {
        None => EVENTS,
        Some(word) => word.parse::<u32>().unwrap_or(EVENTS),
    }
}

/// Makes at most so many events, and answers how many were made.
fn made<P: Procs + Drop>(plain: &mut Plain<P>, events: u32) -> Result<u32, AllocError> {
    for number in 0..events {
        let Some(event) = plain.next_event()? else {
            return Ok(number);
        };
        if !plain.step(event)? {
            return Ok(number);
        }
    }
    Ok(events)
}

/// Makes at most so many events of these processes on one lane, and answers how many were made. Over any processes this is proved once, and asks less
/// than over scripted ones.
fn made_from_start<P: Procs + Drop>(alloc: Global, procs: P, events: u32) -> Result<u32, AllocError>
    requires { P.answers procs ≡ replicate (process_count (P.Of.tables (P.load procs))) [] }
{
    let script = Script::new(Vec::new(alloc));
    let mut plain = Plain::start(alloc, procs, &script, 1)?;
    made(&mut plain, events)
}

/// Makes at most so many events of the load on one lane, and answers how many were made; of a load that
/// isn't right none.
fn played(alloc: Global, load: Scripted, events: u32) -> Result<u32, AllocError> {
    if !load.is_right() {
        return Ok(0);
    }
    let procs = ScriptedProcs::start(alloc, load)?;
    made_from_start(alloc, procs, events)
}

pub(crate) fn run(rt: &HostRuntime, words: &[String]) -> io::Result<()> {
    let alloc = rt.alloc();
    let events = asked_events(words);
    let load = load::load(alloc, events)?;
    let processes = load.tables.processes.as_slice().len();
    let made = played(alloc, load, events)?;
    println!(rt; "{made} events, {processes} processes")
}
