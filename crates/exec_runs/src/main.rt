//! Runs the rows of the executive on `Plain`: tells each row that isn't kept, and counts those that are.
#![tactic(auto)]

mod checked;
mod completed;
mod loads;
mod played;
mod plays;
mod refused;
mod row_loads;

use checked::{WRONG, is_right, is_wrong};
use completed::is_completed;
use played::PLAYED;
use refused::REFUSED;
use std::io;

/// Tells that a row isn't kept, or answers 1 where it is.
fn counted(rt: &HostRuntime, name: &str, is_kept: bool) -> io::Result<u32> {
    if is_kept {
        return Ok(1);
    }
    println!(rt; "not kept: {name}")?;
    Ok(0)
}

/// How many of the runs are as they are to be.
fn count_played(rt: &HostRuntime) -> io::Result<u32> {
    let mut count = 0u32;
    for row in &PLAYED {
        let is_kept = row.is_kept(rt.alloc())?;
        count = count.saturating_add(counted(rt, row.name, is_kept)?);
    }
    Ok(count)
}

/// How many of the lists of events are refused.
fn count_refused(rt: &HostRuntime) -> io::Result<u32> {
    let mut count = 0u32;
    for row in &REFUSED {
        let is_kept = row.is_kept(rt.alloc())?;
        count = count.saturating_add(counted(rt, row.name, is_kept)?);
    }
    Ok(count)
}

/// How many of the steps make a right load wrong.
fn count_wrong(rt: &HostRuntime) -> io::Result<u32> {
    let mut count = 0u32;
    for (number, step) in WRONG.iter().enumerate() {
        let is_kept = is_wrong(rt.alloc(), *step)?;
        let name = format!(in rt.alloc(); "wrong step {number}")?;
        count = count.saturating_add(counted(rt, name.as_str(), is_kept)?);
    }
    Ok(count)
}

fn main(rt: HostRuntime) -> io::Result<()> {
    let right = is_right(rt.alloc())?;
    let played = count_played(&rt)?;
    let refused = count_refused(&rt)?;
    let wrong = count_wrong(&rt)?;
    let completed = is_completed(rt.alloc())?;
    println!(rt; "an open block is done after the last line: {completed}")?;
    println!(rt; "a right load: {right}; {wrong} wrong ones")?;
    println!(rt; "{played} runs kept; {refused} lists of events refused")?;
    Ok(())
}
