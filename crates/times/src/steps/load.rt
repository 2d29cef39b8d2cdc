//! A load of 128 processes: the first schedules all the others, which then take turns.

use exec_rows::{Ask, Scripted};
use hal_base::PROCESS_LIMIT;
use hal_values::{Cycle, Guard, Listing, Plan, Request, Tables, Text, When};
use std::alloc::{AllocError, Global};

/// How many turns a cycle makes.
const TURNS: u32 = 4;

/// How many events a cycle takes, its begin and its end counted.
const CYCLE_EVENTS: u32 = TURNS + 2;

/// A process that was scheduled begins at once with its next cycle when one has ended, and then it is
/// the last of those of its priority.
fn plan(process: u8) -> Plan {
    Plan {
        process,
        when: When::Now,
        priority: 40,
        dependent: false,
        cycle: Cycle::Again,
        guard: Guard::Free,
    }
}

fn processes(alloc: Global) -> Result<Listing<Text>, AllocError> {
    let mut names = Listing::empty(alloc);
    for number in 0..PROCESS_LIMIT {
        let name = format!(in alloc; "T{number}")?;
        names.push(Text::of(name.as_bytes()).unwrap_or(Text::new()))?;
    }
    Ok(names)
}

fn schedules(alloc: Global) -> Result<Listing<Ask>, AllocError> {
    let mut asks = Listing::empty(alloc);
    for process in 1..PROCESS_LIMIT as u8 {
        asks.push(Ask::Plain(Request::Schedule(plan(process))))?;
    }
    Ok(asks)
}

fn turns(alloc: Global) -> Result<Listing<Ask>, AllocError> {
    let mut asks = Listing::empty(alloc);
    for _ in 0..TURNS {
        asks.push(Ask::Plain(Request::Pass))?;
    }
    Ok(asks)
}

fn rounds(alloc: Global, count: u32) -> Result<Listing<Listing<Ask>>, AllocError> {
    let mut cycles = Listing::empty(alloc);
    for _ in 0..count {
        cycles.push(turns(alloc)?)?;
    }
    Ok(cycles)
}

fn bodies(alloc: Global, count: u32) -> Result<Listing<Listing<Listing<Ask>>>, AllocError> {
    let mut first = Listing::empty(alloc);
    first.push(schedules(alloc)?)?;
    let mut bodies = Listing::empty(alloc);
    bodies.push(first)?;
    for _ in 1..PROCESS_LIMIT {
        bodies.push(rounds(alloc, count)?)?;
    }
    Ok(bodies)
}

/// The load, whose processes ask for turns up to so many events at least.
pub fn load(alloc: Global, events: u32) -> Result<Scripted, AllocError> {
    let tables = Tables {
        cells: Listing::empty(alloc),
        processes: processes(alloc)?,
        first: 0,
        events: Listing::empty(alloc),
        expressions: Listing::empty(alloc),
        names: Listing::empty(alloc),
    };
    let count = events / (CYCLE_EVENTS * (PROCESS_LIMIT - 1)) + 1;
    let bodies = bodies(alloc, count)?;
    Ok(Scripted { tables, bodies })
}
