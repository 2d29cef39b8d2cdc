//! Scripts on the plain executive over a scripted load.

ghost use Rattle.std.specs.Prelude.{◌≡◌, ◌≤◌, [], replicate};
ghost use Rattle.hal_base.specs.declared.limits.TheConstants.{LANE_LIMIT};
ghost use Rattle.hal_values.specs.Tables.{process_count};

use crate::loads::{Unit, load};
use exec_model::{Event, Plain, Procs, Script};
use exec_rows::ScriptedProcs;
use hal_base::{LANE_LIMIT, TICK_SUM_LIMIT};
use std::alloc::{AllocError, Global};

/// A line of a script, or an event.
#[derive(Clone, Copy)]
pub enum Line {
    /// At most so many events.
    Run(u32),
    /// This event, which may come.
    One(Event),
}

/// The plain executive at the beginning of a run of these processes, under a script with no line. Over any processes this is proved once, and asks
/// less than over scripted ones, as all that follows here.
fn begun<P: Procs + Drop>(alloc: Global, procs: P, lanes: u8) -> Result<Plain<P>, AllocError>
    requires lanes { (1 ≤ lanes) × (lanes ≤ LANE_LIMIT) }
    requires fresh { P.answers procs ≡ replicate (process_count (P.Of.tables (P.load procs))) [] }
{
    let no_lines = Script::new(Vec::new(alloc));
    Plain::start(alloc, procs, &no_lines, lanes)
}

/// The plain executive at the beginning of a run of the load, if that is right.
pub(crate) fn started(
    alloc: Global,
    unit: &Unit,
    lanes: u8,
) -> Result<Option<Plain<ScriptedProcs>>, AllocError> {
    let load = load(alloc, unit)?;
    if !load.is_right() || lanes < 1 || lanes > LANE_LIMIT {
        return Ok(None);
    }
    let procs = ScriptedProcs::start(alloc, load)?;
    begun(alloc, procs, lanes).map(Some)
}

/// The clock goes on, if it stays within the sum that scripts may have.
pub fn tick<P: Procs + Drop>(plain: &mut Plain<P>, time: u64) -> Result<bool, AllocError> {
    let clock = plain.state().clock;
    if clock > TICK_SUM_LIMIT || time > TICK_SUM_LIMIT - clock {
        return Ok(false);
    }
    let made = plain.step(Event::Tick(time))?;
    Ok(made)
}

pub fn step<P: Procs + Drop>(plain: &mut Plain<P>, event: Event) -> Result<bool, AllocError> {
    let made = match event {
        Event::Tick(time) => tick(plain, time)?,
        _ => plain.step(event)?,
    };
    Ok(made)
}

/// At most so many events come. Tells whether each of them was allowed.
pub fn run<P: Procs + Drop>(plain: &mut Plain<P>, count: u32) -> Result<bool, AllocError> {
    for _ in 0..count {
        let Some(event) = plain.next_event()? else {
            return Ok(true);
        };
        if !step(plain, event)? {
            return Ok(false);
        }
    }
    Ok(true)
}

/// The lines are done, one after the other. Tells whether each event was allowed.
pub fn play<P: Procs + Drop>(plain: &mut Plain<P>, lines: &[Line]) -> Result<bool, AllocError> {
    for line in lines {
        let allowed = match line {
            Line::Run(count) => run(plain, *count)?,
            Line::One(event) => step(plain, *event)?,
        };
        if !allowed {
            return Ok(false);
        }
    }
    Ok(true)
}
