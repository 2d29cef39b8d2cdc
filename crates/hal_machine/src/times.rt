//! Times, priorities and cycles as real-time statements give them.

ghost use Rattle.std.specs.Prelude.{◌≡◌, ◌<◌, pos, ◌*ℤ◌};
ghost use Rattle.hal_states.specs.Times.{limited, thousandths, nearest_priority, is_priority, cycle_of};
ghost use Rattle.hal_machine.specs.Seen.{again_seen};

use crate::step::Again;
use hal_base::PRIORITY_LIMIT;
use hal_values::Cycle;

/// The latest time, in milliseconds.
const LATEST: i64 = 2_147_483_648_000;

/// The earliest one.
const EARLIEST: i64 = -2_147_483_648_000;

/// A time within the limit.
fn limited(time: i64) -> i64
    ensures { result ≡ limited time }
{
    if time < EARLIEST {
        EARLIEST
    } else if LATEST < time {
        LATEST
    } else {
        time
    }
}

/// The time of so many seconds.
pub(crate) fn milliseconds(seconds: i32) -> i64
    ensures { result ≡ limited (seconds *ℤ pos 1000) }
{
    limited(i64::from(seconds) * 1_000)
}

/// The time of so many milliseconds.
pub(crate) fn thousandths(time: u64) -> i64
    ensures { result ≡ thousandths time }
{
    if time > 2_147_483_648_000 {
        LATEST
    } else {
        time as i64
    }
}

/// Whether a priority lies in its range.
pub(crate) fn is_priority(priority: i32) -> bool
    ensures { result ≡ is_priority priority }
{
    !(priority < 0) && !(PRIORITY_LIMIT < priority)
}

/// The nearest priority.
pub(crate) fn nearest_priority(priority: i32) -> u8
    ensures { result ≡ nearest_priority priority }
{
    priority.min(PRIORITY_LIMIT).max(0).unsigned_abs() as u8
}

/// How a process goes on.
pub(crate) fn cycle_of(again: Again) -> Cycle
    ensures { result ≡ cycle_of (again_seen again) }
{
    match again {
        Again::Never => Cycle::Once,
        Again::AtOnce => Cycle::Again,
        Again::Every(time) if 0 < time => Cycle::Every(time.unsigned_abs()),
        Again::Every(_) => Cycle::Every(1),
        Again::After(time) => Cycle::After(time.max(0).unsigned_abs()),
    }
}
