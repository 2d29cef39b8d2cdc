//! Times, which are milliseconds of the clock.

ghost use Rattle.std.specs.Prelude.{◌≡◌, IfSome};
ghost use Rattle.exec_model.specs.Times.{from_zero, later, not_before};

/// A time that isn't below 0.
pub(crate) fn time_from_zero(time: i64) -> u64
    ensures { result ≡ from_zero time }
{
    if time < 0 { 0 } else { time as u64 }
}

/// This time, and not before now.
pub(crate) fn time_not_before(now: u64, time: i64) -> u64
    ensures { result ≡ not_before now time }
{
    now.max(time_from_zero(time))
}

/// So long after now, and not before now; None past 64 bits.
pub(crate) fn time_later(now: u64, time: i64) -> Option<u64>
    ensures { IfSome result (λ t. t ≡ later now time) }
{
    now.checked_add(time_from_zero(time))
}
