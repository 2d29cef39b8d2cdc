//! What values say of numbers and texts: they have bytes because they are values. Nothing of use is done when these run; a caller that has a value in hand gets by them
//! what `IsSpelled` asks for.

ghost use Rattle.std.specs.Prelude.{◌<◌, ◌^◌, length, FitsSigned};
ghost use Rattle.std.specs.Int.{w32};
ghost use Rattle.hal_object.specs.Kinds.{FitsKind};
ghost use Rattle.hal_object.specs.Operands.{FitsTime, FitsWhen, FitsRound, FitsLimit, FitsDelay};
ghost use Rattle.hal_object.specs.Rows.{FitsTarget, FitsNamed};

use hal_code::{Delay, Limit, Round, Start, Target, Time};
use hal_values::{Kind, ReportBase, Text};

/// A number of one byte.
pub(crate) fn fits_one(number: u8)
    ensures { number < 2 ^ 8 }
{}

/// A number of two bytes.
pub(crate) fn fits_two(number: u16)
    ensures { number < 2 ^ 16 }
{}

/// A number of four bytes.
pub(crate) fn fits_four(number: u32)
    ensures { number < 2 ^ 32 }
{}

/// A number of eight bytes.
pub(crate) fn fits_eight(number: u64)
    ensures { number < 2 ^ 64 }
{}

/// An integer.
pub(crate) fn fits_integer(number: i32)
    ensures { FitsSigned w32 number }
{}

/// The length of a text.
pub(crate) fn fits_text(text: &Text)
    ensures { length text.now < 2 ^ 8 }
{
    let _ = text.bytes();
}

/// A kind.
pub(crate) fn fits_kind(kind: Kind)
    ensures { FitsKind kind }
{
    match kind {
        Kind::Single | Kind::Double => {}
        Kind::Bits(count) | Kind::Text(count) => fits_one(count),
    }
}

/// What a view gives.
pub(crate) fn fits_target(target: Target)
    ensures { FitsTarget target }
{
    match target {
        Target::Cell(kind) => fits_kind(kind),
        Target::Shape(shape) => fits_four(shape),
    }
}

/// Where the elements of a report's name lie.
pub(crate) fn fits_named(base: ReportBase)
    ensures { FitsNamed base }
{
    match base {
        ReportBase::Shared | ReportBase::Event => {}
        ReportBase::Own(process) => fits_one(process),
    }
}

/// A time.
fn fits_time(time: Time)
    ensures { FitsTime time }
{
    match time {
        Time::Absent | Time::Seconds => {}
        Time::Milliseconds(count) => fits_eight(count),
    }
}

/// When a process starts.
pub(crate) fn fits_when(start: Start)
    ensures { FitsWhen start }
{
    match start {
        Start::Now => {}
        Start::At(time) | Start::In(time) => fits_time(time),
        Start::On(expression) => fits_four(expression),
    }
}

/// How a process goes on after a cycle.
pub(crate) fn fits_round(round: Round)
    ensures { FitsRound round }
{
    match round {
        Round::Once | Round::Repeat => {}
        Round::Every(time) | Round::After(time) => fits_time(time),
    }
}

/// What cancels a process.
pub(crate) fn fits_limit(limit: Limit)
    ensures { FitsLimit limit }
{
    match limit {
        Limit::Free => {}
        Limit::While(expression) | Limit::Until(expression) => fits_four(expression),
        Limit::UntilTime(time) => fits_time(time),
    }
}

/// What a process waits for.
pub(crate) fn fits_delay(delay: Delay)
    ensures { FitsDelay delay }
{
    match delay {
        Delay::For(time) | Delay::Until(time) => fits_time(time),
        Delay::Event(expression) => fits_four(expression),
        Delay::Dependents => {}
    }
}
