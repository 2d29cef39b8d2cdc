//! The operands of instructions that are no plain numbers, both ways.

ghost use Rattle.std.specs.Prelude.{◌≡◌, ◌++◌, OnOk};
ghost use Rattle.hal_object.specs.Operands.{time_bytes, when_bytes, round_bytes, limit_bytes, delay_bytes};
ghost use Rattle.hal_object.specs.Fields.{Gives};
ghost use Rattle.hal_object.specs.Reading.{time_at, when_at, round_at, limit_at, delay_at};

use crate::fault::ReadFault;
use crate::made;
use crate::numbers::{byte_of, eight_of, four_of, put_eight, put_four};
use hal_code::{Delay, Limit, Round, Start, Time};
use std::alloc::AllocError;

/// A time.
#[tactic(auto, unfolding(crate::specs::Reading::time_at))]
pub(crate) fn time_of(bytes: &[u8]) -> Result<(Time, &[u8]), ReadFault>
    ensures { Gives (λ x. (x.0, x.1.now)) result (time_at bytes.now) }
{
    let (byte, rest) = byte_of(bytes)?;
    match byte {
        0 => Ok((Time::Absent, rest)),
        1 => Ok((Time::Seconds, rest)),
        2 => made!(eight_of(rest), Time::Milliseconds),
        _ => Err(ReadFault::NotImage),
    }
}

/// The bytes of it, behind others.
pub(crate) fn write_time(time: Time, into: &mut Vec<u8>) -> Result<(), AllocError>
    ensures { OnOk result (into.new.items ≡ into.old.items ++ time_bytes time) }
{
    match time {
        Time::Absent => {
            into.push(0)?;
            Ok(())
        }
        Time::Seconds => {
            into.push(1)?;
            Ok(())
        }
        Time::Milliseconds(count) => {
            into.push(2)?;
            put_eight(count, into)
        }
    }
}

/// When a process starts.
#[tactic(auto, unfolding(crate::specs::Reading::when_at))]
pub(crate) fn when_of(bytes: &[u8]) -> Result<(Start, &[u8]), ReadFault>
    ensures { Gives (λ x. (x.0, x.1.now)) result (when_at bytes.now) }
{
    let (byte, rest) = byte_of(bytes)?;
    match byte {
        0 => Ok((Start::Now, rest)),
        1 => made!(time_of(rest), Start::At),
        2 => made!(time_of(rest), Start::In),
        3 => made!(four_of(rest), Start::On),
        _ => Err(ReadFault::NotImage),
    }
}

/// The bytes of it, behind others.
pub(crate) fn write_when(start: Start, into: &mut Vec<u8>) -> Result<(), AllocError>
    ensures { OnOk result (into.new.items ≡ into.old.items ++ when_bytes start) }
{
    match start {
        Start::Now => {
            into.push(0)?;
            Ok(())
        }
        Start::At(time) => {
            into.push(1)?;
            write_time(time, into)
        }
        Start::In(time) => {
            into.push(2)?;
            write_time(time, into)
        }
        Start::On(expression) => {
            into.push(3)?;
            put_four(expression, into)
        }
    }
}

/// How a process goes on after a cycle.
#[tactic(auto, unfolding(crate::specs::Reading::round_at))]
pub(crate) fn round_of(bytes: &[u8]) -> Result<(Round, &[u8]), ReadFault>
    ensures { Gives (λ x. (x.0, x.1.now)) result (round_at bytes.now) }
{
    let (byte, rest) = byte_of(bytes)?;
    match byte {
        0 => Ok((Round::Once, rest)),
        1 => Ok((Round::Repeat, rest)),
        2 => made!(time_of(rest), Round::Every),
        3 => made!(time_of(rest), Round::After),
        _ => Err(ReadFault::NotImage),
    }
}

/// The bytes of it, behind others.
pub(crate) fn write_round(round: Round, into: &mut Vec<u8>) -> Result<(), AllocError>
    ensures { OnOk result (into.new.items ≡ into.old.items ++ round_bytes round) }
{
    match round {
        Round::Once => {
            into.push(0)?;
            Ok(())
        }
        Round::Repeat => {
            into.push(1)?;
            Ok(())
        }
        Round::Every(time) => {
            into.push(2)?;
            write_time(time, into)
        }
        Round::After(time) => {
            into.push(3)?;
            write_time(time, into)
        }
    }
}

/// What cancels a process.
#[tactic(auto, unfolding(crate::specs::Reading::limit_at))]
pub(crate) fn limit_of(bytes: &[u8]) -> Result<(Limit, &[u8]), ReadFault>
    ensures { Gives (λ x. (x.0, x.1.now)) result (limit_at bytes.now) }
{
    let (byte, rest) = byte_of(bytes)?;
    match byte {
        0 => Ok((Limit::Free, rest)),
        1 => made!(four_of(rest), Limit::While),
        2 => made!(four_of(rest), Limit::Until),
        3 => made!(time_of(rest), Limit::UntilTime),
        _ => Err(ReadFault::NotImage),
    }
}

/// The bytes of it, behind others.
pub(crate) fn write_limit(limit: Limit, into: &mut Vec<u8>) -> Result<(), AllocError>
    ensures { OnOk result (into.new.items ≡ into.old.items ++ limit_bytes limit) }
{
    match limit {
        Limit::Free => {
            into.push(0)?;
            Ok(())
        }
        Limit::While(expression) => {
            into.push(1)?;
            put_four(expression, into)
        }
        Limit::Until(expression) => {
            into.push(2)?;
            put_four(expression, into)
        }
        Limit::UntilTime(time) => {
            into.push(3)?;
            write_time(time, into)
        }
    }
}

/// What a process waits for.
#[tactic(auto, unfolding(crate::specs::Reading::delay_at))]
pub(crate) fn delay_of(bytes: &[u8]) -> Result<(Delay, &[u8]), ReadFault>
    ensures { Gives (λ x. (x.0, x.1.now)) result (delay_at bytes.now) }
{
    let (byte, rest) = byte_of(bytes)?;
    match byte {
        0 => made!(time_of(rest), Delay::For),
        1 => made!(time_of(rest), Delay::Until),
        2 => made!(four_of(rest), Delay::Event),
        3 => Ok((Delay::Dependents, rest)),
        _ => Err(ReadFault::NotImage),
    }
}

/// The bytes of it, behind others.
pub(crate) fn write_delay(delay: Delay, into: &mut Vec<u8>) -> Result<(), AllocError>
    ensures { OnOk result (into.new.items ≡ into.old.items ++ delay_bytes delay) }
{
    match delay {
        Delay::For(time) => {
            into.push(0)?;
            write_time(time, into)
        }
        Delay::Until(time) => {
            into.push(1)?;
            write_time(time, into)
        }
        Delay::Event(expression) => {
            into.push(2)?;
            put_four(expression, into)
        }
        Delay::Dependents => {
            into.push(3)?;
            Ok(())
        }
    }
}
