//! Instructions, read from the front of bytes.

ghost use Rattle.std.specs.Prelude.{◌≡◌};
ghost use Rattle.hal_code.specs.declared.instr.Instr.TheVariants as instr;
ghost use Rattle.hal_object.specs.Fields.{Gives, made, text_at};
ghost use Rattle.hal_object.specs.Reading.{bits_at, on_at, off_at, raise_at, clear_at, schedule_at, input_at, value_instr_at, control_instr_at, asking_instr_at, instr_behind, instr_at};

use crate::choices::{change_of, flag_of, op1_of, op2_of, places_of, response_of};
use crate::fault::ReadFault;
use crate::kinds::kind_of;
use crate::made;
use crate::numbers::{byte_of, eight_of, four_of, integer_of, text_of, two_of};
use crate::operands::{delay_of, limit_of, round_of, when_of};
use hal_code::{HeapText, Instr};
use std::alloc::Global;

/// Bits.
#[tactic(auto, unfolding(crate::specs::Reading::bits_at))]
fn bits_of(bytes: &[u8]) -> Result<(Instr, &[u8]), ReadFault>
    ensures { Gives (λ x. (x.0, x.1.now)) result (bits_at bytes.now) }
{
    let (len, rest) = byte_of(bytes)?;
    let (word, rest) = four_of(rest)?;
    let instr = Instr::Bits { len, word };
    Ok((instr, rest))
}

/// An entry for errors.
#[tactic(auto, unfolding(crate::specs::Reading::on_at))]
fn on_of(bytes: &[u8]) -> Result<(Instr, &[u8]), ReadFault>
    ensures { Gives (λ x. (x.0, x.1.now)) result (on_at bytes.now) }
{
    let (group, rest) = byte_of(bytes)?;
    let (number, rest) = byte_of(rest)?;
    let (response, rest) = response_of(rest)?;
    let (change, rest) = change_of(rest)?;
    let (event, rest) = two_of(rest)?;
    let (target, rest) = eight_of(rest)?;
    let instr = Instr::On {
        group,
        number,
        response,
        change,
        event,
        target,
    };
    Ok((instr, rest))
}

/// An entry for errors that is taken back.
#[tactic(auto, unfolding(crate::specs::Reading::off_at))]
fn off_of(bytes: &[u8]) -> Result<(Instr, &[u8]), ReadFault>
    ensures { Gives (λ x. (x.0, x.1.now)) result (off_at bytes.now) }
{
    let (group, rest) = byte_of(bytes)?;
    let (number, rest) = byte_of(rest)?;
    let instr = Instr::Off { group, number };
    Ok((instr, rest))
}

/// An error that arises.
#[tactic(auto, unfolding(crate::specs::Reading::raise_at))]
fn raise_of(bytes: &[u8]) -> Result<(Instr, &[u8]), ReadFault>
    ensures { Gives (λ x. (x.0, x.1.now)) result (raise_at bytes.now) }
{
    let (group, rest) = byte_of(bytes)?;
    let (number, rest) = byte_of(rest)?;
    let instr = Instr::Raise { group, number };
    Ok((instr, rest))
}

/// Own places that have their first values again.
#[tactic(auto, unfolding(crate::specs::Reading::clear_at))]
fn clear_of(bytes: &[u8]) -> Result<(Instr, &[u8]), ReadFault>
    ensures { Gives (λ x. (x.0, x.1.now)) result (clear_at bytes.now) }
{
    let (place, rest) = four_of(bytes)?;
    let (count, rest) = four_of(rest)?;
    let instr = Instr::Clear { place, count };
    Ok((instr, rest))
}

/// A process that is scheduled.
#[tactic(auto, unfolding(crate::specs::Reading::schedule_at))]
fn schedule_of(bytes: &[u8]) -> Result<(Instr, &[u8]), ReadFault>
    ensures { Gives (λ x. (x.0, x.1.now)) result (schedule_at bytes.now) }
{
    let (process, rest) = byte_of(bytes)?;
    let (start, rest) = when_of(rest)?;
    let (priority, rest) = flag_of(rest)?;
    let (dependent, rest) = flag_of(rest)?;
    let (round, rest) = round_of(rest)?;
    let (limit, rest) = limit_of(rest)?;
    let instr = Instr::Schedule {
        process,
        start,
        priority,
        dependent,
        round,
        limit,
    };
    Ok((instr, rest))
}

/// The next datum of a channel.
#[tactic(auto, unfolding(crate::specs::Reading::input_at))]
fn input_of(bytes: &[u8]) -> Result<(Instr, &[u8]), ReadFault>
    ensures { Gives (λ x. (x.0, x.1.now)) result (input_at bytes.now) }
{
    let (channel, rest) = byte_of(bytes)?;
    let (kind, rest) = kind_of(rest)?;
    let (target, rest) = eight_of(rest)?;
    let instr = Instr::Input {
        channel,
        kind,
        target,
    };
    Ok((instr, rest))
}

/// TEXT.
fn text_instr_of(alloc: Global, bytes: &[u8]) -> Result<(Instr, &[u8]), ReadFault>
    ensures { Gives (λ x. (x.0, x.1.now)) result (made instr.Text text_at bytes.now) }
{
    let (text, rest) = text_of(bytes)?;
    let kept = HeapText::new(alloc, text)?;
    Ok((Instr::Text(kept), rest))
}

/// An instruction that puts values on the stack or takes them, behind its code.
#[tactic(auto, unfolding(crate::specs::Reading::value_instr_at))]
fn value_instr_of(alloc: Global, code: u8, bytes: &[u8]) -> Result<(Instr, &[u8]), ReadFault>
    ensures { Gives (λ x. (x.0, x.1.now)) result (value_instr_at code bytes.now) }
{
    match code {
        1 => made!(integer_of(bytes), Instr::Int),
        2 => bits_of(bytes),
        3 => text_instr_of(alloc, bytes),
        4 => made!(four_of(bytes), Instr::Cell),
        5 => made!(four_of(bytes), Instr::Whole),
        6 => Ok((Instr::Fetch, bytes)),
        7 => Ok((Instr::Peek, bytes)),
        8 => Ok((Instr::Keep, bytes)),
        9 => Ok((Instr::Dup, bytes)),
        10 => Ok((Instr::Drop, bytes)),
        11 => made!(two_of(bytes), Instr::Event),
        12 => made!(op1_of(bytes), Instr::Op1),
        13 => made!(op2_of(bytes), Instr::Op2),
        14 => made!(byte_of(bytes), Instr::Len),
        15 => made!(places_of(bytes), Instr::Pick),
        16 => made!(places_of(bytes), Instr::Patch),
        _ => Err(ReadFault::NotImage),
    }
}

/// An instruction that turns control, or is of errors or own places, behind its code.
#[tactic(auto, unfolding(crate::specs::Reading::control_instr_at))]
fn control_instr_of(code: u8, bytes: &[u8]) -> Result<(Instr, &[u8]), ReadFault>
    ensures { Gives (λ x. (x.0, x.1.now)) result (control_instr_at code bytes.now) }
{
    match code {
        17 => made!(eight_of(bytes), Instr::Jump),
        18 => made!(eight_of(bytes), Instr::JumpNot),
        19 => made!(eight_of(bytes), Instr::Turn),
        20 => made!(four_of(bytes), Instr::Call),
        21 => Ok((Instr::Return, bytes)),
        22 => on_of(bytes),
        23 => off_of(bytes),
        24 => raise_of(bytes),
        25 => Ok((Instr::ErrGrp, bytes)),
        26 => Ok((Instr::ErrNum, bytes)),
        27 => made!(four_of(bytes), Instr::Bind),
        28 => made!(four_of(bytes), Instr::Copy),
        29 => clear_of(bytes),
        30 => Ok((Instr::Next, bytes)),
        _ => Err(ReadFault::NotImage),
    }
}

/// An instruction that asks the executive, behind its code.
#[tactic(auto, unfolding(crate::specs::Reading::asking_instr_at))]
fn asking_instr_of(code: u8, bytes: &[u8]) -> Result<(Instr, &[u8]), ReadFault>
    ensures { Gives (λ x. (x.0, x.1.now)) result (asking_instr_at code bytes.now) }
{
    match code {
        32 => Ok((Instr::Begin, bytes)),
        33 => Ok((Instr::Finish, bytes)),
        34 => schedule_of(bytes),
        35 => made!(byte_of(bytes), Instr::Cancel),
        36 => made!(byte_of(bytes), Instr::Terminate),
        37 => made!(delay_of(bytes), Instr::Wait),
        38 => made!(two_of(bytes), Instr::Signal),
        39 => made!(two_of(bytes), Instr::Set),
        40 => made!(two_of(bytes), Instr::Reset),
        41 => made!(byte_of(bytes), Instr::Priority),
        42 => Ok((Instr::Item, bytes)),
        43 => made!(byte_of(bytes), Instr::Print),
        44 => input_of(bytes),
        45 => Ok((Instr::Now, bytes)),
        46 => made!(two_of(bytes), Instr::Open),
        47 => Ok((Instr::Close, bytes)),
        _ => Err(ReadFault::NotImage),
    }
}

/// An instruction behind its code.
fn instr_behind_of(alloc: Global, code: u8, bytes: &[u8]) -> Result<(Instr, &[u8]), ReadFault>
    ensures { Gives (λ x. (x.0, x.1.now)) result (instr_behind code bytes.now) }
{
    if code < 17 {
        value_instr_of(alloc, code, bytes)
    } else if code < 32 {
        control_instr_of(code, bytes)
    } else {
        asking_instr_of(code, bytes)
    }
}

/// An instruction.
#[tactic(auto, unfolding(crate::specs::Reading::instr_at))]
pub(crate) fn instr_of(alloc: Global, bytes: &[u8]) -> Result<(Instr, &[u8]), ReadFault>
    ensures { Gives (λ x. (x.0, x.1.now)) result (instr_at bytes.now) }
{
    let (code, rest) = byte_of(bytes)?;
    instr_behind_of(alloc, code, rest)
}
