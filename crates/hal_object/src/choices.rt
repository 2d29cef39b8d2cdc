//! Bytes that choose, both ways.

ghost use Rattle.std.specs.Prelude.{◌≡◌, ◌↔◌, IsTrue};
ghost use Rattle.hal_object.specs.Choices.{choice_byte, FitsChoice, start_code, result_code, places_code, response_code, change_code, flag_code, op1_code, op2_code};
ghost use Rattle.hal_object.specs.Fields.{Gives, byte_at};
ghost use Rattle.hal_object.specs.Reading.{choice_of, choice_at, all_starts, all_results, all_places, all_responses, all_changes, all_flags, all_op1, all_op2};

use crate::fault::ReadFault;
use crate::numbers::byte_of;
use hal_code::{Choice, EventChange, Places, Response, ResultKind};
use hal_operations::{Op1, Op2};
use hal_values::EventStart;

const STARTS: [EventStart; 3] = [
    EventStart::Unlatched,
    EventStart::Latched(false),
    EventStart::Latched(true),
];

const RESULTS: [ResultKind; 4] = [
    ResultKind::Nothing,
    ResultKind::Integer,
    ResultKind::Bits,
    ResultKind::Text,
];

const PLACES: [Places; 3] = [Places::One, Places::To, Places::At];

const RESPONSES: [Response; 3] = [Response::System, Response::Ignore, Response::Statement];

const CHANGES: [EventChange; 4] = [
    EventChange::Nothing,
    EventChange::Signal,
    EventChange::Set,
    EventChange::Reset,
];

const FLAGS: [bool; 2] = [false, true];

const WITH_ONE_OPERAND: [Op1; 10] = [
    Op1::Minus,
    Op1::Abs,
    Op1::Signum,
    Op1::Odd,
    Op1::Not,
    Op1::Length,
    Op1::Trim,
    Op1::Character,
    Op1::Integer,
    Op1::Bit,
];

const WITH_TWO_OPERANDS: [Op2; 22] = [
    Op2::Plus,
    Op2::Minus,
    Op2::Product,
    Op2::Power,
    Op2::Div,
    Op2::Remainder,
    Op2::Mod,
    Op2::Shl,
    Op2::Shr,
    Op2::And,
    Op2::Or,
    Op2::Xor,
    Op2::Cat,
    Op2::Equal,
    Op2::NotEqual,
    Op2::Less,
    Op2::Greater,
    Op2::LessOrEqual,
    Op2::GreaterOrEqual,
    Op2::Index,
    Op2::Ljust,
    Op2::Rjust,
];

/// What a byte chooses among all that there is, in the order of the bytes; or the byte as it stands.
fn choice<T: Copy>(all: &[T], byte: u8) -> Choice<T>
    ensures { result ≡ choice_of all.now byte }
{
    match all.get(usize::from(byte)) {
        Some(chosen) => Choice::Known(*chosen),
        None => Choice::Other(byte),
    }
}

/// How a declared event begins.
pub(crate) fn start_of(bytes: &[u8]) -> Result<(Choice<EventStart>, &[u8]), ReadFault>
    ensures { Gives (λ x. (x.0, x.1.now)) result (choice_at all_starts bytes.now) }
{
    let (byte, rest) = byte_of(bytes)?;
    Ok((choice(&STARTS, byte), rest))
}

/// What a block's RETURN gives.
pub(crate) fn result_of(bytes: &[u8]) -> Result<(Choice<ResultKind>, &[u8]), ReadFault>
    ensures { Gives (λ x. (x.0, x.1.now)) result (choice_at all_results bytes.now) }
{
    let (byte, rest) = byte_of(bytes)?;
    Ok((choice(&RESULTS, byte), rest))
}

/// Which places of a value are meant.
pub(crate) fn places_of(bytes: &[u8]) -> Result<(Choice<Places>, &[u8]), ReadFault>
    ensures { Gives (λ x. (x.0, x.1.now)) result (choice_at all_places bytes.now) }
{
    let (byte, rest) = byte_of(bytes)?;
    Ok((choice(&PLACES, byte), rest))
}

/// What is done about an error.
pub(crate) fn response_of(bytes: &[u8]) -> Result<(Choice<Response>, &[u8]), ReadFault>
    ensures { Gives (λ x. (x.0, x.1.now)) result (choice_at all_responses bytes.now) }
{
    let (byte, rest) = byte_of(bytes)?;
    Ok((choice(&RESPONSES, byte), rest))
}

/// What is done to an event.
pub(crate) fn change_of(bytes: &[u8]) -> Result<(Choice<EventChange>, &[u8]), ReadFault>
    ensures { Gives (λ x. (x.0, x.1.now)) result (choice_at all_changes bytes.now) }
{
    let (byte, rest) = byte_of(bytes)?;
    Ok((choice(&CHANGES, byte), rest))
}

/// Whether something is so.
pub(crate) fn flag_of(bytes: &[u8]) -> Result<(Choice<bool>, &[u8]), ReadFault>
    ensures { Gives (λ x. (x.0, x.1.now)) result (choice_at all_flags bytes.now) }
{
    let (byte, rest) = byte_of(bytes)?;
    Ok((choice(&FLAGS, byte), rest))
}

/// An operation with one operand.
pub(crate) fn op1_of(bytes: &[u8]) -> Result<(Choice<Op1>, &[u8]), ReadFault>
    ensures { Gives (λ x. (x.0, x.1.now)) result (choice_at all_op1 bytes.now) }
{
    let (byte, rest) = byte_of(bytes)?;
    Ok((choice(&WITH_ONE_OPERAND, byte), rest))
}

/// An operation with two operands.
pub(crate) fn op2_of(bytes: &[u8]) -> Result<(Choice<Op2>, &[u8]), ReadFault>
    ensures { Gives (λ x. (x.0, x.1.now)) result (choice_at all_op2 bytes.now) }
{
    let (byte, rest) = byte_of(bytes)?;
    Ok((choice(&WITH_TWO_OPERANDS, byte), rest))
}

/// Whether a choice among so many has a byte: one that is kept as it stands chooses none of them.
pub(crate) fn has_byte<T: Copy>(choice: Choice<T>, count: u8) -> bool
    ensures { IsTrue result ↔ FitsChoice count choice }
{
    match choice {
        Choice::Known(_) => true,
        Choice::Other(byte) => count <= byte,
    }
}

/// The byte of an event's beginning.
pub(crate) fn start_byte(choice: Choice<EventStart>) -> u8
    ensures { result ≡ choice_byte start_code choice }
{
    match choice {
        Choice::Known(EventStart::Unlatched) => 0,
        Choice::Known(EventStart::Latched(false)) => 1,
        Choice::Known(EventStart::Latched(true)) => 2,
        Choice::Other(byte) => byte,
    }
}

/// The byte of what a block gives.
pub(crate) fn result_byte(choice: Choice<ResultKind>) -> u8
    ensures { result ≡ choice_byte result_code choice }
{
    match choice {
        Choice::Known(ResultKind::Nothing) => 0,
        Choice::Known(ResultKind::Integer) => 1,
        Choice::Known(ResultKind::Bits) => 2,
        Choice::Known(ResultKind::Text) => 3,
        Choice::Other(byte) => byte,
    }
}

/// The byte of places.
pub(crate) fn places_byte(choice: Choice<Places>) -> u8
    ensures { result ≡ choice_byte places_code choice }
{
    match choice {
        Choice::Known(Places::One) => 0,
        Choice::Known(Places::To) => 1,
        Choice::Known(Places::At) => 2,
        Choice::Other(byte) => byte,
    }
}

/// The byte of a response.
pub(crate) fn response_byte(choice: Choice<Response>) -> u8
    ensures { result ≡ choice_byte response_code choice }
{
    match choice {
        Choice::Known(Response::System) => 0,
        Choice::Known(Response::Ignore) => 1,
        Choice::Known(Response::Statement) => 2,
        Choice::Other(byte) => byte,
    }
}

/// The byte of what is done to an event.
pub(crate) fn change_byte(choice: Choice<EventChange>) -> u8
    ensures { result ≡ choice_byte change_code choice }
{
    match choice {
        Choice::Known(EventChange::Nothing) => 0,
        Choice::Known(EventChange::Signal) => 1,
        Choice::Known(EventChange::Set) => 2,
        Choice::Known(EventChange::Reset) => 3,
        Choice::Other(byte) => byte,
    }
}

/// The byte of a flag.
pub(crate) fn flag_byte(choice: Choice<bool>) -> u8
    ensures { result ≡ choice_byte flag_code choice }
{
    match choice {
        Choice::Known(false) => 0,
        Choice::Known(true) => 1,
        Choice::Other(byte) => byte,
    }
}

/// The byte of an operation with one operand.
pub(crate) fn op1_byte(choice: Choice<Op1>) -> u8
    ensures { result ≡ choice_byte op1_code choice }
{
    match choice {
        Choice::Known(op) => op1_number(op),
        Choice::Other(byte) => byte,
    }
}

/// The byte of an operation with two operands.
pub(crate) fn op2_byte(choice: Choice<Op2>) -> u8
    ensures { result ≡ choice_byte op2_code choice }
{
    match choice {
        Choice::Known(op) => op2_number(op),
        Choice::Other(byte) => byte,
    }
}

fn op1_number(op: Op1) -> u8
    ensures { result ≡ op1_code op }
{
    match op {
        Op1::Minus => 0,
        Op1::Abs => 1,
        Op1::Signum => 2,
        Op1::Odd => 3,
        Op1::Not => 4,
        Op1::Length => 5,
        Op1::Trim => 6,
        Op1::Character => 7,
        Op1::Integer => 8,
        Op1::Bit => 9,
    }
}

fn op2_number(op: Op2) -> u8
    ensures { result ≡ op2_code op }
{
    match op {
        Op2::Plus => 0,
        Op2::Minus => 1,
        Op2::Product => 2,
        Op2::Power => 3,
        Op2::Div => 4,
        Op2::Remainder => 5,
        Op2::Mod => 6,
        Op2::Shl => 7,
        Op2::Shr => 8,
        Op2::And => 9,
        Op2::Or => 10,
        Op2::Xor => 11,
        Op2::Cat => 12,
        Op2::Equal => 13,
        Op2::NotEqual => 14,
        Op2::Less => 15,
        Op2::Greater => 16,
        Op2::LessOrEqual => 17,
        Op2::GreaterOrEqual => 18,
        Op2::Index => 19,
        Op2::Ljust => 20,
        Op2::Rjust => 21,
    }
}
