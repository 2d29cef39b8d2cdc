//! Instructions, written behind other bytes.

ghost use Rattle.std.specs.Prelude.{◌≡◌, ◌↔◌, ◌++◌, ◌∷◌, IsTrue, OnOk};
ghost use Rattle.hal_object.specs.Numbers.{in_two, in_four, in_eight, integer_bytes};
ghost use Rattle.hal_object.specs.Instructions.{instr_bytes, FitsInstr};
ghost use Rattle.hal_object.specs.Reading.{instr_at};

use crate::choices::{
    change_byte, flag_byte, has_byte, op1_byte, op2_byte, places_byte, response_byte,
};
use crate::fault::ReadFault;
use crate::fits::{
    fits_delay, fits_eight, fits_four, fits_integer, fits_kind, fits_limit, fits_one, fits_round,
    fits_text, fits_two, fits_when,
};
use crate::instrs::instr_of;
use crate::kinds::{write_kind, write_text};
use crate::numbers::{put_eight, put_four, put_two};
use crate::operands::{write_delay, write_limit, write_round, write_when};
use crate::row::Row;
use hal_code::Instr;
use std::alloc::{AllocError, Global};

/// Whether an instruction has bytes: the choices among its operands have some, and its numbers and texts do because they are values.
fn has_instr_bytes(instr: &Instr) -> bool
    ensures { IsTrue result ↔ FitsInstr instr.now }
{
    match instr {
        Instr::Int(number) => {
            fits_integer(*number);
            true
        }
        Instr::Bits { len, word } => {
            fits_one(*len);
            fits_four(*word);
            true
        }
        Instr::Text(text) => {
            fits_text(text.text());
            true
        }
        Instr::Cell(number)
        | Instr::Whole(number)
        | Instr::Call(number)
        | Instr::Bind(number)
        | Instr::Copy(number) => {
            fits_four(*number);
            true
        }
        Instr::Event(number)
        | Instr::Signal(number)
        | Instr::Set(number)
        | Instr::Reset(number)
        | Instr::Open(number) => {
            fits_two(*number);
            true
        }
        Instr::Op1(choice) => has_byte(*choice, 10),
        Instr::Op2(choice) => has_byte(*choice, 22),
        Instr::Pick(choice) | Instr::Patch(choice) => has_byte(*choice, 3),
        Instr::Jump(target) | Instr::JumpNot(target) | Instr::Turn(target) => {
            fits_eight(*target);
            true
        }
        Instr::Len(byte)
        | Instr::Cancel(byte)
        | Instr::Terminate(byte)
        | Instr::Priority(byte)
        | Instr::Print(byte) => {
            fits_one(*byte);
            true
        }
        Instr::On {
            group,
            number,
            response,
            change,
            event,
            target,
        } => {
            fits_one(*group);
            fits_one(*number);
            fits_two(*event);
            fits_eight(*target);
            has_byte(*response, 3) && has_byte(*change, 4)
        }
        Instr::Off { group, number } | Instr::Raise { group, number } => {
            fits_one(*group);
            fits_one(*number);
            true
        }
        Instr::Clear { place, count } => {
            fits_four(*place);
            fits_four(*count);
            true
        }
        Instr::Schedule {
            process,
            start,
            priority,
            dependent,
            round,
            limit,
        } => {
            fits_one(*process);
            fits_when(*start);
            fits_round(*round);
            fits_limit(*limit);
            has_byte(*priority, 2) && has_byte(*dependent, 2)
        }
        Instr::Wait(delay) => {
            fits_delay(*delay);
            true
        }
        Instr::Input {
            channel,
            kind,
            target,
        } => {
            fits_one(*channel);
            fits_kind(*kind);
            fits_eight(*target);
            true
        }
        _ => true,
    }
}

/// A code, and a number of two bytes.
fn write_two(code: u8, number: u16, into: &mut Vec<u8>) -> Result<(), AllocError>
    ensures { OnOk result (into.new.items ≡ into.old.items ++ (code ∷ in_two number)) }
{
    into.push(code)?;
    put_two(number, into)
}

/// A code, and a number of four bytes.
fn write_four(code: u8, number: u32, into: &mut Vec<u8>) -> Result<(), AllocError>
    ensures { OnOk result (into.new.items ≡ into.old.items ++ (code ∷ in_four number)) }
{
    into.push(code)?;
    put_four(number, into)
}

/// A code, and a number of eight bytes.
fn write_eight(code: u8, number: u64, into: &mut Vec<u8>) -> Result<(), AllocError>
    ensures { OnOk result (into.new.items ≡ into.old.items ++ (code ∷ in_eight number)) }
{
    into.push(code)?;
    put_eight(number, into)
}

/// The bytes of an instruction, behind others.
fn write_instr(instr: &Instr, into: &mut Vec<u8>) -> Result<(), AllocError>
    ensures { OnOk result (into.new.items ≡ into.old.items ++ instr_bytes instr.now) }
{
    match instr {
        Instr::Int(number) => write_four(1, number.cast_unsigned(), into),
        Instr::Bits { len, word } => {
            into.extend_from_slice(&[2, *len])?;
            put_four(*word, into)
        }
        Instr::Text(text) => {
            into.push(3)?;
            write_text(text.text(), into)
        }
        Instr::Cell(number) => write_four(4, *number, into),
        Instr::Whole(number) => write_four(5, *number, into),
        Instr::Fetch => into.extend_from_slice(&[6]),
        Instr::Peek => into.extend_from_slice(&[7]),
        Instr::Keep => into.extend_from_slice(&[8]),
        Instr::Dup => into.extend_from_slice(&[9]),
        Instr::Drop => into.extend_from_slice(&[10]),
        Instr::Event(number) => write_two(11, *number, into),
        Instr::Op1(choice) => into.extend_from_slice(&[12, op1_byte(*choice)]),
        Instr::Op2(choice) => into.extend_from_slice(&[13, op2_byte(*choice)]),
        Instr::Len(byte) => into.extend_from_slice(&[14, *byte]),
        Instr::Pick(choice) => into.extend_from_slice(&[15, places_byte(*choice)]),
        Instr::Patch(choice) => into.extend_from_slice(&[16, places_byte(*choice)]),
        Instr::Jump(number) => write_eight(17, *number, into),
        Instr::JumpNot(number) => write_eight(18, *number, into),
        Instr::Turn(number) => write_eight(19, *number, into),
        Instr::Call(number) => write_four(20, *number, into),
        Instr::Return => into.extend_from_slice(&[21]),
        Instr::On {
            group,
            number,
            response,
            change,
            event,
            target,
        } => {
            let response = response_byte(*response);
            let change = change_byte(*change);
            into.extend_from_slice(&[22, *group, *number, response, change])?;
            put_two(*event, into)?;
            put_eight(*target, into)
        }
        Instr::Off { group, number } => { into.extend_from_slice(&[23, *group, *number]) }
        Instr::Raise { group, number } => { into.extend_from_slice(&[24, *group, *number]) }
        Instr::ErrGrp => into.extend_from_slice(&[25]),
        Instr::ErrNum => into.extend_from_slice(&[26]),
        Instr::Bind(number) => write_four(27, *number, into),
        Instr::Copy(number) => write_four(28, *number, into),
        Instr::Clear { place, count } => {
            into.push(29)?;
            put_four(*place, into)?;
            put_four(*count, into)
        }
        Instr::Next => into.extend_from_slice(&[30]),
        Instr::Begin => into.extend_from_slice(&[32]),
        Instr::Finish => into.extend_from_slice(&[33]),
        Instr::Schedule {
            process,
            start,
            priority,
            dependent,
            round,
            limit,
        } => {
            into.extend_from_slice(&[34, *process])?;
            write_when(*start, into)?;
            into.extend_from_slice(&[flag_byte(*priority), flag_byte(*dependent)])?;
            write_round(*round, into)?;
            write_limit(*limit, into)
        }
        Instr::Cancel(byte) => into.extend_from_slice(&[35, *byte]),
        Instr::Terminate(byte) => into.extend_from_slice(&[36, *byte]),
        Instr::Wait(delay) => {
            into.push(37)?;
            write_delay(*delay, into)
        }
        Instr::Signal(number) => write_two(38, *number, into),
        Instr::Set(number) => write_two(39, *number, into),
        Instr::Reset(number) => write_two(40, *number, into),
        Instr::Priority(byte) => into.extend_from_slice(&[41, *byte]),
        Instr::Item => into.extend_from_slice(&[42]),
        Instr::Print(byte) => into.extend_from_slice(&[43, *byte]),
        Instr::Input {
            channel,
            kind,
            target,
        } => {
            into.extend_from_slice(&[44, *channel])?;
            write_kind(*kind, into)?;
            put_eight(*target, into)
        }
        Instr::Now => into.extend_from_slice(&[45]),
        Instr::Open(number) => write_two(46, *number, into),
        Instr::Close => into.extend_from_slice(&[47]),
    }
}

impl Row for Instr {
    ghost at = { instr_at };

    ghost spelling = { instr_bytes };

    ghost fits = { FitsInstr };

    fn has_bytes(&self) -> bool {
        has_instr_bytes(self)
    }

    fn read(alloc: Global, bytes: &[u8]) -> Result<(Instr, &[u8]), ReadFault> {
        instr_of(alloc, bytes)
    }

    fn write(&self, into: &mut Vec<u8>) -> Result<(), AllocError> {
        write_instr(self, into)
    }
}
