//! Instructions.

ghost use Rattle.std.specs.Prelude.{◌≡◌, ◌<◌, ◌-◌, ◌^◌};
ghost use Rattle.hal_code.specs.Machine.{act};
ghost use Rattle.hal_machine.specs.Blocks.{HasBlock, HasEntry};
ghost use Rattle.hal_machine.specs.Seen.{core_seen, setting_seen, Does};
ghost use Rattle.hal_right_values.specs.Finding.{Fits};

use crate::choosing::{Handler, on, one, patch, pick, two};
use crate::clearing::clear;
use crate::copying::copy;
use crate::naming::{call, cell, whole};
use hal_code::Instr;
use hal_machine::{Machine, Setting, Stepped, Written};
use std::alloc::AllocError;

/// An instruction.
pub(crate) fn act(
    machine: &mut Machine,
    setting: &Setting<'_>,
    instr: &Instr,
) -> Result<Stepped, AllocError>
    requires at { machine.old.at < 2 ^ 64 - 1 }
    requires fits { Fits (setting_seen setting.now) instr.now (core_seen machine.old) }
    requires blocks { HasBlock machine.old.blocks }
    requires entries { HasEntry machine.old.blocks }
    ensures does { Does setting.now.image.now result machine.new (act (setting_seen setting.now) instr.now (core_seen machine.old)) }
    ensures room { machine.new.blocks.room ≡ machine.old.blocks.room }
{
    match instr {
        Instr::Int(number) => machine.int(setting, *number),
        Instr::Bits { len, word } => machine.bits(setting, *len, *word),
        Instr::Text(text) => machine.text(setting, text.text()),
        Instr::Cell(view) => cell(machine, setting, *view),
        Instr::Whole(view) => whole(machine, setting, *view),
        Instr::Fetch => machine.fetch(setting),
        Instr::Peek => machine.peek(setting),
        Instr::Keep => machine.keep(setting),
        Instr::Dup => machine.dup(setting),
        Instr::Drop => machine.drop_top(setting),
        Instr::Event(event) => machine.event(setting, *event),
        Instr::Op1(op) => one(machine, setting, *op),
        Instr::Op2(op) => two(machine, setting, *op),
        Instr::Len(depth) => machine.len(setting, *depth),
        Instr::Pick(places) => pick(machine, setting, *places),
        Instr::Patch(places) => patch(machine, setting, *places),
        Instr::Jump(target) => Ok(machine.jump(setting, *target as usize)),
        Instr::JumpNot(target) => machine.jump_not(setting, *target as usize),
        Instr::Turn(target) => Ok(machine.turn(setting, *target as usize)),
        Instr::Call(block) => call(machine, setting, *block),
        Instr::Return => machine.return_back(setting),
        Instr::On {
            group,
            number,
            response,
            change,
            event,
            target,
        } => Ok(on(
            machine,
            setting,
            Handler {
                group: *group,
                number: *number,
                response: *response,
                change: *change,
                event: *event,
                target: *target,
            },
        )),
        Instr::Off { group, number } => Ok(machine.off(setting, *group, *number)),
        Instr::Raise { group, number } => Ok(machine.raise(setting, *group, *number)),
        Instr::ErrGrp => machine.error_group(setting),
        Instr::ErrNum => machine.error_number(setting),
        Instr::Bind(place) => machine.bind(setting, *place),
        Instr::Copy(place) => copy(machine, setting, *place),
        Instr::Clear { place, count } => clear(machine, setting, *place, *count),
        Instr::Next => machine.next(setting),
        Instr::Begin => Ok(machine.begin(setting)),
        Instr::Finish => Ok(machine.finish(setting)),
        Instr::Schedule {
            process,
            start,
            priority,
            dependent,
            round,
            limit,
        } => machine.schedule(
            setting,
            *process,
            Written {
                start: *start,
                priority: *priority,
                dependent: *dependent,
                round: *round,
                limit: *limit,
            },
        ),
        Instr::Cancel(process) => Ok(machine.cancel(setting, *process)),
        Instr::Terminate(process) => Ok(machine.terminate(setting, *process)),
        Instr::Wait(delay) => Ok(machine.wait(setting, *delay)),
        Instr::Signal(event) => Ok(machine.signal(setting, *event)),
        Instr::Set(event) => Ok(machine.set(setting, *event)),
        Instr::Reset(event) => Ok(machine.reset(setting, *event)),
        Instr::Priority(process) => Ok(machine.priority(setting, *process)),
        Instr::Item => machine.item(setting),
        Instr::Print(channel) => machine.print(setting, *channel),
        Instr::Input {
            channel,
            kind,
            target,
        } => Ok(machine.input(setting, *channel, *kind, *target)),
        Instr::Now => Ok(machine.now(setting)),
        Instr::Open(groups) => Ok(machine.open_update(setting, *groups)),
        Instr::Close => machine.close(setting),
    }
}
