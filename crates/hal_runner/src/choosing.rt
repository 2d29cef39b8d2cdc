//! Instructions whose operands choose among operations, places and answers to errors.

ghost use Rattle.std.specs.Prelude.{◌≡◌, ◌<◌, ◌-◌, ◌^◌};
ghost use Rattle.hal_code.specs.Computing.{act_one, act_two, act_pick, act_patch};
ghost use Rattle.hal_code.specs.Controlling.{act_on};
ghost use Rattle.hal_right_values.specs.Fitting.{OneFits, TwoFits, PickFits, PatchFits, ChosenFits};
ghost use Rattle.hal_machine.specs.Blocks.{HasEntry};
ghost use Rattle.hal_machine.specs.Seen.{core_seen, stack_seen, setting_seen, step_seen, Does};

use hal_code::{Choice, EventChange, Places, Response};
use hal_machine::{Machine, Setting, Stepped, act_of, selector_of, side_of};
use hal_operations::{Op1, Op2};
use std::alloc::AllocError;

/// OP1.
pub(crate) fn one(
    machine: &mut Machine,
    setting: &Setting<'_>,
    op: Choice<Op1>,
) -> Result<Stepped, AllocError>
    requires at { machine.old.at < 2 ^ 64 - 1 }
    requires fits { OneFits op (stack_seen machine.old.operands) }
    ensures does { Does setting.now.image.now result machine.new (act_one (setting_seen setting.now) op (stack_seen machine.old.operands) (core_seen machine.old)) }
    ensures room { machine.new.blocks.room ≡ machine.old.blocks.room }
{
    match op {
        Choice::Known(op) => machine.one(setting, op),
        Choice::Other(_) => Ok(machine.stuck(setting)),
    }
}

/// OP2.
pub(crate) fn two(
    machine: &mut Machine,
    setting: &Setting<'_>,
    op: Choice<Op2>,
) -> Result<Stepped, AllocError>
    requires at { machine.old.at < 2 ^ 64 - 1 }
    requires fits { TwoFits op (stack_seen machine.old.operands) }
    ensures does { Does setting.now.image.now result machine.new (act_two (setting_seen setting.now) op (stack_seen machine.old.operands) (core_seen machine.old)) }
    ensures room { machine.new.blocks.room ≡ machine.old.blocks.room }
{
    match op {
        Choice::Known(op) => machine.two(setting, op),
        Choice::Other(_) => Ok(machine.stuck(setting)),
    }
}

/// PICK.
pub(crate) fn pick(
    machine: &mut Machine,
    setting: &Setting<'_>,
    places: Choice<Places>,
) -> Result<Stepped, AllocError>
    requires at { machine.old.at < 2 ^ 64 - 1 }
    requires fits { ChosenFits PickFits places (stack_seen machine.old.operands) }
    ensures does { Does setting.now.image.now result machine.new (act_pick (setting_seen setting.now) places (core_seen machine.old)) }
    ensures room { machine.new.blocks.room ≡ machine.old.blocks.room }
{
    match places {
        Choice::Known(places) => machine.pick(setting, places),
        Choice::Other(_) => Ok(machine.stuck(setting)),
    }
}

/// PATCH.
pub(crate) fn patch(
    machine: &mut Machine,
    setting: &Setting<'_>,
    places: Choice<Places>,
) -> Result<Stepped, AllocError>
    requires at { machine.old.at < 2 ^ 64 - 1 }
    requires fits { ChosenFits PatchFits places (stack_seen machine.old.operands) }
    ensures does { Does setting.now.image.now result machine.new (act_patch (setting_seen setting.now) places (core_seen machine.old)) }
    ensures room { machine.new.blocks.room ≡ machine.old.blocks.room }
{
    match places {
        Choice::Known(places) => machine.patch(setting, places),
        Choice::Other(_) => Ok(machine.stuck(setting)),
    }
}

/// What ON says of an entry for errors.
#[derive(Clone, Copy)]
pub(crate) struct Handler {
    pub(crate) group: u8,
    pub(crate) number: u8,
    pub(crate) response: Choice<Response>,
    pub(crate) change: Choice<EventChange>,
    pub(crate) event: u16,
    pub(crate) target: u64,
}

/// ON.
pub(crate) fn on(machine: &mut Machine, setting: &Setting<'_>, entry: Handler) -> Stepped
    requires at { machine.old.at < 2 ^ 64 - 1 }
    requires room { HasEntry machine.old.blocks }
    ensures does { step_seen setting.now.image.now result machine.new ≡ act_on entry.group entry.number entry.response entry.change entry.event entry.target (core_seen machine.old) }
    ensures room { machine.new.blocks.room ≡ machine.old.blocks.room }
{
    match (entry.response, entry.change) {
        (Choice::Known(response), Choice::Known(change)) => {
            let selector = selector_of(entry.group, entry.number);
            let side = side_of(change, entry.event);
            machine.on(setting, selector, act_of(response, side, entry.target))
        }
        (Choice::Known(_), Choice::Other(_)) => machine.stuck(setting),
        (Choice::Other(_), Choice::Known(_)) => machine.stuck(setting),
        (Choice::Other(_), Choice::Other(_)) => machine.stuck(setting),
    }
}
