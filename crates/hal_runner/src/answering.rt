//! What is done with an answer.

ghost use Rattle.std.specs.Prelude.{◌≡◌, ◌<◌, ◌-◌, ◌^◌, suc, drop, length, [], Some};
ghost use Rattle.hal_states.specs.Modes.{mode, opened};
ghost use Rattle.hal_states.specs.OfKinds.{told};
ghost use Rattle.hal_code.specs.Addressing.{copied, placed};
ghost use Rattle.hal_code.specs.Cores as cores;
ghost use Rattle.hal_code.specs.Cores.{with_mode};
ghost use Rattle.hal_code.specs.Images.{kinds_of};
ghost use Rattle.hal_code.specs.Machine.{begun, tried_by, taken_by, given, after_answer};
ghost use Rattle.hal_machine.specs.Seen.{core_seen, setting_seen, spot_seen, step_seen, wait_seen, Does};
ghost use Rattle.hal_right_values.specs.Finding.{CopiesFit};
ghost use Rattle.hal_runner.specs.Replies.{reply_seen};
ghost use Rattle.hal_runner.specs.Ways.{AnswerFits, ShapesFit};

use crate::copying::copy_from;
use crate::reply::Reply;
use hal_machine::{Machine, Place, Rest, Setting, Stepped, Wait};
use hal_values::{Kind, Request, Value};
use std::alloc::AllocError;

/// The next cycle begins, with what the process keeps.
fn begin(machine: &mut Machine, setting: &Setting<'_>) -> Stepped
    requires { setting.now.begin < 2 ^ 64 - 1 }
    ensures does { step_seen setting.now.image.now result machine.new ≡ begun (setting_seen setting.now) (core_seen machine.old).kept }
    ensures room { machine.new.blocks.room ≡ machine.old.blocks.room }
{
    machine.at = setting.begin + 1;
    machine.operands.clear();
    machine.line.clear();
    machine.blocks.restart();
    machine.groups = None;
    machine.store.clear();
    machine.writes.clear();
    machine.turns = 0;
    machine.asks(setting, Request::Begin, Wait::Then(Rest::Nothing))
}

/// An error that the answer is arises.
fn tried(machine: &mut Machine, setting: &Setting<'_>, reply: Reply) -> Stepped
    ensures does { step_seen setting.now.image.now result machine.new ≡ tried_by (setting_seen setting.now) (reply_seen reply) (core_seen machine.old) }
    ensures room { machine.new.blocks.room ≡ machine.old.blocks.room }
{
    match reply {
        Reply::Wrong(error) => machine.raised(setting, error),
        Reply::Begun => Stepped::Moves,
        Reply::Value(_) => Stepped::Moves,
        Reply::Done => Stepped::Moves,
        Reply::Block(_) => Stepped::Moves,
        Reply::Killed => Stepped::Moves,
    }
}

/// The answer to INPUT; without a value control goes on at the target.
fn taken(
    machine: &mut Machine,
    setting: &Setting<'_>,
    target: usize,
    reply: Reply,
) -> Result<Stepped, AllocError>
    ensures does { Does setting.now.image.now result machine.new (taken_by (setting_seen setting.now) target (reply_seen reply) (core_seen machine.old)) }
    ensures room { machine.new.blocks.room ≡ machine.old.blocks.room }
{
    match reply {
        Reply::Value(one) => {
            machine.operands.push(one)?;
            Ok(Stepped::Moves)
        }
        Reply::Wrong(error) => {
            machine.at = target;
            Ok(machine.raised(setting, error))
        }
        Reply::Begun => Ok(machine.jump(setting, target)),
        Reply::Done => Ok(machine.jump(setting, target)),
        Reply::Block(_store) => Ok(machine.jump(setting, target)),
        Reply::Killed => Ok(machine.jump(setting, target)),
    }
}

/// An UPDATE block begins, of these groups, while the shared cells hold this.
fn enter(
    machine: &mut Machine,
    setting: &Setting<'_>,
    groups: u16,
    store: Vec<Value>,
    turns: u32,
) -> Stepped
    ensures does { step_seen setting.now.image.now result machine.new ≡ cores.Moves (with_mode (mode (Some groups) store.items [] turns) (core_seen machine.old)) }
    ensures room { machine.new.blocks.room ≡ machine.old.blocks.room }
{
    machine.groups = Some(groups);
    machine.store = store;
    machine.writes.clear();
    machine.turns = turns;
    Stepped::Moves
}

/// An UPDATE block begins with the answer.
fn entered(machine: &mut Machine, setting: &Setting<'_>, groups: u16, reply: Reply) -> Stepped
    ensures does { step_seen setting.now.image.now result machine.new ≡ cores.Moves (with_mode (opened setting.now.turns groups (reply_seen reply)) (core_seen machine.old)) }
    ensures room { machine.new.blocks.room ≡ machine.old.blocks.room }
{
    match reply {
        Reply::Block(store) => enter(machine, setting, groups, store, setting.turns),
        Reply::Begun => enter(machine, setting, groups, Vec::new(setting.alloc), 0),
        Reply::Value(_) => enter(machine, setting, groups, Vec::new(setting.alloc), 0),
        Reply::Done => enter(machine, setting, groups, Vec::new(setting.alloc), 0),
        Reply::Wrong(_) => enter(machine, setting, groups, Vec::new(setting.alloc), 0),
        Reply::Killed => enter(machine, setting, groups, Vec::new(setting.alloc), 0),
    }
}

/// The value of a cell that is copied to an own place comes there, and then those of the cells behind it.
fn copied(
    machine: &mut Machine,
    setting: &Setting<'_>,
    one: Value,
    shape: u32,
    done: usize,
    from: Place,
    place: u32,
) -> Result<Stepped, AllocError>
    requires shapes { ShapesFit setting.now.image.now }
    requires place { suc place < 2 ^ 32 }
    requires fits { CopiesFit (length (drop done (kinds_of setting.now.image.now shape))) (spot_seen from) (suc place) }
    ensures does { Does setting.now.image.now result machine.new (copied (setting_seen setting.now) (drop done (kinds_of setting.now.image.now shape)) (spot_seen from) (suc place) (placed place one (core_seen machine.old))) }
    ensures room { machine.new.blocks.room ≡ machine.old.blocks.room }
{
    machine.put_own(setting.alloc, place as usize, &one)?;
    copy_from(machine, setting, shape, done, from, place + 1)
}

/// An answer other than Killed.
fn given(
    machine: &mut Machine,
    setting: &Setting<'_>,
    wait: Wait,
    reply: Reply,
) -> Result<Stepped, AllocError>
    requires begin { setting.now.begin < 2 ^ 64 - 1 }
    requires shapes { ShapesFit setting.now.image.now }
    requires fits { AnswerFits (wait_seen setting.now.image.now wait) }
    ensures does { Does setting.now.image.now result machine.new (given (setting_seen setting.now) (wait_seen setting.now.image.now wait) (reply_seen reply) (core_seen machine.old)) }
    ensures room { machine.new.blocks.room ≡ machine.old.blocks.room }
{
    match wait {
        Wait::Then(rest) => machine.rested(setting, rest),
        Wait::Pushes(kind) => {
            machine.operands.push(reply.told(kind))?;
            Ok(Stepped::Moves)
        }
        Wait::Tried => Ok(tried(machine, setting, reply)),
        Wait::Takes(target) => taken(machine, setting, target, reply),
        Wait::Copies {
            kind,
            shape,
            done,
            from,
            place,
        } => copied(machine, setting, reply.told(kind), shape, done, from, place),
        Wait::Opens(groups) => Ok(entered(machine, setting, groups, reply)),
        Wait::Renews => Ok(begin(machine, setting)),
        Wait::Halts(error) => Ok(machine.asks(setting, Request::Stop(error), Wait::Halts(error))),
    }
}

/// An answer.
#[tactic(auto, using(crate::proofs::Alive::alive, crate::proofs::Alive::killed))]
pub(crate) fn answered(
    machine: &mut Machine,
    setting: &Setting<'_>,
    wait: Wait,
    reply: Reply,
) -> Result<Stepped, AllocError>
    requires begin { setting.now.begin < 2 ^ 64 - 1 }
    requires shapes { ShapesFit setting.now.image.now }
    requires fits { AnswerFits (wait_seen setting.now.image.now wait) }
    ensures does { Does setting.now.image.now result machine.new (after_answer (setting_seen setting.now) (wait_seen setting.now.image.now wait) (reply_seen reply) (core_seen machine.old)) }
    ensures room { machine.new.blocks.room ≡ machine.old.blocks.room }
{
    if reply.is_killed() {
        return Ok(begin(machine, setting));
    }
    given(machine, setting, wait, reply)
}
