//! Instructions that ask.

ghost use Rattle.std.specs.Prelude.{◌≡◌, ◌<◌, ◌-◌, ◌^◌, nat_lt, suc, []};
ghost use Rattle.hal_values.specs.declared.request.Request.TheVariants as request;
ghost use Rattle.hal_values.specs.declared.request.Spot.TheVariants as asked;
ghost use Rattle.hal_values.specs.declared.value.Kind.TheVariants as kind;
ghost use Rattle.hal_values.specs.Tables.{process_count};
ghost use Rattle.hal_code.specs.Asking.{named, act_named, act_event_change, act_event};
ghost use Rattle.hal_code.specs.Cores as cores;
ghost use Rattle.hal_code.specs.Cores.{going, with_line};
ghost use Rattle.hal_machine.specs.Seen.{core_seen, stack_seen, setting_seen, step_seen, wait_seen, Does};

use crate::machine::{Machine, Setting};
use crate::step::{Rest, Stepped, Wait};
use hal_values::{Kind, Request, Spot};
use std::alloc::AllocError;

/// In a process's place this is the process itself.
const ITSELF: u8 = 255;

impl Setting<'_> {
    /// Whether there is a process with this number.
    #[tactic(auto, using(crate::proofs::Mapping::length_map))]
    pub fn has_process(&self, process: u8) -> bool
        ensures { result ≡ nat_lt process (process_count (setting_seen self.now).tables) }
    {
        usize::from(process) < self.image.processes.as_slice().len()
    }

    /// The process that an operand names.
    pub fn named(&self, process: u8) -> u8
        ensures { result ≡ named (setting_seen self.now) process }
    {
        if process == ITSELF {
            self.process
        } else {
            process
        }
    }
}

impl Machine {
    /// This is asked, and this is done with the answer.
    pub fn asks(&mut self, setting: &Setting<'_>, request: Request, wait: Wait) -> Stepped
        ensures does { step_seen setting.now.image.now result self.new ≡ cores.Waits request (wait_seen setting.now.image.now wait) (core_seen self.old) }
        ensures room { self.new.blocks.room ≡ self.old.blocks.room }
    {
        self.request = request;
        self.wait = wait;
        Stepped::Waits
    }

    /// A turn is asked for, and nothing is done with the answer.
    pub(crate) fn passes(&mut self, setting: &Setting<'_>) -> Stepped
        ensures does { step_seen setting.now.image.now result self.new ≡ cores.Waits request.Pass (cores.Then cores.Goes) (core_seen self.old) }
        ensures room { self.new.blocks.room ≡ self.old.blocks.room }
    {
        self.asks(setting, Request::Pass, Wait::Then(Rest::Nothing))
    }

    /// BEGIN.
    pub fn begin(&mut self, setting: &Setting<'_>) -> Stepped
        requires { self.old.at < 2 ^ 64 - 1 }
        ensures does { step_seen setting.now.image.now result self.new ≡ cores.Waits request.Begin (cores.Then cores.Goes) (with_line [] (going (suc self.old.at) (stack_seen self.old.operands) (core_seen self.old))) }
        ensures room { self.new.blocks.room ≡ self.old.blocks.room }
    {
        self.line.clear();
        self.at += 1;
        self.asks(setting, Request::Begin, Wait::Then(Rest::Nothing))
    }

    /// FINISH.
    pub fn finish(&mut self, setting: &Setting<'_>) -> Stepped
        ensures does { step_seen setting.now.image.now result self.new ≡ cores.Waits request.Finish cores.Renews (core_seen self.old) }
        ensures room { self.new.blocks.room ≡ self.old.blocks.room }
    {
        self.asks(setting, Request::Finish, Wait::Renews)
    }

    /// Something is asked behind the instruction.
    fn asks_behind(&mut self, setting: &Setting<'_>, request: Request, wait: Wait) -> Stepped
        requires { self.old.at < 2 ^ 64 - 1 }
        ensures does { step_seen setting.now.image.now result self.new ≡ cores.Waits request (wait_seen setting.now.image.now wait) (going (suc self.old.at) (stack_seen self.old.operands) (core_seen self.old)) }
        ensures room { self.new.blocks.room ≡ self.old.blocks.room }
    {
        self.at += 1;
        self.asks(setting, request, wait)
    }

    /// INPUT.
    pub fn input(&mut self, setting: &Setting<'_>, channel: u8, kind: Kind, target: u64) -> Stepped
        requires { self.old.at < 2 ^ 64 - 1 }
        ensures does { step_seen setting.now.image.now result self.new ≡ cores.Waits (request.Input channel kind) (cores.Takes target) (going (suc self.old.at) (stack_seen self.old.operands) (core_seen self.old)) }
        ensures room { self.new.blocks.room ≡ self.old.blocks.room }
    {
        self.asks_behind(
            setting,
            Request::Input(channel, kind),
            Wait::Takes(target as usize),
        )
    }

    /// NOW.
    pub fn now(&mut self, setting: &Setting<'_>) -> Stepped
        requires { self.old.at < 2 ^ 64 - 1 }
        ensures does { step_seen setting.now.image.now result self.new ≡ cores.Waits request.Now (cores.Pushes kind.Double) (going (suc self.old.at) (stack_seen self.old.operands) (core_seen self.old)) }
        ensures room { self.new.blocks.room ≡ self.old.blocks.room }
    {
        self.asks_behind(setting, Request::Now, Wait::Pushes(Kind::Double))
    }

    /// CANCEL.
    pub fn cancel(&mut self, setting: &Setting<'_>, process: u8) -> Stepped
        requires { self.old.at < 2 ^ 64 - 1 }
        ensures does { step_seen setting.now.image.now result self.new ≡ act_named (setting_seen setting.now) request.Cancel process (core_seen self.old) }
        ensures room { self.new.blocks.room ≡ self.old.blocks.room }
    {
        self.at += 1;
        let process = setting.named(process);
        if setting.has_process(process) {
            self.asks(setting, Request::Cancel(process), Wait::Tried)
        } else {
            self.stuck(setting)
        }
    }

    /// TERMINATE.
    pub fn terminate(&mut self, setting: &Setting<'_>, process: u8) -> Stepped
        requires { self.old.at < 2 ^ 64 - 1 }
        ensures does { step_seen setting.now.image.now result self.new ≡ act_named (setting_seen setting.now) request.Terminate process (core_seen self.old) }
        ensures room { self.new.blocks.room ≡ self.old.blocks.room }
    {
        self.at += 1;
        let process = setting.named(process);
        if setting.has_process(process) {
            self.asks(setting, Request::Terminate(process), Wait::Tried)
        } else {
            self.stuck(setting)
        }
    }

    /// SIGNAL.
    pub fn signal(&mut self, setting: &Setting<'_>, event: u16) -> Stepped
        requires { self.old.at < 2 ^ 64 - 1 }
        ensures does { step_seen setting.now.image.now result self.new ≡ act_event_change (setting_seen setting.now) request.Signal event (core_seen self.old) }
        ensures room { self.new.blocks.room ≡ self.old.blocks.room }
    {
        self.at += 1;
        if setting.has_event(event) {
            self.asks(setting, Request::Signal(event), Wait::Then(Rest::Nothing))
        } else {
            Stepped::Moves
        }
    }

    /// SET.
    pub fn set(&mut self, setting: &Setting<'_>, event: u16) -> Stepped
        requires { self.old.at < 2 ^ 64 - 1 }
        ensures does { step_seen setting.now.image.now result self.new ≡ act_event_change (setting_seen setting.now) request.Set event (core_seen self.old) }
        ensures room { self.new.blocks.room ≡ self.old.blocks.room }
    {
        self.at += 1;
        if setting.has_event(event) {
            self.asks(setting, Request::Set(event), Wait::Then(Rest::Nothing))
        } else {
            Stepped::Moves
        }
    }

    /// RESET.
    pub fn reset(&mut self, setting: &Setting<'_>, event: u16) -> Stepped
        requires { self.old.at < 2 ^ 64 - 1 }
        ensures does { step_seen setting.now.image.now result self.new ≡ act_event_change (setting_seen setting.now) request.Reset event (core_seen self.old) }
        ensures room { self.new.blocks.room ≡ self.old.blocks.room }
    {
        self.at += 1;
        if setting.has_event(event) {
            self.asks(setting, Request::Reset(event), Wait::Then(Rest::Nothing))
        } else {
            Stepped::Moves
        }
    }

    /// EVENT.
    pub fn event(&mut self, setting: &Setting<'_>, event: u16) -> Result<Stepped, AllocError>
        requires { self.old.at < 2 ^ 64 - 1 }
        ensures does { Does setting.now.image.now result self.new (act_event (setting_seen setting.now) event (core_seen self.old)) }
        ensures room { self.new.blocks.room ≡ self.old.blocks.room }
    {
        if setting.has_event(event) {
            Ok(self.asks_behind(
                setting,
                Request::Read(Spot::Event(event)),
                Wait::Pushes(Kind::Bits(1)),
            ))
        } else {
            self.bits(setting, 1, 0)
        }
    }
}
