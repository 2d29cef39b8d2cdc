//! Instructions that schedule, wait and change priorities.

ghost use Rattle.std.specs.Prelude.{◌≡◌, ◌<◌, ◌-◌, ◌^◌, ℤ, drop, suc};
ghost use Rattle.hal_code.specs.Asking as asking;
ghost use Rattle.hal_code.specs.Cores.{going};
ghost use Rattle.hal_values.specs.declared.plan.When.{When};
ghost use Rattle.hal_values.specs.declared.plan.Guard.{Guard};
ghost use Rattle.hal_code.specs.declared.choice.Choice.TheVariants as choice;
ghost use Rattle.hal_machine.specs.Fitting.{taken_seen};
ghost use Rattle.hal_machine.specs.Tops.{prioritized_by};
ghost use Rattle.hal_machine.specs.Seen.{core_seen, stack_seen, setting_seen, step_seen, again_seen, Does};

use crate::machine::{Machine, Setting};
use crate::step::{Again, Rest, Stepped, Wait};
use crate::times::{cycle_of, is_priority, nearest_priority};
use hal_code::{Choice, Delay, Limit, Round, Start};
use hal_values::{Cycle, ErrNo, Guard, Plan, Request, When};
use std::alloc::AllocError;

/// A priority is outside its range.
const WRONG_PRIORITY: ErrNo = ErrNo {
    group: 2,
    number: 4,
};

/// What SCHEDULE says of a process.
#[derive(Clone, Copy)]
pub struct Written {
    pub start: Start,
    pub priority: Choice<bool>,
    pub dependent: Choice<bool>,
    pub round: Round,
    pub limit: Limit,
}

impl Machine {
    /// The operands above this depth are taken off, and the instruction is done.
    fn take_off(&mut self, depth: usize)
        requires { self.old.at < 2 ^ 64 - 1 }
        ensures does { core_seen self.new ≡ going (suc self.old.at) (drop depth (stack_seen self.old.operands)) (core_seen self.old) }
        ensures room { self.new.blocks.room ≡ self.old.blocks.room }
    {
        self.operands.drop_some(depth);
        self.go_on();
    }

    /// WAIT.
    pub fn wait(&mut self, setting: &Setting<'_>, delay: Delay) -> Stepped
        requires { self.old.at < 2 ^ 64 - 1 }
        ensures does { step_seen setting.now.image.now result self.new ≡ asking.act_wait (setting_seen setting.now) delay (core_seen self.old) }
        ensures room { self.new.blocks.room ≡ self.old.blocks.room }
    {
        match self.operands.delay_at(setting, delay, 0) {
            None => self.stuck(setting),
            Some((pause, depth)) => {
                self.take_off(depth);
                self.asks(setting, Request::Wait(pause), Wait::Then(Rest::Nothing))
            }
        }
    }

    /// A process is to have a priority, as it is written.
    fn prioritized(&mut self, setting: &Setting<'_>, process: u8, priority: i32) -> Stepped
        ensures does { step_seen setting.now.image.now result self.new ≡ asking.prioritized (setting_seen setting.now) process priority (core_seen self.old) }
        ensures room { self.new.blocks.room ≡ self.old.blocks.room }
    {
        let request = Request::Priority(process, nearest_priority(priority));
        if is_priority(priority) {
            self.asks(setting, request, Wait::Tried)
        } else {
            self.raised_before_trying(setting, WRONG_PRIORITY, request)
        }
    }

    /// PRIORITY, where this lies on top.
    fn priority_on_top(&mut self, setting: &Setting<'_>, process: u8, top: Option<i32>) -> Stepped
        requires { self.old.at < 2 ^ 64 - 1 }
        ensures does { step_seen setting.now.image.now result self.new ≡ prioritized_by (setting_seen setting.now) process (drop 1 (stack_seen self.old.operands)) (core_seen self.old) top }
        ensures room { self.new.blocks.room ≡ self.old.blocks.room }
    {
        match top {
            None => self.stuck(setting),
            Some(priority) if setting.has_process(process) => {
                self.take_off(1);
                self.prioritized(setting, process, priority)
            }
            Some(_) => self.stuck(setting),
        }
    }

    /// PRIORITY.
    #[tactic(auto, using(crate::proofs::TakenTops::priority_by_top))]
    pub fn priority(&mut self, setting: &Setting<'_>, process: u8) -> Stepped
        requires { self.old.at < 2 ^ 64 - 1 }
        ensures does { step_seen setting.now.image.now result self.new ≡ asking.act_priority (setting_seen setting.now) process (stack_seen self.old.operands) (core_seen self.old) }
        ensures room { self.new.blocks.room ≡ self.old.blocks.room }
    {
        let top = self.operands.integer_at(0);
        self.priority_on_top(setting, setting.named(process), top)
    }

    /// A plan with its priority as it is written.
    fn scheduled(
        &mut self,
        setting: &Setting<'_>,
        draft: Plan,
        priority: i32,
        again: Again,
    ) -> Result<Stepped, AllocError>
        ensures does { Does setting.now.image.now result self.new (asking.scheduled (setting_seen setting.now) draft.process draft.when priority draft.dependent (again_seen again) draft.guard (core_seen self.old)) }
        ensures room { self.new.blocks.room ≡ self.old.blocks.room }
    {
        let plan = Plan {
            process: draft.process,
            when: draft.when,
            priority: nearest_priority(priority),
            dependent: draft.dependent,
            cycle: cycle_of(again),
            guard: draft.guard,
        };
        if is_priority(priority) {
            Ok(self.planned(setting, plan, again))
        } else {
            self.raised_before(setting, WRONG_PRIORITY, Rest::Plans(plan, again))
        }
    }

    /// SCHEDULE, with the start as it is found on the stack.
    fn schedule_from(
        &mut self,
        setting: &Setting<'_>,
        draft: Plan,
        priority: i32,
        again: Again,
        start: Option<(When, usize)>,
    ) -> Result<Stepped, AllocError>
        requires { self.old.at < 2 ^ 64 - 1 }
        ensures does { Does setting.now.image.now result self.new (asking.with_start (setting_seen setting.now) draft.process priority draft.dependent (again_seen again) draft.guard (taken_seen (λ (one : When). one) (stack_seen self.old.operands) start) (core_seen self.old)) }
        ensures room { self.new.blocks.room ≡ self.old.blocks.room }
    {
        match start {
            None => Ok(self.stuck(setting)),
            Some((when, depth)) => {
                self.take_off(depth);
                self.scheduled(setting, Plan { when, ..draft }, priority, again)
            }
        }
    }

    /// SCHEDULE, with the priority as it is found.
    fn schedule_with(
        &mut self,
        setting: &Setting<'_>,
        draft: Plan,
        start: Start,
        again: Again,
        priority: Option<(i32, usize)>,
    ) -> Result<Stepped, AllocError>
        requires { self.old.at < 2 ^ 64 - 1 }
        ensures does { Does setting.now.image.now result self.new (asking.with_priority (setting_seen setting.now) draft.process start draft.dependent (again_seen again) draft.guard (taken_seen (λ (one : ℤ). one) (stack_seen self.old.operands) priority) (core_seen self.old)) }
        ensures room { self.new.blocks.room ≡ self.old.blocks.room }
    {
        match priority {
            None => Ok(self.stuck(setting)),
            Some((priority, depth)) => {
                let start = self.operands.start_at(setting, start, depth);
                self.schedule_from(setting, draft, priority, again, start)
            }
        }
    }

    /// SCHEDULE, with the next cycles as they are found.
    fn schedule_again(
        &mut self,
        setting: &Setting<'_>,
        draft: Plan,
        start: Start,
        priority: Choice<bool>,
        again: Option<(Again, usize)>,
    ) -> Result<Stepped, AllocError>
        requires { self.old.at < 2 ^ 64 - 1 }
        ensures does { Does setting.now.image.now result self.new (asking.with_round (setting_seen setting.now) draft.process start priority draft.dependent draft.guard (taken_seen again_seen (stack_seen self.old.operands) again) (core_seen self.old)) }
        ensures room { self.new.blocks.room ≡ self.old.blocks.room }
    {
        match again {
            None => Ok(self.stuck(setting)),
            Some((again, depth)) => {
                let priority = self.operands.priority_at(priority, depth);
                self.schedule_with(setting, draft, start, again, priority)
            }
        }
    }

    /// SCHEDULE, with the limit as it is found.
    fn schedule_until(
        &mut self,
        setting: &Setting<'_>,
        process: u8,
        plan: Written,
        dependent: bool,
        limit: Option<(Guard, usize)>,
    ) -> Result<Stepped, AllocError>
        requires { self.old.at < 2 ^ 64 - 1 }
        ensures does { Does setting.now.image.now result self.new (asking.with_limit (setting_seen setting.now) process plan.start plan.priority (choice.Known dependent) plan.round (taken_seen (λ (one : Guard). one) (stack_seen self.old.operands) limit) (core_seen self.old)) }
        ensures room { self.new.blocks.room ≡ self.old.blocks.room }
    {
        match limit {
            None => Ok(self.stuck(setting)),
            Some((guard, depth)) => {
                let again = self.operands.round_at(plan.round, depth);
                let draft = Plan {
                    process,
                    when: When::Now,
                    priority: 0,
                    dependent,
                    cycle: Cycle::Once,
                    guard,
                };
                self.schedule_again(setting, draft, plan.start, plan.priority, again)
            }
        }
    }

    /// SCHEDULE, of a process that is there.
    fn schedule_there(
        &mut self,
        setting: &Setting<'_>,
        process: u8,
        plan: Written,
    ) -> Result<Stepped, AllocError>
        requires { self.old.at < 2 ^ 64 - 1 }
        ensures does { Does setting.now.image.now result self.new (asking.with_limit (setting_seen setting.now) process plan.start plan.priority plan.dependent plan.round (asking.limit_taken (setting_seen setting.now).tables plan.limit (stack_seen self.old.operands)) (core_seen self.old)) }
        ensures room { self.new.blocks.room ≡ self.old.blocks.room }
    {
        match plan.dependent {
            Choice::Known(dependent) => {
                let limit = self.operands.limit_at(setting, plan.limit, 0);
                self.schedule_until(setting, process, plan, dependent, limit)
            }
            Choice::Other(_) => Ok(self.stuck(setting)),
        }
    }

    /// SCHEDULE.
    pub fn schedule(
        &mut self,
        setting: &Setting<'_>,
        process: u8,
        plan: Written,
    ) -> Result<Stepped, AllocError>
        requires { self.old.at < 2 ^ 64 - 1 }
        ensures does { Does setting.now.image.now result self.new (asking.act_schedule (setting_seen setting.now) process plan.start plan.priority plan.dependent plan.round plan.limit (core_seen self.old)) }
        ensures room { self.new.blocks.room ≡ self.old.blocks.room }
    {
        if setting.has_process(process) {
            self.schedule_there(setting, process, plan)
        } else {
            Ok(self.stuck(setting))
        }
    }
}
