//! Times and the like that instructions find on the stack, from so deep on. What is found comes with how deep the operands below it lie.

ghost use Rattle.std.specs.Prelude.{◌≡◌, ◌<◌, nat_lt, drop, length};
ghost use Rattle.hal_values.specs.declared.plan.When.{When};
ghost use Rattle.hal_values.specs.declared.plan.Guard.{Guard};
ghost use Rattle.hal_values.specs.declared.plan.Pause.{Pause};
ghost use Rattle.hal_code.specs.Asking.{time_taken, priority_taken, start_taken, round_taken, limit_taken, delay_taken};
ghost use Rattle.hal_machine.specs.Fitting.{taken_seen};
ghost use Rattle.hal_machine.specs.Seen.{stack_seen, setting_seen, again_seen};

use crate::machine::Setting;
use crate::operands::Operands;
use crate::step::Again;
use crate::times::{milliseconds, thousandths};
use hal_code::{Choice, Delay, Limit, Round, Start, Time};
use hal_values::{Guard, Pause, When};

impl Setting<'_> {
    /// Whether there is an event expression with this number.
    pub(crate) fn has_expression(&self, expression: u32) -> bool
        ensures { result ≡ nat_lt expression (length (setting_seen self.now).tables.expressions) }
    {
        (expression as usize) < self.image.expressions.as_slice().len()
    }
}

impl Operands {
    /// A time.
    #[tactic(auto, using(crate::proofs::TakenTops::seconds_taken))]
    fn time_at(&self, time: Time, depth: usize) -> Option<(i64, usize)>
        ensures { taken_seen (λ one. one) (stack_seen self.now) result ≡ time_taken time (drop depth (stack_seen self.now)) }
    {
        match time {
            Time::Absent => None,
            Time::Milliseconds(count) => Some((thousandths(count), depth)),
            Time::Seconds => match self.integer_at(depth) {
                None => None,
                Some(seconds) => Some((milliseconds(seconds), depth + 1)),
            },
        }
    }

    /// A priority, or 50 where none is on the stack.
    #[tactic(auto, using(crate::proofs::TakenTops::given_taken))]
    pub(crate) fn priority_at(&self, given: Choice<bool>, depth: usize) -> Option<(i32, usize)>
        ensures { taken_seen (λ one. one) (stack_seen self.now) result ≡ priority_taken given (drop depth (stack_seen self.now)) }
    {
        match given {
            Choice::Known(true) => match self.integer_at(depth) {
                None => None,
                Some(priority) => Some((priority, depth + 1)),
            },
            Choice::Known(false) => Some((50, depth)),
            Choice::Other(_) => None,
        }
    }

    /// When a process starts.
    pub(crate) fn start_at(
        &self,
        setting: &Setting<'_>,
        start: Start,
        depth: usize,
    ) -> Option<(When, usize)>
        ensures { taken_seen (λ (one : When). one) (stack_seen self.now) result ≡ start_taken (setting_seen setting.now).tables start (drop depth (stack_seen self.now)) }
    {
        match start {
            Start::Now => Some((When::Now, depth)),
            Start::At(time) => match self.time_at(time, depth) {
                None => None,
                Some((time, depth)) => Some((When::At(time), depth)),
            },
            Start::In(time) => match self.time_at(time, depth) {
                None => None,
                Some((time, depth)) => Some((When::After(time), depth)),
            },
            Start::On(expression) if setting.has_expression(expression) => Some((
                When::On(expression),
                depth,
            )),
            Start::On(_) => None,
        }
    }

    /// How a process goes on.
    pub(crate) fn round_at(&self, round: Round, depth: usize) -> Option<(Again, usize)>
        ensures { taken_seen again_seen (stack_seen self.now) result ≡ round_taken round (drop depth (stack_seen self.now)) }
    {
        match round {
            Round::Once => Some((Again::Never, depth)),
            Round::Repeat => Some((Again::AtOnce, depth)),
            Round::Every(time) => match self.time_at(time, depth) {
                None => None,
                Some((time, depth)) => Some((Again::Every(time), depth)),
            },
            Round::After(time) => match self.time_at(time, depth) {
                None => None,
                Some((time, depth)) => Some((Again::After(time), depth)),
            },
        }
    }

    /// What cancels a process.
    pub(crate) fn limit_at(
        &self,
        setting: &Setting<'_>,
        limit: Limit,
        depth: usize,
    ) -> Option<(Guard, usize)>
        ensures { taken_seen (λ (one : Guard). one) (stack_seen self.now) result ≡ limit_taken (setting_seen setting.now).tables limit (drop depth (stack_seen self.now)) }
    {
        match limit {
            Limit::Free => Some((Guard::Free, depth)),
            Limit::While(expression) if setting.has_expression(expression) => Some((
                Guard::While(expression),
                depth,
            )),
            Limit::While(_) => None,
            Limit::Until(expression) if setting.has_expression(expression) => Some((
                Guard::Until(expression),
                depth,
            )),
            Limit::Until(_) => None,
            Limit::UntilTime(time) => match self.time_at(time, depth) {
                None => None,
                Some((time, depth)) => Some((Guard::UntilTime(time), depth)),
            },
        }
    }

    /// What a process waits for.
    pub(crate) fn delay_at(
        &self,
        setting: &Setting<'_>,
        delay: Delay,
        depth: usize,
    ) -> Option<(Pause, usize)>
        ensures { taken_seen (λ (one : Pause). one) (stack_seen self.now) result ≡ delay_taken (setting_seen setting.now).tables delay (drop depth (stack_seen self.now)) }
    {
        match delay {
            Delay::For(time) => match self.time_at(time, depth) {
                None => None,
                Some((time, depth)) => Some((Pause::For(time), depth)),
            },
            Delay::Until(time) => match self.time_at(time, depth) {
                None => None,
                Some((time, depth)) => Some((Pause::Till(time), depth)),
            },
            Delay::Event(expression) if setting.has_expression(expression) => Some((
                Pause::Event(expression),
                depth,
            )),
            Delay::Event(_) => None,
            Delay::Dependents => Some((Pause::Dependents, depth)),
        }
    }
}
