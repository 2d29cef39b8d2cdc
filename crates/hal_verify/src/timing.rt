//! The seconds and priorities that SCHEDULE and WAIT take from the stack, the last one first.

ghost use Rattle.std.specs.Prelude.{◌≡◌};
ghost use Rattle.hal_code.specs.Effects.{seconds_taken, start_sorts, priority_sorts, round_sorts, limit_sorts, scheduled_sorts, delay_sorts};
ghost use Rattle.hal_verify.specs.SeenSorts.{seen_stack, left_where};

use crate::stack::Stack;
use hal_code::{Choice, Delay, Limit, Round, Start, Time};

impl Stack {
    /// The seconds of a time.
    fn take_seconds(&mut self, time: Time) -> bool
        ensures { left_where result (seen_stack self.new) ≡ seconds_taken time (seen_stack self.old) }
    {
        match time {
            Time::Absent => true,
            Time::Seconds => self.take_integers(1),
            Time::Milliseconds(_) => true,
        }
    }

    /// The seconds of when a process starts.
    fn take_start(&mut self, start: Start) -> bool
        ensures { left_where result (seen_stack self.new) ≡ start_sorts start (seen_stack self.old) }
    {
        match start {
            Start::Now => true,
            Start::At(time) => self.take_seconds(time),
            Start::In(time) => self.take_seconds(time),
            Start::On(_) => true,
        }
    }

    /// A priority.
    fn take_priority(&mut self, priority: Choice<bool>) -> bool
        ensures { left_where result (seen_stack self.new) ≡ priority_sorts priority (seen_stack self.old) }
    {
        match priority {
            Choice::Known(true) => self.take_integers(1),
            Choice::Known(false) => true,
            Choice::Other(_) => true,
        }
    }

    /// The seconds of how a process goes on after a cycle.
    fn take_round(&mut self, round: Round) -> bool
        ensures { left_where result (seen_stack self.new) ≡ round_sorts round (seen_stack self.old) }
    {
        match round {
            Round::Once => true,
            Round::Repeat => true,
            Round::Every(time) => self.take_seconds(time),
            Round::After(time) => self.take_seconds(time),
        }
    }

    /// The seconds of what cancels a process.
    fn take_limit(&mut self, limit: Limit) -> bool
        ensures { left_where result (seen_stack self.new) ≡ limit_sorts limit (seen_stack self.old) }
    {
        match limit {
            Limit::Free => true,
            Limit::While(_) => true,
            Limit::Until(_) => true,
            Limit::UntilTime(time) => self.take_seconds(time),
        }
    }

    /// SCHEDULE.
    pub(crate) fn schedule(
        &mut self,
        start: Start,
        priority: Choice<bool>,
        round: Round,
        limit: Limit,
    ) -> bool
        ensures { left_where result (seen_stack self.new) ≡ scheduled_sorts start priority round limit (seen_stack self.old) }
    {
        self.take_limit(limit)
            && self.take_round(round)
            && self.take_priority(priority)
            && self.take_start(start)
    }

    /// WAIT.
    pub(crate) fn wait(&mut self, delay: Delay) -> bool
        ensures { left_where result (seen_stack self.new) ≡ delay_sorts delay (seen_stack self.old) }
    {
        match delay {
            Delay::For(time) => self.take_seconds(time),
            Delay::Until(time) => self.take_seconds(time),
            Delay::Event(_) => true,
            Delay::Dependents => true,
        }
    }
}
