//! What errors come to.

ghost use Rattle.std.specs.Prelude.{◌≡◌, ◌<◌, ◌^◌, ℕ, nat_lt, suc, [], Some, None};
ghost use Rattle.hal_values.specs.Searching as searching;
ghost use Rattle.hal_states.specs.Modes.{are_spent};
ghost use Rattle.hal_values.specs.Tables.{event_count};
ghost use Rattle.hal_values.specs.Answers as answers;
ghost use Rattle.hal_code.specs.Cores as cores;
ghost use Rattle.hal_code.specs.Cores.{all_entered};
ghost use Rattle.hal_code.specs.Raising as raising;
ghost use Rattle.hal_errors.specs.Found.{found_seen};
ghost use Rattle.std.specs.Bool.{OnTrue, OnFalse};
ghost use Rattle.hal_machine.specs.Seen.{core_seen, setting_seen, step_seen, asks_or, Does};

use crate::machine::{Machine, Setting};
use crate::step::{Rest, Stepped, Wait};
use hal_errors::Found;
use hal_values::{ErrNo, Request, Side};
use std::alloc::AllocError;

/// The error of a process that finds no instruction or none that fits its operands.
const NO_ERROR: ErrNo = ErrNo {
    group: 0,
    number: 0,
};

impl Setting<'_> {
    /// Whether there is an event with this number.
    #[tactic(auto, using(crate::proofs::Mapping::length_map))]
    pub fn has_event(&self, event: u16) -> bool
        ensures { result ≡ nat_lt event (event_count (setting_seen self.now).tables) }
    {
        usize::from(event)
            < self.image.processes.as_slice().len() + self.image.events.as_slice().len()
    }
}

impl Machine {
    /// No instruction is there that fits the operands.
    pub fn stuck(&mut self, setting: &Setting<'_>) -> Stepped
        ensures does { step_seen setting.now.image.now result self.new ≡ raising.stuck (core_seen self.old) }
        ensures room { self.new.blocks.room ≡ self.old.blocks.room }
    {
        self.asks(setting, Request::Stop(NO_ERROR), Wait::Halts(NO_ERROR))
    }

    /// Whether an UPDATE block is entered whose turns are used up.
    fn is_spent(&self) -> bool
        ensures { result ≡ are_spent self.now.groups self.now.turns }
    {
        match self.groups {
            None => false,
            Some(_) => self.turns == 0,
        }
    }

    /// What an error meets in all blocks that are entered.
    pub(crate) fn search(&self, error: ErrNo) -> Found
        ensures { found_seen result ≡ searching.search (are_spent self.now.groups self.now.turns) (all_entered (core_seen self.now).entries (core_seen self.now).frames) error }
    {
        self.blocks.find(self.is_spent(), error)
    }

    /// The latest block is left, if one lies below it. An UPDATE block that is left ends.
    #[tactic(auto, using(crate::proofs::Cutting::one_left))]
    fn leave_latest(&mut self) -> bool
        ensures left { OnTrue result ((n place : ℕ) → raising.cut (suc n) place (core_seen self.old).frames (core_seen self.old) ≡ raising.cut n place (core_seen self.new).frames (core_seen self.new)) }
        ensures last { OnFalse result ((self.new ≡ self.old) × ((core_seen self.old).frames ≡ [])) }
        ensures room { self.new.blocks.room ≡ self.old.blocks.room }
    {
        match self.blocks.leave() {
            None => false,
            Some(None) => {
                self.groups = None;
                true
            }
            Some(Some(_)) => true,
        }
    }

    /// So many later blocks are left, as far as there are any.
    #[tactic(auto, using(crate::proofs::Cutting::one_less, crate::proofs::Cutting::none_left, crate::proofs::Cutting::all_left))]
    fn leave_later(&mut self, level: usize)
        ensures does { (place : ℕ) → raising.cut level place (core_seen self.old).frames (core_seen self.old) ≡ raising.cut 0 place (core_seen self.new).frames (core_seen self.new) }
        ensures room { self.new.blocks.room ≡ self.old.blocks.room }
    {
        let mut left = level;
        while left > 0 {
            if !self.leave_latest() {
                return;
            }
            left -= 1;
        }
    }

    /// So many later blocks are left, and control goes on at the target.
    #[tactic(auto, using(crate::proofs::Cutting::cut_there))]
    fn cut(&mut self, level: usize, target: usize)
        ensures does { core_seen self.new ≡ raising.cut level target (core_seen self.old).frames (core_seen self.old) }
        ensures room { self.new.blocks.room ≡ self.old.blocks.room }
    {
        self.leave_later(level);
        self.at = target;
        self.operands.clear();
        self.line.clear();
    }

    /// What is asked to change an event before SYSTEM or IGNORE takes effect.
    pub(crate) fn change(&self, setting: &Setting<'_>, side: Side) -> Option<Request>
        ensures { (w : cores.Wait) (otherwise : cores.Step) (c : cores.Core) → raising.sided (setting_seen setting.now) self.now.groups side w otherwise c ≡ asks_or result w otherwise c }
    {
        match self.groups {
            Some(_) => None,
            None => match side {
                Side::Nothing => None,
                Side::Signal(event) if setting.has_event(event) => Some(Request::Signal(event)),
                Side::Signal(_) => None,
                Side::Set(event) if setting.has_event(event) => Some(Request::Set(event)),
                Side::Set(_) => None,
                Side::Reset(event) if setting.has_event(event) => Some(Request::Reset(event)),
                Side::Reset(_) => None,
            },
        }
    }

    /// The error ends the process.
    pub(crate) fn ended(&mut self, setting: &Setting<'_>, error: ErrNo, side: Side) -> Stepped
        ensures does { step_seen setting.now.image.now result self.new ≡ raising.sided (setting_seen setting.now) self.old.groups side (cores.Halts error) (cores.Waits (Request.Stop error) (cores.Halts error) (core_seen self.old)) (core_seen self.old) }
        ensures room { self.new.blocks.room ≡ self.old.blocks.room }
    {
        match self.change(setting, side) {
            Some(request) => self.asks(setting, request, Wait::Halts(error)),
            None => self.asks(setting, Request::Stop(error), Wait::Halts(error)),
        }
    }

    /// A statement of ON ERROR is entered, which is a turn.
    pub(crate) fn entered(&mut self, setting: &Setting<'_>, level: usize, target: u64) -> Stepped
        ensures does { step_seen setting.now.image.now result self.new ≡ raising.entered_at (raising.cut level target (core_seen self.old).frames (core_seen self.old)) }
        ensures room { self.new.blocks.room ≡ self.old.blocks.room }
    {
        self.cut(level, target as usize);
        match self.groups {
            None => self.passes(setting),
            Some(_) if self.turns == 0 => self.stuck(setting),
            Some(_) => {
                self.turns -= 1;
                Stepped::Counts
            }
        }
    }

    /// An error arises.
    pub fn raised(&mut self, setting: &Setting<'_>, error: ErrNo) -> Stepped
        ensures does { step_seen setting.now.image.now result self.new ≡ raising.raised (setting_seen setting.now) error (core_seen self.old) }
        ensures room { self.new.blocks.room ≡ self.old.blocks.room }
    {
        let found = self.search(error);
        self.last = error;
        match found {
            Found::BySystem(side) => self.ended(setting, error, side),
            Found::Ignored(side) => match self.change(setting, side) {
                Some(request) => self.asks(setting, request, Wait::Then(Rest::Nothing)),
                None => Stepped::Moves,
            },
            Found::ByStatement { level, target } => self.entered(setting, level, target),
        }
    }
}
