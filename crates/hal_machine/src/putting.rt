//! Values that are put at places, and what is still to be done of an instruction.

ghost use Rattle.std.specs.Prelude.{◌≡◌, ◌<◌, slice_set, int_lt, OnOk};
ghost use Rattle.hal_values.specs.declared.request.Request.TheVariants as request;
ghost use Rattle.hal_states.specs.Spots.{Holds, kept};
ghost use Rattle.hal_states.specs.Modes.{noted};
ghost use Rattle.hal_states.specs.Times.{is_again};
ghost use Rattle.hal_values.specs.Answers.{error};
ghost use Rattle.hal_code.specs.Cores as cores;
ghost use Rattle.hal_code.specs.Cores.{with_kept, with_mode, Tries};
ghost use Rattle.hal_code.specs.Raising as raising;
ghost use Rattle.hal_machine.specs.Seen.{core_seen, setting_seen, spot_seen, step_seen, rest_seen, again_seen, Does};

use crate::machine::{Machine, Setting};
use crate::operands::Place;
use crate::step::{Again, Rest, Stepped, Wait};
use crate::values::{has_bit, of_kind};
use hal_errors::Found;
use hal_values::{Cell, ErrNo, Plan, Request, Side, Value};
use std::alloc::{AllocError, Global};

/// A process is to run again after no time.
const NO_CYCLE: ErrNo = ErrNo {
    group: 2,
    number: 5,
};

/// Whether a process can run again so.
fn is_again(again: Again) -> bool
    ensures { result ≡ is_again (again_seen again) }
{
    match again {
        Again::Every(time) => 0 < time,
        Again::Never => true,
        Again::AtOnce => true,
        Again::After(_) => true,
    }
}

impl Machine {
    /// An own place gets a value.
    #[tactic(auto, using(crate::proofs::Mapping::map_set, crate::proofs::Mapping::set_past, crate::proofs::Mapping::length_map))]
    pub fn put_own(&mut self, alloc: Global, number: usize, one: &Value) -> Result<(), AllocError>
        ensures does { OnOk result (core_seen self.new ≡ with_kept (kept (slice_set (core_seen self.old).kept.places number (Holds one.now)) self.old.last) (core_seen self.old)) }
        ensures room { self.new.blocks.room ≡ self.old.blocks.room }
    {
        if number < self.places.len() {
            self.places[number].put_value(alloc, one)?;
        }
        Ok(())
    }

    /// An UPDATE block writes a cell of its groups.
    #[tactic(auto, using(crate::proofs::Mapping::set_past))]
    fn note(&mut self, groups: u16, number: u16, cell: &Cell, one: Value) -> Result<(), AllocError>
        ensures does { OnOk result (core_seen self.new ≡ with_mode (noted groups number cell.now one (core_seen self.old).mode) (core_seen self.old)) }
        ensures room { self.new.blocks.room ≡ self.old.blocks.room }
    {
        if !has_bit(groups, cell.group) {
            return Ok(());
        }
        let place = usize::from(number);
        if place < self.store.len() {
            self.store[place] = one.copy();
        }
        self.writes.push((number, one))?;
        Ok(())
    }

    /// The executive is asked to write a cell.
    fn writes_to(&mut self, setting: &Setting<'_>, number: u16, one: Value) -> Stepped
        ensures does { step_seen setting.now.image.now result self.new ≡ cores.Waits (request.Write number one) (cores.Then cores.Goes) (core_seen self.old) }
        ensures room { self.new.blocks.room ≡ self.old.blocks.room }
    {
        self.asks(
            setting,
            Request::Write(number, one),
            Wait::Then(Rest::Nothing),
        )
    }

    /// A cell that is there gets a value.
    fn put_cell(
        &mut self,
        setting: &Setting<'_>,
        number: u32,
        cell: &Cell,
        one: Value,
    ) -> Result<Stepped, AllocError>
        requires { number < 65536 }
        ensures does { Does setting.now.image.now result self.new (raising.put_cell number cell.now one self.old.groups (core_seen self.old)) }
        ensures room { self.new.blocks.room ≡ self.old.blocks.room }
    {
        match self.groups {
            None => Ok(self.writes_to(setting, number as u16, one)),
            Some(groups) => {
                self.note(groups, number as u16, cell, one)?;
                Ok(Stepped::Moves)
            }
        }
    }

    /// A place gets a value.
    pub fn put(
        &mut self,
        setting: &Setting<'_>,
        place: Place,
        one: Value,
    ) -> Result<Stepped, AllocError>
        ensures does { Does setting.now.image.now result self.new (raising.put (setting_seen setting.now) (spot_seen place) one (core_seen self.old)) }
        ensures room { self.new.blocks.room ≡ self.old.blocks.room }
    {
        match place {
            Place::Shared(number) => match setting.cells.get(number as usize) {
                None => Ok(Stepped::Moves),
                Some(cell) => self.put_cell(setting, number, cell, of_kind(cell.kind, one)),
            },
            Place::Own(number) => {
                self.put_own(setting.alloc, number as usize, &one)?;
                Ok(Stepped::Moves)
            }
            Place::Nowhere => Ok(Stepped::Moves),
        }
    }

    /// An error arises before something is asked to which an error may be the answer.
    pub fn raised_before_trying(
        &mut self,
        setting: &Setting<'_>,
        error: ErrNo,
        request: Request,
    ) -> Stepped
        ensures does { step_seen setting.now.image.now result self.new ≡ raising.raised_before (setting_seen setting.now) error (Tries request) (core_seen self.old) }
        ensures room { self.new.blocks.room ≡ self.old.blocks.room }
    {
        let found = self.search(error);
        self.last = error;
        match found {
            Found::BySystem(side) => self.ended(setting, error, side),
            Found::Ignored(side) => match self.change(setting, side) {
                Some(change) => self.asks(setting, change, Wait::Then(Rest::Tries(request))),
                None => self.asks(setting, request, Wait::Tried),
            },
            Found::ByStatement { level, target } => self.entered(setting, level, target),
        }
    }

    /// The cycle of a plan is tested, and then it is asked for.
    pub fn planned(&mut self, setting: &Setting<'_>, plan: Plan, again: Again) -> Stepped
        ensures does { step_seen setting.now.image.now result self.new ≡ raising.planned (setting_seen setting.now) plan (again_seen again) (core_seen self.old) }
        ensures room { self.new.blocks.room ≡ self.old.blocks.room }
    {
        if is_again(again) {
            self.asks(setting, Request::Schedule(plan), Wait::Tried)
        } else {
            self.raised_before_trying(setting, NO_CYCLE, Request::Schedule(plan))
        }
    }

    /// The rest of an instruction.
    pub fn rested(&mut self, setting: &Setting<'_>, rest: Rest) -> Result<Stepped, AllocError>
        ensures does { Does setting.now.image.now result self.new (raising.rested (setting_seen setting.now) (rest_seen rest) (core_seen self.old)) }
        ensures room { self.new.blocks.room ≡ self.old.blocks.room }
    {
        match rest {
            Rest::Nothing => Ok(Stepped::Moves),
            Rest::Puts(place, one) => self.put(setting, place, one),
            Rest::Asks(request) => Ok(self.asks(setting, request, Wait::Then(Rest::Nothing))),
            Rest::Tries(request) => Ok(self.asks(setting, request, Wait::Tried)),
            Rest::Plans(plan, again) => Ok(self.planned(setting, plan, again)),
        }
    }

    /// The error is ignored, and this is left of the instruction.
    fn ignored(
        &mut self,
        setting: &Setting<'_>,
        side: Side,
        rest: Rest,
    ) -> Result<Stepped, AllocError>
        ensures does { Does setting.now.image.now result self.new (raising.sided (setting_seen setting.now) self.old.groups side (cores.Then (rest_seen rest)) (raising.rested (setting_seen setting.now) (rest_seen rest) (core_seen self.old)) (core_seen self.old)) }
        ensures room { self.new.blocks.room ≡ self.old.blocks.room }
    {
        match self.change(setting, side) {
            Some(change) => Ok(self.asks(setting, change, Wait::Then(rest))),
            None => self.rested(setting, rest),
        }
    }

    /// An error arises, and where it is ignored, this is left of the instruction.
    pub fn raised_before(
        &mut self,
        setting: &Setting<'_>,
        error: ErrNo,
        rest: Rest,
    ) -> Result<Stepped, AllocError>
        ensures does { Does setting.now.image.now result self.new (raising.raised_before (setting_seen setting.now) error (rest_seen rest) (core_seen self.old)) }
        ensures room { self.new.blocks.room ≡ self.old.blocks.room }
    {
        let found = self.search(error);
        self.last = error;
        match found {
            Found::BySystem(side) => Ok(self.ended(setting, error, side)),
            Found::Ignored(side) => self.ignored(setting, side, rest),
            Found::ByStatement { level, target } => Ok(self.entered(setting, level, target)),
        }
    }
}
