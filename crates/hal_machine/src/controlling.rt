//! Instructions that say where control goes on, calls, and entries for errors.

ghost use Rattle.std.specs.Prelude.{◌≡◌, ◌<◌, ◌-◌, ◌^◌, suc, drop, [], ◌∷◌, true, false, Some, OnOk, if◌then◌else◌};
ghost use Rattle.hal_values.specs.declared.value.Value.TheVariants as value;
ghost use Rattle.hal_values.specs.Answers.{error};
ghost use Rattle.hal_values.specs.Searching.{with_entry, without};
ghost use Rattle.hal_code.specs.Controlling.{zero_of, with_result, calling, act_jump_not, act_turn, called, act_return, selector_of, side_of, act_of, act_on, act_off};
ghost use Rattle.hal_code.specs.Asking.{act_open, act_close};
ghost use Rattle.hal_code.specs.Cores as cores;
ghost use Rattle.hal_code.specs.Cores.{going, with_entries, Val, Moves};
ghost use Rattle.hal_code.specs.Raising.{raised};
ghost use Rattle.hal_machine.specs.Blocks.{HasBlock, HasEntry, IsPlainly, Wants};
ghost use Rattle.hal_machine.specs.Seen.{core_seen, stack_seen, setting_seen, step_seen, Does};

use crate::back::Return;
use crate::machine::{Machine, Setting};
use crate::operands::{Operands, Slot};
use crate::step::{Stepped, Wait};
use hal_code::{Block, EventChange, Response};
use hal_values::{Act, Entry, ErrNo, Request, Selector, Side, Value};
use std::alloc::AllocError;

/// The turns of an UPDATE block are used up.
const NO_TURN: ErrNo = ErrNo {
    group: 1,
    number: 8,
};

/// Which errors an entry is for.
pub fn selector_of(group: u8, number: u8) -> Selector
    ensures { result ≡ selector_of group number }
{
    if group == 0 {
        return Selector::All;
    }
    if number == 0 {
        return Selector::Group(group);
    }
    Selector::One(ErrNo { group, number })
}

/// What is done to the event before an entry takes effect.
pub fn side_of(change: EventChange, event: u16) -> Side
    ensures { result ≡ side_of change event }
{
    match change {
        EventChange::Nothing => Side::Nothing,
        EventChange::Signal => Side::Signal(event),
        EventChange::Set => Side::Set(event),
        EventChange::Reset => Side::Reset(event),
    }
}

/// What an entry does.
pub fn act_of(response: Response, side: Side, target: u64) -> Act
    ensures { result ≡ act_of response side target }
{
    match response {
        Response::System => Act::System(side),
        Response::Ignore => Act::Ignore(side),
        Response::Statement => Act::Statement(target),
    }
}

impl Machine {
    /// The next instruction is the one behind this one.
    pub fn go_on(&mut self)
        requires { self.old.at < 2 ^ 64 - 1 }
        ensures does { core_seen self.new ≡ going (suc self.old.at) (stack_seen self.old.operands) (core_seen self.old) }
        ensures room { self.new.blocks.room ≡ self.old.blocks.room }
    {
        self.at += 1;
    }

    /// JUMP.
    pub fn jump(&mut self, setting: &Setting<'_>, target: usize) -> Stepped
        ensures does { step_seen setting.now.image.now result self.new ≡ Moves (going target (stack_seen self.old.operands) (core_seen self.old)) }
        ensures room { self.new.blocks.room ≡ self.old.blocks.room }
    {
        self.at = target;
        Stepped::Moves
    }

    /// Control goes on behind the instruction, or at the target.
    fn branch(&mut self, setting: &Setting<'_>, goes_on: bool, target: usize) -> Stepped
        requires { self.old.at < 2 ^ 64 - 1 }
        ensures does { step_seen setting.now.image.now result self.new ≡ Moves (going (if goes_on then suc self.old.at else target) (stack_seen self.old.operands) (core_seen self.old)) }
        ensures room { self.new.blocks.room ≡ self.old.blocks.room }
    {
        self.at = if goes_on { self.at + 1 } else { target };
        Stepped::Moves
    }

    /// JUMPNOT.
    pub fn jump_not(&mut self, setting: &Setting<'_>, target: usize) -> Result<Stepped, AllocError>
        requires { self.old.at < 2 ^ 64 - 1 }
        ensures does { Does setting.now.image.now result self.new (act_jump_not target (stack_seen self.old.operands) (core_seen self.old)) }
        ensures room { self.new.blocks.room ≡ self.old.blocks.room }
    {
        match self.operands.slots.pop() {
            Some(Slot::Int(_)) => Ok(self.branch(setting, false, target)),
            Some(Slot::Bits { len: _, word }) => Ok(self.branch(setting, 0 < word, target)),
            Some(Slot::Text(len)) => {
                self.operands.drop_bytes(len);
                Ok(self.branch(setting, false, target))
            }
            Some(Slot::At { place, kind }) => {
                self.operands.push_address(place, kind)?;
                Ok(self.stuck(setting))
            }
            Some(Slot::Area { place, shape }) => {
                self.operands.push_area(place, shape)?;
                Ok(self.stuck(setting))
            }
            None => Ok(self.stuck(setting)),
        }
    }

    /// TURN.
    pub fn turn(&mut self, setting: &Setting<'_>, target: usize) -> Stepped
        requires { self.old.at < 2 ^ 64 - 1 }
        ensures does { step_seen setting.now.image.now result self.new ≡ act_turn (setting_seen setting.now) target (core_seen self.old) }
        ensures room { self.new.blocks.room ≡ self.old.blocks.room }
    {
        match self.groups {
            None => {
                self.at += 1;
                self.passes(setting)
            }
            Some(_) if self.turns == 0 => {
                self.at = target;
                self.raised(setting, NO_TURN)
            }
            Some(_) => {
                self.at += 1;
                self.turns -= 1;
                Stepped::Counts
            }
        }
    }

    /// RAISE.
    pub fn raise(&mut self, setting: &Setting<'_>, group: u8, number: u8) -> Stepped
        requires { self.old.at < 2 ^ 64 - 1 }
        ensures does { step_seen setting.now.image.now result self.new ≡ raised (setting_seen setting.now) (error group number) (going (suc self.old.at) (stack_seen self.old.operands) (core_seen self.old)) }
        ensures room { self.new.blocks.room ≡ self.old.blocks.room }
    {
        self.go_on();
        self.raised(setting, ErrNo { group, number })
    }

    /// ON, of an entry.
    pub fn on(&mut self, setting: &Setting<'_>, selector: Selector, act: Act) -> Stepped
        requires at { self.old.at < 2 ^ 64 - 1 }
        requires room { HasEntry self.old.blocks }
        ensures does { step_seen setting.now.image.now result self.new ≡ Moves (with_entries (with_entry (record { selector = selector; act = act }) (core_seen self.old).entries) (going (suc self.old.at) (stack_seen self.old.operands) (core_seen self.old))) }
        ensures room { self.new.blocks.room ≡ self.old.blocks.room }
    {
        self.blocks.set(Entry { selector, act });
        self.at += 1;
        Stepped::Moves
    }

    /// OFF.
    pub fn off(&mut self, setting: &Setting<'_>, group: u8, number: u8) -> Stepped
        requires { self.old.at < 2 ^ 64 - 1 }
        ensures does { step_seen setting.now.image.now result self.new ≡ act_off group number (core_seen self.old) }
        ensures room { self.new.blocks.room ≡ self.old.blocks.room }
    {
        self.blocks.off(selector_of(group, number));
        self.at += 1;
        Stepped::Moves
    }

    /// The UPDATE block ends.
    #[tactic(auto, using(crate::proofs::Returning::not_updating))]
    pub fn close(&mut self, setting: &Setting<'_>) -> Result<Stepped, AllocError>
        requires { self.old.at < 2 ^ 64 - 1 }
        ensures does { Does setting.now.image.now result self.new (act_close (core_seen self.old).frames (core_seen self.old)) }
        ensures room { self.new.blocks.room ≡ self.old.blocks.room }
    {
        if !self.blocks.close() {
            return Ok(self.stuck(setting));
        }
        self.groups = None;
        self.at += 1;
        Ok(Stepped::Moves)
    }

    /// OPEN.
    pub fn open_update(&mut self, setting: &Setting<'_>, groups: u16) -> Stepped
        requires at { self.old.at < 2 ^ 64 - 1 }
        requires room { HasBlock self.old.blocks }
        ensures does { step_seen setting.now.image.now result self.new ≡ act_open groups (core_seen self.old) }
        ensures room { self.new.blocks.room ≡ self.old.blocks.room }
    {
        self.blocks.enter(None);
        self.at += 1;
        self.asks(setting, Request::Update(groups), Wait::Opens(groups))
    }

    /// The block that runs, with its operands and its line, is put under the one that it calls.
    #[inline(never)]
    fn call_over(&mut self, setting: &Setting<'_>, block: &Block)
        requires at { self.old.at < 2 ^ 64 - 1 }
        requires room { HasBlock self.old.blocks }
        ensures does { core_seen self.new ≡ cores.core block.now.first [] [] [] (calling (zero_of block.now.result) (core_seen self.old) ∷ (core_seen self.old).frames) (core_seen self.old).kept (core_seen self.old).mode }
        ensures room { self.new.blocks.room ≡ self.old.blocks.room }
    {
        self.spare.clear();
        let fresh = std::mem::replace(&mut self.spare, Operands::new(setting.alloc));
        let back = Return {
            at: self.at + 1,
            operands: std::mem::replace(&mut self.operands, fresh),
            line: std::mem::replace(&mut self.line, Vec::new(setting.alloc)),
            result: block.result,
        };
        self.blocks.enter(Some(back));
        self.at = block.first as usize;
    }

    /// The block that runs, which has no operands and no line, is put under the one that it calls.
    #[inline(always)]
    fn call_plainly(&mut self, setting: &Setting<'_>, block: &Block)
        requires at { self.old.at < 2 ^ 64 - 1 }
        requires room { HasBlock self.old.blocks }
        requires operands { stack_seen self.old.operands ≡ [] }
        requires line { self.old.line.items ≡ [] }
        ensures does { core_seen self.new ≡ cores.core block.now.first [] [] [] (calling (zero_of block.now.result) (core_seen self.old) ∷ (core_seen self.old).frames) (core_seen self.old).kept (core_seen self.old).mode }
        ensures room { self.new.blocks.room ≡ self.old.blocks.room }
    {
        let back = Return::plain(setting.alloc, self.at + 1, block.result);
        self.blocks.enter(Some(back));
        self.at = block.first as usize;
    }

    /// The block that runs is put under the one that it calls.
    #[inline(always)]
    fn call_to(&mut self, setting: &Setting<'_>, block: &Block)
        requires at { self.old.at < 2 ^ 64 - 1 }
        requires room { HasBlock self.old.blocks }
        ensures does { core_seen self.new ≡ cores.core block.now.first [] [] [] (calling (zero_of block.now.result) (core_seen self.old) ∷ (core_seen self.old).frames) (core_seen self.old).kept (core_seen self.old).mode }
        ensures room { self.new.blocks.room ≡ self.old.blocks.room }
    {
        if self.operands.is_empty() && self.line.as_slice().is_empty() {
            self.call_plainly(setting, block);
        } else {
            self.call_over(setting, block);
        }
    }

    /// A block isn't called, since turns are used up.
    #[inline(never)]
    fn call_spent(&mut self, setting: &Setting<'_>, block: &Block) -> Result<Stepped, AllocError>
        requires { self.old.at < 2 ^ 64 - 1 }
        ensures does { Does setting.now.image.now result self.new (raised (setting_seen setting.now) (error 1 8) (going (suc self.old.at) (with_result (zero_of block.now.result) (stack_seen self.old.operands)) (core_seen self.old))) }
        ensures room { self.new.blocks.room ≡ self.old.blocks.room }
    {
        self.operands.push_zero(block.result)?;
        self.go_on();
        Ok(self.raised(setting, NO_TURN))
    }

    /// CALL of a block.
    #[inline(always)]
    pub fn call(&mut self, setting: &Setting<'_>, block: &Block) -> Result<Stepped, AllocError>
        requires at { self.old.at < 2 ^ 64 - 1 }
        requires room { HasBlock self.old.blocks }
        ensures does { Does setting.now.image.now result self.new (called (setting_seen setting.now) block.now (core_seen self.old)) }
        ensures room { self.new.blocks.room ≡ self.old.blocks.room }
    {
        match self.groups {
            None => {
                self.call_to(setting, block);
                Ok(self.passes(setting))
            }
            Some(_) if self.turns == 0 => self.call_spent(setting, block),
            Some(_) => {
                self.call_to(setting, block);
                self.turns -= 1;
                Ok(Stepped::Counts)
            }
        }
    }

    /// Control goes on there, behind a call.
    fn go_back(&mut self, back: Return)
        ensures does { core_seen self.new ≡ cores.core back.at (stack_seen back.operands) back.line.items (core_seen self.old).entries (core_seen self.old).frames (core_seen self.old).kept (core_seen self.old).mode }
        ensures room { self.new.blocks.room ≡ self.old.blocks.room }
    {
        self.at = back.at;
        self.spare = std::mem::replace(&mut self.operands, back.operands);
        self.line = back.line;
    }

    /// Control goes back to the block that called, with this value on its stack.
    #[tactic(auto, using(crate::proofs::Returning::one_returned, crate::proofs::Returning::none_below, crate::proofs::Returning::update_below))]
    fn return_one(&mut self, setting: &Setting<'_>, one: Value) -> Result<Stepped, AllocError>
        ensures does { Wants (Some true) (core_seen self.old).frames → Does setting.now.image.now result self.new (act_return (core_seen self.old).frames (going self.old.at (Val one ∷ stack_seen self.old.operands) (core_seen self.old))) }
        ensures room { self.new.blocks.room ≡ self.old.blocks.room }
    {
        match self.blocks.leave() {
            Some(Some(back)) => {
                let mut back = back;
                back.operands.push(one)?;
                self.go_back(back);
                Ok(Stepped::Moves)
            }
            Some(None) => Ok(self.stuck(setting)),
            None => Ok(self.stuck(setting)),
        }
    }

    /// Control goes back to a block with no operands and no line, which wants a value, with the integer on top on its stack.
    #[tactic(auto, using(crate::proofs::Returning::top_plainly, crate::proofs::Returning::plainly_below))]
    #[inline(never)]
    pub(crate) fn return_plainly(
        &mut self,
        setting: &Setting<'_>,
        at: usize,
        number: i32,
    ) -> Result<Stepped, AllocError>
        requires top { stack_seen self.old.operands ≡ Val (value.Int number) ∷ drop 1 (stack_seen self.old.operands) }
        requires plain { IsPlainly at (core_seen self.old).frames }
        ensures does { Wants (Some true) (core_seen self.old).frames → Does setting.now.image.now result self.new (act_return (core_seen self.old).frames (core_seen self.old)) }
        ensures room { self.new.blocks.room ≡ self.old.blocks.room }
    {
        self.blocks.leave_there();
        self.operands.only_int(number)?;
        self.line.clear();
        self.at = at;
        Ok(Stepped::Moves)
    }

    /// Control goes back to the block that called, which wants a value, with the integer on top on its stack.
    #[tactic(auto, using(crate::proofs::Returning::top_returned, crate::proofs::Returning::none_below, crate::proofs::Returning::update_below))]
    #[inline(never)]
    fn return_over(&mut self, setting: &Setting<'_>, number: i32) -> Result<Stepped, AllocError>
        requires { stack_seen self.old.operands ≡ Val (value.Int number) ∷ drop 1 (stack_seen self.old.operands) }
        ensures does { Wants (Some true) (core_seen self.old).frames → Does setting.now.image.now result self.new (act_return (core_seen self.old).frames (core_seen self.old)) }
        ensures room { self.new.blocks.room ≡ self.old.blocks.room }
    {
        match self.blocks.leave() {
            Some(Some(back)) => {
                let mut back = back;
                back.operands.push_int(number)?;
                self.go_back(back);
                Ok(Stepped::Moves)
            }
            Some(None) => Ok(self.stuck(setting)),
            None => Ok(self.stuck(setting)),
        }
    }

    /// The same, as the block that called has it.
    fn return_integer(&mut self, setting: &Setting<'_>, number: i32) -> Result<Stepped, AllocError>
        requires { stack_seen self.old.operands ≡ Val (value.Int number) ∷ drop 1 (stack_seen self.old.operands) }
        ensures does { Wants (Some true) (core_seen self.old).frames → Does setting.now.image.now result self.new (act_return (core_seen self.old).frames (core_seen self.old)) }
        ensures room { self.new.blocks.room ≡ self.old.blocks.room }
    {
        match self.blocks.plain_back() {
            None => self.return_over(setting, number),
            Some(at) => self.return_plainly(setting, at, number),
        }
    }

    /// The same with any value.
    #[tactic(auto, using(crate::proofs::Returning::no_value_to_return))]
    fn return_any(&mut self, setting: &Setting<'_>) -> Result<Stepped, AllocError>
        ensures does { Wants (Some true) (core_seen self.old).frames → Does setting.now.image.now result self.new (act_return (core_seen self.old).frames (core_seen self.old)) }
        ensures room { self.new.blocks.room ≡ self.old.blocks.room }
    {
        match self.operands.take()? {
            None => Ok(self.stuck(setting)),
            Some(one) => self.return_one(setting, one),
        }
    }

    /// Control goes back to the block that called, which wants a value.
    fn return_value(&mut self, setting: &Setting<'_>) -> Result<Stepped, AllocError>
        ensures does { Wants (Some true) (core_seen self.old).frames → Does setting.now.image.now result self.new (act_return (core_seen self.old).frames (core_seen self.old)) }
        ensures room { self.new.blocks.room ≡ self.old.blocks.room }
    {
        match self.operands.integer() {
            None => self.return_any(setting),
            Some(number) => self.return_integer(setting, number),
        }
    }

    /// Control goes back to the block that called, which wants no value.
    #[tactic(auto, using(crate::proofs::Returning::none_returned, crate::proofs::Returning::none_below, crate::proofs::Returning::update_below))]
    fn return_plain(&mut self, setting: &Setting<'_>) -> Stepped
        ensures does { Wants (Some false) (core_seen self.old).frames → step_seen setting.now.image.now result self.new ≡ act_return (core_seen self.old).frames (core_seen self.old) }
        ensures room { self.new.blocks.room ≡ self.old.blocks.room }
    {
        match self.blocks.leave() {
            Some(Some(back)) => {
                self.go_back(back);
                Stepped::Moves
            }
            Some(None) => self.stuck(setting),
            None => self.stuck(setting),
        }
    }

    /// RETURN.
    #[tactic(auto, using(crate::proofs::Returning::not_called))]
    pub fn return_back(&mut self, setting: &Setting<'_>) -> Result<Stepped, AllocError>
        ensures does { Does setting.now.image.now result self.new (act_return (core_seen self.old).frames (core_seen self.old)) }
        ensures room { self.new.blocks.room ≡ self.old.blocks.room }
    {
        match self.blocks.wants_value() {
            None => Ok(self.stuck(setting)),
            Some(true) => self.return_value(setting),
            Some(false) => Ok(self.return_plain(setting)),
        }
    }
}
