//! Instructions that put values on the stack or take them off, and jumps.

ghost use Rattle.std.specs.Prelude.{◌≡◌, ◌≤◌, ◌<◌, ◌^◌, ◌-◌, length, pos};
ghost use Rattle.hal_values.specs.declared.value.Value.TheVariants as value;
ghost use Rattle.hal_code.specs.Addressing.{pushed};
ghost use Rattle.hal_code.specs.Computing.{act_drop};
ghost use Rattle.hal_machine.specs.Seen.{core_seen, stack_seen, Does};

use crate::machine::{Machine, Setting};
use crate::operands::Slot;
use crate::step::Stepped;
use hal_values::Text;
use std::alloc::AllocError;

impl Machine {
    /// INT.
    pub fn int(&mut self, setting: &Setting<'_>, number: i32) -> Result<Stepped, AllocError>
        requires { self.old.at < 2 ^ 64 - 1 }
        ensures does { Does setting.now.image.now result self.new (pushed (value.Int number) (stack_seen self.old.operands) (core_seen self.old)) }
        ensures room { self.new.blocks.room ≡ self.old.blocks.room }
    {
        self.operands.push_int(number)?;
        self.at += 1;
        Ok(Stepped::Moves)
    }

    /// BITS.
    pub fn bits(&mut self, setting: &Setting<'_>, len: u8, word: u32) -> Result<Stepped, AllocError>
        requires { self.old.at < 2 ^ 64 - 1 }
        ensures does { Does setting.now.image.now result self.new (pushed (value.Bits len word) (stack_seen self.old.operands) (core_seen self.old)) }
        ensures room { self.new.blocks.room ≡ self.old.blocks.room }
    {
        self.operands.push_bits(len, word)?;
        self.at += 1;
        Ok(Stepped::Moves)
    }

    /// TEXT of these bytes.
    pub fn text_of(&mut self, setting: &Setting<'_>, text: &[u8]) -> Result<Stepped, AllocError>
        requires at { self.old.at < 2 ^ 64 - 1 }
        requires fits { length text.now ≤ 255 }
        ensures does { Does setting.now.image.now result self.new (pushed (value.Text text.now) (stack_seen self.old.operands) (core_seen self.old)) }
        ensures room { self.new.blocks.room ≡ self.old.blocks.room }
    {
        self.operands.push_text(text)?;
        self.at += 1;
        Ok(Stepped::Moves)
    }

    /// TEXT.
    pub fn text(&mut self, setting: &Setting<'_>, text: &Text) -> Result<Stepped, AllocError>
        requires { self.old.at < 2 ^ 64 - 1 }
        ensures does { Does setting.now.image.now result self.new (pushed (value.Text text.now) (stack_seen self.old.operands) (core_seen self.old)) }
        ensures room { self.new.blocks.room ≡ self.old.blocks.room }
    {
        self.text_of(setting, text.bytes())
    }

    /// ERRGRP.
    pub fn error_group(&mut self, setting: &Setting<'_>) -> Result<Stepped, AllocError>
        requires { self.old.at < 2 ^ 64 - 1 }
        ensures does { Does setting.now.image.now result self.new (pushed (value.Int (pos self.old.last.group)) (stack_seen self.old.operands) (core_seen self.old)) }
        ensures room { self.new.blocks.room ≡ self.old.blocks.room }
    {
        self.int(setting, i32::from(self.last.group))
    }

    /// ERRNUM.
    pub fn error_number(&mut self, setting: &Setting<'_>) -> Result<Stepped, AllocError>
        requires { self.old.at < 2 ^ 64 - 1 }
        ensures does { Does setting.now.image.now result self.new (pushed (value.Int (pos self.old.last.number)) (stack_seen self.old.operands) (core_seen self.old)) }
        ensures room { self.new.blocks.room ≡ self.old.blocks.room }
    {
        self.int(setting, i32::from(self.last.number))
    }

    /// DROP.
    pub fn drop_top(&mut self, setting: &Setting<'_>) -> Result<Stepped, AllocError>
        requires { self.old.at < 2 ^ 64 - 1 }
        ensures does { Does setting.now.image.now result self.new (act_drop (stack_seen self.old.operands) (core_seen self.old)) }
        ensures room { self.new.blocks.room ≡ self.old.blocks.room }
    {
        match self.operands.slots.pop() {
            Some(Slot::Int(_)) => {}
            Some(Slot::Bits { .. }) => {}
            Some(Slot::Text(len)) => self.operands.drop_bytes(len),
            Some(Slot::At { place, kind }) => {
                self.operands.push_address(place, kind)?;
                return Ok(self.stuck(setting));
            }
            Some(Slot::Area { place, shape }) => {
                self.operands.push_area(place, shape)?;
                return Ok(self.stuck(setting));
            }
            None => return Ok(self.stuck(setting)),
        }
        self.at += 1;
        Ok(Stepped::Moves)
    }
}
