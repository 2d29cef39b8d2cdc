//! The blocks that a process is in.

use crate::back::{Return, backs_of};
use hal_errors::{Environments, Found};
use hal_values::{Entry, ErrNo, Selector};
use std::alloc::{AllocError, Global};
use std::marker::Model;

/// The running block and those below it, with their error entries, in room that is taken at once. A contract sees the entries of the running block, the frames of
/// the blocks below it, the latest first, and the room.
#[derive(Drop)]
pub struct Blocks {
    environments: Environments,
    /// Where the blocks below the running one go on, the latest at the end; that of an UPDATE block isn't gone back to.
    backs: Vec<Option<Return>>,
}

impl Model for Blocks {
    ghost use Rattle.std.specs.Prelude.{◌<◌, ◌≤◌, map, reverse, vec_capacity};
    ghost use Rattle.hal_machine.specs.Blocks.{Running, running_in, room_for, AreInStep};
    ghost use Rattle.hal_machine.specs.Stacks.{back_seen};

    ghost Value = { Running };

    ghost view = { λ b. running_in b.environments.entered (map back_seen (reverse b.backs.items)) (room_for b.environments.blocks b.environments.entries) };

    ghost invariant = { λ b. AreInStep b.environments.entered (map back_seen (reverse b.backs.items)) × (0 < b.environments.blocks) × (b.environments.blocks ≤ vec_capacity b.backs) };
}

impl Blocks {
    ghost use Rattle.std.specs.Prelude.{◌≡◌, ◌<◌, [], ◌∷◌, true, None, Some, IfOk, IfSome, IfNone};
    ghost use Rattle.std.specs.Bool.{OnTrue, OnFalse};
    ghost use Rattle.hal_values.specs.Searching.{search, with_entry, without};
    ghost use Rattle.hal_code.specs.Cores.{all_entered};
    ghost use Rattle.hal_errors.specs.Found.{found_seen};
    ghost use Rattle.hal_machine.specs.Blocks.{running, room_for, frame, HasBlock, HasEntry, HasAsMuch, IsBelow, IsLeft, IsPlainly, Wants, IsNotUpdating};
    ghost use Rattle.hal_machine.specs.Stacks.{back_seen};

    /// The outermost block runs, and has no entries. There is room for so many blocks, it among them, and for so many entries of them together.
    pub fn new(alloc: Global, blocks: usize, entries: usize) -> Result<Blocks, AllocError>
        requires { 0 < blocks }
        ensures { IfOk result (λ b. b ≡ running [] [] (room_for blocks entries)) }
    {
        let mut environments = Environments::new(alloc, blocks, entries)?;
        environments.enter(false);
        Ok(Blocks {
            environments,
            backs: Vec::with_capacity(alloc, blocks)?,
        })
    }

    /// The outermost block runs again, and has no entries.
    pub fn restart(&mut self)
        ensures { self.new ≡ running [] [] self.old.room }
    {
        self.environments.clear();
        self.environments.enter(false);
        self.backs.clear();
    }

    /// A block is entered, behind which the running one goes on so, if it does.
    #[tactic(auto, using(crate::proofs::InStep::same_none, crate::proofs::InStep::entered_count, crate::proofs::InStep::many_in_step, crate::proofs::InStep::many_seen, crate::proofs::InStep::last_seen))]
    #[inline(always)]
    pub fn enter(&mut self, back: Option<Return>)
        requires { HasBlock self.old }
        ensures { self.new ≡ running [] (frame self.old.entries (back_seen back) ∷ self.old.frames) self.old.room }
    {
        self.environments.enter(back.is_none());
        self.backs.push_reserved(back);
    }

    /// The running block is left. It tells how the one below it goes on.
    #[tactic(auto, using(crate::proofs::InStep::some_entered, crate::proofs::InStep::left_in_step))]
    pub fn leave(&mut self) -> Option<Option<Return>>
        ensures last { IfNone result ((self.old.frames ≡ []) × (self.new ≡ self.old)) }
        ensures left { IfSome result (λ back. self.old.frames ≡ frame self.new.entries (back_seen back) ∷ self.new.frames) }
        ensures room { self.new.room ≡ self.old.room }
    {
        let back = self.backs.pop()?;
        self.environments.leave();
        Some(back)
    }

    /// The running block is left, where it is an UPDATE block.
    #[tactic(auto, using(crate::proofs::InStep::some_entered, crate::proofs::InStep::left_in_step))]
    pub fn close(&mut self) -> bool
        ensures closed { OnTrue result (self.old.frames ≡ frame self.new.entries None ∷ self.new.frames) }
        ensures other { OnFalse result ((self.new ≡ self.old) × IsNotUpdating self.old.frames) }
        ensures room { self.new.room ≡ self.old.room }
    {
        match self.backs.pop() {
            None => false,
            Some(None) => {
                self.environments.leave();
                true
            }
            Some(Some(back)) => {
                self.backs.push(Some(back)).unwrap();
                false
            }
        }
    }

    /// Whether a value is wanted of the running block, if it was called.
    pub fn wants_value(&self) -> Option<bool>
        ensures { Wants result self.now.frames }
    {
        match self.backs.as_slice() {
            [] => None,
            [.., None] => None,
            [.., Some(back)] => Some(back.wants_value()),
        }
    }

    /// Where the block below the running one goes on, if it called that for a value and has no operands and no line.
    #[inline(always)]
    pub(crate) fn plain_back(&self) -> Option<usize>
        ensures plain { IfSome result (λ at. IsPlainly at self.now.frames) }
        ensures wants { IfSome result (λ at. Wants (Some true) self.now.frames) }
    {
        match self.backs.as_slice() {
            [.., Some(back)] if back.wants_value() && back.is_plain() => Some(back.at),
            _ => None,
        }
    }

    /// The running block is left, below which there is one.
    #[inline(never)]
    #[tactic(auto, using(crate::proofs::InStep::some_entered, crate::proofs::InStep::left_in_step, crate::proofs::InStep::some_below))]
    pub(crate) fn leave_there(&mut self)
        requires { IsBelow self.old.frames }
        ensures left { IsLeft self.old.frames self.new.entries self.new.frames }
        ensures room { self.new.room ≡ self.old.room }
    {
        self.backs.take_last();
        self.environments.leave();
    }

    /// ON ERROR: the running block has this entry, in the place of one with the same selector.
    #[tactic(auto, using(crate::proofs::InStep::some_entered, crate::proofs::InStep::entries_in_step, crate::proofs::InStep::changed_in_step, crate::proofs::InStep::changed_running))]
    pub fn set(&mut self, entry: Entry)
        requires { HasEntry self.old }
        ensures { self.new ≡ running (with_entry entry self.old.entries) self.old.frames self.old.room }
    {
        self.environments.set(entry);
    }

    /// OFF ERROR: the running block has no entry with this selector.
    #[tactic(auto, using(crate::proofs::InStep::some_entered, crate::proofs::InStep::changed_in_step, crate::proofs::InStep::changed_running))]
    pub fn off(&mut self, selector: Selector)
        ensures { self.new ≡ running (without selector self.old.entries) self.old.frames self.old.room }
    {
        self.environments.off(selector);
    }

    /// What an error meets, where the turns of the UPDATE block are used up or not.
    #[tactic(auto, using(crate::proofs::InStep::all_in_step))]
    pub fn find(&self, spent: bool, error: ErrNo) -> Found
        ensures { found_seen result ≡ search spent (all_entered self.now.entries self.now.frames) error }
    {
        self.environments.find(spent, error)
    }

    /// The same blocks once more, with at least the same room.
    #[tactic(auto, using(crate::proofs::Mapping::reversed_same))]
    pub fn copy(&self, alloc: Global) -> Result<Blocks, AllocError>
        ensures entries { IfOk result (λ copy. copy.entries ≡ self.now.entries) }
        ensures frames { IfOk result (λ copy. copy.frames ≡ self.now.frames) }
        ensures room { IfOk result (λ copy. HasAsMuch self.now.room copy.room) }
    {
        let environments = self.environments.copy(alloc)?;
        let backs = backs_of(alloc, environments.block_room(), self.backs.as_slice())?;
        Ok(Blocks {
            environments,
            backs,
        })
    }
}
