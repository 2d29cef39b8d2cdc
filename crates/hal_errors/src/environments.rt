//! The error environments of a process.

use crate::block::{Block, first_latest};
use crate::entries::{put, remove};
use crate::found::{Found, found_in};
use hal_values::{Entry, ErrNo, Selector};
use std::alloc::{AllocError, Global};
use std::marker::Model;

/// The blocks that a process has entered and not left, with their entries. A contract sees the blocks, the latest first, and for how many blocks and entries
/// there is room.
#[derive(Drop)]
pub struct Environments {
    /// The latest at the end.
    blocks: Vec<Block>,
    /// Those of the latest block at the end, and of one block the latest first.
    entries: Vec<Entry>,
}

impl Model for Environments {
    ghost use Rattle.std.specs.Prelude.{reverse, length, vec_capacity};
    ghost use Rattle.hal_errors.specs.Environments.{Environment, environment};
    ghost use Rattle.hal_errors.specs.Blocks.{blocks_seen, AreRuns};

    ghost Value = { Environment };

    ghost view = { λ e. environment (blocks_seen (reverse e.blocks.items) e.entries.items) (vec_capacity e.blocks) (vec_capacity e.entries) };

    ghost invariant = { λ e. AreRuns (reverse e.blocks.items) (length e.entries.items) };
}

impl Environments {
    ghost use Rattle.std.specs.Prelude.{◌≡◌, ◌<◌, ◌≤◌, [], ◌∷◌, length, drop, IfOk};
    ghost use Rattle.hal_values.specs.Searching.{entered, search, with_entry, without};
    ghost use Rattle.hal_errors.specs.Environments.{environment, entry_count, with_latest};
    ghost use Rattle.hal_errors.specs.Found.{found_seen};

    /// No block is entered; there is room for so many, and for so many entries of them together.
    pub fn new(alloc: Global, blocks: usize, entries: usize) -> Result<Environments, AllocError>
        ensures { IfOk result (λ e. e ≡ environment [] blocks entries) }
    {
        Ok(Environments {
            blocks: Vec::with_capacity(alloc, blocks)?,
            entries: Vec::with_capacity(alloc, entries)?,
        })
    }

    /// A block is entered, which has no entries.
    #[tactic(auto, using(crate::proofs::Blocks::length_reversed_seen, crate::proofs::Blocks::entered_seen, crate::proofs::Blocks::entered_runs))]
    #[inline(always)]
    pub fn enter(&mut self, update: bool)
        requires { length self.old.entered < self.old.blocks }
        ensures { self.new ≡ environment (entered [] update ∷ self.old.entered) self.old.blocks self.old.entries }
    {
        let block = Block {
            first: self.entries.len(),
            update,
        };
        self.blocks.push_reserved(block);
    }

    /// The latest block is left, with its entries.
    #[tactic(auto, using(crate::proofs::Blocks::length_reversed_seen))]
    pub fn leave(&mut self)
        requires { 0 < length self.old.entered }
        ensures { self.new ≡ environment (drop 1 self.old.entered) self.old.blocks self.old.entries }
    {
        let block = self.blocks.take_last();
        self.entries.truncate(block.first);
    }

    /// ON ERROR: the latest block has this entry, in the place of one with the same selector.
    #[tactic(auto, using(crate::proofs::Blocks::length_reversed_seen, crate::proofs::Blocks::count_seen, crate::proofs::Blocks::first_within, crate::proofs::Blocks::changed_seen, crate::proofs::Blocks::changed_runs))]
    pub fn set(&mut self, entry: Entry)
        requires block { 0 < length self.old.entered }
        requires room { entry_count self.old.entered < self.old.entries }
        ensures { self.new ≡ environment (with_latest (with_entry entry) self.old.entered) self.old.blocks self.old.entries }
    {
        let first = first_latest(self.blocks.as_slice());
        put(&mut self.entries, first, entry);
    }

    /// OFF ERROR: the latest block has no entry with this selector.
    #[tactic(auto, using(crate::proofs::Blocks::length_reversed_seen, crate::proofs::Blocks::first_within, crate::proofs::Blocks::changed_seen, crate::proofs::Blocks::changed_runs))]
    pub fn off(&mut self, selector: Selector)
        requires { 0 < length self.old.entered }
        ensures { self.new ≡ environment (with_latest (without selector) self.old.entered) self.old.blocks self.old.entries }
    {
        let first = first_latest(self.blocks.as_slice());
        remove(&mut self.entries, first, selector);
    }

    /// What an error meets, where the turns of the UPDATE block are used up or not.
    pub fn find(&self, spent: bool, error: ErrNo) -> Found
        ensures { found_seen result ≡ search spent self.now.entered error }
    {
        found_in(
            spent,
            self.blocks.as_slice(),
            self.entries.as_slice(),
            error,
        )
    }

    /// No block is entered; the room stays.
    pub fn clear(&mut self)
        ensures { self.new ≡ environment [] self.old.blocks self.old.entries }
    {
        self.blocks.clear();
        self.entries.clear();
    }

    /// For how many blocks there is room.
    pub fn block_room(&self) -> usize
        ensures { result ≡ self.now.blocks }
    {
        self.blocks.capacity()
    }

    /// The same environments once more, with at least the room for as many blocks and entries.
    pub fn copy(&self, alloc: Global) -> Result<Environments, AllocError>
        ensures entered { IfOk result (λ copy. copy.entered ≡ self.now.entered) }
        ensures blocks { IfOk result (λ copy. self.now.blocks ≤ copy.blocks) }
        ensures entries { IfOk result (λ copy. self.now.entries ≤ copy.entries) }
    {
        let mut blocks = Vec::with_capacity(alloc, self.blocks.capacity())?;
        blocks.extend_from_slice(self.blocks.as_slice())?;
        let mut entries = Vec::with_capacity(alloc, self.entries.capacity())?;
        entries.extend_from_slice(self.entries.as_slice())?;
        Ok(Environments { blocks, entries })
    }
}
