//! The names that are summed up, in an order that is kept.

ghost use Rattle.std.specs.Prelude.{◌≡◌, ◌++◌, ◌∷◌, [], OnOk};

use crate::comes::Parts;
use crate::plan::Plan;
use std::alloc::{AllocError, Global};
use std::marker::Model;

/// A name that is summed up: its number, and the parts that stand in its place.
#[derive(Drop)]
pub(crate) struct Entry {
    pub(crate) number: u32,
    pub(crate) parts: Parts,
}

/// The names that are summed up, of which a contract sees the list. Beside them stand those that were, and
/// aren't any more, to be summed up again in the same order. That is a guess, which may want some of them.
#[derive(Drop)]
pub(crate) struct Order {
    list: Vec<Entry>,
    /// Those that were summed up, the first one last.
    left: Vec<u32>,
    /// Those of them that couldn't be summed up again when that was tried.
    aside: Vec<u32>,
}

impl Model for Order {
    ghost use Rattle.std.specs.Prelude.{List};
    ghost use Rattle.hal_lexer.specs.declared.order.Entry.{Entry};

    ghost Value = { List Entry };

    ghost view = { λ o. o.list.items };
}

impl Order {
    ghost use Rattle.std.specs.Prelude.{◌≡◌, ◌<◌, ◌++◌, ◌∷◌, [], OnOk, IfSome, IfNone, length};
    ghost use Rattle.hal_lexer.specs.declared.order.Entry.{Entry};

    /// No name.
    pub(crate) fn new(alloc: Global) -> Order
        ensures { result ≡ [] }
    {
        Order {
            list: Vec::new(alloc),
            left: Vec::new(alloc),
            aside: Vec::new(alloc),
        }
    }

    /// How many names are summed up.
    pub(crate) fn len(&self) -> usize
        ensures { result ≡ length self.now }
    {
        self.list.len()
    }

    /// The names that are summed up.
    pub(crate) fn as_slice(&self) -> &[Entry]
        ensures { result.now ≡ self.now }
    {
        self.list.as_slice()
    }

    /// Adds a name.
    #[inline(always)]
    pub(crate) fn push(&mut self, entry: Entry) -> Result<(), AllocError>
        ensures { OnOk result (self.new ≡ self.old ++ entry ∷ []) }
    {
        match self.list.push(entry) {
            Ok(()) => Ok(()),
            Err(_) => Err(AllocError),
        }
    }

    /// Takes the last name away, and tells its number.
    pub(crate) fn pop(&mut self) -> Option<u32>
        ensures some { IfSome result (λ number. (last : Entry) × (self.old ≡ self.new ++ last ∷ []) × (last.number ≡ number)) }
        ensures less { IfSome result (λ number. length self.new < length self.old) }
        ensures none { IfNone result (self.new ≡ []) }
        ensures unchanged { IfNone result (self.new ≡ self.old) }
    {
        let Some(entry) = self.list.pop() else {
            return None;
        };
        let number = entry.number;
        leave(&mut self.left, number);
        Some(number)
    }

    /// The names that were summed up, and aren't any more, the first one last.
    pub(crate) fn left(&self) -> &[u32] {
        self.left.as_slice()
    }

    /// Leaves out those of them that aren't needed.
    pub(crate) fn leave_needed(&mut self, plan: &Plan)
        ensures { self.new ≡ self.old }
    {
        leave_needed(&mut self.left, plan);
    }

    /// The number of the next name that was summed up, and isn't any more.
    pub(crate) fn next(&mut self) -> Option<u32>
        ensures { self.new ≡ self.old }
    {
        self.left.pop()
    }

    /// Leaves the name with this number for later, which can't be summed up now.
    pub(crate) fn put_aside(&mut self, number: u32)
        ensures { self.new ≡ self.old }
    {
        leave(&mut self.aside, number);
    }

    /// Takes those that were left for later as the next ones.
    pub(crate) fn take_back(&mut self)
        ensures { self.new ≡ self.old }
    {
        take_back(&mut self.aside, &mut self.left);
    }
}

/// Leaves a name for later. Where memory is wanting for that, it is found again by the texts that it stands in.
#[inline(always)]
fn leave(names: &mut Vec<u32>, number: u32) {
    if names.push(number).is_err() {
        names.clear();
    }
}

/// Leaves all of these names for later, the last one as the deepest.
fn take_back(aside: &mut Vec<u32>, left: &mut Vec<u32>) {
    'name: for _ in 0..aside.len() {
        if let Some(number) = aside.pop() {
            leave(left, number);
        }
    }
}

/// Leaves out the names that aren't needed.
fn leave_needed(names: &mut Vec<u32>, plan: &Plan) {
    let mut count = 0usize;
    'name: for at in 0..names.len() {
        if let Some(number) = needed_at(names.as_slice(), at, plan) {
            put(names, count, number);
            count = count.saturating_add(1);
        }
    }
    names.truncate(count);
}

/// The number at this place, of a name that is needed.
fn needed_at(names: &[u32], at: usize, plan: &Plan) -> Option<u32> {
    let number = *names.get(at)?;
    if plan.is_needed(number) {
        return Some(number);
    }
    None
}

/// Puts a number at this place.
fn put(names: &mut Vec<u32>, at: usize, number: u32) {
    if let Some(there) = names.get_mut(at) {
        *there = number;
    }
}
