ghost use Rattle.std.specs.Prelude.{◌≡◌, ℕ, List, Some, bytes_eq, if◌then◌else◌, OnOk, OnErr};
ghost use Rattle.indexmap.specs.IndexMap.{IsUnchanged};
ghost use Rattle.hal_lexer.specs.Defined.{found};

use crate::child::Child;
use hal_words::Name;
use indexmap::IndexMap;
use std::alloc::{AllocError, Global};
use std::marker::Model;

/// A name and the children that stand in its place.
#[derive(Drop)]
pub(crate) struct Entry {
    name: Name,
    children: Vec<Child>,
}

/// The names that were looked up, each with its children, which are words or names before it. A contract
/// sees the list, the latest first.
#[derive(Drop)]
pub(crate) struct Compiled {
    list: Vec<Entry>,
    numbers: IndexMap<Name, usize>,
}

impl Model for Compiled {
    ghost use Rattle.std.specs.Prelude.{reverse, map};
    ghost use Rattle.hal_lexer.specs.Compiled.{Table, entry_of};
    ghost use Rattle.hal_lexer.specs.Numbers.{Numbers};

    ghost Value = { Table };

    ghost view = { λ c. reverse (map entry_of c.list.items) };

    ghost invariant = { λ c. Numbers c.numbers.entries (reverse (map entry_of c.list.items)) };
}

impl Compiled {
    ghost use Rattle.std.specs.Prelude.{◌≡◌, ◌∷◌, [], Some, OnOk};
    ghost use Rattle.hal_lexer.specs.Compiled.{children_at, number_of};
    ghost use Rattle.hal_lexer.specs.Numbers.{has_at, still};

    /// No name.
    pub(crate) fn new(alloc: Global) -> Compiled
        ensures { result ≡ [] }
    {
        Compiled {
            list: Vec::new(alloc),
            numbers: IndexMap::new(alloc),
        }
    }

    /// Whether the name with this number is the one.
    fn has_at(&self, number: usize, name: &Name) -> bool
        ensures { result ≡ has_at self.now number name.now }
    {
        match self.list.get(number) {
            Some(entry) => entry.name == *name,
            None => false,
        }
    }

    /// The number, where it still is the name's.
    fn still(&self, number: usize, name: &Name) -> Option<usize>
        ensures { result ≡ still self.now name.now (Some number) }
    {
        if self.has_at(number, name) {
            Some(number)
        } else {
            None
        }
    }

    /// The number of a name that was looked up.
    pub(crate) fn number(&self, name: &Name) -> Option<usize>
        ensures { result ≡ number_of self.now name.now }
    {
        match self.numbers.get(name) {
            Some(number) => self.still(*number, name),
            None => None,
        }
    }

    /// The children of the name with this number.
    pub(crate) fn children(&self, number: usize) -> &[Child]
        ensures { result.now ≡ children_at self.now number }
    {
        match self.list.get(number) {
            Some(entry) => entry.children.as_slice(),
            None => &[],
        }
    }

    /// Adds a name with its children.
    pub(crate) fn push(&mut self, name: Name, children: Vec<Child>) -> Result<(), AllocError>
        ensures { OnOk result (self.new ≡ (name, children.items) ∷ self.old) }
    {
        let number = self.list.len();
        if self.list.push(Entry { name, children }).is_err() {
            return Err(AllocError);
        }
        if set(&mut self.numbers, name, number).is_err() {
            self.list.pop();
            return Err(AllocError);
        }
        Ok(())
    }
}

/// Gives a name this number.
fn set(numbers: &mut IndexMap<Name, usize>, name: Name, number: usize) -> Result<(), AllocError>
    ensures set { OnOk result ((q : List ℕ) → found numbers.new.entries q ≡ (if bytes_eq name q then Some number else found numbers.old.entries q)) }
    ensures kept { OnErr result (IsUnchanged numbers.old numbers.new) }
{
    match numbers.insert(name, number) {
        Ok(_) => Ok(()),
        Err(_) => Err(AllocError),
    }
}
