use std::alloc::{AllocError, Global};
use std::marker::Model;

/// Items in order, which a contract sees as a list.
#[derive(Drop)]
pub struct Listing<T> {
    items: Vec<T>,
}

impl<T> Model for Listing<T> {
    ghost use Rattle.std.specs.Prelude.{List};

    ghost Value = { List T };

    ghost view = { λ listing. listing.items.items };
}

impl<T> Listing<T> {
    ghost use Rattle.std.specs.Prelude.{◌≡◌, ◌<◌, [], ◌∷◌, ◌++◌, length, take, slice_set, slice_get, OnOk, OnErr};

    /// These items.
    pub fn new(items: Vec<T>) -> Listing<T>
        ensures { result ≡ items.items }
    {
        Listing { items }
    }

    /// No items. It takes no memory.
    pub fn empty(alloc: Global) -> Listing<T>
        ensures { result ≡ [] }
    {
        Listing {
            items: Vec::new(alloc),
        }
    }

    /// The items.
    pub fn as_slice(&self) -> &[T]
        ensures { result.now ≡ self.now }
    {
        self.items.as_slice()
    }

    /// The items once more, as they were given.
    pub fn into_items(self) -> Vec<T>
        ensures { result.items ≡ self }
    {
        self.items
    }
}

impl<T: Drop> Listing<T> {
    ghost use Rattle.std.specs.Prelude.{◌≡◌, ◌<◌, [], ◌∷◌, ◌++◌, length, take, drop, slice_get, slice_set, Some, OnOk, OnErr};

    /// Adds an item at the end.
    pub fn push(&mut self, item: T) -> Result<(), AllocError>
        ensures added { OnOk result (self.new ≡ self.old ++ item ∷ []) }
        ensures same { OnErr result (self.new ≡ self.old) }
    {
        self.items.push(item)?;
        Ok(())
    }

    /// Keeps the first `count` items alone.
    pub fn truncate(&mut self, count: usize)
        ensures { self.new ≡ take count self.old }
    {
        self.items.truncate(count);
    }

    /// Replaces the item at a place, counted from 0.
    pub fn set(&mut self, place: usize, item: T)
        requires { place < length self.old }
        ensures { self.new ≡ slice_set self.old place item }
    {
        self.items[place] = item;
    }

    /// Puts an item at a place, counted from 0, and gives back the one that was there.
    pub fn replace(&mut self, place: usize, item: T) -> T
        requires { place < length self.old }
        ensures given { slice_get self.old place ≡ Some result }
        ensures after { self.new ≡ slice_set self.old place item }
    {
        std::mem::replace(&mut self.items[place], item)
    }

    /// Takes the first item away, if there is one.
    pub fn remove_first(&mut self)
        ensures { self.new ≡ drop 1 self.old }
    {
        if !self.items.is_empty() {
            let _first = self.items.remove(0);
        }
    }
}

impl<T: Copy> Listing<T> {
    ghost use Rattle.std.specs.Prelude.{◌≡◌, ◌++◌, OnOk, OnErr};

    /// Adds items at the end.
    pub fn extend(&mut self, items: &[T]) -> Result<(), AllocError>
        ensures added { OnOk result (self.new ≡ self.old ++ items.now) }
        ensures same { OnErr result (self.new ≡ self.old) }
    {
        self.items.extend_from_slice(items)?;
        Ok(())
    }
}
