//! A list of anything, which contracts see as the list.

ghost use Rattle.std.specs.Prelude.{◌≡◌, ◌<◌, ◌++◌, ◌∷◌, [], List, length, slice_get, slice_set, Some, OnOk, OnErr};

use property_keys::NoMemory;
use std::alloc::Global;
use std::marker::Model;

/// A list that contracts see as the list of its items.
#[derive(Drop)]
pub struct Items<T> {
    all: Vec<T>,
}

impl<T> Model for Items<T> {
    ghost use Rattle.std.specs.Prelude.{List};

    ghost Value = { List T };

    ghost view = { λ i. i.all.items };
}

impl<T: Drop> Items<T> {
    /// No items. It takes no memory.
    pub fn new(alloc: Global) -> Items<T>
        ensures { result ≡ [] }
    {
        Items {
            all: Vec::new(alloc),
        }
    }

    /// Adds an item at the end. After `NoMemory` the list is as before.
    pub fn push(&mut self, item: T) -> Result<(), NoMemory>
        ensures ok { OnOk result (self.new ≡ self.old ++ item ∷ []) }
        ensures err { OnErr result (self.new ≡ self.old) }
    {
        match self.all.push(item) {
            Ok(()) => Ok(()),
            Err(_) => Err(NoMemory),
        }
    }

    /// Puts an item in the place of another. Past the end nothing changes.
    pub fn set(&mut self, i: usize, item: T)
        ensures { self.new ≡ slice_set self.old i item }
    {
        if i < self.all.len() {
            self.all[i] = item;
        }
    }

    /// How many items there are.
    pub fn len(&self) -> usize
        ensures { result ≡ length self.now }
    {
        self.all.len()
    }

    /// The item at a place below `len`.
    pub fn at(&self, i: usize) -> &T
        requires { i < length self.now }
        ensures { slice_get self.now i ≡ Some result.now }
    {
        &self.all[i]
    }
}
