//! The cells of each object.

ghost use Rattle.std.specs.Prelude.{◌≡◌, ◌≢◌, ◌<◌, ℕ, Some, OnOk};
ghost use Rattle.property_keys.specs.declared.identifiers.ObjectId.{ObjectId};
ghost use Rattle.prototype_validity.specs.Registered.{IsListed, count_of, cell_at};

use property_keys::{NoMemory, ObjectId};
use std::alloc::Global;
use std::collections::HashMap;

/// A place in the list of cells of an object.
#[derive(Clone, Copy, Debug, PartialEq, Eq, Hash)]
pub(crate) struct ListPlace {
    pub(crate) object: ObjectId,
    pub(crate) number: u32,
}

/// For each object the list of the cells that hang on it.
#[derive(Drop)]
pub(crate) struct Registry {
    /// How long the list of an object is.
    pub(crate) counts: HashMap<ObjectId, u32>,
    /// What stands in the lists, and past their ends what stood there before.
    pub(crate) cells: HashMap<ListPlace, u32>,
}

impl Registry {
    pub(crate) fn new(alloc: Global) -> Registry {
        Registry {
            counts: HashMap::new(alloc),
            cells: HashMap::new(alloc),
        }
    }

    fn count(&self, object: ObjectId) -> u32
        ensures { result ≡ count_of self.now object }
    {
        match self.counts.get(&object) {
            Some(count) => *count,
            None => 0,
        }
    }

    /// The cell at a place of the list of an object.
    pub(crate) fn cell(&self, object: ObjectId, number: u32) -> Option<u32>
        ensures { result ≡ cell_at self.now object number }
    {
        self.cells.get(&ListPlace { object, number }).copied()
    }

    /// Puts a cell at the end of the list of an object. What is listed stays so, after `NoMemory` too.
    pub(crate) fn add(&mut self, object: ObjectId, cell: u32) -> Result<(), NoMemory>
        ensures listed { OnOk result (IsListed self.new object cell) }
        ensures kept { (o : ObjectId) (i : ℕ) → IsListed self.old o i → IsListed self.new o i }
    {
        let number = self.count(object);
        if number == u32::MAX {
            return Err(NoMemory);
        }
        let Ok(_) = self.cells.insert(ListPlace { object, number }, cell) else {
            return Err(NoMemory);
        };
        let Ok(_) = self.counts.insert(object, number + 1) else {
            return Err(NoMemory);
        };
        Ok(())
    }

    /// Empties the list of an object, and tells how long it was. What stood in it can still be read.
    pub(crate) fn forget(&mut self, object: ObjectId) -> u32
        ensures count { result ≡ count_of self.old object }
        ensures cells { self.new.cells ≡ self.old.cells }
        ensures others { (o : ObjectId) (i : ℕ) → o ≢ object → IsListed self.old o i → IsListed self.new o i }
    {
        match self.counts.remove(&object) {
            Some(count) => count,
            None => 0,
        }
    }
}
