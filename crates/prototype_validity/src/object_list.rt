//! A list of objects.

ghost use Rattle.std.specs.Prelude.{◌≡◌, ◌++◌, ◌∷◌, ◌<◌, [], ℕ, length, nat_eq, slice_index, IfOk, OnErr, OnOk};
ghost use Rattle.std.specs.List.{list_any};

use property_keys::{NoMemory, ObjectId};
use std::alloc::Global;
use std::hash::{Hash, Hasher};
use std::marker::Model;

/// A list of objects, seen as the list of their numbers.
#[derive(Drop, Debug)]
pub struct ObjectList {
    numbers: Vec<u32>,
}

impl Model for ObjectList {
    ghost use Rattle.std.specs.Prelude.{List, ℕ};

    ghost Value = { List ℕ };

    ghost view = { λ o. o.numbers.items };
}

// A view that forgets the capacity has no `inverse`, so the comparisons are written by hand, over the list.
impl PartialEq for ObjectList {
    ghost use Rattle.std.specs.Str.{bytes_eq};
    ghost use Rattle.std.specs.Cmp.{partial_equiv_from_equiv};
    ghost use Rattle.std.specs.Cmp.Lexicographic.{nat_list_eq_equiv};

    ghost eq = { bytes_eq };

    ghost laws = { partial_equiv_from_equiv nat_list_eq_equiv };

    fn eq(&self, other: &ObjectList) -> bool {
        self.numbers == other.numbers
    }
}

impl Eq for ObjectList {
    ghost use Rattle.std.specs.Cmp.Lexicographic.{nat_list_eq_equiv};

    ghost laws = { nat_list_eq_equiv };
}

impl Hash for ObjectList {
    ghost use Rattle.std.specs.Hash as fed;
    ghost use Rattle.std.proofs.Common.{rules};
    ghost use Rattle.std.specs.Cmp.Rules.{hashing};

    ghost hash_input = { fed.slice fed.u32 };

    ghost respects_eq = { Prim.search (hashing, rules) };

    fn hash<H: Hasher>(&self, state: &mut H) {
        self.numbers.hash(state);
    }
}

impl ObjectList {
    /// No objects. It takes no memory.
    pub fn new(alloc: Global) -> ObjectList
        ensures { result ≡ [] }
    {
        ObjectList {
            numbers: Vec::new(alloc),
        }
    }

    /// Puts an object at the end. After `NoMemory` the list is as before.
    pub fn push(&mut self, object: ObjectId) -> Result<(), NoMemory>
        ensures ok { OnOk result (self.new ≡ self.old ++ object.0 ∷ []) }
        ensures err { OnErr result (self.new ≡ self.old) }
    {
        match self.numbers.push(object.0) {
            Ok(()) => Ok(()),
            Err(_) => Err(NoMemory),
        }
    }

    /// How many objects there are.
    pub fn len(&self) -> usize
        ensures { result ≡ length self.now }
    {
        self.numbers.len()
    }

    /// The object at an index below the length.
    pub fn at(&self, i: usize) -> ObjectId
        requires { i < length self.now }
        ensures { result.0 ≡ slice_index self.now i }
    {
        ObjectId(self.numbers[i])
    }

    /// Whether an object is in the list.
    pub(crate) fn includes(&self, object: ObjectId) -> bool
        ensures { result ≡ list_any (nat_eq object.0) self.now }
    {
        self.numbers.iter().any(|number| object.0 == *number)
    }

    pub(crate) fn copied(&self, alloc: Global) -> Result<ObjectList, NoMemory>
        ensures { IfOk result (λ copy. copy ≡ self.now) }
    {
        let mut numbers = Vec::new(alloc);
        match numbers.extend_from_slice(self.numbers.as_slice()) {
            Ok(()) => Ok(ObjectList { numbers }),
            Err(_) => Err(NoMemory),
        }
    }
}
