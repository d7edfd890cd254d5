//! A list of array indices.

ghost use Rattle.std.specs.Prelude.{◌≡◌, ◌<◌, ◌++◌, ◌∷◌, [], length, slice_index, OnErr, OnOk};

use property_keys::NoMemory;
use std::alloc::Global;
use std::marker::Model;

/// A list of array indices.
#[derive(Drop)]
pub struct KeyIndices {
    indices: Vec<u32>,
}

impl Model for KeyIndices {
    ghost use Rattle.std.specs.Prelude.{List, ℕ};

    ghost Value = { List ℕ };

    ghost view = { λ k. k.indices.items };
}

impl KeyIndices {
    /// No indices. It takes no memory.
    pub fn new(alloc: Global) -> KeyIndices
        ensures { result ≡ [] }
    {
        KeyIndices {
            indices: Vec::new(alloc),
        }
    }

    /// Puts an index at the end. After `NoMemory` the list is as before.
    pub fn push(&mut self, index: u32) -> Result<(), NoMemory>
        ensures ok { OnOk result (self.new ≡ self.old ++ index ∷ []) }
        ensures err { OnErr result (self.new ≡ self.old) }
    {
        match self.indices.push(index) {
            Ok(()) => Ok(()),
            Err(_) => Err(NoMemory),
        }
    }

    /// How many indices there are.
    pub fn len(&self) -> usize
        ensures { result ≡ length self.now }
    {
        self.indices.len()
    }

    /// The index at a place below the length.
    pub fn at(&self, i: usize) -> &u32
        requires { i < length self.now }
        ensures { result.now ≡ slice_index self.now i }
    {
        &self.indices[i]
    }
}
