//! A set of texts.

ghost use Rattle.std.specs.Prelude.{◌≡◌, [], bytes_eq, length, OnOk};
ghost use Rattle.std.specs.List.{list_any};
ghost use Rattle.property_keys.specs.Texts.{interned};

use indexmap::IndexSet;
use property_keys::{NoMemory, Units};
use script_grammar::NameHashing;
use std::alloc::Global;
use std::marker::Model;

/// Texts, each once.
#[derive(Drop)]
pub struct TextSet {
    table: IndexSet<Units, NameHashing>,
}

impl Model for TextSet {
    ghost use Rattle.std.specs.Prelude.{List, ℕ};

    ghost Value = { List (List ℕ) };

    ghost view = { λ t. t.table.keys };
}

impl TextSet {
    /// No texts. It takes no memory.
    pub fn new(alloc: Global, hashing: NameHashing) -> TextSet
        ensures { result ≡ [] }
    {
        TextSet {
            table: IndexSet::with_hasher(alloc, hashing),
        }
    }

    /// Adds a text, unless it is there.
    pub fn add(&mut self, units: Units) -> Result<(), NoMemory>
        ensures { OnOk result (self.new ≡ interned self.old units) }
    {
        let Ok(_) = self.table.insert_full(units) else {
            return Err(NoMemory);
        };
        Ok(())
    }

    /// Whether a text is there.
    pub fn contains(&self, units: &Units) -> bool
        ensures { result ≡ list_any (bytes_eq units.now) self.now }
    {
        self.table.contains(units)
    }

    /// How many texts there are.
    pub fn len(&self) -> usize
        ensures { result ≡ length self.now }
    {
        self.table.len()
    }
}
