//! A list of names, each once.

ghost use Rattle.std.specs.Prelude.{◌≡◌, ◌<◌, ◌^◌, [], IfOk, OnOk, OnErr, length};
ghost use Rattle.script_rules.specs.Bounds.{bound, place_from, with_name};

use indexmap::IndexMap;
use property_keys::{NoMemory, Units};
use script_grammar::NameHashing;
use std::alloc::Global;
use std::marker::Model;

/// So few names are gone over, which is quicker than to hash the name that is looked for.
const FEW: usize = 8;

/// The names of a scope, each once, in the order in which their bindings are made. There is room for 2^32 - 1 names.
#[derive(Drop)]
pub struct ScopeNames {
    table: IndexMap<Units, bool, NameHashing>,
}

impl Model for ScopeNames {
    ghost use Rattle.std.specs.Prelude.{List, length, ◌<◌, ◌^◌};
    ghost use Rattle.script_rules.specs.Bounds.{Bound, bounds_of};

    ghost Value = { List Bound };

    ghost view = { λ s. bounds_of s.table.entries };

    ghost invariant = { λ s. length s.table.entries < 2 ^ 32 };
}

impl ScopeNames {
    /// No names. It takes no memory.
    pub fn new(alloc: Global, hashing: NameHashing) -> ScopeNames
        ensures { result ≡ [] }
    {
        ScopeNames {
            table: IndexMap::with_hasher(alloc, hashing),
        }
    }

    /// Adds a name, unless it is there. Past 2^32 - 1 names the answer is `NoMemory`, after which the names are as before.
    pub fn add(&mut self, units: Units, constant: bool) -> Result<(), NoMemory>
        ensures ok { OnOk result (self.new ≡ with_name self.old (bound units constant)) }
        ensures err { OnErr result (self.new ≡ self.old) }
    {
        if self.table.contains_key(&units) {
            return Ok(());
        }
        if self.table.len() >= u32::MAX as usize {
            return Err(NoMemory);
        }
        let Ok(_) = self.table.insert(units, constant) else {
            return Err(NoMemory);
        };
        Ok(())
    }

    /// How many names there are.
    pub fn len(&self) -> u32
        ensures { result ≡ length self.now }
    {
        self.table.len() as u32
    }

    /// The place of a name, from 0, and whether it is constant. None exactly where it is not there.
    pub fn find(&self, units: &Units) -> Option<(u32, bool)>
        ensures { result ≡ place_from 0 self.now units.now }
    {
        if self.table.len() <= FEW {
            return self.find_in_turn(units);
        }
        match self.table.get_full(units) {
            Some((place, _, constant)) => Some((place as u32, *constant)),
            None => None,
        }
    }

    /// The same, by going over the names.
    fn find_in_turn(&self, units: &Units) -> Option<(u32, bool)>
        ensures { result ≡ place_from 0 self.now units.now }
    {
        let mut place = 0;
        'names: while let Some((name, constant)) = self.table.get_index(place) {
            if units == name {
                return Some((place as u32, *constant));
            }
            place += 1;
        }
        None
    }
}
