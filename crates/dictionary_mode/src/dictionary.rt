//! The dictionary: slots in the order of their insertion, the slots in use, and the table of keys.

ghost use Rattle.std.specs.Prelude.{◌≡◌, ◌<◌, ◌++◌, ◌∷◌, ◌↔◌, [], length, take, IsOkAnd, IfOk, IfSome, IsNone, OnOk, OnErr};
ghost use Rattle.property_keys.specs.Counts.{counted};
ghost use Rattle.dictionary_mode.specs.Entries.{HasOneEach, IsPlaceOf, LacksKey, Removes, key_at, property_at, with_property};

use crate::numbers::Numbers;
use descriptors::Complete;
use indexmap::IndexMap;
use property_keys::{Ledger, NoMemory, PropKey, Steps};
use std::alloc::Global;
use std::marker::Model;

/// When the slots are made anew there are so many beside two for each key.
const SPARE_SLOTS: usize = 8;

/// An ordered list of distinct keys with properties. A place is a number below the length.
///
/// A removal takes the number of a slot out of the set of those in use and leaves the slot itself. An insertion that finds no slot left makes them anew.
#[derive(Drop)]
pub struct Dictionary {
    alloc: Global,
    /// The slot that a key was last put into.
    index: IndexMap<PropKey, u32>,
    slots: Vec<(PropKey, Complete)>,
    /// The slots in use.
    order: Numbers,
}

impl Model for Dictionary {
    ghost use Rattle.std.specs.Prelude.{List};
    ghost use Rattle.property_keys.specs.declared.keys.PropKey.{PropKey};
    ghost use Rattle.descriptors.specs.declared.property.Complete.{Complete};
    ghost use Rattle.indexmap.specs.IndexMap.{get};
    ghost use Rattle.property_keys.specs.contracts.keys.PropKeyPartialEq.TheImpl.{eq-value};
    ghost use Rattle.dictionary_mode.specs.Places.{IsSoundDictionary, in_use};

    ghost Value = { List (PropKey × Complete) };

    ghost view = { λ d. in_use d.slots.items d.order.list };

    ghost invariant = { λ d. IsSoundDictionary (λ key. get eq-value.it d.index key) d.slots.items d.order.list d.order.room };
}

impl Dictionary {
    /// No keys. It takes no memory.
    pub fn new(alloc: Global) -> Result<Dictionary, NoMemory>
        ensures { IsOkAnd result (λ d. d ≡ []) }
    {
        Ok(Dictionary::empty(alloc, Numbers::empty(alloc)))
    }

    fn empty(alloc: Global, order: Numbers) -> Dictionary
        requires { order.list ≡ [] }
        ensures { result ≡ [] }
    {
        Dictionary {
            alloc,
            index: IndexMap::new(alloc),
            slots: Vec::new(alloc),
            order,
        }
    }

    /// How many keys there are. No key stands at two places.
    pub fn len(&self) -> u32
        ensures len { result ≡ length self.now }
        ensures one { HasOneEach self.now }
    {
        self.order.len() as u32
    }

    /// The place of a key, in one step. None exactly where the key is absent, and no key stands at two places.
    pub fn find<L: Ledger>(&self, key: PropKey, steps: &mut Steps<L>) -> Option<u32>
        ensures found { IfSome result (IsPlaceOf self.now key) }
        ensures none { IsNone result ↔ LacksKey self.now key }
        ensures one { HasOneEach self.now }
        ensures steps { L.ticks steps.new ≡ counted (L.ticks steps.old) }
    {
        steps.tick();
        self.place(key)
    }

    fn place(&self, key: PropKey) -> Option<u32>
        ensures found { IfSome result (IsPlaceOf self.now key) }
        ensures none { IsNone result ↔ LacksKey self.now key }
        ensures one { HasOneEach self.now }
    {
        match self.index.get(&key) {
            Some(slot) => {
                if !self.order.contains(*slot as usize) {
                    return None;
                }
                Some(self.order.place(*slot as usize) as u32)
            }
            None => None,
        }
    }

    /// The property at a place below the length.
    pub fn at(&self, place: u32) -> &Complete
        requires { place < length self.now }
        ensures { result.now ≡ property_at self.now place }
    {
        &self.slots[self.order.at(place as usize)].1
    }

    /// The key at a place below the length.
    pub fn key_at(&self, place: u32) -> PropKey
        requires { place < length self.now }
        ensures { result ≡ key_at self.now place }
    {
        self.slots[self.order.at(place as usize)].0
    }

    /// Puts an absent key last. There is room for no more than 2^30 keys, and after `NoMemory` the list is as before.
    pub fn insert(&mut self, key: PropKey, property: Complete) -> Result<(), NoMemory>
        requires { LacksKey self.old key }
        ensures ok { OnOk result (self.new ≡ self.old ++ (key, property) ∷ []) }
        ensures err { OnErr result (self.new ≡ self.old) }
    {
        if self.is_full() {
            *self = self.made_anew()?;
        }
        self.append(key, property)
    }

    fn is_full(&self) -> bool {
        self.slots.len() == self.order.room()
    }

    /// The same list with no slot out of use.
    fn made_anew(&self) -> Result<Dictionary, NoMemory>
        ensures { IfOk result (λ d. d ≡ self.now) }
    {
        let height = (2 * self.order.len() + SPARE_SLOTS).ilog2() + 1;
        let order = Numbers::new(self.alloc, height)?;
        let mut anew = Dictionary::empty(self.alloc, order);
        for place in 0..self.len() {
            anew.append(self.key_at(place), *self.at(place))?;
        }
        Ok(anew)
    }

    /// `insert` into the slots that are there. A slot or an index entry that is left by `NoMemory` is out of use.
    fn append(&mut self, key: PropKey, property: Complete) -> Result<(), NoMemory>
        requires { LacksKey self.old key }
        ensures ok { OnOk result (self.new ≡ self.old ++ (key, property) ∷ []) }
        ensures err { OnErr result (self.new ≡ self.old) }
    {
        let slot = self.slots.len();
        if slot >= self.order.room() {
            return Err(NoMemory);
        }
        let Ok(()) = self.slots.push((key, property)) else {
            return Err(NoMemory);
        };
        let Ok(_) = self.index.insert(key, slot as u32) else {
            return Err(NoMemory);
        };
        self.order.put_last(slot);
        Ok(())
    }

    /// Puts another property at a place below the length. It takes no memory.
    pub fn replace(&mut self, place: u32, property: Complete)
        requires { place < length self.old }
        ensures { self.new ≡ with_property self.old place property }
    {
        let slot = self.order.at(place as usize);
        self.slots[slot].1 = property;
    }

    /// Takes out a key, and the others keep their order. False exactly where the key is absent. It takes no memory.
    pub fn remove(&mut self, key: PropKey) -> bool
        ensures { Removes self.old self.new key result }
    {
        match self.index.get(&key).copied() {
            Some(slot) => {
                if !self.order.contains(slot as usize) {
                    return false;
                }
                self.order.take_out(slot as usize);
                true
            }
            None => false,
        }
    }
}
