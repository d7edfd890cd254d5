//! Elements as words, one for each index below the capacity.

ghost use Rattle.std.specs.Prelude.{◌≡◌, ◌+◌, ◌-◌, ◌<◌, ◌≤◌, ◌^◌, ℕ, false, true, is_some, length, slice_index_or, slice_set, IfOk, MatchOption, OnErr, OnOk};
ghost use Rattle.std.specs.FinMap as map_of;
ghost use Rattle.property_keys.specs.Counts.{TakesAtMost, counted};
ghost use Rattle.slot_storage.specs.Steps.{counted_times};
ghost use Rattle.elements_kinds.specs.Kinds.{class_of, is_dictionary, join};
ghost use Rattle.elements_kinds.specs.Maps.{properties_in};
ghost use Rattle.elements_kinds.specs.Properties.{plain};
ghost use Rattle.elements_kinds.specs.Rules.{Fits, defined, end_of, greatest_of, is_dictionary_after, removed, start};
ghost use Rattle.elements_kinds.specs.Sound.{grown};
ghost use Rattle.elements_kinds.specs.Steps.{steps_down, steps_in_store, steps_to_grow, steps_to_list, steps_to_put, steps_to_remove, widens};
ghost use Rattle.elements_kinds.specs.Words.{IsGoodValue};

use crate::KeyIndices;
use crate::kinds::{Class, ElementsKind};
use crate::maps::{push_present, put_value};
use crate::plain_properties::{plain, plain_value};
use crate::slots::Slots;
use descriptors::Complete;
use property_keys::{Ledger, NoMemory, Steps, Value};
use std::alloc::Global;
use std::collections::BTreeMap;
use std::marker::Model;

/// From this index on nothing stands in a store.
const STORE_END: u32 = 0x80_0000;

/// A store has no index that is further than this past its capacity.
const GREATEST_GAP: usize = 1_024;

/// Elements in words: each index below the capacity has its word.
#[derive(Drop)]
pub(crate) struct Store {
    slots: Slots,
    holey: bool,
    /// One past the greatest index present.
    end: usize,
}

impl Model for Store {
    ghost use Rattle.std.specs.Prelude.{length};
    ghost use Rattle.elements_kinds.specs.Codes.{view_code};
    ghost use Rattle.elements_kinds.specs.Kinds.{kind_of};
    ghost use Rattle.elements_kinds.specs.Properties.{properties_of};
    ghost use Rattle.elements_kinds.specs.Rules.{View};
    ghost use Rattle.elements_kinds.specs.Sound.{IsSoundStore};

    ghost Value = { View };

    ghost coded = { view_code };

    ghost view = { λ s. record {
      properties = properties_of s.slots.values;
      kind = kind_of s.slots.class s.holey;
      capacity = length s.slots.values;
    } };

    ghost invariant = { λ s. IsSoundStore s.slots.values s.end };
}

impl Store {
    /// No words.
    pub(crate) fn empty(alloc: Global) -> Result<Store, NoMemory>
        ensures { IfOk result (λ store. store ≡ start) }
    {
        let slots = Slots::empty(alloc)?;
        Ok(Store {
            slots,
            holey: false,
            end: 0,
        })
    }

    pub(crate) fn kind(&self) -> ElementsKind
        ensures { result ≡ (self.now).kind }
    {
        self.slots.class().kind(self.holey)
    }

    pub(crate) fn capacity(&self) -> u64
        ensures { result ≡ (self.now).capacity }
    {
        self.slots.len() as u64
    }

    /// The property at an index, in one step.
    pub(crate) fn own<L: Ledger>(&self, i: u32, steps: &mut Steps<L>) -> Option<Complete>
        ensures property { result ≡ map_of.get (self.now).properties i }
        ensures steps { L.ticks steps.new ≡ counted (L.ticks steps.old) }
    {
        if i as usize >= self.slots.len() {
            steps.tick();
            return None;
        }
        match self.slots.get(i as usize, steps) {
            Some(value) => Some(plain(value)),
            None => None,
        }
    }

    /// The value that a definition puts, where the store does not become a dictionary by it.
    pub(crate) fn fitting(&self, i: u32, property: Complete) -> Option<Value>
        ensures { MatchOption result (is_dictionary_after self.now i property ≡ true) (Fits self.now i property) }
    {
        if i as usize > self.slots.len() + GREATEST_GAP || i >= STORE_END {
            return None;
        }
        plain_value(property)
    }

    /// Puts a value where the store does not become a dictionary. After `NoMemory` all is as before, and no step was counted.
    pub(crate) fn put<L: Ledger>(
        &mut self,
        i: u32,
        value: Value,
        steps: &mut Steps<L>,
    ) -> Result<(), NoMemory>
        requires good { IsGoodValue value }
        requires stays { is_dictionary_after self.old i (plain value) ≡ false }
        ensures ok { OnOk result (self.new ≡ defined self.old i (plain value)) }
        ensures err { OnErr result (self.new ≡ self.old) }
        ensures ok_steps { OnOk result (L.ticks steps.new ≡ counted_times (steps_in_store self.old i (plain value)) (L.ticks steps.old)) }
        ensures err_steps { OnErr result (L.ticks steps.new ≡ L.ticks steps.old) }
    {
        let place = i as usize;
        put_in(&mut self.slots, place, value, steps)?;
        self.holey = self.holey || place > self.end;
        self.end = self.end.max(place + 1);
        Ok(())
    }

    /// Takes an index out. It takes no memory.
    pub(crate) fn remove<L: Ledger>(&mut self, i: u32, steps: &mut Steps<L>)
        ensures view { self.new ≡ removed self.old i }
        ensures steps { L.ticks steps.new ≡ counted_times (steps_to_remove self.old i) (L.ticks steps.old) }
    {
        let place = i as usize;
        if place >= self.slots.len() {
            return;
        }
        if self.slots.get(place, steps).is_none() {
            return;
        }
        self.slots.clear(place, steps);
        if place + 1 == self.end {
            self.end = end_below(&self.slots, place, steps);
            return;
        }
        self.holey = true;
    }

    /// The greatest index present.
    pub(crate) fn greatest(&self) -> Option<u32>
        ensures { result ≡ greatest_of (self.now).properties }
    {
        if self.end == 0 {
            return None;
        }
        Some((self.end - 1) as u32)
    }

    /// The same properties in a map, in a step for each word up to the greatest index.
    pub(crate) fn moved<L: Ledger>(
        &self,
        alloc: Global,
        steps: &mut Steps<L>,
    ) -> Result<BTreeMap<u32, Complete>, NoMemory>
        ensures kind { is_dictionary (self.now).kind ≡ false }
        ensures ok { IfOk result (λ map. properties_in map ≡ (self.now).properties) }
        ensures ok_steps { OnOk result (L.ticks steps.new ≡ counted_times (end_of (self.now).properties) (L.ticks steps.old)) }
        ensures err_steps { OnErr result (TakesAtMost (end_of (self.now).properties) (L.ticks steps.old) (L.ticks steps.new)) }
    {
        let mut map = BTreeMap::new(alloc);
        for i in 0..self.end {
            put_value(&mut map, i as u32, self.slots.get(i, steps))?;
        }
        Ok(map)
    }

    /// The indices present, ascending, in a step for each word up to the greatest.
    pub(crate) fn indices<L: Ledger>(
        &self,
        alloc: Global,
        steps: &mut Steps<L>,
    ) -> Result<KeyIndices, NoMemory>
        ensures ok { IfOk result (λ list. list ≡ map_of.keys (self.now).properties) }
        ensures ok_steps { OnOk result (L.ticks steps.new ≡ counted_times (steps_to_list self.now) (L.ticks steps.old)) }
        ensures err_steps { OnErr result (TakesAtMost (end_of (self.now).properties) (L.ticks steps.old) (L.ticks steps.new)) }
    {
        let mut list = KeyIndices::new(alloc);
        for i in 0..self.end {
            push_present(&mut list, i as u32, self.slots.get(i, steps).is_some())?;
        }
        Ok(list)
    }
}

/// Puts a value at an index, with more words and another class where they are needed.
fn put_in<L: Ledger>(
    slots: &mut Slots,
    i: usize,
    value: Value,
    steps: &mut Steps<L>,
) -> Result<(), NoMemory>
    requires room { i < 2 ^ 23 }
    requires good { IsGoodValue value }
    ensures ok { OnOk result (slots.new.values ≡ slice_set (grown slots.old.values i) i (Some value)) }
    ensures class { OnOk result (slots.new.class ≡ join slots.old.class (class_of value)) }
    ensures err { OnErr result (slots.new ≡ slots.old) }
    ensures ok_steps { OnOk result (L.ticks steps.new ≡ counted_times (steps_to_put slots.old.class (class_of value) (length slots.old.values) i) (L.ticks steps.old)) }
    ensures err_steps { OnErr result (L.ticks steps.new ≡ L.ticks steps.old) }
{
    make_room(slots, i, steps)?;
    admit(slots, value, steps);
    slots.set(i, value, steps);
    Ok(())
}

/// So many words that there is one for the index.
fn make_room<L: Ledger>(slots: &mut Slots, i: usize, steps: &mut Steps<L>) -> Result<(), NoMemory>
    requires { i < 2 ^ 23 }
    ensures ok { OnOk result (slots.new.values ≡ grown slots.old.values i) }
    ensures class { slots.new.class ≡ slots.old.class }
    ensures err { OnErr result (slots.new.values ≡ slots.old.values) }
    ensures ok_steps { OnOk result (L.ticks steps.new ≡ counted_times (steps_to_grow (length slots.old.values) i) (L.ticks steps.old)) }
    ensures err_steps { OnErr result (L.ticks steps.new ≡ L.ticks steps.old) }
{
    if i < slots.len() {
        return Ok(());
    }
    let n = i + 1;
    slots.grow(n + n / 2 + 16, steps)
}

/// The words of a class that takes the value.
fn admit<L: Ledger>(slots: &mut Slots, value: Value, steps: &mut Steps<L>)
    ensures values { slots.new.values ≡ slots.old.values }
    ensures class { slots.new.class ≡ join slots.old.class (class_of value) }
    ensures steps { L.ticks steps.new ≡ counted_times (widens slots.old.class (class_of value) (length slots.old.values)) (L.ticks steps.old) }
{
    if let Some(class) = slots.class().wider(Class::of(value)) {
        slots.widen(class, steps);
    }
}

/// One past the greatest index present below another, in a step for each word that is looked at.
fn end_below<L: Ledger>(slots: &Slots, from: usize, steps: &mut Steps<L>) -> usize
    requires { from ≤ length slots.now.values }
    ensures within { result ≤ from }
    ensures holes { (i : ℕ) → result ≤ i → i < from → slice_index_or slots.now.values i None ≡ None }
    ensures last { 0 < result → is_some (slice_index_or slots.now.values (result - 1) None) ≡ true }
    ensures steps { L.ticks steps.new ≡ counted_times (steps_down from result) (L.ticks steps.old) }
{
    let mut end = from;
    while end > 0 {
        if slots.get(end - 1, steps).is_some() {
            return end;
        }
        end -= 1;
    }
    end
}
