//! The places of a tree with what is kept of each, and the maps with their places.

ghost use Rattle.std.specs.Prelude.{◌≡◌, ◌+◌, ◌^◌, ◌<◌, ◌++◌, ◌∷◌, [], length, slice_set, IfOk, MatchOption, OnErr, OnOk, vec_capacity, vec_len};
ghost use Rattle.transition_tree.specs.Edges.{HasNoPlace};
ghost use Rattle.transition_tree.specs.Tables.{GetsPlace, IsSlotOf};

use crate::edges::Edge;
use crate::places::Places;
use map_store::{MapId, Representation};
use property_keys::NoMemory;
use std::alloc::Global;

/// What is kept of a place.
#[derive(Clone, Copy)]
pub(crate) struct Slot {
    /// The representation that was kept last.
    pub(crate) kept: Representation,
    /// The map that was made here last, the only one that may be live.
    pub(crate) latest: Option<MapId>,
}

/// Where a map was made, and from which.
#[derive(Clone, Copy)]
pub(crate) struct Made {
    pub(crate) place: u32,
    pub(crate) parent: Option<MapId>,
}

#[derive(Drop)]
pub(crate) struct Table {
    pub(crate) places: Places,
    /// Of each place.
    pub(crate) slots: Vec<Slot>,
    /// Of each map.
    pub(crate) made: Vec<Made>,
}

impl Table {
    pub(crate) fn new(alloc: Global) -> Table
        ensures places { result.places ≡ [] }
        ensures slots { result.slots.items ≡ [] }
        ensures made { result.made.items ≡ [] }
    {
        Table {
            places: Places::new(alloc),
            slots: Vec::new(alloc),
            made: Vec::new(alloc),
        }
    }

    /// What is kept of the place to which an edge leads.
    pub(crate) fn slot(&self, edge: Edge) -> Option<Slot>
        requires { length self.now.slots.items ≡ length self.now.places }
        ensures { MatchOption result (HasNoPlace self.now.places edge) (IsSlotOf self.now.places self.now.slots.items edge) }
    {
        match self.places.find(edge) {
            Some(place) => Some(self.slots[place as usize]),
            None => None,
        }
    }

    /// The place to which an edge leads, made where there is none. After `NoMemory` all is as before.
    pub(crate) fn place(&mut self, edge: Edge) -> Result<u32, NoMemory>
        requires { length self.old.slots.items ≡ length self.old.places }
        ensures ok { IfOk result (GetsPlace self.old.places self.old.slots.items self.new.places self.new.slots.items edge) }
        ensures places { OnErr result (self.new.places ≡ self.old.places) }
        ensures slots { OnErr result (self.new.slots.items ≡ self.old.slots.items) }
        ensures made { self.new.made ≡ self.old.made }
    {
        if let Some(place) = self.places.find(edge) {
            return Ok(place);
        }
        if self.slots.reserve(1).is_err() {
            return Err(NoMemory);
        }
        let place = self.places.add(edge)?;
        let _ = self.slots.push(Slot {
            kept: Representation::None,
            latest: None,
        });
        Ok(place)
    }

    /// Makes room for one map. There is room for 2^32 - 1 maps.
    pub(crate) fn make_room(&mut self) -> Result<(), NoMemory>
        ensures room { OnOk result (vec_len self.new.made < vec_capacity self.new.made) }
        ensures few { OnOk result (length self.old.made.items + 1 < 2 ^ 32) }
        ensures made { self.new.made.items ≡ self.old.made.items }
        ensures places { self.new.places ≡ self.old.places }
        ensures slots { self.new.slots ≡ self.old.slots }
    {
        if self.made.len() >= u32::MAX as usize || self.made.reserve(1).is_err() {
            return Err(NoMemory);
        }
        Ok(())
    }

    /// Notes a map where there is room for it, and what is now kept of its place.
    pub(crate) fn enter(&mut self, made: Made, slot: Slot)
        requires room { vec_len self.old.made < vec_capacity self.old.made }
        requires within { made.place < length self.old.slots.items }
        ensures made { self.new.made.items ≡ self.old.made.items ++ made ∷ [] }
        ensures slots { self.new.slots.items ≡ slice_set self.old.slots.items made.place slot }
        ensures places { self.new.places ≡ self.old.places }
    {
        self.slots[made.place as usize] = slot;
        let _ = self.made.push(made);
    }
}
