//! Maps over shared arrays.

ghost use Rattle.std.specs.Prelude.{◌≡◌, ◌↔◌, ◌<◌, ◌≤◌, ◌+◌, ◌++◌, ◌∷◌, [], length, not, OnOk, OnErr, IfOk, MatchOption, IsTrue, vec_len, vec_capacity};
ghost use Rattle.property_keys.specs.Counts.{counted};
ghost use Rattle.map_store.specs.Views.{IsKnown, HasEntry, KeepsEntries, map_at, entry_at, rooted, extended, replaced, closed_off, marked_dead, no_maps};
ghost use Rattle.map_store.specs.Keys.{IsPlace, LacksKey, compared, steps_on};

use crate::arrays::{next_number, push_after, push_array, push_replaced};
use crate::finding::place_in;
use crate::{Entry, MapId, OriginId};
use property_keys::{Ledger, NoMemory, ObjectId, PropKey, Steps};
use std::alloc::Global;
use std::marker::Model;

/// A map as it is kept: its entries are the first `count` of an array.
#[derive(Clone, Copy, Debug)]
pub(crate) struct MapRecord {
    pub(crate) array: u32,
    pub(crate) count: u32,
    pub(crate) origin: OriginId,
    pub(crate) proto: Option<ObjectId>,
    pub(crate) live: bool,
    pub(crate) extensible: bool,
}

/// All maps, numbered from 0 in the order of making, and the arrays that they share, numbered likewise.
///
/// There is room for 2^32 maps, and past them the answer is `NoMemory`. After `NoMemory` all is as before.
#[derive(Drop)]
pub struct Maps {
    pub(crate) alloc: Global,
    pub(crate) arrays: Vec<Vec<Entry>>,
    pub(crate) maps: Vec<MapRecord>,
}

impl Model for Maps {
    ghost use Rattle.map_store.specs.Views.{MapsView};

    ghost Value = { MapsView };

    ghost use Rattle.map_store.specs.Records.{lists, maps_view, AreSound};

    ghost view = { λ m. maps_view (lists m.arrays.items) m.maps.items };

    ghost invariant = { λ m. AreSound (lists m.arrays.items) m.maps.items };
}

impl Maps {
    /// No map, and no array.
    pub fn new(alloc: Global) -> Maps
        ensures { result ≡ no_maps }
    {
        Maps {
            alloc,
            arrays: Vec::new(alloc),
            maps: Vec::new(alloc),
        }
    }

    /// Makes a live extensible map without entries, on a new array.
    pub fn root(&mut self, origin: OriginId, proto: Option<ObjectId>) -> Result<MapId, NoMemory>
        ensures number { IfOk result (λ map. map.0 ≡ length self.old.maps) }
        ensures ok { OnOk result (self.new ≡ rooted self.old origin proto) }
        ensures err { OnErr result (self.new ≡ self.old) }
        ensures entries { KeepsEntries self.old self.new }
    {
        let number = next_number(self.maps.len())?;
        let array = next_number(self.arrays.len())?;
        make_room(&mut self.maps)?;
        push_array(&mut self.arrays, Vec::new(self.alloc))?;
        let made = MapRecord {
            array,
            count: 0,
            origin,
            proto,
            live: true,
            extensible: true,
        };
        append(&mut self.maps, made);
        Ok(MapId(number))
    }

    /// Makes a live map with one entry more. It shares the array of `map` where that array has no more entries than
    /// `map`, and else it has a new array.
    pub fn extend(&mut self, map: MapId, entry: Entry) -> Result<MapId, NoMemory>
        requires { IsKnown self.old map }
        ensures number { IfOk result (λ made. made.0 ≡ length self.old.maps) }
        ensures ok { OnOk result (self.new ≡ extended self.old map entry) }
        ensures err { OnErr result (self.new ≡ self.old) }
        ensures entries { KeepsEntries self.old self.new }
    {
        let number = next_number(self.maps.len())?;
        let kept = self.maps[map.0 as usize];
        let count = next_number(kept.count as usize + 1)?;
        make_room(&mut self.maps)?;
        let array = push_after(self.alloc, &mut self.arrays, kept.array, kept.count, entry)?;
        append(
            &mut self.maps,
            MapRecord {
                array,
                count,
                live: true,
                ..kept
            },
        );
        Ok(MapId(number))
    }

    /// Makes a live map with another entry at one place, on a new array.
    pub fn replace(&mut self, map: MapId, i: u32, entry: Entry) -> Result<MapId, NoMemory>
        requires known { IsKnown self.old map }
        requires within { HasEntry self.old map i }
        ensures number { IfOk result (λ made. made.0 ≡ length self.old.maps) }
        ensures ok { OnOk result (self.new ≡ replaced self.old map i entry) }
        ensures err { OnErr result (self.new ≡ self.old) }
        ensures entries { KeepsEntries self.old self.new }
    {
        let number = next_number(self.maps.len())?;
        let array = next_number(self.arrays.len())?;
        let kept = self.maps[map.0 as usize];
        make_room(&mut self.maps)?;
        push_replaced(
            self.alloc,
            &mut self.arrays,
            kept.array,
            kept.count,
            i,
            entry,
        )?;
        append(
            &mut self.maps,
            MapRecord {
                array,
                live: true,
                ..kept
            },
        );
        Ok(MapId(number))
    }

    /// Makes a live map with the same entries that is not extensible, on the same array.
    pub fn closed(&mut self, map: MapId) -> Result<MapId, NoMemory>
        requires { IsKnown self.old map }
        ensures number { IfOk result (λ made. made.0 ≡ length self.old.maps) }
        ensures ok { OnOk result (self.new ≡ closed_off self.old map) }
        ensures err { OnErr result (self.new ≡ self.old) }
        ensures entries { KeepsEntries self.old self.new }
    {
        let number = next_number(self.maps.len())?;
        let kept = self.maps[map.0 as usize];
        make_room(&mut self.maps)?;
        append(
            &mut self.maps,
            MapRecord {
                live: true,
                extensible: false,
                ..kept
            },
        );
        Ok(MapId(number))
    }

    /// Marks a map dead. It keeps its entries, and its number is not used again.
    pub fn mark_dead(&mut self, map: MapId)
        requires { IsKnown self.old map }
        ensures dead { self.new ≡ marked_dead self.old map }
        ensures entries { KeepsEntries self.old self.new }
    {
        self.maps[map.0 as usize].live = false;
    }

    /// How many maps there are.
    pub fn len(&self) -> usize
        ensures { result ≡ length self.now.maps }
    {
        self.maps.len()
    }

    /// How many entries a map has.
    pub fn count(&self, map: MapId) -> u32
        requires { IsKnown self.now map }
        ensures { let m = map_at self.now map in result ≡ length m.entries }
    {
        self.maps[map.0 as usize].count
    }

    /// The number of the map's array.
    pub fn array(&self, map: MapId) -> u32
        requires { IsKnown self.now map }
        ensures { let m = map_at self.now map in result ≡ m.array }
    {
        self.maps[map.0 as usize].array
    }

    pub fn is_extensible(&self, map: MapId) -> bool
        requires { IsKnown self.now map }
        ensures { let m = map_at self.now map in result ≡ m.extensible }
    {
        self.maps[map.0 as usize].extensible
    }

    pub fn proto(&self, map: MapId) -> Option<ObjectId>
        requires { IsKnown self.now map }
        ensures { let m = map_at self.now map in result ≡ m.proto }
    {
        self.maps[map.0 as usize].proto
    }

    pub fn origin(&self, map: MapId) -> OriginId
        requires { IsKnown self.now map }
        ensures { let m = map_at self.now map in result ≡ m.origin }
    {
        self.maps[map.0 as usize].origin
    }

    /// Whether a map is live, in one step.
    pub fn is_live<L: Ledger>(&self, map: MapId, steps: &mut Steps<L>) -> bool
        requires { IsKnown self.now map }
        ensures live { let m = map_at self.now map in result ≡ m.live }
        ensures steps { L.ticks steps.new ≡ counted (L.ticks steps.old) }
    {
        steps.tick();
        self.maps[map.0 as usize].live
    }

    /// Whether a map is dead, for calls that are no access of a program and count no step.
    pub fn is_dead(&self, map: MapId) -> bool
        requires { IsKnown self.now map }
        ensures { let m = map_at self.now map in result ≡ not m.live }
    {
        !self.maps[map.0 as usize].live
    }

    /// An entry of a map, in one step.
    pub fn entry<L: Ledger>(&self, map: MapId, i: u32, steps: &mut Steps<L>) -> Entry
        requires known { IsKnown self.now map }
        requires within { HasEntry self.now map i }
        ensures value { let m = map_at self.now map in result ≡ entry_at m.entries i }
        ensures steps { L.ticks steps.new ≡ counted (L.ticks steps.old) }
    {
        steps.tick();
        let kept = self.maps[map.0 as usize];
        self.arrays[kept.array as usize][i as usize]
    }

    /// The place of the first entry with a key, in a step for each entry compared: those up to that place, or all.
    pub fn find<L: Ledger>(&self, map: MapId, key: PropKey, steps: &mut Steps<L>) -> Option<u32>
        requires { IsKnown self.now map }
        ensures place { let m = map_at self.now map in MatchOption result (LacksKey m.entries key) (λ i. IsPlace m.entries key i) }
        ensures steps { let m = map_at self.now map in L.ticks steps.new ≡ steps_on (compared result (length m.entries)) (L.ticks steps.old) }
    {
        let kept = self.maps[map.0 as usize];
        let array = &self.arrays[kept.array as usize];
        place_in(&array[..kept.count as usize], key, steps)
    }
}

/// Makes room for one map.
fn make_room(maps: &mut Vec<MapRecord>) -> Result<(), NoMemory>
    ensures items { maps.new.items ≡ maps.old.items }
    ensures room { OnOk result (vec_len maps.new < vec_capacity maps.new) }
{
    match maps.reserve(1) {
        Ok(()) => Ok(()),
        Err(_) => Err(NoMemory),
    }
}

/// Appends a map where there is room for it.
fn append(maps: &mut Vec<MapRecord>, kept: MapRecord)
    requires { vec_len maps.old < vec_capacity maps.old }
    ensures { maps.new.items ≡ maps.old.items ++ kept ∷ [] }
{
    let _ = maps.push(kept);
}
