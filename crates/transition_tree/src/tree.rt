//! The tree of transitions: where each map stands, and which map stands there.

ghost use Rattle.std.specs.Prelude.{◌≡◌, ◌↔◌, ◌<◌, ◌+◌, [], length, true, false, IfOk, IsNone, MatchOption, OnErr, OnOk};
ghost use Rattle.std.specs.Option.{ForSome};
ghost use Rattle.property_keys.specs.Counts.{TakesAtMost, counted};
ghost use Rattle.map_store.specs.declared.entries.Representation.TheVariants as representation;
ghost use Rattle.map_store.specs.Views.{IsKnown, KeepsEntries, map_at};
ghost use Rattle.transition_tree.specs.Paths.{Fits, HasPairWhereDue, is_accessor_step};
ghost use Rattle.transition_tree.specs.Rows.{HadMap, IsAsBefore, IsIn, KeepsAt, after, kept_at, no_tree, onward, parent_of, root_row, row_of};
ghost use Rattle.transition_tree.specs.Together.{BelongTogether, HasLast, HasLive, LacksLive, live_one};
ghost use Rattle.transition_tree.specs.Together.{AddsChild, CameBy, DropsBranch, GetsRoot, IsRoot, MakesRoot};

use crate::edges::{edge_of, root_edge, step_before};
use crate::following::follow;
use crate::table::{Made, Slot, Table};
use crate::{Path, Step};
use map_store::{MapId, Maps, OriginId, Representation};
use property_keys::{Ledger, NoMemory, ObjectId, Steps};
use std::alloc::Global;
use std::marker::Model;

/// Where each map stands: at an origin, a prototype and the path of steps from their root, which together are its row.
/// It also keeps a representation for each row, whether a map stands there or not.
///
/// A tree and its maps belong together where the maps are those that the tree made, each with the entries of its path,
/// every front of a live map's path has a live map, and no row has two live ones. Each call that takes both leaves this
/// so, also after `NoMemory`. A call of `Maps` that changes maps by itself does not.
#[derive(Drop)]
pub struct Tree {
    alloc: Global,
    table: Table,
}

impl Model for Tree {
    ghost use Rattle.transition_tree.specs.Rows.{TreeView};

    ghost Value = { TreeView };

    ghost use Rattle.transition_tree.specs.Tables.{tree_view, IsSoundTable};

    ghost view = { λ t. tree_view t.table.places t.table.slots.items t.table.made.items };

    ghost invariant = { λ t. IsSoundTable t.table.places t.table.slots.items t.table.made.items };
}

impl Tree {
    /// No map, and nothing is kept.
    pub fn new(alloc: Global) -> Tree
        ensures { result ≡ no_tree }
    {
        Tree {
            alloc,
            table: Table::new(alloc),
        }
    }

    /// The one live map of an origin and a prototype with no step, made where there is none. After `NoMemory` all is as
    /// before. There is room for 2^32 - 1 maps.
    pub fn root(
        &mut self,
        maps: &mut Maps,
        origin: OriginId,
        proto: Option<ObjectId>,
    ) -> Result<MapId, NoMemory>
        requires { BelongTogether self.old maps.old }
        ensures ok { IfOk result (GetsRoot self.old self.new maps.old maps.new origin proto) }
        ensures tree { OnErr result (IsAsBefore self.old self.new) }
        ensures maps { OnErr result (maps.new ≡ maps.old) }
        ensures together { BelongTogether self.new maps.new }
        ensures entries { KeepsEntries maps.old maps.new }
    {
        match self.last_root(origin, proto) {
            Some(map) if !maps.is_dead(map) => Ok(map),
            _ => self.make_root(maps, origin, proto),
        }
    }

    /// Makes a root where no live one is.
    fn make_root(
        &mut self,
        maps: &mut Maps,
        origin: OriginId,
        proto: Option<ObjectId>,
    ) -> Result<MapId, NoMemory>
        requires together { BelongTogether self.old maps.old }
        requires none { LacksLive self.old maps.old (root_row origin proto) }
        ensures ok { IfOk result (MakesRoot self.old self.new maps.old maps.new origin proto) }
        ensures tree { OnErr result (IsAsBefore self.old self.new) }
        ensures maps { OnErr result (maps.new ≡ maps.old) }
        ensures together { BelongTogether self.new maps.new }
        ensures entries { KeepsEntries maps.old maps.new }
    {
        self.table.make_room()?;
        let place = self.table.place(root_edge(origin, proto))?;
        let map = maps.root(origin, proto)?;
        let slot = Slot {
            latest: Some(map),
            ..self.table.slots[place as usize]
        };
        let parent = None;
        self.table.enter(Made { place, parent }, slot);
        Ok(map)
    }

    /// The live map by one step from a map, in one counted step. None exactly where no live map stands there.
    pub fn child<L: Ledger>(
        &self,
        maps: &Maps,
        map: MapId,
        step: &Step,
        steps: &mut Steps<L>,
    ) -> Option<MapId>
        requires together { BelongTogether self.now maps.now }
        requires known { IsKnown maps.now map }
        ensures child { HasLive self.now maps.now (after (row_of self.now map) step.now) result }
        ensures steps { L.ticks steps.new ≡ counted (L.ticks steps.old) }
    {
        let last = self.last_after(map, *step);
        if_live(maps, last, steps)
    }

    /// The live map of a map's row, which is the map itself where it is live, in one counted step. None exactly where
    /// no live map stands there.
    pub fn current<L: Ledger>(&self, maps: &Maps, map: MapId, steps: &mut Steps<L>) -> Option<MapId>
        requires together { BelongTogether self.now maps.now }
        requires known { IsKnown maps.now map }
        ensures current { HasLive self.now maps.now (row_of self.now map) result }
        ensures steps { L.ticks steps.new ≡ counted (L.ticks steps.old) }
    {
        let last = self.last_here(map);
        if_live(maps, last, steps)
    }

    /// Makes the map by one step from a live map, where no live one stands there, and keeps the representation for its
    /// row. After `NoMemory` all is as before. There is room for 2^32 - 1 maps.
    ///
    /// A step fits a map: an Add an extensible map and a key that no entry has, a Redefine a key that an entry has, a
    /// Close an extensible map. The representation is `Pair` exactly for a step whose kind is Accessor.
    pub fn add_child<L: Ledger>(
        &mut self,
        maps: &mut Maps,
        map: MapId,
        step: Step,
        representation: Representation,
        steps: &mut Steps<L>,
    ) -> Result<MapId, NoMemory>
        requires together { BelongTogether self.old maps.old }
        requires known { IsKnown maps.old map }
        requires live { let m = map_at maps.old map in m.live ≡ true }
        requires none { LacksLive self.old maps.old (after (row_of self.old map) step) }
        requires fits { Fits (map_at maps.old map) step }
        requires pair { HasPairWhereDue step representation }
        ensures ok { IfOk result (AddsChild self.old self.new maps.old maps.new map step representation) }
        ensures tree { OnErr result (IsAsBefore self.old self.new) }
        ensures maps { OnErr result (maps.new ≡ maps.old) }
        ensures together { BelongTogether self.new maps.new }
        ensures entries { KeepsEntries maps.old maps.new }
        ensures steps { let m = map_at maps.old map in TakesAtMost (length m.entries + 1) (L.ticks steps.old) (L.ticks steps.new) }
    {
        let edge = edge_of(self.table.made[map.0 as usize].place, step);
        self.table.make_room()?;
        let place = self.table.place(edge)?;
        let child = follow(maps, map, step, representation, steps)?;
        let made = Made {
            place,
            parent: Some(map),
        };
        let slot = Slot {
            kept: representation,
            latest: Some(child),
        };
        self.table.enter(made, slot);
        Ok(child)
    }

    /// The live map by a path of steps from a map's row, in a counted step for each step of the path that is gone, and
    /// one. None exactly where no live map stands there.
    pub fn walk<L: Ledger>(
        &self,
        maps: &Maps,
        root: MapId,
        path: &Path,
        steps: &mut Steps<L>,
    ) -> Option<MapId>
        requires together { BelongTogether self.now maps.now }
        requires known { IsKnown maps.now root }
        ensures end { HasLive self.now maps.now (onward (row_of self.now root) path.now) result }
        ensures steps { TakesAtMost (length path.now + 1) (L.ticks steps.old) (L.ticks steps.new) }
    {
        let mut at = self.current(maps, root, steps)?;
        for i in 0..path.len() {
            at = self.child(maps, at, path.at(i), steps)?;
        }
        Some(at)
    }

    /// The steps from the root to a map.
    pub fn path(&self, map: MapId) -> Result<Path, NoMemory>
        requires { IsIn self.now map }
        ensures { let row = row_of self.now map in IfOk result (λ path. path ≡ row.path) }
    {
        let mut path = Path::new(self.alloc);
        let mut at = map;
        while let Some((parent, step)) = self.came_by(at) {
            path.push(step)?;
            at = parent;
        }
        path.reverse();
        Ok(path)
    }

    /// The map that a map was made from, and the step by which it follows that. None exactly for a root.
    pub fn came_by(&self, map: MapId) -> Option<(MapId, Step)>
        requires { IsIn self.now map }
        ensures { MatchOption result (IsRoot self.now map) (λ came. CameBy self.now map came.0 came.1) }
    {
        let made = self.table.made[map.0 as usize];
        match (made.parent, step_before(self.table.places.edge(made.place))) {
            (Some(parent), Some((_, step))) => Some((parent, step)),
            _ => None,
        }
    }

    /// The map that a map was made from. None exactly for a root.
    pub fn parent(&self, map: MapId) -> Option<MapId>
        requires { IsIn self.now map }
        ensures value { result ≡ parent_of self.now map }
        ensures root { let row = row_of self.now map in IsNone result ↔ (row.path ≡ []) }
    {
        self.table.made[map.0 as usize].parent
    }

    /// Marks a map and all maps below it dead. It takes no memory, and what is kept stays.
    pub fn drop_branch(&mut self, maps: &mut Maps, map: MapId)
        requires together { BelongTogether self.old maps.old }
        requires known { IsKnown maps.old map }
        ensures tree { self.new ≡ self.old }
        ensures maps { DropsBranch self.old maps.old maps.new map }
        ensures together { BelongTogether self.new maps.new }
        ensures entries { KeepsEntries maps.old maps.new }
    {
        let count = self.count();
        maps.mark_dead(map);
        // A map has a greater number than the one that it was made from.
        for number in map.0 + 1..count {
            if let Some(parent) = self.parent(MapId(number)) {
                if maps.is_dead(parent) {
                    maps.mark_dead(MapId(number));
                }
            }
        }
    }

    /// The representation that was kept last for the row by one step from a map's, and `None` where none was. It takes
    /// no memory.
    pub fn kept(&self, map: MapId, step: &Step) -> Representation
        requires { IsIn self.now map }
        ensures value { result ≡ kept_at self.now.kept (after (row_of self.now map) step.now) }
        ensures pair { result ≡ representation.Pair → is_accessor_step step.now ≡ true }
        ensures made { HadMap self.now (after (row_of self.now map) step.now) → HasPairWhereDue step.now result }
    {
        let edge = edge_of(self.table.made[map.0 as usize].place, *step);
        match self.table.slot(edge) {
            Some(slot) => slot.kept,
            None => Representation::None,
        }
    }

    /// Keeps a representation for the row by one step from a map's, `Pair` exactly for a step whose kind is Accessor.
    /// After `NoMemory` all is as before.
    pub fn keep(
        &mut self,
        map: MapId,
        step: &Step,
        representation: Representation,
    ) -> Result<(), NoMemory>
        requires known { IsIn self.old map }
        requires pair { HasPairWhereDue step.now representation }
        ensures maps { self.new.maps ≡ self.old.maps }
        ensures ok { OnOk result (KeepsAt self.old self.new (after (row_of self.old map) step.now) representation) }
        ensures err { OnErr result (IsAsBefore self.old self.new) }
    {
        let edge = edge_of(self.table.made[map.0 as usize].place, *step);
        let place = self.table.place(edge)?;
        self.table.slots[place as usize].kept = representation;
        Ok(())
    }

    /// How many maps were made.
    fn count(&self) -> u32
        ensures { result ≡ length self.now.maps }
    {
        self.table.made.len() as u32
    }

    /// The map that was made last by one step from a map's row.
    fn last_after(&self, map: MapId, step: Step) -> Option<MapId>
        requires { IsIn self.now map }
        ensures { HasLast self.now (after (row_of self.now map) step) result }
    {
        let edge = edge_of(self.table.made[map.0 as usize].place, step);
        self.table.slot(edge)?.latest
    }

    /// The map that was made last at a map's row.
    fn last_here(&self, map: MapId) -> Option<MapId>
        requires { IsIn self.now map }
        ensures { HasLast self.now (row_of self.now map) result }
    {
        let place = self.table.made[map.0 as usize].place;
        self.table.slots[place as usize].latest
    }

    /// The root that was made last of an origin and a prototype.
    fn last_root(&self, origin: OriginId, proto: Option<ObjectId>) -> Option<MapId>
        ensures { HasLast self.now (root_row origin proto) result }
    {
        self.table.slot(root_edge(origin, proto))?.latest
    }
}

/// A map where it is live, in one step.
fn if_live<L: Ledger>(maps: &Maps, last: Option<MapId>, steps: &mut Steps<L>) -> Option<MapId>
    requires { ForSome last (IsKnown maps.now) }
    ensures live { result ≡ live_one maps.now last }
    ensures steps { L.ticks steps.new ≡ counted (L.ticks steps.old) }
{
    match last {
        Some(map) if maps.is_live(map, steps) => Some(map),
        Some(_) => None,
        None => {
            steps.tick();
            None
        }
    }
}
