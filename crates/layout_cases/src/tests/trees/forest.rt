//! A tree and its maps, and the calls of a row.

ghost use Rattle.std.specs.Prelude.{◌≡◌, ◌↔◌, ◌<◌, IsTrue, length};
ghost use Rattle.property_keys.specs.declared.keys.Attributes.{Attributes};
ghost use Rattle.map_store.specs.declared.entries.Kind.TheVariants as kind;
ghost use Rattle.transition_tree.specs.declared.paths.Step.TheVariants as step;

use super::rows::{Call, Seen};
use map_store::{Kind, MapId, Maps, OriginId, Representation};
use property_keys::{Attributes, Counting, NoMemory, PropKey, Steps};
use std::alloc::Global;
use std::marker::Model;
use transition_tree::{Path, Step, Tree};

/// A tree and its maps. They belong together.
#[derive(Drop)]
pub(crate) struct Forest {
    alloc: Global,
    tree: Tree,
    maps: Maps,
}

impl Model for Forest {
    ghost use Rattle.transition_tree.specs.Rows.{TreeView};
    ghost use Rattle.map_store.specs.Views.{MapsView};
    ghost use Rattle.transition_tree.specs.Together.{BelongTogether};

    ghost Value = { TreeView × MapsView };

    ghost view = { λ f. (f.tree, f.maps) };

    ghost invariant = { λ f. BelongTogether f.tree f.maps };
}

impl Forest {
    pub(crate) fn new(alloc: Global) -> Forest {
        Forest {
            alloc,
            tree: Tree::new(alloc),
            maps: Maps::new(alloc),
        }
    }

    /// How many maps there are.
    pub(crate) fn len(&self) -> usize {
        self.maps.len()
    }

    /// What a call gives.
    pub(crate) fn seen(&mut self, call: Call) -> Result<Seen, NoMemory> {
        match call {
            Call::Root(origin, prototype) => {
                let root = self.tree.root(&mut self.maps, OriginId(origin), prototype)?;
                Ok(Seen::Map(Some(root.0)))
            }
            Call::Grow(map, key, writable) => {
                self.grown(MapId(map), PropKey::Index(key), writable)
            }
            Call::Close(map) => self.closed(MapId(map)),
            Call::Keep(map, key, kept) => self.keeps(MapId(map), key, kept),
            Call::Walk(map, keys) => self.walked(MapId(map), keys),
            Call::WalkTo(root, map) => self.walked_to(MapId(root), MapId(map)),
            Call::Path(map) => self.steps_to(MapId(map)),
            Call::Drop(map) => Ok(self.dropped(MapId(map))),
            other => Ok(self.read(other)),
        }
    }

    fn is_known(&self, map: MapId) -> bool
        ensures { IsTrue result ↔ (map.0 < length self.now.1.maps) }
    {
        (map.0 as usize) < self.maps.len()
    }

    /// The live child by an Add of a key, or by a Redefine where an entry has it, made where there is none.
    fn grown(&mut self, map: MapId, key: PropKey, writable: bool) -> Result<Seen, NoMemory> {
        let mut steps = Steps::new(Counting::new());
        if !self.is_known(map) || !self.maps.is_live(map, &mut steps) {
            return Ok(Seen::NotMeant);
        }
        let (step, kept) = match self.maps.find(map, key, &mut steps) {
            None if self.maps.is_extensible(map) => (add(key, writable), Representation::Smi),
            None => return Ok(Seen::NotMeant),
            Some(_) => (redefine(key, writable), Representation::Tagged),
        };
        if let Some(child) = self.tree.child(&self.maps, map, &step, &mut steps) {
            return Ok(Seen::Map(Some(child.0)));
        }
        let child = self
            .tree
            .add_child(&mut self.maps, map, step, kept, &mut steps)?;
        Ok(Seen::Map(Some(child.0)))
    }

    /// The live child by a Close, made where there is none.
    fn closed(&mut self, map: MapId) -> Result<Seen, NoMemory> {
        let mut steps = Steps::new(Counting::new());
        if !self.is_known(map) || !self.maps.is_live(map, &mut steps) {
            return Ok(Seen::NotMeant);
        }
        if !self.maps.is_extensible(map) {
            return Ok(Seen::NotMeant);
        }
        let step = Step::Close;
        if let Some(child) = self.tree.child(&self.maps, map, &step, &mut steps) {
            return Ok(Seen::Map(Some(child.0)));
        }
        let kept = Representation::None;
        let child = self
            .tree
            .add_child(&mut self.maps, map, step, kept, &mut steps)?;
        Ok(Seen::Map(Some(child.0)))
    }

    fn keeps(&mut self, map: MapId, key: u32, kept: Representation) -> Result<Seen, NoMemory> {
        if !self.is_known(map) || kept == Representation::Pair {
            return Ok(Seen::NotMeant);
        }
        self.tree.keep(map, &add(PropKey::Index(key), true), kept)?;
        Ok(Seen::Done)
    }

    fn walked(&self, map: MapId, keys: &[u32]) -> Result<Seen, NoMemory> {
        if !self.is_known(map) {
            return Ok(Seen::NotMeant);
        }
        let mut path = Path::new(self.alloc);
        for key in keys {
            path.push(add(PropKey::Index(*key), true))?;
        }
        let mut steps = Steps::new(Counting::new());
        let end = self.tree.walk(&self.maps, map, &path, &mut steps);
        Ok(Seen::Map(end.map(|map| map.0)))
    }

    fn walked_to(&self, root: MapId, map: MapId) -> Result<Seen, NoMemory> {
        if !self.is_known(root) || !self.is_known(map) {
            return Ok(Seen::NotMeant);
        }
        let path = self.tree.path(map)?;
        let mut steps = Steps::new(Counting::new());
        let end = self.tree.walk(&self.maps, root, &path, &mut steps);
        Ok(Seen::Walked(end.map(|map| map.0), steps.ledger().ticks()))
    }

    fn steps_to(&self, map: MapId) -> Result<Seen, NoMemory> {
        if !self.is_known(map) {
            return Ok(Seen::NotMeant);
        }
        Ok(Seen::Steps(self.tree.path(map)?.len()))
    }

    fn dropped(&mut self, map: MapId) -> Seen {
        if !self.is_known(map) {
            return Seen::NotMeant;
        }
        self.tree.drop_branch(&mut self.maps, map);
        Seen::Done
    }

    /// What a call gives that only reads.
    fn read(&self, call: Call) -> Seen {
        let mut steps = Steps::new(Counting::new());
        match call {
            Call::Live(map) if self.is_known(MapId(map)) => {
                Seen::Lives(self.maps.is_live(MapId(map), &mut steps))
            }
            Call::Current(map) if self.is_known(MapId(map)) => {
                let live = self.tree.current(&self.maps, MapId(map), &mut steps);
                Seen::Map(live.map(|map| map.0))
            }
            Call::Parent(map) if self.is_known(MapId(map)) => {
                Seen::Map(self.tree.parent(MapId(map)).map(|map| map.0))
            }
            Call::Kept(map, key) if self.is_known(MapId(map)) => {
                Seen::Is(self.tree.kept(MapId(map), &add(PropKey::Index(key), true)))
            }
            Call::Shape(map) if self.is_known(MapId(map)) => {
                Seen::Shape(self.maps.count(MapId(map)), self.maps.array(MapId(map)))
            }
            Call::Entry(map, place) => self.entry(MapId(map), place),
            _ => Seen::NotMeant,
        }
    }

    fn entry(&self, map: MapId, place: u32) -> Seen {
        if !self.is_known(map) || place >= self.maps.count(map) {
            return Seen::NotMeant;
        }
        let mut steps = Steps::new(Counting::new());
        let entry = self.maps.entry(map, place, &mut steps);
        Seen::Entry(entry.place, entry.attributes.writable, entry.representation)
    }
}

fn attributes(writable: bool) -> Attributes {
    Attributes {
        writable,
        enumerable: true,
        configurable: true,
    }
}

fn add(key: PropKey, writable: bool) -> Step
    ensures { (a : Attributes) × (result ≡ step.Add key kind.Stored a) }
{
    Step::Add {
        key,
        kind: Kind::Stored,
        attributes: attributes(writable),
    }
}

fn redefine(key: PropKey, writable: bool) -> Step
    ensures { (a : Attributes) × (result ≡ step.Redefine key kind.Stored a) }
{
    Step::Redefine {
        key,
        kind: Kind::Stored,
        attributes: attributes(writable),
    }
}
