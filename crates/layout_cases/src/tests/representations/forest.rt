//! A tree and its maps, in which fields meet values that they do not take.

use super::rows::{Call, Seen};
use map_deprecation::{Class, generalise, plan, updated};
use map_store::{Kind, MapId, Maps, OriginId, Representation};
use property_keys::{Attributes, Counting, NoMemory, PropKey, Steps};
use std::alloc::Global;
use std::marker::Model;
use transition_tree::{Step, Tree};

/// A tree and its maps. They belong together.
#[derive(Drop)]
pub(crate) struct Forest {
    alloc: Global,
    tree: Tree,
    maps: Maps,
}

impl Model for Forest {
    ghost use Rattle.transition_tree.specs.Rows.{TreeView};
    ghost use Rattle.map_store.specs.Views.{MapsView};
    ghost use Rattle.transition_tree.specs.Together.{BelongTogether};

    ghost Value = { TreeView × MapsView };

    ghost view = { λ f. (f.tree, f.maps) };

    ghost invariant = { λ f. BelongTogether f.tree f.maps };
}

impl Forest {
    pub(crate) fn new(alloc: Global) -> Forest {
        Forest {
            alloc,
            tree: Tree::new(alloc),
            maps: Maps::new(alloc),
        }
    }

    /// What a call gives.
    pub(crate) fn seen(&mut self, call: Call) -> Result<Seen, NoMemory> {
        match call {
            Call::Root => {
                let root = self.tree.root(&mut self.maps, OriginId(0), None)?;
                Ok(Seen::Map(root.0))
            }
            Call::Add(map, key) => self.added(MapId(map), PropKey::Index(key)),
            Call::Generalise(map, i, class) => self.generalised(MapId(map), i, class),
            Call::Move(map) => self.moved(MapId(map)),
            Call::Live(map) => Ok(self.liveness(MapId(map))),
            Call::Field(map, i) => Ok(self.field(MapId(map), i)),
        }
    }

    /// The map with a key more, which no value was seen of.
    fn added(&mut self, map: MapId, key: PropKey) -> Result<Seen, NoMemory> {
        let mut steps = Steps::new(Counting::new());
        if map.0 as usize >= self.maps.len() || !self.maps.is_live(map, &mut steps) {
            return Ok(Seen::NotMeant);
        }
        if !self.maps.is_extensible(map) || self.maps.find(map, key, &mut steps).is_some() {
            return Ok(Seen::NotMeant);
        }
        let step = Step::Add {
            key,
            kind: Kind::Stored,
            attributes: Attributes {
                writable: true,
                enumerable: true,
                configurable: true,
            },
        };
        if self
            .tree
            .child(&self.maps, map, &step, &mut steps)
            .is_some()
        {
            return Ok(Seen::NotMeant);
        }
        let child = self
            .tree
            .add_child(&mut self.maps, map, step, Representation::Smi, &mut steps)?;
        Ok(Seen::Map(child.0))
    }

    fn generalised(&mut self, map: MapId, i: u32, class: Class) -> Result<Seen, NoMemory> {
        let mut steps = Steps::new(Counting::new());
        if map.0 as usize >= self.maps.len() || i >= self.maps.count(map) {
            return Ok(Seen::NotMeant);
        }
        if self.maps.entry(map, i, &mut steps).kind != Kind::Stored {
            return Ok(Seen::NotMeant);
        }
        generalise(&mut self.tree, &mut self.maps, map, i, class, &mut steps)?;
        Ok(Seen::Done)
    }

    /// The live map of a map's row, and the first field that changes on the way there.
    fn moved(&mut self, map: MapId) -> Result<Seen, NoMemory> {
        let mut steps = Steps::new(Counting::new());
        if map.0 as usize >= self.maps.len() {
            return Ok(Seen::NotMeant);
        }
        let live = updated(&mut self.tree, &mut self.maps, map, &mut steps)?;
        let moves = plan(self.alloc, &self.maps, map, live, &mut steps)?;
        if moves.len() == 0 {
            return Ok(Seen::Map(live.0));
        }
        let first = *moves.at(0);
        Ok(Seen::Moves(live.0, moves.len(), (first.place, first.old, first.new)))
    }

    fn liveness(&self, map: MapId) -> Seen {
        let mut steps = Steps::new(Counting::new());
        if map.0 as usize >= self.maps.len() {
            return Seen::NotMeant;
        }
        Seen::Lives(self.maps.is_live(map, &mut steps))
    }

    fn field(&self, map: MapId, i: u32) -> Seen {
        let mut steps = Steps::new(Counting::new());
        if map.0 as usize >= self.maps.len() || i >= self.maps.count(map) {
            return Seen::NotMeant;
        }
        Seen::Is(self.maps.entry(map, i, &mut steps).representation)
    }
}
