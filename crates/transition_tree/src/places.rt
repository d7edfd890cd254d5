//! The numbers of the places that origins, prototypes and steps lead to.

ghost use Rattle.std.specs.Prelude.{◌≡◌, ◌<◌, ◌↔◌, ◌++◌, ◌∷◌, [], length, IfOk, IfSome, IsNone, OnErr, OnOk};
ghost use Rattle.transition_tree.specs.Edges.{IsPlaceOf, HasNoPlace, edge_at};

use crate::edges::Edge;
use indexmap::IndexSet;
use property_keys::NoMemory;
use std::alloc::Global;
use std::marker::Model;

/// The table of places: what leads to a place has one number, which is never taken away.
/// A look-up does not grow with the number of places.
#[derive(Drop)]
pub(crate) struct Places {
    edges: IndexSet<Edge>,
}

impl Model for Places {
    ghost use Rattle.std.specs.Prelude.{List, length, ◌<◌, ◌^◌};
    ghost use Rattle.transition_tree.specs.declared.edges.Edge.{Edge};

    ghost Value = { List Edge };

    ghost view = { λ p. p.edges.keys };

    ghost invariant = { λ p. length p.edges.keys < 2 ^ 32 };
}

impl Places {
    pub(crate) fn new(alloc: Global) -> Places
        ensures { result ≡ [] }
    {
        Places {
            edges: IndexSet::new(alloc),
        }
    }

    /// The place to which this leads.
    pub(crate) fn find(&self, edge: Edge) -> Option<u32>
        ensures found { IfSome result (IsPlaceOf self.now edge) }
        ensures none { IsNone result ↔ HasNoPlace self.now edge }
    {
        match self.edges.get_index_of(&edge) {
            Some(index) => Some(index as u32),
            None => None,
        }
    }

    /// Makes the next place for what leads to none yet. There is room for 2^32 - 1 places.
    pub(crate) fn add(&mut self, edge: Edge) -> Result<u32, NoMemory>
        requires { HasNoPlace self.old edge }
        ensures number { IfOk result (λ place. place ≡ length self.old) }
        ensures ok { OnOk result (self.new ≡ self.old ++ edge ∷ []) }
        ensures err { OnErr result (self.new ≡ self.old) }
    {
        let place = self.edges.len();
        if place >= u32::MAX as usize {
            return Err(NoMemory);
        }
        let Ok(_) = self.edges.insert_full(edge) else {
            return Err(NoMemory);
        };
        Ok(place as u32)
    }

    /// What leads to a place.
    pub(crate) fn edge(&self, place: u32) -> Edge
        requires { place < length self.now }
        ensures { result ≡ edge_at self.now place }
    {
        *self.edges.get_index(place as usize).unwrap()
    }
}
