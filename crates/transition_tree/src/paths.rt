//! Steps and paths.

ghost use Rattle.std.specs.Prelude.{◌≡◌, ◌<◌, ◌++◌, ◌∷◌, [], length, reverse, OnOk, OnErr, slice_index_or};

use map_store::Kind;
use property_keys::{Attributes, NoMemory, PropKey};
use std::alloc::Global;
use std::marker::Model;

/// How one map follows another.
#[derive(Clone, Copy, Debug, PartialEq, Eq)]
pub enum Step {
    /// A key that no entry has gets an entry.
    Add {
        key: PropKey,
        kind: Kind,
        attributes: Attributes,
    },
    /// The entry with a key gets another kind or other flags, and keeps its place.
    Redefine {
        key: PropKey,
        kind: Kind,
        attributes: Attributes,
    },
    /// The map is not extensible any more.
    Close,
}

/// The steps from a root to a map.
#[derive(Drop)]
pub struct Path {
    steps: Vec<Step>,
}

impl Model for Path {
    ghost use Rattle.std.specs.Prelude.{List};
    ghost use Rattle.transition_tree.specs.declared.paths.Step.{Step};

    ghost Value = { List Step };

    ghost view = { λ p. p.steps.items };
}

impl Path {
    pub fn new(alloc: Global) -> Path
        ensures { result ≡ [] }
    {
        Path {
            steps: Vec::new(alloc),
        }
    }

    /// After `NoMemory` the path is as before.
    pub fn push(&mut self, item: Step) -> Result<(), NoMemory>
        ensures ok { OnOk result (self.new ≡ self.old ++ item ∷ []) }
        ensures err { OnErr result (self.new ≡ self.old) }
    {
        match self.steps.push(item) {
            Ok(()) => Ok(()),
            Err(_) => Err(NoMemory),
        }
    }

    pub fn len(&self) -> usize
        ensures { result ≡ length self.now }
    {
        self.steps.len()
    }

    pub fn at(&self, i: usize) -> &Step
        requires { i < length self.now }
        ensures { result.now ≡ slice_index_or self.now i result.now }
    {
        &self.steps[i]
    }

    /// The steps in the other order.
    pub(crate) fn reverse(&mut self)
        ensures { self.new ≡ reverse self.old }
    {
        self.steps.reverse();
    }
}
