//! A list of what parts became.

ghost use Rattle.std.specs.Prelude.{◌≡◌, ◌++◌, ◌∷◌, [], length, OnOk};

use crate::MadePart;
use property_keys::NoMemory;
use std::alloc::Global;
use std::marker::Model;

/// What the members of a list become, in order.
#[derive(Drop)]
pub struct MadePartList {
    all: Vec<MadePart>,
}

impl Model for MadePartList {
    ghost use Rattle.std.specs.Prelude.{List};
    ghost use Rattle.script_checker.specs.declared.made_parts.MadePart.{MadePart};

    ghost Value = { List MadePart };

    ghost view = { λ l. l.all.items };
}

impl MadePartList {
    /// No members. It takes no memory.
    pub fn new(alloc: Global) -> MadePartList
        ensures { result ≡ [] }
    {
        MadePartList {
            all: Vec::new(alloc),
        }
    }

    /// Adds a member at the end.
    pub fn push(&mut self, item: MadePart) -> Result<(), NoMemory>
        ensures { OnOk result (self.new ≡ self.old ++ item ∷ []) }
    {
        self.all.push(item).map_err(|_| NoMemory)
    }

    /// How many members there are.
    pub fn len(&self) -> usize
        ensures { result ≡ length self.now }
    {
        self.all.len()
    }

    /// The members by reference.
    pub fn as_slice(&self) -> &[MadePart]
        ensures { result.now ≡ self.now }
    {
        self.all.as_slice()
    }

    /// The members.
    pub fn into_vec(self) -> Vec<MadePart>
        ensures { result.items ≡ self }
    {
        self.all
    }
}
