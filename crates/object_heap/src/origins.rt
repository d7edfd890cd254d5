//! The origins of objects, with their numbers.

ghost use Rattle.std.specs.Prelude.{◌≡◌, [], IfOk, OnErr, OnOk};
ghost use Rattle.object_heap.specs.Origins.{constructor_places, literal_places, origin_place, with_origin};

use indexmap::IndexSet;
use map_store::OriginId;
use property_keys::{NoMemory, RunHashing};
use slack_tracking::OriginKind;
use std::alloc::Global;
use std::marker::Model;

/// The kinds of origins that have a number, in the order of their numbers. A look-up does not grow with how many there are.
#[derive(Drop)]
pub(crate) struct Origins {
    kinds: IndexSet<OriginKind, RunHashing>,
}

impl Model for Origins {
    ghost use Rattle.std.specs.Prelude.{List};
    ghost use Rattle.slack_tracking.specs.declared.OriginKind.{OriginKind};

    ghost Value = { List OriginKind };

    ghost view = { λ o. o.kinds.keys };
}

impl Origins {
    pub(crate) fn new(alloc: Global, hashing: RunHashing) -> Origins
        ensures { result ≡ [] }
    {
        Origins {
            kinds: IndexSet::with_hasher(alloc, hashing),
        }
    }

    /// The number of a kind, new or known. There is room for 2^32 - 1.
    pub(crate) fn number(&mut self, kind: OriginKind) -> Result<OriginId, NoMemory>
        ensures number { IfOk result (λ id. id ≡ record { 0 = origin_place self.old kind }) }
        ensures ok { OnOk result (self.new ≡ with_origin self.old kind) }
        ensures err { OnErr result (self.new ≡ self.old) }
    {
        let place = self.place_of(kind);
        if place >= u32::MAX as usize {
            return Err(NoMemory);
        }
        if place < self.kinds.len() {
            return Ok(OriginId(place as u32));
        }
        match self.kinds.insert_full(kind) {
            Ok(_) => Ok(OriginId(place as u32)),
            Err(_) => Err(NoMemory),
        }
    }

    /// The place of a kind, or how many there are where it is not there.
    fn place_of(&self, kind: OriginKind) -> usize
        ensures { result ≡ origin_place self.now kind }
    {
        match self.kinds.get_index_of(&kind) {
            Some(place) => place,
            None => self.kinds.len(),
        }
    }
}

/// How many fields lie in an object of a literal that has so many property definitions: at least 4, at most 32.
pub fn literal_places(definitions: u32) -> u32
    ensures { result ≡ literal_places definitions }
{
    definitions.max(4).min(32)
}

/// How many fields lie in an object of a function that constructs and whose own body assigns to so many distinct names of `this`: 8 more, at most 32.
pub fn constructor_places(this_names: u32) -> u32
    ensures { result ≡ constructor_places this_names }
{
    this_names.min(24) + 8
}
