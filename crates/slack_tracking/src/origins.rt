//! Origins with their places.

ghost use Rattle.std.specs.Prelude.{◌≡◌, ◌↔◌, ◌<◌, [], length, IfOk, OnErr, OnOk, IsTrue};
ghost use Rattle.slack_tracking.specs.Slack.{IsKnown, origin_at, origin_place, with_origin, with_fields, with_construction, falls};

use crate::OriginKind;
use map_store::OriginId;
use property_keys::NoMemory;
use std::alloc::Global;
use std::marker::Model;

/// The construction at whose end the places fall.
const LAST_CONSTRUCTION: u32 = 8;

/// The state of an origin.
#[derive(Clone, Copy, Debug)]
pub struct Slack {
    kind: OriginKind,
    /// How many fields lie in the objects themselves.
    places: u32,
    /// The most fields that a map of the origin was said to have.
    fields: u32,
    /// How many constructions have ended, counted up to eight.
    constructions: u32,
}

/// The origins, numbered from 0 in the order of making.
#[derive(Drop)]
pub struct Origins {
    origins: Vec<Slack>,
}

impl Model for Origins {
    ghost use Rattle.std.specs.Prelude.{List};
    ghost use Rattle.slack_tracking.specs.declared.origins.Slack.{Slack};

    ghost Value = { List Slack };

    ghost view = { λ o. o.origins.items };
}

impl Origins {
    /// No origin.
    pub fn new(alloc: Global) -> Origins
        ensures { result ≡ [] }
    {
        Origins {
            origins: Vec::new(alloc),
        }
    }

    /// The one origin of this kind, made with these places where it is not there. There is room for 2^32 - 1 origins,
    /// and past them the answer is `NoMemory`. After `NoMemory` all is as before.
    pub fn begin(&mut self, kind: OriginKind, places: u32) -> Result<OriginId, NoMemory>
        ensures number { IfOk result (λ id. id.0 ≡ origin_place self.old kind) }
        ensures ok { OnOk result (self.new ≡ with_origin self.old kind places) }
        ensures err { OnErr result (self.new ≡ self.old) }
    {
        let place = place_of(&self.origins, kind);
        if place >= u32::MAX as usize {
            return Err(NoMemory);
        }
        if place < self.origins.len() {
            return Ok(OriginId(place as u32));
        }
        let begun = Slack {
            kind,
            places,
            fields: 0,
            constructions: 0,
        };
        match self.origins.push(begun) {
            Ok(()) => Ok(OriginId(place as u32)),
            Err(_) => Err(NoMemory),
        }
    }

    /// Says that a map of the origin has so many fields.
    pub fn used(&mut self, origin: OriginId, fields: u32)
        requires { IsKnown self.old origin }
        ensures { self.new ≡ with_fields self.old origin fields }
    {
        let slack = &mut self.origins[origin.0 as usize];
        slack.fields = slack.fields.max(fields);
    }

    /// Counts a construction that has ended. At the end of the eighth the places fall to the most fields that a map of
    /// the origin has, where those are fewer; a later one counts no more. True exactly where the places fell.
    pub fn constructed(&mut self, origin: OriginId) -> bool
        requires { IsKnown self.old origin }
        ensures counted { self.new ≡ with_construction self.old origin }
        ensures fell { result ≡ falls (origin_at self.old origin) }
    {
        let slack = &mut self.origins[origin.0 as usize];
        if slack.constructions >= LAST_CONSTRUCTION {
            return false;
        }
        slack.constructions += 1;
        if slack.constructions < LAST_CONSTRUCTION || slack.places <= slack.fields {
            return false;
        }
        slack.places = slack.fields;
        true
    }

    /// How many fields lie in the objects of an origin themselves.
    pub fn places(&self, origin: OriginId) -> u32
        requires { IsKnown self.now origin }
        ensures { let slack = origin_at self.now origin in result ≡ slack.places }
    {
        self.origins[origin.0 as usize].places
    }

    /// How many origins there are.
    pub fn len(&self) -> usize
        ensures { result ≡ length self.now }
    {
        self.origins.len()
    }
}

/// The place of a kind, or how many origins there are where it is not there.
fn place_of(origins: &[Slack], kind: OriginKind) -> usize
    ensures { result ≡ origin_place origins.now kind }
{
    let mut place = 0;
    while place < origins.len() && !origins[place].kind.is_same(kind) {
        place += 1;
    }
    place
}
