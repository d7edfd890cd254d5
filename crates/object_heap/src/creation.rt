//! Calls that make objects, and those on what an object is.

ghost use Rattle.std.specs.Prelude.{◌≡◌, IfOk, OnErr, OnOk};
ghost use Rattle.es_model.specs.Changes.{Making, Revoking, Unmapping, changed};
ghost use Rattle.es_model.specs.World.{World, kind as kind_of, new_object};
ghost use Rattle.object_heap.specs.Origins.{BeginsWith, constructed_by, origin_at, origin_in, origin_number};
ghost use Rattle.object_heap.specs.Retains.{Retains};
ghost use Rattle.object_heap.specs.Stands.{Goes, Keeps, StandsFor};

use crate::Heap;
use es_model::ObjectKind;
use map_store::OriginId;
use property_keys::{Ledger, NoMemory, ObjectId, Steps};
use slack_tracking::OriginKind;

impl Heap {
    /// The one origin of a kind, new or known, with the places with which it begins in the script that runs (`literal_places`, `constructor_places`, else 4).
    /// No list changes.
    pub fn origin_for(&mut self, kind: OriginKind, places: u32) -> Result<OriginId, NoMemory>
        ensures number { IfOk result (λ id. id ≡ origin_number self.old kind) }
        ensures kind { IfOk result (λ id. origin_at self.new id ≡ kind) }
        ensures ok { OnOk result ((w : World) → StandsFor self.old w → BeginsWith w.script kind places → Goes self.old self.new w w) }
        ensures err { OnErr result (Keeps self.old self.new) }
        ensures retains { Retains self.old self.new }
    {
        let id = self.origins.number(kind)?;
        Ok(id)
    }

    /// A construction by a function of the script has ended: the function that the origin names.
    pub fn constructed(&mut self, origin: OriginId)
        ensures goes { (w : World) → StandsFor self.old w → Goes self.old self.new w (constructed_by w (origin_at self.old origin)) }
        ensures retains { Retains self.old self.new }
    {}

    /// A new object without properties. A Proxy has no prototype and takes no properties (ECMA-262, 10.5).
    pub fn make<L: Ledger>(
        &mut self,
        kind: ObjectKind,
        origin: OriginId,
        proto: Option<ObjectId>,
        _steps: &mut Steps<L>,
    ) -> Result<ObjectId, NoMemory>
        ensures object { IfOk result (λ object. (w : World) → StandsFor self.old w → object ≡ new_object w.lists) }
        ensures ok { OnOk result ((w : World) → StandsFor self.old w → Goes self.old self.new w (changed (Making kind (origin_in w.script (origin_at self.old origin)) proto) w)) }
        ensures err { OnErr result (Keeps self.old self.new) }
        ensures retains { Retains self.old self.new }
    {
        let object = self.objects.make(self.alloc, kind, proto)?;
        Ok(object)
    }

    /// What an object is.
    pub fn kind(&self, object: ObjectId) -> &ObjectKind
        ensures { (w : World) → StandsFor self.now w → result.now ≡ kind_of w.lists object }
    {
        self.objects.kind(object)
    }

    /// A Proxy loses its target and its handler (10.5). At an object of another kind nothing changes.
    pub fn revoke(&mut self, object: ObjectId)
        ensures goes { (w : World) → StandsFor self.old w → Goes self.old self.new w (changed (Revoking object) w) }
        ensures retains { Retains self.old self.new }
    {
        self.objects.revoke(object);
    }

    /// An index of an arguments object shares no cell any more (10.4.4). At an object of another kind nothing changes.
    pub fn unmap(&mut self, object: ObjectId, i: u32)
        ensures goes { (w : World) → StandsFor self.old w → Goes self.old self.new w (changed (Unmapping object i) w) }
        ensures retains { Retains self.old self.new }
    {
        self.objects.unmap(object, i);
    }
}
