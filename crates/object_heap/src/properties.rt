//! Calls on the properties of an object.

ghost use Rattle.std.specs.Prelude.{◌≡◌, ◌&&◌, not, IfOk, None, OnErr, OnOk, Some};
ghost use Rattle.descriptors.specs.Validation as validation;
ghost use Rattle.es_model.specs.Changes.{Accessing, Defining, Deleting, Preventing, SettingProto, Storing, added, changed, closed, is_there, removed, replaced, same_proto, with_proto};
ghost use Rattle.es_model.specs.Events.{Way};
ghost use Rattle.es_model.specs.Objects.{is_proxy};
ghost use Rattle.es_model.specs.World.{World, allows, deletes, extensible, kind, own, proto as proto_of};
ghost use Rattle.es_tree.specs.declared.numbers.SiteId.{SiteId};
ghost use Rattle.object_heap.specs.Maps.{map_number};
ghost use Rattle.object_heap.specs.Retains.{Retains};
ghost use Rattle.object_heap.specs.Seen.{find_seen, seen_at};
ghost use Rattle.object_heap.specs.Stands.{Goes, Keeps, StandsFor};

use crate::Heap;
use descriptors::{Complete, Descriptor, Verdict, validate};
use map_store::MapId;
use property_keys::{Ledger, NoMemory, ObjectId, PropKey, Steps, Value, same_value};

impl Heap {
    fn found(&self, object: ObjectId, key: PropKey) -> Option<Complete>
        ensures now { result ≡ find_seen (seen_at (self.now).objects object) key }
        ensures world { (w : World) → StandsFor self.now w → result ≡ own w.lists object key }
    {
        self.objects.own(object, key)
    }

    /// The own property of an object (ECMA-262, 10.1.5.1).
    pub fn own<L: Ledger>(
        &self,
        object: ObjectId,
        key: PropKey,
        _steps: &mut Steps<L>,
    ) -> Option<Complete>
        ensures { (w : World) → StandsFor self.now w → result ≡ own w.lists object key }
    {
        self.found(object, key)
    }

    /// The prototype of an object.
    pub fn proto(&self, object: ObjectId) -> Option<ObjectId>
        ensures { (w : World) → StandsFor self.now w → result ≡ proto_of w.lists object }
    {
        self.objects.proto(object)
    }

    /// Whether an object takes new properties.
    pub fn extensible(&self, object: ObjectId) -> bool
        ensures { (w : World) → StandsFor self.now w → result ≡ extensible w.lists object }
    {
        self.objects.extensible(object)
    }

    /// The map of an object; None exactly for an object in dictionary form, and no object has another form yet.
    #[tactic(auto, unfolding(crate::specs::Maps::map_number))]
    pub fn map_of(&self, object: ObjectId) -> Option<MapId>
        ensures { result ≡ map_number self.now object }
    {
        None
    }

    /// Notes an access: a read or a write at a site of the script begins with this call on its object, whatever the site, the way and the key. No list changes.
    #[tactic(auto, using(crate::proofs::Retaining::retains_none))]
    pub fn touch<L: Ledger>(
        &mut self,
        object: ObjectId,
        _steps: &mut Steps<L>,
    ) -> Result<(), NoMemory>
        ensures ok { OnOk result ((w : World) (site : SiteId) (way : Way) (key : PropKey) → StandsFor self.old w → Goes self.old self.new w (changed (Accessing site way object key) w)) }
        ensures err { OnErr result (Keeps self.old self.new) }
        ensures retains { Retains self.old self.new }
    {
        Ok(())
    }

    fn add(&mut self, object: ObjectId, key: PropKey, complete: Complete) -> Result<(), NoMemory>
        requires { find_seen (seen_at (self.old).objects object) key ≡ None }
        ensures ok { OnOk result ((w : World) → StandsFor self.old w → Goes self.old self.new w (added w object key complete)) }
        ensures err { OnErr result (Keeps self.old self.new) }
        ensures retains { Retains self.old self.new }
    {
        self.objects.add(object, key, complete)?;
        Ok(())
    }

    /// The property that is there becomes another one.
    fn replace(
        &mut self,
        object: ObjectId,
        key: PropKey,
        before: Complete,
        complete: Complete,
    ) -> Result<(), NoMemory>
        requires { find_seen (seen_at (self.old).objects object) key ≡ Some before }
        ensures ok { OnOk result ((w : World) → StandsFor self.old w → Goes self.old self.new w (replaced w object key before complete)) }
        ensures err { OnErr result (Keeps self.old self.new) }
        ensures retains { Retains self.old self.new }
    {
        self.objects.replace(object, key, complete);
        Ok(())
    }

    fn take(&mut self, object: ObjectId, key: PropKey) -> Result<(), NoMemory>
        ensures ok { OnOk result ((w : World) → StandsFor self.old w → Goes self.old self.new w (removed w object key)) }
        ensures err { OnErr result (Keeps self.old self.new) }
        ensures retains { Retains self.old self.new }
    {
        self.objects.remove(object, key);
        Ok(())
    }

    /// Defines a property (ValidateAndApplyPropertyDescriptor, 10.1.6.3). False exactly where the definition is refused, and then nothing changes.
    #[tactic(auto, using(crate::specs::Stands::goes_none, crate::proofs::Retaining::retains_none), unfolding(es_model::specs::Changes::changed, es_model::specs::World::allows))]
    pub fn define_own<L: Ledger>(
        &mut self,
        object: ObjectId,
        key: PropKey,
        wanted: &Descriptor,
        _steps: &mut Steps<L>,
    ) -> Result<bool, NoMemory>
        ensures answer { IfOk result (λ done. (w : World) → StandsFor self.old w → done ≡ allows w.lists object key wanted.now) }
        ensures ok { OnOk result ((w : World) → StandsFor self.old w → Goes self.old self.new w (changed (Defining object key wanted.now) w)) }
        ensures err { OnErr result (Keeps self.old self.new) }
        ensures retains { Retains self.old self.new }
    {
        let current = self.found(object, key);
        match validate(self.extensible(object), wanted, current.as_ref()) {
            Verdict::Refuse => Ok(false),
            Verdict::Keep => Ok(true),
            Verdict::Apply(complete) => {
                match current {
                    Some(before) => self.replace(object, key, before, complete)?,
                    None => self.add(object, key, complete)?,
                }
                Ok(true)
            }
        }
    }

    /// Stores a value in an own stored property. Where there is none, or the value is there already, nothing changes.
    #[tactic(auto, using(crate::specs::Stands::goes_none, crate::proofs::Retaining::retains_none), unfolding(es_model::specs::Changes::changed))]
    pub fn store_own<L: Ledger>(
        &mut self,
        object: ObjectId,
        key: PropKey,
        value: Value,
        _steps: &mut Steps<L>,
    ) -> Result<(), NoMemory>
        ensures ok { OnOk result ((w : World) → StandsFor self.old w → Goes self.old self.new w (changed (Storing object key value) w)) }
        ensures err { OnErr result (Keeps self.old self.new) }
        ensures retains { Retains self.old self.new }
    {
        match self.found(object, key) {
            Some(
                Complete::Stored {
                    value: stored,
                    attributes,
                },
            ) => {
                if same_value(value, stored) {
                    return Ok(());
                }
                let before = Complete::Stored {
                    value: stored,
                    attributes,
                };
                self.replace(object, key, before, Complete::Stored { value, attributes })
            }
            Some(Complete::Accessor { .. }) | None => Ok(()),
        }
    }

    /// Deletes a property (10.1.10). False exactly where the property is there and not configurable, and then nothing changes.
    #[tactic(auto, using(crate::specs::Stands::goes_none, crate::proofs::Retaining::retains_none), unfolding(es_model::specs::Changes::changed, es_model::specs::World::deletes))]
    pub fn delete_own<L: Ledger>(
        &mut self,
        object: ObjectId,
        key: PropKey,
        _steps: &mut Steps<L>,
    ) -> Result<bool, NoMemory>
        ensures answer { IfOk result (λ done. (w : World) → StandsFor self.old w → done ≡ deletes w.lists object key) }
        ensures ok { OnOk result ((w : World) → StandsFor self.old w → Goes self.old self.new w (changed (Deleting object key) w)) }
        ensures err { OnErr result (Keeps self.old self.new) }
        ensures retains { Retains self.old self.new }
    {
        match self.found(object, key) {
            None => Ok(true),
            Some(current) => {
                if !is_configurable(&current) {
                    return Ok(false);
                }
                self.take(object, key)?;
                Ok(true)
            }
        }
    }

    /// Whether a prototype would be another one than the object has.
    fn is_other_proto(&self, object: ObjectId, proto: Option<ObjectId>) -> bool
        ensures { (w : World) → StandsFor self.now w → result ≡ (is_there w.lists object && not (is_proxy (kind w.lists object)) && not (same_proto (proto_of w.lists object) proto)) }
    {
        self.objects.is_other_proto(object, proto)
    }

    fn put_proto(&mut self, object: ObjectId, proto: Option<ObjectId>) -> Result<(), NoMemory>
        ensures ok { OnOk result ((w : World) → StandsFor self.old w → Goes self.old self.new w (with_proto w object proto)) }
        ensures err { OnErr result (Keeps self.old self.new) }
        ensures retains { Retains self.old self.new }
    {
        self.objects.set_proto(object, proto);
        Ok(())
    }

    /// Sets the prototype, without any check. Where it is the object's prototype already, and at a Proxy, nothing changes.
    #[tactic(auto, using(crate::specs::Stands::goes_none, crate::proofs::Retaining::retains_none), unfolding(es_model::specs::Changes::changed))]
    pub fn set_proto<L: Ledger>(
        &mut self,
        object: ObjectId,
        proto: Option<ObjectId>,
        _steps: &mut Steps<L>,
    ) -> Result<(), NoMemory>
        ensures ok { OnOk result ((w : World) → StandsFor self.old w → Goes self.old self.new w (changed (SettingProto object proto) w)) }
        ensures err { OnErr result (Keeps self.old self.new) }
        ensures retains { Retains self.old self.new }
    {
        if self.is_other_proto(object, proto) {
            self.put_proto(object, proto)?;
        }
        Ok(())
    }

    fn close(&mut self, object: ObjectId) -> Result<(), NoMemory>
        ensures ok { OnOk result ((w : World) → StandsFor self.old w → Goes self.old self.new w (closed w object)) }
        ensures err { OnErr result (Keeps self.old self.new) }
        ensures retains { Retains self.old self.new }
    {
        self.objects.close(object);
        Ok(())
    }

    /// No new properties from now on (10.1.4.1).
    #[tactic(auto, using(crate::specs::Stands::goes_none, crate::proofs::Retaining::retains_none), unfolding(es_model::specs::Changes::changed))]
    pub fn prevent<L: Ledger>(
        &mut self,
        object: ObjectId,
        _steps: &mut Steps<L>,
    ) -> Result<(), NoMemory>
        ensures ok { OnOk result ((w : World) → StandsFor self.old w → Goes self.old self.new w (changed (Preventing object) w)) }
        ensures err { OnErr result (Keeps self.old self.new) }
        ensures retains { Retains self.old self.new }
    {
        if self.extensible(object) {
            self.close(object)?;
        }
        Ok(())
    }
}

fn is_configurable(property: &Complete) -> bool
    ensures { result ≡ validation.is_configurable property.now }
{
    match property {
        Complete::Stored { attributes, .. } => attributes.configurable,
        Complete::Accessor { configurable, .. } => *configurable,
    }
}
