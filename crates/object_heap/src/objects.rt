//! The list of objects, which answers for every number.

ghost use Rattle.std.specs.Prelude.{◌≡◌, ◌&&◌, ◌++◌, ◌∷◌, [], false, length, map, nat_lt, not, IfOk, IsSome, MatchOption, None, OnErr, OnOk};
ghost use Rattle.es_model.specs.Changes.{same_proto};
ghost use Rattle.es_model.specs.Objects.{is_proxy, new_object_of, revoked_kind, unmapped_kind};
ghost use Rattle.es_model.specs.StartWorld.{start_lists};
ghost use Rattle.object_heap.specs.Keys.{seen_keys};
ghost use Rattle.object_heap.specs.Seen.{find_seen, no_seen, put_seen, seen, seen_added, seen_at, seen_removed, seen_replaced};

use crate::held::{Held, is_proxy};
use crate::listing::keys_of;
use descriptors::Complete;
use es_model::{KeyList, ObjectKind, start_intrinsic};
use property_keys::{NoMemory, ObjectId, PropKey};
use std::alloc::Global;
use std::marker::Model;

/// The list of objects, each named by its place. Each call is total: an object that is not there has no property and takes none.
#[derive(Drop)]
pub(crate) struct Objects {
    all: Vec<Held>,
}

impl Model for Objects {
    ghost use Rattle.std.specs.Prelude.{◌≡◌, List, length, ◌<◌, ◌^◌};
    ghost use Rattle.std.specs.Coded.{coded_list};
    ghost use Rattle.object_heap.specs.Codes.{seen_code};
    ghost use Rattle.object_heap.specs.Globals.{HasGlobal};
    ghost use Rattle.object_heap.specs.Seen.{Seen};

    ghost Value = { List Seen };

    ghost coded = { coded_list seen_code };

    ghost view = { λ o. o.all.items };

    ghost invariant = { λ o. (length o.all.items < 2 ^ 32) × HasGlobal o.all.items };
}

impl Objects {
    /// The objects that are there at the start.
    pub(crate) fn at_start(alloc: Global) -> Result<Objects, NoMemory>
        ensures { IfOk result (λ objects. objects ≡ map seen start_lists.objects) }
    {
        let mut all = Vec::new(alloc);
        while let Some(intrinsic) = start_intrinsic(all.len()) {
            let held = Held::at_start(alloc, intrinsic)?;
            let Ok(()) = all.push(held) else {
                return Err(NoMemory);
            };
        }
        Ok(Objects { all })
    }

    /// How many there are.
    pub(crate) fn count(&self) -> u32
        ensures { result ≡ length self.now }
    {
        self.all.len() as u32
    }

    fn held(&self, object: ObjectId) -> Option<&Held>
        ensures { MatchOption result (seen_at self.now object ≡ no_seen) (λ held. held.now ≡ seen_at self.now object) }
    {
        self.all.get(object.0 as usize)
    }

    /// The property of a key.
    pub(crate) fn own(&self, object: ObjectId, key: PropKey) -> Option<Complete>
        ensures { result ≡ find_seen (seen_at self.now object) key }
    {
        match self.held(object) {
            Some(held) => held.own(key),
            None => None,
        }
    }

    /// The own keys, where so many code units come before.
    pub(crate) fn keys(
        &self,
        alloc: Global,
        object: ObjectId,
        count: u32,
    ) -> Result<KeyList, NoMemory>
        ensures { IfOk result (λ keys. keys ≡ seen_keys count (seen_at self.now object)) }
    {
        match self.held(object) {
            Some(held) => held.keys(alloc, count),
            None => keys_of(alloc, &[], count),
        }
    }

    /// What an object is. Where no object is, the kind of the global object is lent, which is as ordinary.
    pub(crate) fn kind(&self, object: ObjectId) -> &ObjectKind
        ensures { result.now ≡ (seen_at self.now object).kind }
    {
        match self.held(object) {
            Some(held) => held.kind(),
            None => self.all[0].kind(),
        }
    }

    /// Its prototype.
    pub(crate) fn proto(&self, object: ObjectId) -> Option<ObjectId>
        ensures { result ≡ (seen_at self.now object).proto }
    {
        match self.held(object) {
            Some(held) => held.proto(),
            None => None,
        }
    }

    /// Whether it takes new properties.
    pub(crate) fn extensible(&self, object: ObjectId) -> bool
        ensures { result ≡ (seen_at self.now object).extensible }
    {
        match self.held(object) {
            Some(held) => held.extensible(),
            None => false,
        }
    }

    /// Whether a prototype would be another one than the object has. A Proxy has none of its own.
    pub(crate) fn is_other_proto(&self, object: ObjectId, proto: Option<ObjectId>) -> bool
        ensures { result ≡ (nat_lt object.0 (length self.now) && not (is_proxy (seen_at self.now object).kind) && not (same_proto (seen_at self.now object).proto proto)) }
    {
        (object.0 as usize) < self.all.len()
            && !is_proxy(self.kind(object))
            && !is_same_proto(self.proto(object), proto)
    }

    /// A new property. After `NoMemory` all is as before.
    pub(crate) fn add(
        &mut self,
        object: ObjectId,
        key: PropKey,
        complete: Complete,
    ) -> Result<(), NoMemory>
        requires { find_seen (seen_at self.old object) key ≡ None }
        ensures ok { OnOk result (self.new ≡ put_seen self.old object (seen_added (seen_at self.old object) key complete)) }
        ensures err { OnErr result (self.new ≡ self.old) }
    {
        match self.all.get_mut(object.0 as usize) {
            Some(held) => held.add(key, complete),
            None => Ok(()),
        }
    }

    /// Another property in the place of the one that is there.
    pub(crate) fn replace(&mut self, object: ObjectId, key: PropKey, complete: Complete)
        requires { IsSome (find_seen (seen_at self.old object) key) }
        ensures { self.new ≡ put_seen self.old object (seen_replaced (seen_at self.old object) key complete) }
    {
        if let Some(held) = self.all.get_mut(object.0 as usize) {
            held.replace(key, complete);
        }
    }

    /// A property less.
    pub(crate) fn remove(&mut self, object: ObjectId, key: PropKey)
        ensures { self.new ≡ put_seen self.old object (seen_removed (seen_at self.old object) key) }
    {
        if let Some(held) = self.all.get_mut(object.0 as usize) {
            held.remove(key);
        }
    }

    pub(crate) fn set_proto(&mut self, object: ObjectId, proto: Option<ObjectId>)
        ensures { self.new ≡ put_seen self.old object (record (seen_at self.old object) { proto = proto }) }
    {
        if let Some(held) = self.all.get_mut(object.0 as usize) {
            held.set_proto(proto);
        }
    }

    /// No new properties from now on.
    pub(crate) fn close(&mut self, object: ObjectId)
        ensures { self.new ≡ put_seen self.old object (record (seen_at self.old object) { extensible = false }) }
    {
        if let Some(held) = self.all.get_mut(object.0 as usize) {
            held.close();
        }
    }

    /// A Proxy loses its target and its handler.
    pub(crate) fn revoke(&mut self, object: ObjectId)
        ensures { self.new ≡ put_seen self.old object (record (seen_at self.old object) { kind = revoked_kind (seen_at self.old object).kind }) }
    {
        if let Some(held) = self.all.get_mut(object.0 as usize) {
            held.revoke();
        }
    }

    /// An index of an arguments object shares no cell any more.
    pub(crate) fn unmap(&mut self, object: ObjectId, i: u32)
        ensures { self.new ≡ put_seen self.old object (record (seen_at self.old object) { kind = unmapped_kind (seen_at self.old object).kind i }) }
    {
        if let Some(held) = self.all.get_mut(object.0 as usize) {
            held.unmap(i);
        }
    }

    /// A new object without properties stands last.
    pub(crate) fn make(
        &mut self,
        alloc: Global,
        kind: ObjectKind,
        proto: Option<ObjectId>,
    ) -> Result<ObjectId, NoMemory>
        ensures object { IfOk result (λ object. object ≡ record { 0 = length self.old }) }
        ensures ok { OnOk result (self.new ≡ self.old ++ seen (new_object_of kind proto) ∷ []) }
        ensures err { OnErr result (self.new ≡ self.old) }
    {
        self.push(Held::new(alloc, kind, proto))
    }

    /// A new object with one property stands last.
    pub(crate) fn make_with(
        &mut self,
        alloc: Global,
        kind: ObjectKind,
        proto: Option<ObjectId>,
        key: PropKey,
        complete: Complete,
    ) -> Result<ObjectId, NoMemory>
        ensures object { IfOk result (λ object. object ≡ record { 0 = length self.old }) }
        ensures ok { OnOk result (self.new ≡ self.old ++ seen_added (seen (new_object_of kind proto)) key complete ∷ []) }
        ensures err { OnErr result (self.new ≡ self.old) }
    {
        let mut held = Held::new(alloc, kind, proto);
        held.add(key, complete)?;
        self.push(held)
    }

    /// There is room for 2^32 - 1.
    fn push(&mut self, held: Held) -> Result<ObjectId, NoMemory>
        ensures object { IfOk result (λ object. object ≡ record { 0 = length self.old }) }
        ensures ok { OnOk result (self.new ≡ self.old ++ held ∷ []) }
        ensures err { OnErr result (self.new ≡ self.old) }
    {
        let count = self.all.len();
        if count >= u32::MAX as usize {
            return Err(NoMemory);
        }
        match self.all.push(held) {
            Ok(()) => Ok(ObjectId(count as u32)),
            Err(_) => Err(NoMemory),
        }
    }
}

fn is_same_proto(a: Option<ObjectId>, b: Option<ObjectId>) -> bool
    ensures { result ≡ same_proto a b }
{
    match (a, b) {
        (None, None) => true,
        (Some(a), Some(b)) => a.0 == b.0,
        (None, Some(_)) | (Some(_), None) => false,
    }
}
