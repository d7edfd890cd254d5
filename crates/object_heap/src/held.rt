//! One object.

ghost use Rattle.std.specs.Prelude.{◌≡◌, false, IfOk, IsSome, None, OnErr, OnOk};
ghost use Rattle.es_model.specs.Objects.{is_proxy, new_object_of, revoked_kind, unmapped_kind};
ghost use Rattle.es_model.specs.StartTable.{start_properties};
ghost use Rattle.es_model.specs.StartWorld.{start_object};
ghost use Rattle.object_heap.specs.Keys.{seen_keys};
ghost use Rattle.object_heap.specs.Seen.{find_seen, seen, seen_added, seen_removed, seen_replaced};

use crate::listing::keys_of;
use crate::property_list::{place_of, take_out};
use descriptors::Complete;
use es_model::{Intrinsic, KeyList, ObjectKind, OwnProperty};
use property_keys::{NoMemory, ObjectId, PropKey};
use std::alloc::Global;
use std::marker::Model;

/// An object, with its properties in the order of their creation.
#[derive(Drop)]
pub(crate) struct Held {
    kind: ObjectKind,
    proto: Option<ObjectId>,
    extensible: bool,
    properties: Vec<OwnProperty>,
}

impl Model for Held {
    ghost use Rattle.object_heap.specs.Codes.{seen_code};
    ghost use Rattle.object_heap.specs.Seen.{Seen, seen};

    ghost Value = { Seen };

    ghost coded = { seen_code };

    ghost view = { λ h. seen (record { kind = h.kind; proto = h.proto; extensible = h.extensible; properties = h.properties.items }) };
}

/// Whether a kind is that of a Proxy.
pub(crate) fn is_proxy(kind: &ObjectKind) -> bool
    ensures { result ≡ is_proxy kind.now }
{
    matches!(kind, ObjectKind::Proxy { .. })
}

impl Held {
    /// A new object, without properties.
    pub(crate) fn new(alloc: Global, kind: ObjectKind, proto: Option<ObjectId>) -> Held
        ensures { result ≡ seen (new_object_of kind proto) }
    {
        let properties = Vec::new(alloc);
        if is_proxy(&kind) {
            Held {
                kind,
                proto: None,
                extensible: false,
                properties,
            }
        } else {
            Held {
                kind,
                proto,
                extensible: true,
                properties,
            }
        }
    }

    /// An object that is there at the start.
    pub(crate) fn at_start(alloc: Global, intrinsic: Intrinsic) -> Result<Held, NoMemory>
        ensures { IfOk result (λ held. held ≡ seen (start_object intrinsic)) }
    {
        let properties = start_properties(alloc, intrinsic)?;
        Ok(Held {
            kind: intrinsic.kind(),
            proto: intrinsic.proto(),
            extensible: intrinsic.extensible(),
            properties,
        })
    }

    /// The property of a key.
    pub(crate) fn own(&self, key: PropKey) -> Option<Complete>
        ensures { result ≡ find_seen self.now key }
    {
        match place_of(&self.properties, key) {
            None => None,
            Some(i) => Some(self.properties[i].complete),
        }
    }

    /// What it is.
    pub(crate) fn kind(&self) -> &ObjectKind
        ensures { result.now ≡ self.now.kind }
    {
        &self.kind
    }

    /// Its prototype.
    pub(crate) fn proto(&self) -> Option<ObjectId>
        ensures { result ≡ self.now.proto }
    {
        self.proto
    }

    /// Whether it takes new properties.
    pub(crate) fn extensible(&self) -> bool
        ensures { result ≡ self.now.extensible }
    {
        self.extensible
    }

    /// Its own keys, where so many code units come before.
    pub(crate) fn keys(&self, alloc: Global, count: u32) -> Result<KeyList, NoMemory>
        ensures { IfOk result (λ keys. keys ≡ seen_keys count self.now) }
    {
        keys_of(alloc, &self.properties, count)
    }

    /// A new property. After `NoMemory` the object is as before.
    pub(crate) fn add(&mut self, key: PropKey, complete: Complete) -> Result<(), NoMemory>
        requires { find_seen self.old key ≡ None }
        ensures ok { OnOk result (self.new ≡ seen_added self.old key complete) }
        ensures err { OnErr result (self.new ≡ self.old) }
    {
        match self.properties.push(OwnProperty { key, complete }) {
            Ok(()) => Ok(()),
            Err(_) => Err(NoMemory),
        }
    }

    /// Another property in the place of the one that is there.
    pub(crate) fn replace(&mut self, key: PropKey, complete: Complete)
        requires { IsSome (find_seen self.old key) }
        ensures { self.new ≡ seen_replaced self.old key complete }
    {
        if let Some(i) = place_of(&self.properties, key) {
            self.properties[i].complete = complete;
        }
    }

    /// A property less.
    pub(crate) fn remove(&mut self, key: PropKey)
        ensures { self.new ≡ seen_removed self.old key }
    {
        take_out(&mut self.properties, key);
    }

    pub(crate) fn set_proto(&mut self, proto: Option<ObjectId>)
        ensures { self.new ≡ record self.old { proto = proto } }
    {
        self.proto = proto;
    }

    /// No new properties from now on.
    pub(crate) fn close(&mut self)
        ensures { self.new ≡ record self.old { extensible = false } }
    {
        self.extensible = false;
    }

    /// A Proxy loses its target and its handler.
    pub(crate) fn revoke(&mut self)
        ensures { self.new ≡ record self.old { kind = revoked_kind (self.old).kind } }
    {
        if let ObjectKind::Proxy {
            target,
            handler,
            ..
        } = &mut self.kind
        {
            *target = None;
            *handler = None;
        }
    }

    /// An index of an arguments object shares no cell any more.
    pub(crate) fn unmap(&mut self, i: u32)
        ensures { self.new ≡ record self.old { kind = unmapped_kind (self.old).kind i } }
    {
        if let ObjectKind::Arguments { cells } = &mut self.kind {
            cells.set(i as usize, None);
        }
    }
}

/// The properties that an object has at the start.
fn start_properties(alloc: Global, intrinsic: Intrinsic) -> Result<Vec<OwnProperty>, NoMemory>
    ensures { IfOk result (λ ps. ps.items ≡ start_properties intrinsic) }
{
    let mut properties = Vec::new(alloc);
    while let Some(property) = intrinsic.property(properties.len()) {
        let Ok(()) = properties.push(property) else {
            return Err(NoMemory);
        };
    }
    Ok(properties)
}
