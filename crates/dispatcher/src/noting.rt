//! Accesses at the sites of a script.

ghost use Rattle.std.specs.Prelude.{◌≡◌, OnOk};
ghost use Rattle.es_model.specs.Events.{Way};
ghost use Rattle.es_model.specs.World.{World};
ghost use Rattle.es_serve.specs.Serve.{is_counted};
ghost use Rattle.object_heap.specs.Stands.{Goes, StandsFor};
ghost use Rattle.dispatcher.specs.Table.{noted_at, noted_for};

use es_model::{ObjectKind, Request};
use es_tree::SiteId;
use object_heap::Heap;
use property_keys::{Ledger, NoMemory, ObjectId, PropKey, Steps, Value, same_value};

/// Whether a site counts an access: its object is its receiver and no Proxy, and its key no array index.
fn is_counted(kind: &ObjectKind, object: ObjectId, key: PropKey, receiver: Value) -> bool
    ensures { result ≡ is_counted kind.now object key receiver }
{
    match kind {
        ObjectKind::Proxy { .. } => false,
        ObjectKind::Ordinary
        | ObjectKind::Function { .. }
        | ObjectKind::Builtin { .. }
        | ObjectKind::Array
        | ObjectKind::Text(_)
        | ObjectKind::Wrapper(_)
        | ObjectKind::Arguments { .. }
        | ObjectKind::Error => match key {
            PropKey::Index(_) => false,
            PropKey::Name(_) | PropKey::Sym(_) => same_value(receiver, Value::Object(object)),
        },
    }
}

fn note_access<L: Ledger>(
    heap: &mut Heap,
    site: Option<SiteId>,
    object: ObjectId,
    key: PropKey,
    receiver: Value,
    steps: &mut Steps<L>,
) -> Result<(), NoMemory>
    ensures { OnOk result ((w : World) (way : Way) → StandsFor heap.old w → Goes heap.old heap.new w (noted_at site way object key receiver w)) }
{
    match site {
        None => Ok(()),
        Some(_) => {
            if is_counted(heap.kind(object), object, key, receiver) {
                heap.touch(object, steps)
            } else {
                Ok(())
            }
        }
    }
}

/// The access of a request is noted, if it has a site and counts.
pub(crate) fn note<L: Ledger>(
    heap: &mut Heap,
    request: &Request,
    steps: &mut Steps<L>,
) -> Result<(), NoMemory>
    ensures { OnOk result ((w : World) → StandsFor heap.old w → Goes heap.old heap.new w (noted_for request.now w)) }
{
    match request {
        Request::Read {
            object,
            key,
            receiver,
            site,
        }
        | Request::Write {
            object,
            key,
            receiver,
            site,
            ..
        } => note_access(heap, *site, *object, *key, *receiver, steps),
        Request::GetOwn { .. }
        | Request::Define { .. }
        | Request::Has { .. }
        | Request::Delete { .. }
        | Request::Keys { .. }
        | Request::Proto { .. }
        | Request::SetProto { .. }
        | Request::Extensible { .. }
        | Request::Prevent { .. }
        | Request::Call { .. }
        | Request::Construct { .. }
        | Request::Work { .. }
        | Request::Print { .. } => Ok(()),
    }
}
