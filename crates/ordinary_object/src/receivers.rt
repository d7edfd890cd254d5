//! OrdinarySetWithOwnDescriptor (10.1.9.2) at its receiver.

ghost use Rattle.std.specs.Prelude.{◌≡◌};
ghost use Rattle.es_model.specs.Completions.{answered};
ghost use Rattle.es_model.specs.Known.{IsKnown, IsKnownKey};
ghost use Rattle.es_model.specs.Stages.{stage_of};
ghost use Rattle.es_model.specs.World.{World};
ghost use Rattle.ordinary_object.specs.Ordinary.{set_existing, set_had, set_receiver, value_alone, with_three_true};
ghost use Rattle.object_heap.specs.Retains.{Retains};
ghost use Rattle.object_heap.specs.Stands.{StandsFor};
ghost use Rattle.object_heap.specs.Stops.{Stops};
ghost use Rattle.object_heap.specs.Turns.{KeepsNamed};
ghost use Rattle.ordinary_object.specs.Names.{names_of};
ghost use Rattle.ordinary_object.specs.Rests.{program_after};

use crate::frame::{OrdinaryFrame, PendingSet};
use descriptors::{Complete, Descriptor};
use es_model::{Completion, Reply, Request, Stop, Turn};
use object_heap::Heap;
use property_keys::{PropKey, Value};

/// Steps 2.b and 2.c of OrdinarySetWithOwnDescriptor (10.1.9.2): the receiver's own property.
pub(crate) fn set_receiver(
    heap: &mut Heap,
    key: PropKey,
    value: Value,
    receiver: Value,
) -> Result<Turn<OrdinaryFrame>, Stop>
    ensures stops { (w : World) → StandsFor heap.old w → Stops program_after heap.old heap.new w (stage_of (set_receiver key value receiver) w) result }
    ensures named { (w : World) → IsKnownKey w.lists key → IsKnown w.lists value → IsKnown w.lists receiver → KeepsNamed names_of w result }
    ensures retains { Retains heap.old heap.new }
{
    match receiver {
        // step 2.c
        Value::Object(receiver) => {
            let request = Request::GetOwn {
                object: receiver,
                key,
            };
            let pending = PendingSet {
                key,
                value,
                receiver,
            };
            Ok(Turn::Ask(request, OrdinaryFrame::ReceiverHad(pending)))
        }
        // step 2.b
        Value::Undefined
        | Value::Null
        | Value::Bool(_)
        | Value::Whole(_)
        | Value::Text(_)
        | Value::Symbol(_) => Ok(Turn::Done(Completion::Normal(Reply::Flag(false)))),
    }
}

/// What follows step 2.c of OrdinarySetWithOwnDescriptor (10.1.9.2).
pub(crate) fn set_had(
    heap: &mut Heap,
    pending: PendingSet,
    answer: Completion,
) -> Result<Turn<OrdinaryFrame>, Stop>
    ensures stops { (w : World) → StandsFor heap.old w → Stops program_after heap.old heap.new w (stage_of (set_had pending.key pending.value pending.receiver (answered answer)) w) result }
    ensures named { (w : World) → KeepsNamed names_of w result }
    ensures retains { Retains heap.old heap.new }
{
    match answer.property() {
        Ok(existing) => set_existing(heap, pending, existing),
        Err(thrown) => Ok(Turn::Done(Completion::Throw(thrown))),
    }
}

/// Steps 2.d and 2.e of OrdinarySetWithOwnDescriptor (10.1.9.2).
fn set_existing(
    heap: &mut Heap,
    pending: PendingSet,
    existing: Option<Complete>,
) -> Result<Turn<OrdinaryFrame>, Stop>
    ensures stops { (w : World) → StandsFor heap.old w → Stops program_after heap.old heap.new w (stage_of (set_existing pending.key pending.value pending.receiver existing) w) result }
    ensures named { (w : World) → KeepsNamed names_of w result }
    ensures retains { Retains heap.old heap.new }
{
    let PendingSet {
        key,
        value,
        receiver,
    } = pending;
    match existing {
        // step 2.d.i
        Some(Complete::Accessor { .. }) => Ok(Turn::Done(Completion::Normal(Reply::Flag(false)))),
        Some(Complete::Stored { attributes, .. }) => {
            if attributes.writable {
                // steps 2.d.iii and 2.d.iv
                let request = Request::Define {
                    object: receiver,
                    key,
                    wanted: value_alone(value),
                };
                Ok(Turn::Ask(request, OrdinaryFrame::ReceiverDefined))
            } else {
                // step 2.d.ii
                Ok(Turn::Done(Completion::Normal(Reply::Flag(false))))
            }
        }
        // step 2.e
        None => {
            let request = Request::Define {
                object: receiver,
                key,
                wanted: with_three_true(value),
            };
            Ok(Turn::Ask(request, OrdinaryFrame::ReceiverDefined))
        }
    }
}

/// The descriptor of a value alone (step 2.d.iii).
fn value_alone(value: Value) -> Descriptor
    ensures { result ≡ value_alone value }
{
    Descriptor {
        value: Some(value),
        writable: None,
        get: None,
        set: None,
        enumerable: None,
        configurable: None,
    }
}

/// The descriptor of CreateDataProperty (7.3.5).
fn with_three_true(value: Value) -> Descriptor
    ensures { result ≡ with_three_true value }
{
    Descriptor {
        value: Some(value),
        writable: Some(true),
        get: None,
        set: None,
        enumerable: Some(true),
        configurable: Some(true),
    }
}
