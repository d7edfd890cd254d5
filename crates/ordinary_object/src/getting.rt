//! OrdinaryHasProperty (10.1.7.1) and OrdinaryGet (10.1.8.1).

ghost use Rattle.es_model.specs.Stages.{stage_of};
ghost use Rattle.es_model.specs.World.{World};
ghost use Rattle.ordinary_object.specs.Ordinary.{ordinary_get, ordinary_has_property};
ghost use Rattle.object_heap.specs.Retains.{Retains};
ghost use Rattle.object_heap.specs.Stands.{StandsFor};
ghost use Rattle.object_heap.specs.Stops.{Stops};
ghost use Rattle.object_heap.specs.Turns.{KeepsNamed};
ghost use Rattle.ordinary_object.specs.Names.{names_of};
ghost use Rattle.ordinary_object.specs.Rests.{program_after};

use crate::OrdinaryFrame;
use descriptors::Complete;
use es_model::{Completion, Reply, Request, Stop, Turn, Values};
use object_heap::Heap;
use property_keys::{Ledger, ObjectId, PropKey, Steps, Value};
use std::alloc::Global;

/// OrdinaryHasProperty (10.1.7.1), which is [[HasProperty]] (10.1.7).
pub(crate) fn ordinary_has_property<L: Ledger>(
    heap: &mut Heap,
    object: ObjectId,
    key: PropKey,
    steps: &mut Steps<L>,
) -> Result<Turn<OrdinaryFrame>, Stop>
    ensures stops { (w : World) → StandsFor heap.old w → Stops program_after heap.old heap.new w (stage_of (ordinary_has_property object key) w) result }
    ensures named { (w : World) → KeepsNamed names_of w result }
    ensures retains { Retains heap.old heap.new }
{
    // steps 1 and 2
    match heap.own(object, key, steps) {
        Some(_) => Ok(Turn::Done(Completion::Normal(Reply::Flag(true)))),
        // step 3
        None => match heap.proto(object) {
            // step 5
            None => Ok(Turn::Done(Completion::Normal(Reply::Flag(false)))),
            // step 4.a
            Some(parent) => {
                heap.charge(1)?;
                let request = Request::Has {
                    object: parent,
                    key,
                };
                Ok(Turn::Ask(request, OrdinaryFrame::ParentHas))
            }
        },
    }
}

/// OrdinaryGet (10.1.8.1), which is [[Get]] (10.1.8).
pub(crate) fn ordinary_get<L: Ledger>(
    alloc: Global,
    heap: &mut Heap,
    object: ObjectId,
    key: PropKey,
    receiver: Value,
    steps: &mut Steps<L>,
) -> Result<Turn<OrdinaryFrame>, Stop>
    ensures stops { (w : World) → StandsFor heap.old w → Stops program_after heap.old heap.new w (stage_of (ordinary_get object key receiver) w) result }
    ensures named { (w : World) → KeepsNamed names_of w result }
    ensures retains { Retains heap.old heap.new }
{
    // step 1
    match heap.own(object, key, steps) {
        // step 2.a
        None => match heap.proto(object) {
            // step 2.b
            None => Ok(Turn::Done(Completion::Normal(Reply::Value(Value::Undefined)))),
            // step 2.c
            Some(parent) => {
                heap.charge(1)?;
                let request = Request::Read {
                    object: parent,
                    key,
                    receiver,
                    site: None,
                };
                Ok(Turn::Ask(request, OrdinaryFrame::ParentGet))
            }
        },
        // step 3
        Some(Complete::Stored { value, .. }) => {
            Ok(Turn::Done(Completion::Normal(Reply::Value(value))))
        }
        // step 6
        Some(Complete::Accessor { get: None, .. }) => {
            Ok(Turn::Done(Completion::Normal(Reply::Value(Value::Undefined))))
        }
        // step 7
        Some(
            Complete::Accessor {
                get: Some(getter),
                ..
            },
        ) => {
            let request = Request::Call {
                function: Value::Object(getter),
                this: receiver,
                arguments: Values::new(alloc),
            };
            Ok(Turn::Ask(request, OrdinaryFrame::GetterCalled))
        }
    }
}
