//! OrdinarySet (10.1.9.1).

ghost use Rattle.es_model.specs.Completions.{answered};
ghost use Rattle.es_model.specs.Known.{IsKnown, IsKnownKey};
ghost use Rattle.es_model.specs.Stages.{stage_of};
ghost use Rattle.es_model.specs.World.{World};
ghost use Rattle.ordinary_object.specs.Ordinary.{set_called, ordinary_set};
ghost use Rattle.object_heap.specs.Retains.{Retains};
ghost use Rattle.object_heap.specs.Stands.{StandsFor};
ghost use Rattle.object_heap.specs.Stops.{Stops};
ghost use Rattle.object_heap.specs.Turns.{KeepsNamed};
ghost use Rattle.ordinary_object.specs.Names.{names_of};
ghost use Rattle.ordinary_object.specs.Rests.{program_after};

use crate::OrdinaryFrame;
use crate::receivers::set_receiver;
use descriptors::Complete;
use es_model::{Completion, Reply, Request, Stop, Turn, Values};
use object_heap::Heap;
use property_keys::{Ledger, ObjectId, PropKey, Steps, Value};
use std::alloc::Global;

/// OrdinarySet (10.1.9.1) with OrdinarySetWithOwnDescriptor (10.1.9.2), which is [[Set]] (10.1.9). The steps are those of the second.
pub(crate) fn ordinary_set<L: Ledger>(
    alloc: Global,
    heap: &mut Heap,
    object: ObjectId,
    key: PropKey,
    value: Value,
    receiver: Value,
    steps: &mut Steps<L>,
) -> Result<Turn<OrdinaryFrame>, Stop>
    ensures stops { (w : World) → StandsFor heap.old w → Stops program_after heap.old heap.new w (stage_of (ordinary_set object key value receiver) w) result }
    ensures named { (w : World) → IsKnownKey w.lists key → IsKnown w.lists value → IsKnown w.lists receiver → KeepsNamed names_of w result }
    ensures retains { Retains heap.old heap.new }
{
    match heap.own(object, key, steps) {
        // step 1.a
        None => match heap.proto(object) {
            // step 1.c: as if a writable data property were found
            None => set_receiver(heap, key, value, receiver),
            // step 1.b
            Some(parent) => {
                heap.charge(1)?;
                let request = Request::Write {
                    object: parent,
                    key,
                    value,
                    receiver,
                    site: None,
                };
                Ok(Turn::Ask(request, OrdinaryFrame::ParentSet))
            }
        },
        // step 2
        Some(Complete::Stored { attributes, .. }) => {
            if attributes.writable {
                set_receiver(heap, key, value, receiver)
            } else {
                // step 2.a
                Ok(Turn::Done(Completion::Normal(Reply::Flag(false))))
            }
        }
        // step 5
        Some(Complete::Accessor { set: None, .. }) => {
            Ok(Turn::Done(Completion::Normal(Reply::Flag(false))))
        }
        // step 6
        Some(
            Complete::Accessor {
                set: Some(setter),
                ..
            },
        ) => {
            let mut arguments = Values::new(alloc);
            arguments.push(value)?;
            let request = Request::Call {
                function: Value::Object(setter),
                this: receiver,
                arguments,
            };
            Ok(Turn::Ask(request, OrdinaryFrame::SetterCalled))
        }
    }
}

/// Step 7 of OrdinarySetWithOwnDescriptor (10.1.9.2), after the setter was called.
pub(crate) fn set_called(heap: &mut Heap, answer: Completion) -> Result<Turn<OrdinaryFrame>, Stop>
    ensures stops { (w : World) → StandsFor heap.old w → Stops program_after heap.old heap.new w (stage_of (set_called (answered answer)) w) result }
    ensures named { (w : World) → KeepsNamed names_of w result }
    ensures retains { Retains heap.old heap.new }
{
    match answer.value() {
        Ok(_) => Ok(Turn::Done(Completion::Normal(Reply::Flag(true)))),
        Err(thrown) => Ok(Turn::Done(Completion::Throw(thrown))),
    }
}
