//! [[Set]] (ECMA-262, 10.4.4.4).

ghost use Rattle.std.specs.Prelude.{◌≡◌, None, Some};
ghost use Rattle.es_model.specs.Fits.{IsKnownRequest};
ghost use Rattle.es_model.specs.World.{World};
ghost use Rattle.es_model.specs.declared.requests.Request.TheVariants.{Write};
ghost use Rattle.object_heap.specs.Retains.{Retains};
ghost use Rattle.object_heap.specs.Stands.{StandsFor};
ghost use Rattle.object_heap.specs.Turns.{KeepsNamed, world_after};
ghost use Rattle.ordinary_object.specs.Names.{names_of};
ghost use Rattle.arguments_exotic.specs.Arguments.{arguments_set, mapped_for, set_by, set_ordinary};
ghost use Rattle.arguments_exotic.specs.Turns.{StopsAt};

use crate::ordinary::ordinary;
use crate::parameter::{Parameter, mapped};
use crate::turns::ArgumentsFrame;
use es_model::{Request, Stop, Turn};
use object_heap::Heap;
use property_keys::{Ledger, ObjectId, PropKey, Steps, Value, same_value};
use std::alloc::Global;

/// The parameter that is written (steps 1 and 2): none for another receiver.
fn mapped_for(heap: &Heap, object: ObjectId, key: PropKey, receiver: Value) -> Option<Parameter>
    ensures { (w : World) → StandsFor heap.now w → result ≡ mapped_for w.lists object key receiver }
{
    if same_value(Value::Object(object), receiver) {
        mapped(heap, object, key)
    } else {
        None
    }
}

/// OrdinarySet (step 4). What it does with a stored property does not depend on the value of that, so the ordinary method reads the property of the list.
#[tactic(auto, using(crate::proofs::SetAlike::as_ordinary, crate::proofs::SetAlike::named_as_ordinary))]
fn set_ordinary<L: Ledger>(
    alloc: Global,
    heap: &mut Heap,
    object: ObjectId,
    key: PropKey,
    value: Value,
    receiver: Value,
    steps: &mut Steps<L>,
) -> Result<Turn<ArgumentsFrame>, Stop>
    ensures stops { StopsAt heap.old heap.new (set_ordinary object key value receiver) result }
    ensures named { (w : World) → StandsFor heap.old w → IsKnownRequest w.lists (Write object key value receiver None) → KeepsNamed names_of (world_after (set_ordinary object key value receiver) w) result }
    ensures retains { Retains heap.old heap.new }
{
    let request = Request::Write {
        object,
        key,
        value,
        receiver,
        site: None,
    };
    ordinary(alloc, heap, &request, steps)
}

/// Steps 3 and 4, where the key is mapped.
#[tactic(auto, using(object_heap::specs::Stops::stops_then, object_heap::proofs::Retaining::retains_then, crate::proofs::SetAlike::write_later))]
fn set_parameter<L: Ledger>(
    alloc: Global,
    heap: &mut Heap,
    object: ObjectId,
    key: PropKey,
    value: Value,
    receiver: Value,
    parameter: Parameter,
    steps: &mut Steps<L>,
) -> Result<Turn<ArgumentsFrame>, Stop>
    ensures stops { StopsAt heap.old heap.new (set_by object key value receiver (Some parameter)) result }
    ensures named { (w : World) → StandsFor heap.old w → IsKnownRequest w.lists (Write object key value receiver None) → KeepsNamed names_of (world_after (set_by object key value receiver (Some parameter)) w) result }
    ensures retains { Retains heap.old heap.new }
{
    heap.set_cell(parameter.cell, value);
    set_ordinary(alloc, heap, object, key, value, receiver, steps)
}

/// [[Set]] (10.4.4.4).
pub(crate) fn arguments_set<L: Ledger>(
    alloc: Global,
    heap: &mut Heap,
    object: ObjectId,
    key: PropKey,
    value: Value,
    receiver: Value,
    steps: &mut Steps<L>,
) -> Result<Turn<ArgumentsFrame>, Stop>
    ensures stops { StopsAt heap.old heap.new (arguments_set object key value receiver) result }
    ensures named { (w : World) → StandsFor heap.old w → IsKnownRequest w.lists (Write object key value receiver None) → KeepsNamed names_of (world_after (arguments_set object key value receiver) w) result }
    ensures retains { Retains heap.old heap.new }
{
    match mapped_for(heap, object, key, receiver) {
        None => set_ordinary(alloc, heap, object, key, value, receiver, steps),
        Some(parameter) => set_parameter(
            alloc, heap, object, key, value, receiver, parameter, steps,
        ),
    }
}
