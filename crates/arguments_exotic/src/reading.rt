//! [[GetOwnProperty]] (ECMA-262, 10.4.4.1) and [[Get]] (10.4.4.3).

ghost use Rattle.std.specs.Prelude.{◌≡◌, None};
ghost use Rattle.es_model.specs.Fits.{IsKnownRequest};
ghost use Rattle.es_model.specs.World.{World};
ghost use Rattle.es_model.specs.declared.requests.Request.TheVariants.{Read};
ghost use Rattle.object_heap.specs.Retains.{Retains};
ghost use Rattle.object_heap.specs.Stands.{StandsFor};
ghost use Rattle.object_heap.specs.Turns.{KeepsNamed, world_after};
ghost use Rattle.ordinary_object.specs.Names.{names_of};
ghost use Rattle.arguments_exotic.specs.Arguments.{arguments_get, arguments_get_own_property, own_property, with_parameter};
ghost use Rattle.arguments_exotic.specs.Turns.{StopsAt};

use crate::ordinary::ordinary;
use crate::parameter::{Parameter, mapped, parameter_value};
use crate::turns::ArgumentsFrame;
use descriptors::Complete;
use es_model::{Completion, Reply, Request, Stop, Turn};
use object_heap::Heap;
use property_keys::{Ledger, ObjectId, PropKey, Steps, Value};
use std::alloc::Global;

/// The property with the value of its parameter (10.4.4.1, steps 2, 5 and 6).
fn with_parameter(
    heap: &Heap,
    parameter: Option<Parameter>,
    property: Option<Complete>,
) -> Option<Complete>
    ensures { (w : World) → StandsFor heap.now w → result ≡ with_parameter w.lists parameter property }
{
    match parameter {
        None => property,
        Some(parameter) => match property {
            Some(Complete::Stored { attributes, .. }) => Some(Complete::Stored {
                value: parameter_value(heap, parameter),
                attributes,
            }),
            Some(Complete::Accessor { .. }) | None => property,
        },
    }
}

/// The own property, with the value of its parameter where it is mapped.
fn own_property<L: Ledger>(
    heap: &Heap,
    object: ObjectId,
    key: PropKey,
    steps: &mut Steps<L>,
) -> Option<Complete>
    ensures { (w : World) → StandsFor heap.now w → result ≡ own_property w.lists object key }
{
    let property = heap.own(object, key, steps);
    with_parameter(heap, mapped(heap, object, key), property)
}

/// [[GetOwnProperty]] (10.4.4.1).
pub(crate) fn arguments_get_own_property<L: Ledger>(
    heap: &mut Heap,
    object: ObjectId,
    key: PropKey,
    steps: &mut Steps<L>,
) -> Result<Turn<ArgumentsFrame>, Stop>
    ensures stops { StopsAt heap.old heap.new (arguments_get_own_property object key) result }
    ensures named { (w : World) → KeepsNamed names_of w result }
    ensures retains { Retains heap.old heap.new }
{
    let property = own_property(heap, object, key, steps);
    Ok(Turn::Done(Completion::Normal(Reply::Property(property))))
}

/// [[Get]] (10.4.4.3).
pub(crate) fn arguments_get<L: Ledger>(
    alloc: Global,
    heap: &mut Heap,
    object: ObjectId,
    key: PropKey,
    receiver: Value,
    steps: &mut Steps<L>,
) -> Result<Turn<ArgumentsFrame>, Stop>
    ensures stops { StopsAt heap.old heap.new (arguments_get object key receiver) result }
    ensures named { (w : World) → StandsFor heap.old w → IsKnownRequest w.lists (Read object key receiver None) → KeepsNamed names_of (world_after (arguments_get object key receiver) w) result }
    ensures retains { Retains heap.old heap.new }
{
    match mapped(heap, object, key) {
        // step 3
        None => {
            let request = Request::Read {
                object,
                key,
                receiver,
                site: None,
            };
            ordinary(alloc, heap, &request, steps)
        }
        // step 4
        Some(parameter) => {
            let value = parameter_value(heap, parameter);
            Ok(Turn::Done(Completion::Normal(Reply::Value(value))))
        }
    }
}
