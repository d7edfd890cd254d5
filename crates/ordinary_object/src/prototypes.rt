//! Prototypes: 10.1.1, 10.1.2, 10.4.7.

ghost use Rattle.std.specs.Prelude.{◌≡◌};
ghost use Rattle.es_model.specs.Changes.{same_proto};
ghost use Rattle.es_model.specs.Stages.{stage_of};
ghost use Rattle.es_model.specs.World.{World};
ghost use Rattle.ordinary_object.specs.Ordinary.{ordinary_get_prototype_of, set_immutable_prototype, ordinary_set_prototype_of, same_object, set_prototype_of};
ghost use Rattle.object_heap.specs.Retains.{Retains};
ghost use Rattle.object_heap.specs.Stands.{StandsFor};
ghost use Rattle.object_heap.specs.Stops.{Stops};
ghost use Rattle.object_heap.specs.Turns.{KeepsNamed};
ghost use Rattle.ordinary_object.specs.Names.{names_of};
ghost use Rattle.ordinary_object.specs.Rests.{program_after};

use crate::OrdinaryFrame;
use crate::rounds::set_prototype_rounds;
use es_model::{Class, Completion, Intrinsic, Reply, Stop, Turn};
use object_heap::Heap;
use property_keys::{Ledger, ObjectId, Steps};

/// OrdinaryGetPrototypeOf (10.1.1.1), which is [[GetPrototypeOf]] (10.1.1).
pub(crate) fn ordinary_get_prototype_of(
    heap: &mut Heap,
    object: ObjectId,
) -> Result<Turn<OrdinaryFrame>, Stop>
    ensures stops { (w : World) → StandsFor heap.old w → Stops program_after heap.old heap.new w (stage_of (ordinary_get_prototype_of object) w) result }
    ensures named { (w : World) → KeepsNamed names_of w result }
    ensures retains { Retains heap.old heap.new }
{
    let proto = heap.proto(object);
    Ok(Turn::Done(Completion::Normal(Reply::Proto(proto))))
}

/// [[SetPrototypeOf]] (10.1.2, 10.4.7.1): that of %Object.prototype% is SetImmutablePrototype.
pub(crate) fn set_prototype_of<L: Ledger>(
    heap: &mut Heap,
    object: ObjectId,
    wanted: Option<ObjectId>,
    steps: &mut Steps<L>,
) -> Result<Turn<OrdinaryFrame>, Stop>
    ensures stops { (w : World) → StandsFor heap.old w → Stops program_after heap.old heap.new w (stage_of (set_prototype_of object wanted) w) result }
    ensures named { (w : World) → KeepsNamed names_of w result }
    ensures retains { Retains heap.old heap.new }
{
    if same_object(object, Intrinsic::Prototype(Class::Object).object()) {
        set_immutable_prototype(heap, object, wanted)
    } else {
        ordinary_set_prototype_of(heap, object, wanted, steps)
    }
}

/// SetImmutablePrototype (10.4.7.2).
fn set_immutable_prototype(
    heap: &mut Heap,
    object: ObjectId,
    wanted: Option<ObjectId>,
) -> Result<Turn<OrdinaryFrame>, Stop>
    ensures stops { (w : World) → StandsFor heap.old w → Stops program_after heap.old heap.new w (stage_of (set_immutable_prototype object wanted) w) result }
    ensures named { (w : World) → KeepsNamed names_of w result }
    ensures retains { Retains heap.old heap.new }
{
    let is_same = same_proto(heap.proto(object), wanted);
    Ok(Turn::Done(Completion::Normal(Reply::Flag(is_same))))
}

/// OrdinarySetPrototypeOf (10.1.2.1).
fn ordinary_set_prototype_of<L: Ledger>(
    heap: &mut Heap,
    object: ObjectId,
    wanted: Option<ObjectId>,
    steps: &mut Steps<L>,
) -> Result<Turn<OrdinaryFrame>, Stop>
    ensures stops { (w : World) → StandsFor heap.old w → Stops program_after heap.old heap.new w (stage_of (ordinary_set_prototype_of object wanted) w) result }
    ensures named { (w : World) → KeepsNamed names_of w result }
    ensures retains { Retains heap.old heap.new }
{
    // steps 1 and 2
    if same_proto(heap.proto(object), wanted) {
        Ok(Turn::Done(Completion::Normal(Reply::Flag(true))))
    } else if heap.extensible(object) {
        // steps 5 to 9
        set_prototype_rounds(heap, object, wanted, steps)
    } else {
        // steps 3 and 4
        Ok(Turn::Done(Completion::Normal(Reply::Flag(false))))
    }
}

pub(crate) fn same_object(a: ObjectId, b: ObjectId) -> bool
    ensures { result ≡ same_object a b }
{
    a.0 == b.0
}

fn same_proto(a: Option<ObjectId>, b: Option<ObjectId>) -> bool
    ensures { result ≡ same_proto a b }
{
    match (a, b) {
        (None, None) => true,
        (Some(a), Some(b)) => a.0 == b.0,
        (None, Some(_)) | (Some(_), None) => false,
    }
}
