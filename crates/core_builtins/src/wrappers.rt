//! Number and Boolean objects that are constructed (ECMA-262, 20.3.1.1, 21.1.1.1).

ghost use Rattle.es_model.specs.Completions.{answered};
ghost use Rattle.es_model.specs.Known.{IsKnown, IsObject};
ghost use Rattle.es_model.specs.World.{World};
ghost use Rattle.object_heap.specs.Retains.{Retains};
ghost use Rattle.object_heap.specs.Turns.{KeepsNamed};
ghost use Rattle.core_builtins.specs.Constructed.{create_wrapper, wrapper_given, wrapper_made};
ghost use Rattle.core_builtins.specs.Names.{names_of};
ghost use Rattle.core_builtins.specs.Turns.{StopsAt};

use crate::asking::get_named;
use crate::frame::{CoreFrame, WrapperFrame, Wrapping};
use es_model::{Class, Completion, ObjectKind, Reply, Stop, Turn};
use function_objects::prototype_of;
use object_heap::Heap;
use property_keys::{Ledger, ObjectId, Steps, Value};
use slack_tracking::OriginKind;

/// OrdinaryCreateFromConstructor (10.1.13) of an object with this value in its inner slot.
#[tactic(auto, using(object_heap::specs::Stands::goes_none, object_heap::specs::Stands::goes_then, object_heap::specs::Stands::halts_at, object_heap::proofs::Retaining::retains_none, object_heap::proofs::Retaining::retains_then, object_heap::proofs::Turns::named_ask, object_heap::proofs::Turns::named_done, object_heap::proofs::Turns::named_stop), unfolding(crate::specs::Constructed::create_wrapper))]
pub(crate) fn create_wrapper(
    heap: &mut Heap,
    class: Class,
    value: Value,
    target: ObjectId,
) -> Result<Turn<CoreFrame>, Stop>
    ensures stops { StopsAt heap.old heap.new (create_wrapper class value target) result }
    ensures named { (w : World) → IsKnown w.lists value → IsObject w.lists target → KeepsNamed names_of w result }
    ensures retains { Retains heap.old heap.new }
{
    let wrapping = Wrapping {
        class,
        value,
        target,
    };
    let frame = CoreFrame::Wrapper(WrapperFrame::PrototypeGiven(wrapping));
    get_named(heap, target, b"prototype", frame)
}

/// What follows the question for the prototype.
pub(crate) fn wrapper_given<L: Ledger>(
    heap: &mut Heap,
    wrapping: Wrapping,
    answer: Completion,
    steps: &mut Steps<L>,
) -> Result<Turn<CoreFrame>, Stop>
    ensures stops { StopsAt heap.old heap.new (wrapper_given wrapping.class wrapping.value wrapping.target (answered answer)) result }
    ensures named { (w : World) → KeepsNamed names_of w result }
    ensures retains { Retains heap.old heap.new }
{
    match prototype_of(heap, wrapping.class, wrapping.target, answer, steps)? {
        Ok(prototype) => wrapper_made(heap, wrapping.value, prototype, steps),
        Err(thrown) => Ok(Turn::Done(Completion::Throw(thrown))),
    }
}

/// The new object.
fn wrapper_made<L: Ledger>(
    heap: &mut Heap,
    value: Value,
    prototype: ObjectId,
    steps: &mut Steps<L>,
) -> Result<Turn<CoreFrame>, Stop>
    ensures stops { StopsAt heap.old heap.new (wrapper_made value prototype) result }
    ensures named { (w : World) → KeepsNamed names_of w result }
    ensures retains { Retains heap.old heap.new }
{
    let origin = heap.origin_for(OriginKind::Wrapper, 4)?;
    let object = heap.make(ObjectKind::Wrapper(value), origin, Some(prototype), steps)?;
    Ok(Turn::Done(Completion::Normal(Reply::Value(Value::Object(object)))))
}
