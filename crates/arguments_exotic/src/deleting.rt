//! [[Delete]] (ECMA-262, 10.4.4.5).

ghost use Rattle.std.specs.Prelude.{Some};
ghost use Rattle.es_model.specs.World.{World};
ghost use Rattle.object_heap.specs.Retains.{Retains};
ghost use Rattle.object_heap.specs.Turns.{KeepsNamed};
ghost use Rattle.ordinary_object.specs.Names.{names_of};
ghost use Rattle.arguments_exotic.specs.Arguments.{arguments_delete, delete_by};
ghost use Rattle.arguments_exotic.specs.Turns.{StopsAt};

use crate::defining::unmap;
use crate::parameter::{Parameter, mapped};
use crate::turns::ArgumentsFrame;
use es_model::{Completion, Reply, Stop, Turn};
use object_heap::Heap;
use property_keys::{Ledger, ObjectId, PropKey, Steps};

/// Steps 3 to 5, where the key is mapped.
#[tactic(auto, using(object_heap::specs::Stands::goes_none, object_heap::specs::Stands::goes_then, object_heap::specs::Stands::halts_at, object_heap::specs::Stops::stops_then, object_heap::proofs::Retaining::retains_none, object_heap::proofs::Retaining::retains_then, object_heap::proofs::Turns::named_done, object_heap::proofs::Turns::named_stop))]
fn delete_parameter<L: Ledger>(
    heap: &mut Heap,
    object: ObjectId,
    key: PropKey,
    parameter: Parameter,
    steps: &mut Steps<L>,
) -> Result<Turn<ArgumentsFrame>, Stop>
    ensures stops { StopsAt heap.old heap.new (delete_by object key (Some parameter)) result }
    ensures named { (w : World) → KeepsNamed names_of w result }
    ensures retains { Retains heap.old heap.new }
{
    if heap.delete_own(object, key, steps)? {
        unmap(heap, object, parameter)
    } else {
        Ok(Turn::Done(Completion::Normal(Reply::Flag(false))))
    }
}

/// [[Delete]] (10.4.4.5).
pub(crate) fn arguments_delete<L: Ledger>(
    heap: &mut Heap,
    object: ObjectId,
    key: PropKey,
    steps: &mut Steps<L>,
) -> Result<Turn<ArgumentsFrame>, Stop>
    ensures stops { StopsAt heap.old heap.new (arguments_delete object key) result }
    ensures named { (w : World) → KeepsNamed names_of w result }
    ensures retains { Retains heap.old heap.new }
{
    match mapped(heap, object, key) {
        None => {
            let is_deleted = heap.delete_own(object, key, steps)?;
            Ok(Turn::Done(Completion::Normal(Reply::Flag(is_deleted))))
        }
        Some(parameter) => delete_parameter(heap, object, key, parameter, steps),
    }
}
