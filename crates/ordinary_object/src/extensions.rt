//! Whether an object can be extended (10.1.3, 10.1.4).

ghost use Rattle.es_model.specs.Stages.{stage_of};
ghost use Rattle.es_model.specs.World.{World};
ghost use Rattle.ordinary_object.specs.Ordinary.{ordinary_is_extensible, ordinary_prevent_extensions};
ghost use Rattle.object_heap.specs.Retains.{Retains};
ghost use Rattle.object_heap.specs.Stands.{StandsFor};
ghost use Rattle.object_heap.specs.Stops.{Stops};
ghost use Rattle.object_heap.specs.Turns.{KeepsNamed};
ghost use Rattle.ordinary_object.specs.Names.{names_of};
ghost use Rattle.ordinary_object.specs.Rests.{program_after};

use crate::OrdinaryFrame;
use es_model::{Completion, Reply, Stop, Turn};
use object_heap::Heap;
use property_keys::{Ledger, ObjectId, Steps};

/// OrdinaryIsExtensible (10.1.3.1), which is [[IsExtensible]] (10.1.3).
pub(crate) fn ordinary_is_extensible(
    heap: &mut Heap,
    object: ObjectId,
) -> Result<Turn<OrdinaryFrame>, Stop>
    ensures stops { (w : World) → StandsFor heap.old w → Stops program_after heap.old heap.new w (stage_of (ordinary_is_extensible object) w) result }
    ensures named { (w : World) → KeepsNamed names_of w result }
    ensures retains { Retains heap.old heap.new }
{
    let is_extensible = heap.extensible(object);
    Ok(Turn::Done(Completion::Normal(Reply::Flag(is_extensible))))
}

/// OrdinaryPreventExtensions (10.1.4.1), which is [[PreventExtensions]] (10.1.4).
pub(crate) fn ordinary_prevent_extensions<L: Ledger>(
    heap: &mut Heap,
    object: ObjectId,
    steps: &mut Steps<L>,
) -> Result<Turn<OrdinaryFrame>, Stop>
    ensures stops { (w : World) → StandsFor heap.old w → Stops program_after heap.old heap.new w (stage_of (ordinary_prevent_extensions object) w) result }
    ensures named { (w : World) → KeepsNamed names_of w result }
    ensures retains { Retains heap.old heap.new }
{
    heap.prevent(object, steps)?;
    Ok(Turn::Done(Completion::Normal(Reply::Flag(true))))
}
