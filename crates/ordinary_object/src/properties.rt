//! Own properties: 10.1.5, 10.1.6, 10.1.10, 10.1.11.

ghost use Rattle.es_model.specs.Stages.{stage_of};
ghost use Rattle.es_model.specs.World.{World};
ghost use Rattle.ordinary_object.specs.Ordinary.{ordinary_define_own_property, ordinary_delete, ordinary_get_own_property, ordinary_own_property_keys};
ghost use Rattle.object_heap.specs.Retains.{Retains};
ghost use Rattle.object_heap.specs.Stands.{StandsFor};
ghost use Rattle.object_heap.specs.Stops.{Stops};
ghost use Rattle.object_heap.specs.Turns.{KeepsNamed};
ghost use Rattle.ordinary_object.specs.Names.{names_of};
ghost use Rattle.ordinary_object.specs.Rests.{program_after};

use crate::OrdinaryFrame;
use descriptors::Descriptor;
use es_model::{Completion, Reply, Stop, Turn};
use object_heap::Heap;
use property_keys::{Ledger, ObjectId, PropKey, Steps};

/// OrdinaryGetOwnProperty (10.1.5.1), which is [[GetOwnProperty]] (10.1.5).
pub(crate) fn ordinary_get_own_property<L: Ledger>(
    heap: &mut Heap,
    object: ObjectId,
    key: PropKey,
    steps: &mut Steps<L>,
) -> Result<Turn<OrdinaryFrame>, Stop>
    ensures stops { (w : World) → StandsFor heap.old w → Stops program_after heap.old heap.new w (stage_of (ordinary_get_own_property object key) w) result }
    ensures named { (w : World) → KeepsNamed names_of w result }
    ensures retains { Retains heap.old heap.new }
{
    let property = heap.own(object, key, steps);
    Ok(Turn::Done(Completion::Normal(Reply::Property(property))))
}

/// OrdinaryDefineOwnProperty (10.1.6.1), which is [[DefineOwnProperty]] (10.1.6).
pub(crate) fn ordinary_define_own_property<L: Ledger>(
    heap: &mut Heap,
    object: ObjectId,
    key: PropKey,
    wanted: &Descriptor,
    steps: &mut Steps<L>,
) -> Result<Turn<OrdinaryFrame>, Stop>
    ensures stops { (w : World) → StandsFor heap.old w → Stops program_after heap.old heap.new w (stage_of (ordinary_define_own_property object key wanted.now) w) result }
    ensures named { (w : World) → KeepsNamed names_of w result }
    ensures retains { Retains heap.old heap.new }
{
    let is_defined = heap.define_own(object, key, wanted, steps)?;
    Ok(Turn::Done(Completion::Normal(Reply::Flag(is_defined))))
}

/// OrdinaryDelete (10.1.10.1), which is [[Delete]] (10.1.10).
pub(crate) fn ordinary_delete<L: Ledger>(
    heap: &mut Heap,
    object: ObjectId,
    key: PropKey,
    steps: &mut Steps<L>,
) -> Result<Turn<OrdinaryFrame>, Stop>
    ensures stops { (w : World) → StandsFor heap.old w → Stops program_after heap.old heap.new w (stage_of (ordinary_delete object key) w) result }
    ensures named { (w : World) → KeepsNamed names_of w result }
    ensures retains { Retains heap.old heap.new }
{
    let is_deleted = heap.delete_own(object, key, steps)?;
    Ok(Turn::Done(Completion::Normal(Reply::Flag(is_deleted))))
}

/// OrdinaryOwnPropertyKeys (10.1.11.1), which is [[OwnPropertyKeys]] (10.1.11).
pub(crate) fn ordinary_own_property_keys<L: Ledger>(
    heap: &mut Heap,
    object: ObjectId,
    steps: &mut Steps<L>,
) -> Result<Turn<OrdinaryFrame>, Stop>
    ensures stops { (w : World) → StandsFor heap.old w → Stops program_after heap.old heap.new w (stage_of (ordinary_own_property_keys object) w) result }
    ensures named { (w : World) → KeepsNamed names_of w result }
    ensures retains { Retains heap.old heap.new }
{
    let keys = heap.keys(object, steps)?;
    Ok(Turn::Done(Completion::Normal(Reply::Keys(keys))))
}
