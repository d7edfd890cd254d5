//! Callers of the object heap, two of them with four calls in a row, which show that its contracts are enough for them: none has a proof file. The law names its lemma.
#![tactic(auto, using(object_heap::specs::Stands::goes_none, object_heap::specs::Stands::goes_then, object_heap::specs::Stands::halts_at))]

ghost use Rattle.std.specs.Prelude.{ℕ, List, OnOk};
ghost use Rattle.property_keys.specs.declared.keys.PropKey.{PropKey};
ghost use Rattle.es_tree.specs.declared.numbers.SiteId.{SiteId};
ghost use Rattle.es_model.specs.Changes.{Accessing, changed, printed_more};
ghost use Rattle.es_model.specs.Events.{Way};
ghost use Rattle.es_model.specs.Stages.{stage_of};
ghost use Rattle.es_model.specs.World.{World};
ghost use Rattle.object_heap.specs.Stands.{Goes, HeapView, StandsFor};
ghost use Rattle.object_heap.specs.Stops.{Stops};
ghost use Rattle.heap_callers.specs.Programs.{no_rest, put_program, strip_program};

use descriptors::Descriptor;
use es_model::{Completion, ObjectKind, Reply, Stop, Turn};
use object_heap::Heap;
use property_keys::{Ledger, NoMemory, ObjectId, PropKey, Steps, Value};
use slack_tracking::OriginKind;

/// Takes a turn, and makes an object with one property.
pub fn put<L: Ledger>(
    heap: &mut Heap,
    key: PropKey,
    wanted: &Descriptor,
    steps: &mut Steps<L>,
) -> Result<Turn<u32>, Stop>
    ensures { (w : World) → StandsFor heap.old w → Stops no_rest heap.old heap.new w (stage_of (put_program key wanted.now) w) result }
{
    heap.charge(1)?;
    let origin = heap.origin_for(OriginKind::Plain, 4)?;
    let object = heap.make(ObjectKind::Ordinary, origin, None, steps)?;
    heap.define_own(object, key, wanted, steps)?;
    Ok(Turn::Done(Completion::Normal(Reply::Value(Value::Object(object)))))
}

/// Takes a turn, and strips an object of a property, its prototype and all that could come.
pub fn strip<L: Ledger>(
    heap: &mut Heap,
    object: ObjectId,
    key: PropKey,
    steps: &mut Steps<L>,
) -> Result<Turn<u32>, Stop>
    ensures { (w : World) → StandsFor heap.old w → Stops no_rest heap.old heap.new w (stage_of (strip_program object key) w) result }
{
    heap.charge(1)?;
    let is_deleted = heap.delete_own(object, key, steps)?;
    heap.set_proto(object, None, steps)?;
    heap.prevent(object, steps)?;
    Ok(Turn::Done(Completion::Normal(Reply::Flag(is_deleted))))
}

/// Notes an access of an object, as a read or a write at a site begins.
pub fn note<L: Ledger>(
    heap: &mut Heap,
    object: ObjectId,
    steps: &mut Steps<L>,
) -> Result<(), NoMemory>
    ensures { OnOk result ((w : World) (site : SiteId) (way : Way) (key : PropKey) → StandsFor heap.old w → Goes heap.old heap.new w (changed (Accessing site way object key) w)) }
{
    heap.touch(object, steps)
}

/// What is printed changes no heap.
pub fn prints_change_no_heap()
    ensures { (heap : HeapView) (w : World) (bytes : List ℕ) → StandsFor heap w → Goes heap heap w (printed_more w bytes) }
{}
