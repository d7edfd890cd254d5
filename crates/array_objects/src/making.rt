//! An Array object is made, and gets elements behind its last one.

ghost use Rattle.std.specs.Prelude.{◌≡◌, ◌≤◌, ◌<◌, IfOk, OnOk};
ghost use Rattle.property_keys.specs.Keys.{most_index};
ghost use Rattle.es_model.specs.Known.{IsObject};
ghost use Rattle.es_model.specs.Sound.{most_length};
ghost use Rattle.es_model.specs.World.{World};
ghost use Rattle.array_objects.specs.Making.{appended_world, element_property, length_property, made_world, new_array, raised_world};
ghost use Rattle.object_heap.specs.Retains.{Retains};
ghost use Rattle.object_heap.specs.Stands.{Goes, StandsFor};

use descriptors::Descriptor;
use es_model::ObjectKind;
use object_heap::Heap;
use property_keys::{Ledger, NoMemory, ObjectId, PropKey, Steps, Value};
use slack_tracking::OriginKind;

/// How many fields lie in an Array object.
const PLACES: u32 = 4;

/// `length`, which is writable only.
fn length_property(length: u32) -> Descriptor
    ensures { result ≡ length_property length }
{
    Descriptor {
        value: Some(Value::Whole(i64::from(length))),
        writable: Some(true),
        get: None,
        set: None,
        enumerable: Some(false),
        configurable: Some(false),
    }
}

/// A property as an assignment makes one (ECMA-262, CreateDataProperty, 7.3.5).
fn element_property(value: Value) -> Descriptor
    ensures { result ≡ element_property value }
{
    Descriptor {
        value: Some(value),
        writable: Some(true),
        get: None,
        set: None,
        enumerable: Some(true),
        configurable: Some(true),
    }
}

/// A new Array object with this length and this prototype (ECMA-262, ArrayCreate, 10.4.2.2), whose elements are all absent.
///
/// It takes no turn. NoMemory is the one error, and what was made before it stays.
#[tactic(auto, using(object_heap::specs::Stands::goes_none, object_heap::specs::Stands::goes_then, object_heap::proofs::Retaining::retains_none, object_heap::proofs::Retaining::retains_then), unfolding(crate::specs::Making::made_world))]
pub fn make_array<L: Ledger>(
    heap: &mut Heap,
    length: u32,
    prototype: ObjectId,
    steps: &mut Steps<L>,
) -> Result<ObjectId, NoMemory>
    ensures array { IfOk result (λ array. (w : World) → StandsFor heap.old w → array ≡ new_array w) }
    ensures goes { OnOk result ((w : World) → StandsFor heap.old w → Goes heap.old heap.new w (made_world length prototype w)) }
    ensures retains { Retains heap.old heap.new }
{
    let key = PropKey::Name(heap.word(b"length")?);
    let origin = heap.origin_for(OriginKind::Array, PLACES)?;
    let array = heap.make(ObjectKind::Array, origin, Some(prototype), steps)?;
    heap.define_own(array, key, &length_property(length), steps)?;
    Ok(array)
}

/// The length of a new Array object is raised (ECMA-262, ArraySetLength, 10.4.2.4), which nothing refuses.
///
/// It takes no turn. NoMemory is the one error, and what was made before it stays.
#[tactic(auto, using(object_heap::specs::Stands::goes_none, object_heap::specs::Stands::goes_then, object_heap::proofs::Retaining::retains_none, object_heap::proofs::Retaining::retains_then), unfolding(crate::specs::Making::raised_world))]
pub fn raise_length<L: Ledger>(
    heap: &mut Heap,
    array: ObjectId,
    length: u32,
    steps: &mut Steps<L>,
) -> Result<(), NoMemory>
    ensures goes { OnOk result ((w : World) → StandsFor heap.old w → Goes heap.old heap.new w (raised_world array length w)) }
    ensures retains { Retains heap.old heap.new }
{
    let key = PropKey::Name(heap.word(b"length")?);
    heap.define_own(array, key, &length_property(length), steps)?;
    Ok(())
}

/// A new Array object of this length gets an element behind its last one (ECMA-262, CreateDataPropertyOrThrow, 7.3.7, and [[DefineOwnProperty]], 10.4.2.1),
/// which nothing refuses.
///
/// It takes no turn. NoMemory is the one error, and what was made before it stays.
#[tactic(auto, using(object_heap::specs::Stands::goes_none, object_heap::specs::Stands::goes_then, object_heap::proofs::Retaining::retains_none, object_heap::proofs::Retaining::retains_then), unfolding(crate::specs::Making::appended_world))]
pub fn append_element<L: Ledger>(
    heap: &mut Heap,
    array: ObjectId,
    length: u32,
    value: Value,
    steps: &mut Steps<L>,
) -> Result<(), NoMemory>
    requires { length ≤ most_index }
    ensures goes { OnOk result ((w : World) → StandsFor heap.old w → Goes heap.old heap.new w (appended_world array length value w)) }
    ensures retains { Retains heap.old heap.new }
{
    let wanted = element_property(value);
    heap.define_own(array, PropKey::Index(length), &wanted, steps)?;
    raise_length(heap, array, length + 1, steps)
}
