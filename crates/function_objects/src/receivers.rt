//! The receiver of a call (ECMA-262, 10.2.1.2), and the objects that ToObject (7.1.18) makes for it.

ghost use Rattle.std.specs.Prelude.{◌≡◌, IfOk, OnOk};
ghost use Rattle.es_model.specs.World.{World, new_object};
ghost use Rattle.function_objects.specs.Receivers.{bound_value, bound_world, text_object_world, this_object, this_world, wrapper_world};
ghost use Rattle.object_heap.specs.Retains.{Retains};
ghost use Rattle.object_heap.specs.Stands.{Goes, StandsFor};

use descriptors::Descriptor;
use es_model::{Class, Intrinsic, ObjectKind};
use object_heap::Heap;
use property_keys::{Ledger, NoMemory, ObjectId, PropKey, Steps, TextId, Value};
use slack_tracking::OriginKind;

/// A new Boolean, Number, String or Symbol object (7.1.18).
fn make_wrapper<L: Ledger>(
    heap: &mut Heap,
    class: Class,
    kind: ObjectKind,
    steps: &mut Steps<L>,
) -> Result<ObjectId, NoMemory>
    ensures object { IfOk result (λ object. (w : World) → StandsFor heap.old w → object ≡ new_object w.lists) }
    ensures goes { OnOk result ((w : World) → StandsFor heap.old w → Goes heap.old heap.new w (wrapper_world class kind w)) }
    ensures retains { Retains heap.old heap.new }
{
    let origin = heap.origin_for(OriginKind::Wrapper, 4)?;
    let proto = Intrinsic::Prototype(class).object();
    let object = heap.make(kind, origin, Some(proto), steps)?;
    Ok(object)
}

/// A new String object, with its `length` (StringCreate, 10.4.3.4).
fn make_text_object<L: Ledger>(
    heap: &mut Heap,
    text: TextId,
    steps: &mut Steps<L>,
) -> Result<ObjectId, NoMemory>
    ensures object { IfOk result (λ object. (w : World) → StandsFor heap.old w → object ≡ new_object w.lists) }
    ensures goes { OnOk result ((w : World) → StandsFor heap.old w → Goes heap.old heap.new w (text_object_world text w)) }
    ensures retains { Retains heap.old heap.new }
{
    let length = heap.units(text).len() as i64;
    let object = make_wrapper(heap, Class::String, ObjectKind::Text(text), steps)?;
    let name = heap.word(b"length")?;
    let wanted = Descriptor {
        value: Some(Value::Whole(length)),
        writable: Some(false),
        get: None,
        set: None,
        enumerable: Some(false),
        configurable: Some(false),
    };
    heap.define_own(object, PropKey::Name(name), &wanted, steps)?;
    Ok(object)
}

/// Steps 6.a and 6.b of OrdinaryCallBindThis (10.2.1.2): the global object for undefined and null, and else the Object of the value.
fn this_object<L: Ledger>(
    heap: &mut Heap,
    this: Value,
    steps: &mut Steps<L>,
) -> Result<ObjectId, NoMemory>
    ensures object { IfOk result (λ object. (w : World) → StandsFor heap.old w → object ≡ this_object this w) }
    ensures goes { OnOk result ((w : World) → StandsFor heap.old w → Goes heap.old heap.new w (this_world this w)) }
    ensures retains { Retains heap.old heap.new }
{
    match this {
        Value::Undefined | Value::Null => Ok(Intrinsic::Global.object()),
        Value::Bool(_) => make_wrapper(heap, Class::Boolean, ObjectKind::Wrapper(this), steps),
        Value::Whole(_) => make_wrapper(heap, Class::Number, ObjectKind::Wrapper(this), steps),
        Value::Text(text) => make_text_object(heap, text, steps),
        Value::Symbol(_) => make_wrapper(heap, Class::Symbol, ObjectKind::Wrapper(this), steps),
        Value::Object(object) => Ok(object),
    }
}

/// OrdinaryCallBindThis (10.2.1.2): what `this` is in the body of a function. In strict code it is the value; in other code the global object for undefined and
/// null, and else the Object of the value (ToObject, 7.1.18). NoMemory where a new object or its `length` finds no room.
#[tactic(auto, using(object_heap::specs::Stands::goes_none, object_heap::specs::Stands::goes_then, object_heap::proofs::Retaining::retains_none, object_heap::proofs::Retaining::retains_then), unfolding(crate::specs::Receivers::bound_value, crate::specs::Receivers::bound_world))]
pub fn bind_this<L: Ledger>(
    heap: &mut Heap,
    strict: bool,
    this: Value,
    steps: &mut Steps<L>,
) -> Result<Value, NoMemory>
    ensures value { IfOk result (λ bound. (w : World) → StandsFor heap.old w → bound ≡ bound_value strict this w) }
    ensures goes { OnOk result ((w : World) → StandsFor heap.old w → Goes heap.old heap.new w (bound_world strict this w)) }
    ensures retains { Retains heap.old heap.new }
{
    if strict {
        return Ok(this);
    }
    let object = this_object(heap, this, steps)?;
    Ok(Value::Object(object))
}
