//! The parts of [[Construct]] (ECMA-262, 10.2.2) before and behind the body of a function of the script.

ghost use Rattle.std.specs.Prelude.{◌≡◌, ℕ, IfOk, None, OnOk, Some, codes, slice_get};
ghost use Rattle.property_keys.specs.declared.keys.PropKey.TheVariants.{Name};
ghost use Rattle.property_keys.specs.declared.values.Value.TheVariants as values;
ghost use Rattle.es_model.specs.declared.requests.Request.TheVariants.{Read};
ghost use Rattle.es_model.specs.Completions.{answered};
ghost use Rattle.es_model.specs.Changes.{Interning, changed};
ghost use Rattle.es_model.specs.World.{World, new_object, number_of};
ghost use Rattle.es_model.specs.programs.Abrupt.{or_throw};
ghost use Rattle.function_objects.specs.Constructing.{constructed_world, has_realm, noted_world, prototype_result, prototype_world, proxy_target, result_by_realm, result_by_value, revoked_error, revoked_world, world_by_realm, world_by_value};
ghost use Rattle.object_heap.specs.Origins.{origin_at};
ghost use Rattle.object_heap.specs.Retains.{Retains};
ghost use Rattle.object_heap.specs.Stands.{Goes, StandsFor};
ghost use Rattle.slack_tracking.specs.declared.OriginKind.TheVariants as origin_kind;

use es_model::{Class, Completion, ErrorKind, Intrinsic, ObjectKind, Request};
use es_tree::FunctionFacts;
use map_store::OriginId;
use object_heap::{Heap, constructor_places};
use property_keys::{Ledger, NoMemory, ObjectId, PropKey, Steps, Value};
use slack_tracking::OriginKind;

/// The origin of what a function constructs.
fn constructor_origin(heap: &mut Heap, facts: FunctionFacts) -> Result<OriginId, NoMemory>
    ensures kind { IfOk result (λ id. origin_at heap.new id ≡ origin_kind.Constructor facts.place) }
    ensures goes { OnOk result ((w : World) (f : ℕ) → slice_get w.script.functions f ≡ Some facts → StandsFor heap.old w → Goes heap.old heap.new w w) }
    ensures retains { Retains heap.old heap.new }
{
    let places = constructor_places(facts.this_names);
    let origin = heap.origin_for(OriginKind::Constructor(facts.place), places)?;
    Ok(origin)
}

/// The event of a construction by a function of the script, of which the facts are given. It stands behind the last step of the construction, also where
/// that throws. NoMemory where the origin finds no room.
pub fn note_construction(heap: &mut Heap, facts: FunctionFacts) -> Result<(), NoMemory>
    ensures goes { OnOk result ((w : World) (f : ℕ) → slice_get w.script.functions f ≡ Some facts → StandsFor heap.old w → Goes heap.old heap.new w (noted_world facts w)) }
    ensures retains { Retains heap.old heap.new }
{
    let origin = constructor_origin(heap, facts)?;
    heap.constructed(origin);
    Ok(())
}

/// What GetPrototypeFromConstructor asks first (10.1.14, step 2): the value under "prototype" of the constructor, with the constructor as the receiver.
/// NoMemory where that name finds no room.
pub fn prototype_request(heap: &mut Heap, target: ObjectId) -> Result<Request, NoMemory>
    ensures request { IfOk result (λ request. (w : World) → StandsFor heap.old w → request ≡ Read target (Name (number_of w.lists (codes "prototype"))) (values.Object target) None) }
    ensures goes { OnOk result ((w : World) → StandsFor heap.old w → Goes heap.old heap.new w (changed (Interning (codes "prototype")) w)) }
    ensures retains { Retains heap.old heap.new }
{
    let name = heap.word(b"prototype")?;
    Ok(Request::Read {
        object: target,
        key: PropKey::Name(name),
        receiver: Value::Object(target),
        site: None,
    })
}

/// The target of a Proxy: Some where it is a Proxy, and within that None where it is revoked.
fn proxy_target(kind: &ObjectKind) -> Option<Option<ObjectId>>
    ensures { result ≡ proxy_target kind.now }
{
    match kind {
        ObjectKind::Proxy { target, .. } => Some(*target),
        ObjectKind::Ordinary
        | ObjectKind::Function { .. }
        | ObjectKind::Builtin { .. }
        | ObjectKind::Array
        | ObjectKind::Text(_)
        | ObjectKind::Wrapper(_)
        | ObjectKind::Arguments { .. }
        | ObjectKind::Error => None,
    }
}

/// GetFunctionRealm (7.3.25): there is one realm, and a Proxy that is revoked has none.
fn has_realm(heap: &Heap, target: ObjectId) -> bool
    ensures { (w : World) → StandsFor heap.now w → result ≡ has_realm w.lists target }
{
    let mut left = heap.objects();
    let mut object = target;
    'targets: while left > 0 {
        match proxy_target(heap.kind(object)) {
            None => return true,
            Some(None) => return false,
            Some(Some(next)) => object = next,
        }
        left -= 1;
    }
    true
}

/// The TypeError of a Proxy that is revoked.
fn revoked<L: Ledger>(heap: &mut Heap, steps: &mut Steps<L>) -> Result<Value, NoMemory>
    ensures error { IfOk result (λ error. (w : World) → StandsFor heap.old w → error ≡ revoked_error w) }
    ensures goes { OnOk result ((w : World) → StandsFor heap.old w → Goes heap.old heap.new w (revoked_world w)) }
    ensures retains { Retains heap.old heap.new }
{
    let text = heap.word(b"proxy is revoked")?;
    let error = heap.make_error(ErrorKind::TypeError, text, steps)?;
    Ok(Value::Object(error))
}

/// Steps 3.a and 3.b of GetPrototypeFromConstructor (10.1.14): the realm's own prototype of a class, or the TypeError that is thrown.
fn realm_prototype<L: Ledger>(
    heap: &mut Heap,
    default: Class,
    target: ObjectId,
    steps: &mut Steps<L>,
) -> Result<Result<ObjectId, Value>, NoMemory>
    ensures found { IfOk result (λ found. (w : World) → StandsFor heap.old w → or_throw found ≡ result_by_realm default (has_realm w.lists target) w) }
    ensures goes { OnOk result ((w : World) → StandsFor heap.old w → Goes heap.old heap.new w (world_by_realm (has_realm w.lists target) w)) }
    ensures retains { Retains heap.old heap.new }
{
    if has_realm(heap, target) {
        return Ok(Ok(Intrinsic::Prototype(default).object()));
    }
    let error = revoked(heap, steps)?;
    Ok(Err(error))
}

/// Steps 3 and 4 of GetPrototypeFromConstructor (10.1.14), of the value that was read.
fn value_prototype<L: Ledger>(
    heap: &mut Heap,
    default: Class,
    target: ObjectId,
    value: Value,
    steps: &mut Steps<L>,
) -> Result<Result<ObjectId, Value>, NoMemory>
    ensures found { IfOk result (λ found. (w : World) → StandsFor heap.old w → or_throw found ≡ result_by_value default target value w) }
    ensures goes { OnOk result ((w : World) → StandsFor heap.old w → Goes heap.old heap.new w (world_by_value target value w)) }
    ensures retains { Retains heap.old heap.new }
{
    match value {
        Value::Object(prototype) => Ok(Ok(prototype)),
        Value::Undefined
        | Value::Null
        | Value::Bool(_)
        | Value::Whole(_)
        | Value::Text(_)
        | Value::Symbol(_) => realm_prototype(heap, default, target, steps),
    }
}

/// GetPrototypeFromConstructor (10.1.14), once the value under "prototype" is there: that value where it is an Object, and else the realm's own prototype of
/// a class. Or what is thrown: by the read, or a TypeError where the constructor is a Proxy that leads to a revoked one (7.3.25). NoMemory where that error
/// finds no room.
pub fn prototype_of<L: Ledger>(
    heap: &mut Heap,
    default: Class,
    target: ObjectId,
    answer: Completion,
    steps: &mut Steps<L>,
) -> Result<Result<ObjectId, Value>, NoMemory>
    ensures found { IfOk result (λ found. (w : World) → StandsFor heap.old w → or_throw found ≡ prototype_result default target (answered answer) w) }
    ensures goes { OnOk result ((w : World) → StandsFor heap.old w → Goes heap.old heap.new w (prototype_world target (answered answer) w)) }
    ensures retains { Retains heap.old heap.new }
{
    match answer.value() {
        Ok(value) => {
            let found = value_prototype(heap, default, target, value, steps)?;
            Ok(found)
        }
        Err(thrown) => Ok(Err(thrown)),
    }
}

/// The new object of a construction by a function of the script, with its prototype (10.1.13). Its origin is that function.
/// NoMemory where the origin or the object finds no room.
pub fn new_constructed<L: Ledger>(
    heap: &mut Heap,
    facts: FunctionFacts,
    prototype: ObjectId,
    steps: &mut Steps<L>,
) -> Result<ObjectId, NoMemory>
    ensures object { IfOk result (λ object. (w : World) (f : ℕ) → slice_get w.script.functions f ≡ Some facts → StandsFor heap.old w → object ≡ new_object w.lists) }
    ensures goes { OnOk result ((w : World) (f : ℕ) → slice_get w.script.functions f ≡ Some facts → StandsFor heap.old w → Goes heap.old heap.new w (constructed_world facts prototype w)) }
    ensures retains { Retains heap.old heap.new }
{
    let origin = constructor_origin(heap, facts)?;
    let object = heap.make(ObjectKind::Ordinary, origin, Some(prototype), steps)?;
    Ok(object)
}
