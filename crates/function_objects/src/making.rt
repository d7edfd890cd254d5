//! Functions of the script are made (ECMA-262, 10.2.3 to 10.2.10, 15.2).

ghost use Rattle.std.specs.Prelude.{◌≡◌, ◌≤◌, IfOk, OnOk, Some, false, length, true};
ghost use Rattle.es_model.specs.Known.{IsObject};
ghost use Rattle.es_model.specs.World.{World, new_object};
ghost use Rattle.es_model.specs.programs.Errors.{hidden};
ghost use Rattle.function_objects.specs.Making.{constructor_world, created_world, function_world, kept, named_defined, named_world, parameter_count, prototype_made, readable};
ghost use Rattle.object_heap.specs.Retains.{Retains};
ghost use Rattle.object_heap.specs.Stands.{Goes, StandsFor};

use descriptors::Descriptor;
use es_model::{Class, Intrinsic, ObjectKind};
use es_tree::{FunctionFacts, FunctionNo};
use object_heap::Heap;
use property_keys::{Ledger, NoMemory, ObjectId, PropKey, Steps, TextId, Value};
use slack_tracking::OriginKind;

/// How many fields lie in a function, and in an object that no literal and no function of the script makes.
const PLACES: u32 = 4;

// ---- the properties of a function

/// A stored property that is not enumerable.
fn stored(value: Value, writable: bool, configurable: bool) -> Descriptor
    ensures value { result.value ≡ Some value }
    ensures writable { result.writable ≡ Some writable }
    ensures configurable { result.configurable ≡ Some configurable }
    ensures enumerable { result.enumerable ≡ Some false }
    ensures getter { result.get ≡ None }
    ensures setter { result.set ≡ None }
{
    Descriptor {
        value: Some(value),
        writable: Some(writable),
        get: None,
        set: None,
        enumerable: Some(false),
        configurable: Some(configurable),
    }
}

/// Configurable only.
fn readable(value: Value) -> Descriptor
    ensures { result ≡ readable value }
{
    stored(value, false, true)
}

/// Writable only.
fn kept(value: Value) -> Descriptor
    ensures { result ≡ kept value }
{
    stored(value, true, false)
}

/// Writable and configurable.
fn hidden(value: Value) -> Descriptor
    ensures { result ≡ hidden value }
{
    stored(value, true, true)
}

/// How many parameters a function has, as a value.
#[tactic(auto, using(object_heap::specs::Stands::goes_none, object_heap::specs::Stands::goes_then, object_heap::proofs::Retaining::retains_none, object_heap::proofs::Retaining::retains_then), unfolding(crate::specs::Making::parameter_count))]
fn parameter_count(facts: FunctionFacts) -> Value
    ensures { result ≡ parameter_count facts }
{
    Value::Whole(i64::from(facts.parameters))
}

/// DefinePropertyOrThrow (7.3.8) of a name of the standard's own on a new object, which refuses nothing.
fn define_named<L: Ledger>(
    heap: &mut Heap,
    object: ObjectId,
    name: &[u8],
    wanted: Descriptor,
    steps: &mut Steps<L>,
) -> Result<(), NoMemory>
    requires { length name.now ≤ 40 }
    ensures goes { OnOk result ((w : World) → StandsFor heap.old w → Goes heap.old heap.new w (named_defined object name.now wanted w)) }
    ensures retains { Retains heap.old heap.new }
{
    let text = heap.word(name)?;
    heap.define_own(object, PropKey::Name(text), &wanted, steps)?;
    Ok(())
}

// ---- one function

/// A new function of the script with its `length` (ECMA-262, OrdinaryFunctionCreate, 10.2.3, 10.2.10). It has no name yet, and no `prototype`.
///
/// It takes no turn. NoMemory is the one error, and what was made before it stays.
#[tactic(auto, using(object_heap::specs::Stands::goes_none, object_heap::specs::Stands::goes_then, object_heap::proofs::Retaining::retains_none, object_heap::proofs::Retaining::retains_then), unfolding(crate::specs::Making::created_world))]
pub fn create_function<L: Ledger>(
    heap: &mut Heap,
    function: FunctionNo,
    facts: FunctionFacts,
    steps: &mut Steps<L>,
) -> Result<ObjectId, NoMemory>
    ensures object { IfOk result (λ object. (w : World) → StandsFor heap.old w → object ≡ new_object w.lists) }
    ensures goes { OnOk result ((w : World) → StandsFor heap.old w → Goes heap.old heap.new w (created_world function facts w)) }
    ensures retains { Retains heap.old heap.new }
{
    let origin = heap.origin_for(OriginKind::Function, PLACES)?;
    let kind = ObjectKind::Function {
        function,
        constructor: facts.constructor,
        strict: facts.strict,
    };
    let above = Intrinsic::Prototype(Class::Function).object();
    let object = heap.make(kind, origin, Some(above), steps)?;
    let length = readable(parameter_count(facts));
    define_named(heap, object, b"length", length, steps)?;
    Ok(object)
}

/// The object under `prototype` of a function, with its `constructor`.
#[tactic(auto, using(object_heap::specs::Stands::goes_none, object_heap::specs::Stands::goes_then, object_heap::proofs::Retaining::retains_none, object_heap::proofs::Retaining::retains_then), unfolding(crate::specs::Making::prototype_made))]
fn make_prototype<L: Ledger>(
    heap: &mut Heap,
    function: ObjectId,
    steps: &mut Steps<L>,
) -> Result<ObjectId, NoMemory>
    ensures object { IfOk result (λ object. (w : World) → StandsFor heap.old w → object ≡ new_object w.lists) }
    ensures goes { OnOk result ((w : World) → StandsFor heap.old w → Goes heap.old heap.new w (prototype_made function w)) }
    ensures retains { Retains heap.old heap.new }
{
    let origin = heap.origin_for(OriginKind::Plain, PLACES)?;
    let above = Intrinsic::Prototype(Class::Object).object();
    let prototype = heap.make(ObjectKind::Ordinary, origin, Some(above), steps)?;
    let back = hidden(Value::Object(function));
    define_named(heap, prototype, b"constructor", back, steps)?;
    Ok(prototype)
}

/// MakeConstructor (10.2.5): the prototype object, and then the function's own property.
#[tactic(auto, using(object_heap::specs::Stands::goes_none, object_heap::specs::Stands::goes_then, object_heap::proofs::Retaining::retains_none, object_heap::proofs::Retaining::retains_then), unfolding(crate::specs::Making::constructor_world))]
fn make_constructor<L: Ledger>(
    heap: &mut Heap,
    function: ObjectId,
    steps: &mut Steps<L>,
) -> Result<(), NoMemory>
    ensures goes { OnOk result ((w : World) → StandsFor heap.old w → Goes heap.old heap.new w (constructor_world function w)) }
    ensures retains { Retains heap.old heap.new }
{
    let prototype = make_prototype(heap, function, steps)?;
    let own = kept(Value::Object(prototype));
    define_named(heap, function, b"prototype", own, steps)?;
    Ok(())
}

/// A function that was just made gets its name (ECMA-262, SetFunctionName, 10.2.9), and, where it constructs, its `prototype` (MakeConstructor, 10.2.5).
///
/// It takes no turn. NoMemory is the one error, and what was made before it stays.
#[tactic(auto, using(object_heap::specs::Stands::goes_none, object_heap::specs::Stands::goes_then, object_heap::proofs::Retaining::retains_none, object_heap::proofs::Retaining::retains_then), unfolding(crate::specs::Making::named_world))]
pub fn name_function<L: Ledger>(
    heap: &mut Heap,
    object: ObjectId,
    facts: FunctionFacts,
    name: TextId,
    steps: &mut Steps<L>,
) -> Result<(), NoMemory>
    ensures goes { OnOk result ((w : World) → StandsFor heap.old w → Goes heap.old heap.new w (named_world object facts name w)) }
    ensures retains { Retains heap.old heap.new }
{
    let named = readable(Value::Text(name));
    define_named(heap, object, b"name", named, steps)?;
    if facts.constructor {
        make_constructor(heap, object, steps)?;
    }
    Ok(())
}

/// A new function of the script with its `length` and its name (ECMA-262, 15.2.4, 15.2.5, 15.4.4). One that constructs has a `prototype`, a new object
/// whose `constructor` it is.
///
/// It takes no turn. NoMemory is the one error, and what was made before it stays.
#[tactic(auto, using(object_heap::specs::Stands::goes_none, object_heap::specs::Stands::goes_then, object_heap::proofs::Retaining::retains_none, object_heap::proofs::Retaining::retains_then), unfolding(crate::specs::Making::function_world))]
pub fn function_made<L: Ledger>(
    heap: &mut Heap,
    function: FunctionNo,
    facts: FunctionFacts,
    name: TextId,
    steps: &mut Steps<L>,
) -> Result<ObjectId, NoMemory>
    ensures object { IfOk result (λ object. (w : World) → StandsFor heap.old w → object ≡ new_object w.lists) }
    ensures there { IfOk result (λ object. (w v : World) → StandsFor heap.old w → StandsFor heap.new v → IsObject v.lists object) }
    ensures goes { OnOk result ((w : World) → StandsFor heap.old w → Goes heap.old heap.new w (function_world function facts name w)) }
    ensures retains { Retains heap.old heap.new }
{
    let object = create_function(heap, function, facts, steps)?;
    name_function(heap, object, facts, name, steps)?;
    Ok(object)
}
