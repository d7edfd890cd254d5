//! How arguments objects are made (ECMA-262, 10.4.4.6, 10.4.4.7).

ghost use Rattle.std.specs.Prelude.{◌≡◌, ◌≤◌, IfOk, OnOk, length, min, pos};
ghost use Rattle.property_keys.specs.Wholes.{most_whole};
ghost use Rattle.es_model.specs.Changes.{changed};
ghost use Rattle.es_model.specs.World.{World, new_object};
ghost use Rattle.es_model.specs.programs.Errors.{hidden};
ghost use Rattle.object_heap.specs.Retains.{Retains};
ghost use Rattle.object_heap.specs.Stands.{Goes, StandsFor};
ghost use Rattle.ordinary_object.specs.Ordinary.{with_three_true};
ghost use Rattle.arguments_exotic.specs.Creating.{argument_count, argument_defined, arguments_defined, length_defined, making, mapped_world, named_defined, throwing, unmapped_world};

use descriptors::Descriptor;
use es_model::{ArgumentCells, Class, Intrinsic, ObjectKind, Values};
use object_heap::Heap;
use property_keys::{Ledger, MOST_WHOLE, NoMemory, ObjectId, PropKey, Steps, Value};
use slack_tracking::OriginKind;
use std::alloc::Global;

/// How many fields lie in an arguments object at first.
const PLACES: u32 = 4;

/// The greatest array index.
const MOST_INDEX: usize = 4_294_967_294;

/// A property that is writable, configurable and not enumerable.
fn hidden(value: Value) -> Descriptor
    ensures { result ≡ hidden value }
{
    Descriptor {
        value: Some(value),
        writable: Some(true),
        get: None,
        set: None,
        enumerable: Some(false),
        configurable: Some(true),
    }
}

/// A stored property with three true flags.
fn with_three_true(value: Value) -> Descriptor
    ensures { result ≡ with_three_true value }
{
    Descriptor {
        value: Some(value),
        writable: Some(true),
        get: None,
        set: None,
        enumerable: Some(true),
        configurable: Some(true),
    }
}

/// The accessor `callee` of an unmapped object: %ThrowTypeError% for both functions, neither enumerable nor configurable.
fn throwing() -> Descriptor
    ensures { result ≡ throwing }
{
    let thrower = Value::Object(Intrinsic::ThrowTypeError.object());
    Descriptor {
        value: None,
        writable: None,
        get: Some(thrower),
        set: Some(thrower),
        enumerable: Some(false),
        configurable: Some(false),
    }
}

/// How many arguments there are, as a value.
#[tactic(auto, unfolding(crate::specs::Creating::argument_count))]
fn argument_count(arguments: &Values) -> Value
    ensures { result ≡ argument_count arguments.now }
{
    Value::Whole(whole(arguments.len()))
}

/// A number of things, or the greatest whole number.
fn whole(count: usize) -> i64
    ensures { result ≡ pos (min count most_whole) }
{
    count.min(MOST_WHOLE as usize) as i64
}

/// DefinePropertyOrThrow (7.3.8) of a name of the standard's own on a new object, which refuses nothing.
fn define_named<L: Ledger>(
    heap: &mut Heap,
    object: ObjectId,
    name: &[u8],
    wanted: Descriptor,
    steps: &mut Steps<L>,
) -> Result<(), NoMemory>
    requires { length name.now ≤ 40 }
    ensures goes { OnOk result ((w : World) → StandsFor heap.old w → Goes heap.old heap.new w (named_defined object name.now wanted w)) }
    ensures retains { Retains heap.old heap.new }
{
    let text = heap.word(name)?;
    heap.define_own(object, PropKey::Name(text), &wanted, steps)?;
    Ok(())
}

/// The property of an argument.
#[tactic(auto, using(object_heap::specs::Stands::goes_none, object_heap::specs::Stands::goes_then, object_heap::proofs::Retaining::retains_none, object_heap::proofs::Retaining::retains_then), unfolding(crate::specs::Creating::argument_defined))]
fn define_argument<L: Ledger>(
    heap: &mut Heap,
    object: ObjectId,
    index: usize,
    value: Value,
    steps: &mut Steps<L>,
) -> Result<(), NoMemory>
    ensures goes { OnOk result ((w : World) → StandsFor heap.old w → Goes heap.old heap.new w (argument_defined object index value w)) }
    ensures retains { Retains heap.old heap.new }
{
    let wanted = with_three_true(value);
    if index <= MOST_INDEX {
        heap.define_own(object, PropKey::Index(index as u32), &wanted, steps)?;
    } else {
        let name = heap.whole_text(whole(index))?;
        heap.define_own(object, PropKey::Name(name), &wanted, steps)?;
    }
    Ok(())
}

/// The properties of the arguments, in their order.
fn define_arguments<L: Ledger>(
    heap: &mut Heap,
    object: ObjectId,
    arguments: &Values,
    steps: &mut Steps<L>,
) -> Result<(), NoMemory>
    ensures goes { OnOk result ((w : World) → StandsFor heap.old w → Goes heap.old heap.new w (arguments_defined object 0 arguments.now w)) }
    ensures retains { Retains heap.old heap.new }
{
    let mut next = 0;
    'arguments: while next < arguments.len() {
        let value = *arguments.at(next);
        define_argument(heap, object, next, value, steps)?;
        next += 1;
    }
    Ok(())
}

/// The property `length`.
fn define_length<L: Ledger>(
    heap: &mut Heap,
    object: ObjectId,
    arguments: &Values,
    steps: &mut Steps<L>,
) -> Result<(), NoMemory>
    ensures goes { OnOk result ((w : World) → StandsFor heap.old w → Goes heap.old heap.new w (length_defined object arguments.now w)) }
    ensures retains { Retains heap.old heap.new }
{
    let count = hidden(argument_count(arguments));
    define_named(heap, object, b"length", count, steps)
}

/// The object without its properties.
fn make_arguments<L: Ledger>(
    heap: &mut Heap,
    cells: ArgumentCells,
    steps: &mut Steps<L>,
) -> Result<ObjectId, NoMemory>
    ensures object { IfOk result (λ object. (w : World) → StandsFor heap.old w → object ≡ new_object w.lists) }
    ensures goes { OnOk result ((w : World) → StandsFor heap.old w → Goes heap.old heap.new w (changed (making cells) w)) }
    ensures retains { Retains heap.old heap.new }
{
    let origin = heap.origin_for(OriginKind::Arguments, PLACES)?;
    let above = Intrinsic::Prototype(Class::Object).object();
    heap.make(ObjectKind::Arguments { cells }, origin, Some(above), steps)
}

/// A new arguments object of strict code (CreateUnmappedArgumentsObject, 10.4.4.6): `length`, the arguments, and `callee`, which throws.
///
/// It takes no turn. NoMemory is the one error, and what was made before it stays.
#[tactic(auto, using(object_heap::specs::Stands::goes_none, object_heap::specs::Stands::goes_then, object_heap::proofs::Retaining::retains_none, object_heap::proofs::Retaining::retains_then), unfolding(crate::specs::Creating::unmapped_world))]
pub fn create_unmapped_arguments<L: Ledger>(
    alloc: Global,
    heap: &mut Heap,
    arguments: &Values,
    steps: &mut Steps<L>,
) -> Result<ObjectId, NoMemory>
    ensures object { IfOk result (λ object. (w : World) → StandsFor heap.old w → object ≡ new_object w.lists) }
    ensures goes { OnOk result ((w : World) → StandsFor heap.old w → Goes heap.old heap.new w (unmapped_world arguments.now w)) }
    ensures retains { Retains heap.old heap.new }
{
    let object = make_arguments(heap, ArgumentCells::new(alloc), steps)?;
    define_length(heap, object, arguments, steps)?;
    define_arguments(heap, object, arguments, steps)?;
    define_named(heap, object, b"callee", throwing(), steps)?;
    Ok(object)
}

/// A new arguments object of other code (CreateMappedArgumentsObject, 10.4.4.7): the arguments, `length`, and `callee`, which is the function. An index
/// shares the cell that stands at its place, if one does.
///
/// It takes no turn. NoMemory is the one error, and what was made before it stays.
#[tactic(auto, using(object_heap::specs::Stands::goes_none, object_heap::specs::Stands::goes_then, object_heap::proofs::Retaining::retains_none, object_heap::proofs::Retaining::retains_then), unfolding(crate::specs::Creating::mapped_world))]
pub fn create_mapped_arguments<L: Ledger>(
    heap: &mut Heap,
    function: ObjectId,
    cells: ArgumentCells,
    arguments: &Values,
    steps: &mut Steps<L>,
) -> Result<ObjectId, NoMemory>
    ensures object { IfOk result (λ object. (w : World) → StandsFor heap.old w → object ≡ new_object w.lists) }
    ensures goes { OnOk result ((w : World) → StandsFor heap.old w → Goes heap.old heap.new w (mapped_world function cells arguments.now w)) }
    ensures retains { Retains heap.old heap.new }
{
    let object = make_arguments(heap, cells, steps)?;
    define_arguments(heap, object, arguments, steps)?;
    define_length(heap, object, arguments, steps)?;
    let callee = hidden(Value::Object(function));
    define_named(heap, object, b"callee", callee, steps)?;
    Ok(object)
}
