//! ToPrimitive and OrdinaryToPrimitive (ECMA-262, 7.1.1, 7.1.1.1).

ghost use Rattle.std.specs.Prelude.{◌≡◌, ◌≤◌, Some, length};
ghost use Rattle.es_model.specs.Known.{IsKnown, IsObject};
ghost use Rattle.es_model.specs.Program.{look};
ghost use Rattle.es_model.specs.programs.Methods.{method_in, with_method};
ghost use Rattle.plain_builtins.specs.Conversions.{cannot_convert, exotic_found, exotic_given, first_called, first_found, first_given, first_name, hint_text, last_called, ordinary_to_primitive, primitive_or, second_found, second_given, second_name, second_tried, to_primitive};
ghost use Rattle.es_model.specs.Completions.{answered};
ghost use Rattle.es_model.specs.World.{World};
ghost use Rattle.object_heap.specs.Retains.{Retains};
ghost use Rattle.object_heap.specs.Turns.{KeepsNamed};
ghost use Rattle.plain_builtins.specs.Names.{names_of};
ghost use Rattle.plain_builtins.specs.Turns.{StopsAt};

use crate::asking::{as_object, read_of, value_of};
use crate::frame::{Converting, PlainFrame, PrimitiveFrame};
use crate::throwing::{cannot_convert, not_a_function};
use crate::words::Hint;
use es_model::{Completion, Method, Reply, Request, Stop, Turn, Values, WellKnown};
use object_heap::Heap;
use property_keys::{Ledger, ObjectId, PropKey, Steps, Value};
use std::alloc::Global;

/// What a method under @@toPrimitive is told (7.1.1, step 1.b).
fn hint_text(hint: Hint) -> &'static [u8]
    ensures text { result.now ≡ hint_text hint }
    ensures short { length result.now ≤ 40 }
{
    match hint {
        Hint::Default => b"default",
        Hint::Number => b"number",
        Hint::Text => b"string",
    }
}

/// The name of the method that is tried first (7.1.1.1, steps 1 and 2).
fn first_name(hint: Hint) -> &'static [u8]
    ensures text { result.now ≡ first_name hint }
    ensures short { length result.now ≤ 40 }
{
    match hint {
        Hint::Default | Hint::Number => b"valueOf",
        Hint::Text => b"toString",
    }
}

/// The name of the method that is tried then.
fn second_name(hint: Hint) -> &'static [u8]
    ensures text { result.now ≡ second_name hint }
    ensures short { length result.now ≤ 40 }
{
    match hint {
        Hint::Default | Hint::Number => b"toString",
        Hint::Text => b"valueOf",
    }
}

/// ToPrimitive (7.1.1). A value that is no object is its own primitive, and asks nothing.
pub(crate) fn to_primitive(
    heap: &mut Heap,
    hint: Hint,
    value: Value,
) -> Result<Turn<PlainFrame>, Stop>
    ensures stops { StopsAt heap.old heap.new (to_primitive hint value) result }
    ensures named { (w : World) → IsKnown w.lists value → KeepsNamed names_of w result }
    ensures retains { Retains heap.old heap.new }
{
    match as_object(value) {
        None => Ok(Turn::Done(Completion::Normal(Reply::Value(value)))),
        Some(object) => {
            let request = read_of(object, PropKey::Sym(WellKnown::ToPrimitive.symbol()));
            let frame = PrimitiveFrame::ExoticGiven(Converting { hint, object });
            Ok(Turn::Ask(request, PlainFrame::Primitive(frame)))
        }
    }
}

/// What follows step 1.a: the method, if there is one.
pub(crate) fn exotic_given<L: Ledger>(
    alloc: Global,
    heap: &mut Heap,
    converting: Converting,
    answer: Completion,
    steps: &mut Steps<L>,
) -> Result<Turn<PlainFrame>, Stop>
    ensures stops { StopsAt heap.old heap.new (exotic_given converting.hint converting.object (answered answer)) result }
    ensures named { (w : World) → IsObject w.lists converting.object → KeepsNamed names_of w result }
    ensures retains { Retains heap.old heap.new }
{
    match value_of(answer) {
        Ok(value) => exotic_method(alloc, heap, converting, value, steps),
        Err(thrown) => Ok(Turn::Done(Completion::Throw(thrown))),
    }
}

/// GetMethod, and then steps 1.b to 1.d.
fn exotic_method<L: Ledger>(
    alloc: Global,
    heap: &mut Heap,
    converting: Converting,
    value: Value,
    steps: &mut Steps<L>,
) -> Result<Turn<PlainFrame>, Stop>
    ensures stops { StopsAt heap.old heap.new (look (λ l. with_method (exotic_found converting.hint converting.object) (method_in l value))) result }
    ensures named { (w : World) → IsObject w.lists converting.object → KeepsNamed names_of w result }
    ensures retains { Retains heap.old heap.new }
{
    match heap.method(value) {
        Method::Absent => ordinary_to_primitive(heap, converting),
        Method::Function(function) => call_exotic(alloc, heap, converting, function),
        Method::Other => not_a_function(heap, steps),
    }
}

/// Steps 1.b and 1.c: the method is called with its hint.
fn call_exotic(
    alloc: Global,
    heap: &mut Heap,
    converting: Converting,
    function: ObjectId,
) -> Result<Turn<PlainFrame>, Stop>
    ensures stops { StopsAt heap.old heap.new (exotic_found converting.hint converting.object (Some function)) result }
    ensures named { (w : World) → KeepsNamed names_of w result }
    ensures retains { Retains heap.old heap.new }
{
    let hint = heap.word(hint_text(converting.hint))?;
    let mut arguments = Values::new(alloc);
    arguments.push(Value::Text(hint))?;
    let request = Request::Call {
        function: Value::Object(function),
        this: Value::Object(converting.object),
        arguments,
    };
    Ok(Turn::Ask(request, PlainFrame::Primitive(PrimitiveFrame::LastCalled)))
}

/// OrdinaryToPrimitive: the first method is tried, for a turn.
#[tactic(auto, using(object_heap::specs::Stands::goes_none, object_heap::specs::Stands::goes_then, object_heap::specs::Stands::halts_at, object_heap::specs::Stops::stops_then, object_heap::proofs::Retaining::retains_none, object_heap::proofs::Retaining::retains_then, object_heap::proofs::Turns::named_ask, object_heap::proofs::Turns::named_done, object_heap::proofs::Turns::named_stop))]
fn ordinary_to_primitive(heap: &mut Heap, converting: Converting) -> Result<Turn<PlainFrame>, Stop>
    ensures stops { StopsAt heap.old heap.new (ordinary_to_primitive converting.hint converting.object) result }
    ensures named { (w : World) → IsObject w.lists converting.object → KeepsNamed names_of w result }
    ensures retains { Retains heap.old heap.new }
{
    heap.charge(1)?;
    let name = heap.word(first_name(converting.hint))?;
    let request = read_of(converting.object, PropKey::Name(name));
    let frame = PrimitiveFrame::FirstGiven(converting);
    Ok(Turn::Ask(request, PlainFrame::Primitive(frame)))
}

/// What follows step 3.a at the first method.
pub(crate) fn first_given(
    alloc: Global,
    heap: &mut Heap,
    converting: Converting,
    answer: Completion,
) -> Result<Turn<PlainFrame>, Stop>
    ensures stops { StopsAt heap.old heap.new (first_given converting.hint converting.object (answered answer)) result }
    ensures named { (w : World) → IsObject w.lists converting.object → KeepsNamed names_of w result }
    ensures retains { Retains heap.old heap.new }
{
    match value_of(answer) {
        Ok(value) => first_found(alloc, heap, converting, value),
        Err(thrown) => Ok(Turn::Done(Completion::Throw(thrown))),
    }
}

/// Step 3.b at the first method.
fn first_found(
    alloc: Global,
    heap: &mut Heap,
    converting: Converting,
    value: Value,
) -> Result<Turn<PlainFrame>, Stop>
    ensures stops { StopsAt heap.old heap.new (first_found converting.hint converting.object value) result }
    ensures named { (w : World) → IsObject w.lists converting.object → KeepsNamed names_of w result }
    ensures retains { Retains heap.old heap.new }
{
    if heap.is_callable(value) {
        let request = Request::Call {
            function: value,
            this: Value::Object(converting.object),
            arguments: Values::new(alloc),
        };
        let frame = PrimitiveFrame::FirstCalled(converting);
        Ok(Turn::Ask(request, PlainFrame::Primitive(frame)))
    } else {
        second_tried(heap, converting)
    }
}

/// What follows step 3.b.i at the first method.
pub(crate) fn first_called(
    heap: &mut Heap,
    converting: Converting,
    answer: Completion,
) -> Result<Turn<PlainFrame>, Stop>
    ensures stops { StopsAt heap.old heap.new (first_called converting.hint converting.object (answered answer)) result }
    ensures named { (w : World) → IsObject w.lists converting.object → KeepsNamed names_of w result }
    ensures retains { Retains heap.old heap.new }
{
    match value_of(answer) {
        Ok(value) => primitive_or_second(heap, converting, value),
        Err(thrown) => Ok(Turn::Done(Completion::Throw(thrown))),
    }
}

/// Step 3.b.ii at the first method.
fn primitive_or_second(
    heap: &mut Heap,
    converting: Converting,
    value: Value,
) -> Result<Turn<PlainFrame>, Stop>
    ensures stops { StopsAt heap.old heap.new (primitive_or (second_tried converting.hint converting.object) value) result }
    ensures named { (w : World) → IsObject w.lists converting.object → KeepsNamed names_of w result }
    ensures retains { Retains heap.old heap.new }
{
    match as_object(value) {
        None => Ok(Turn::Done(Completion::Normal(Reply::Value(value)))),
        Some(_) => second_tried(heap, converting),
    }
}

/// The second method is tried, for a turn.
#[tactic(auto, using(object_heap::specs::Stands::goes_none, object_heap::specs::Stands::goes_then, object_heap::specs::Stands::halts_at, object_heap::specs::Stops::stops_then, object_heap::proofs::Retaining::retains_none, object_heap::proofs::Retaining::retains_then, object_heap::proofs::Turns::named_ask, object_heap::proofs::Turns::named_done, object_heap::proofs::Turns::named_stop))]
fn second_tried(heap: &mut Heap, converting: Converting) -> Result<Turn<PlainFrame>, Stop>
    ensures stops { StopsAt heap.old heap.new (second_tried converting.hint converting.object) result }
    ensures named { (w : World) → IsObject w.lists converting.object → KeepsNamed names_of w result }
    ensures retains { Retains heap.old heap.new }
{
    heap.charge(1)?;
    let name = heap.word(second_name(converting.hint))?;
    let request = read_of(converting.object, PropKey::Name(name));
    let frame = PrimitiveFrame::SecondGiven(converting.object);
    Ok(Turn::Ask(request, PlainFrame::Primitive(frame)))
}

/// What follows step 3.a at the second method.
pub(crate) fn second_given<L: Ledger>(
    alloc: Global,
    heap: &mut Heap,
    object: ObjectId,
    answer: Completion,
    steps: &mut Steps<L>,
) -> Result<Turn<PlainFrame>, Stop>
    ensures stops { StopsAt heap.old heap.new (second_given object (answered answer)) result }
    ensures named { (w : World) → KeepsNamed names_of w result }
    ensures retains { Retains heap.old heap.new }
{
    match value_of(answer) {
        Ok(value) => second_found(alloc, heap, object, value, steps),
        Err(thrown) => Ok(Turn::Done(Completion::Throw(thrown))),
    }
}

/// Step 3.b at the second method, and step 4.
fn second_found<L: Ledger>(
    alloc: Global,
    heap: &mut Heap,
    object: ObjectId,
    value: Value,
    steps: &mut Steps<L>,
) -> Result<Turn<PlainFrame>, Stop>
    ensures stops { StopsAt heap.old heap.new (second_found object value) result }
    ensures named { (w : World) → KeepsNamed names_of w result }
    ensures retains { Retains heap.old heap.new }
{
    if heap.is_callable(value) {
        let request = Request::Call {
            function: value,
            this: Value::Object(object),
            arguments: Values::new(alloc),
        };
        Ok(Turn::Ask(request, PlainFrame::Primitive(PrimitiveFrame::LastCalled)))
    } else {
        cannot_convert(heap, steps)
    }
}

/// What follows the call of the method that decides.
pub(crate) fn last_called<L: Ledger>(
    heap: &mut Heap,
    answer: Completion,
    steps: &mut Steps<L>,
) -> Result<Turn<PlainFrame>, Stop>
    ensures stops { StopsAt heap.old heap.new (last_called (answered answer)) result }
    ensures named { (w : World) → KeepsNamed names_of w result }
    ensures retains { Retains heap.old heap.new }
{
    match value_of(answer) {
        Ok(value) => primitive_or_throw(heap, value, steps),
        Err(thrown) => Ok(Turn::Done(Completion::Throw(thrown))),
    }
}

/// An object is no primitive (7.1.1, step 1.b.vi; 7.1.1.1, step 4).
fn primitive_or_throw<L: Ledger>(
    heap: &mut Heap,
    value: Value,
    steps: &mut Steps<L>,
) -> Result<Turn<PlainFrame>, Stop>
    ensures stops { StopsAt heap.old heap.new (primitive_or cannot_convert value) result }
    ensures named { (w : World) → KeepsNamed names_of w result }
    ensures retains { Retains heap.old heap.new }
{
    match as_object(value) {
        None => Ok(Turn::Done(Completion::Normal(Reply::Value(value)))),
        Some(_) => cannot_convert(heap, steps),
    }
}
