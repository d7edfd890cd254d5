//! IsLooselyEqual and IsLessThan (ECMA-262, 7.2.14, 7.2.13).

ghost use Rattle.std.specs.Prelude.{◌≡◌, ◌∷◌, [], false, if◌then◌else◌};
ghost use Rattle.es_model.specs.declared.requests.Operation.TheVariants as operation;
ghost use Rattle.es_model.specs.declared.requests.Request.TheVariants.{Work};
ghost use Rattle.es_model.specs.Program.{ask};
ghost use Rattle.es_model.specs.Fits.{IsKnownCompletion};
ghost use Rattle.es_model.specs.Known.{IsKnown};
ghost use Rattle.object_heap.specs.Stands.{StandsFor};
ghost use Rattle.plain_builtins.specs.Comparisons.{as_text, converted, equal_in, equal_number, is_nullish, left_after, left_converted, left_first, less_than, loosely_equal, number_equal, numbered, numbers_less, primitives_equal, primitives_less, right_after, right_converted, right_first, says, text_equal, texts_less};
ghost use Rattle.es_model.specs.Completions.{answered};
ghost use Rattle.es_model.specs.World.{World};
ghost use Rattle.object_heap.specs.Retains.{Retains};
ghost use Rattle.object_heap.specs.Turns.{KeepsNamed};
ghost use Rattle.plain_builtins.specs.Names.{names_of};
ghost use Rattle.plain_builtins.specs.Turns.{StopsAt};

use crate::asking::{as_object, one, value_of};
use crate::frame::{ComparedFrame, PlainFrame};
use crate::numbers::{number_in, text_number, truth_number};
use crate::ordering::order_of;
use crate::throwing::no_number;
use crate::words::NoNumber;
use es_model::{Completion, Operation, Reply, Request, Stop, Turn};
use object_heap::Heap;
use property_keys::{Ledger, Steps, TextId, Value, same_value};
use std::alloc::Global;

/// IsLooselyEqual.
pub(crate) fn loosely_equal<L: Ledger>(
    alloc: Global,
    heap: &mut Heap,
    left: Value,
    right: Value,
    steps: &mut Steps<L>,
) -> Result<Turn<PlainFrame>, Stop>
    ensures stops { StopsAt heap.old heap.new (loosely_equal left right) result }
    ensures named { (w : World) → IsKnown w.lists left → IsKnown w.lists right → KeepsNamed names_of w result }
    ensures retains { Retains heap.old heap.new }
{
    match (as_object(left), as_object(right)) {
        (Some(_), Some(_)) => Ok(Turn::Done(Completion::Normal(Reply::Flag(same_value(
            left, right,
        ))))),
        (Some(_), None) => convert_left(alloc, heap, left, right),
        (None, Some(_)) => convert_right(alloc, heap, left, right),
        (None, None) => primitives_equal(heap, left, right, steps),
    }
}

/// Step 12, of an object on the left alone.
fn convert_left(
    alloc: Global,
    heap: &mut Heap,
    left: Value,
    right: Value,
) -> Result<Turn<PlainFrame>, Stop>
    ensures stops { StopsAt heap.old heap.new (if is_nullish right then says false else ask (Work operation.ToPrimitiveDefault (left ∷ [])) (left_converted right)) result }
    ensures named { (w : World) → IsKnown w.lists right → KeepsNamed names_of w result }
    ensures retains { Retains heap.old heap.new }
{
    if is_nullish(right) {
        return Ok(Turn::Done(Completion::Normal(Reply::Flag(false))));
    }
    let request = Request::Work {
        operation: Operation::ToPrimitiveDefault,
        operands: one(alloc, left)?,
    };
    let frame = ComparedFrame::EqualLeft(right);
    Ok(Turn::Ask(request, PlainFrame::Compared(frame)))
}

/// Step 11, of an object on the right alone.
fn convert_right(
    alloc: Global,
    heap: &mut Heap,
    left: Value,
    right: Value,
) -> Result<Turn<PlainFrame>, Stop>
    ensures stops { StopsAt heap.old heap.new (if is_nullish left then says false else ask (Work operation.ToPrimitiveDefault (right ∷ [])) (right_converted left)) result }
    ensures named { (w : World) → IsKnown w.lists left → KeepsNamed names_of w result }
    ensures retains { Retains heap.old heap.new }
{
    if is_nullish(left) {
        return Ok(Turn::Done(Completion::Normal(Reply::Flag(false))));
    }
    let request = Request::Work {
        operation: Operation::ToPrimitiveDefault,
        operands: one(alloc, right)?,
    };
    let frame = ComparedFrame::EqualRight(left);
    Ok(Turn::Ask(request, PlainFrame::Compared(frame)))
}

fn is_nullish(value: Value) -> bool
    ensures { result ≡ is_nullish value }
{
    match value {
        Value::Undefined | Value::Null => true,
        Value::Bool(_) | Value::Whole(_) | Value::Text(_) | Value::Symbol(_) | Value::Object(_) =>
            false,
    }
}

/// What follows step 12.
pub(crate) fn left_converted<L: Ledger>(
    heap: &mut Heap,
    right: Value,
    answer: Completion,
    steps: &mut Steps<L>,
) -> Result<Turn<PlainFrame>, Stop>
    ensures stops { StopsAt heap.old heap.new (left_converted right (answered answer)) result }
    ensures named { (w : World) → KeepsNamed names_of w result }
    ensures retains { Retains heap.old heap.new }
{
    match answer.value() {
        Ok(left) => primitives_equal(heap, left, right, steps),
        Err(thrown) => Ok(Turn::Done(Completion::Throw(thrown))),
    }
}

/// What follows step 11.
pub(crate) fn right_converted<L: Ledger>(
    heap: &mut Heap,
    left: Value,
    answer: Completion,
    steps: &mut Steps<L>,
) -> Result<Turn<PlainFrame>, Stop>
    ensures stops { StopsAt heap.old heap.new (right_converted left (answered answer)) result }
    ensures named { (w : World) → KeepsNamed names_of w result }
    ensures retains { Retains heap.old heap.new }
{
    match answer.value() {
        Ok(right) => primitives_equal(heap, left, right, steps),
        Err(thrown) => Ok(Turn::Done(Completion::Throw(thrown))),
    }
}

/// The other steps, of two values that are no objects.
fn primitives_equal<L: Ledger>(
    heap: &mut Heap,
    left: Value,
    right: Value,
    steps: &mut Steps<L>,
) -> Result<Turn<PlainFrame>, Stop>
    ensures stops { StopsAt heap.old heap.new (primitives_equal left right) result }
    ensures named { (w : World) → KeepsNamed names_of w result }
    ensures retains { Retains heap.old heap.new }
{
    match equal_in(heap, numbered(left), numbered(right)) {
        Ok(is_equal) => Ok(Turn::Done(Completion::Normal(Reply::Flag(is_equal)))),
        Err(why) => no_number(heap, why, steps),
    }
}

/// A Boolean is compared as its number (steps 9 and 10).
fn numbered(value: Value) -> Value
    ensures { result ≡ numbered value }
{
    match value {
        Value::Bool(flag) => Value::Whole(truth_number(flag)),
        Value::Undefined
        | Value::Null
        | Value::Whole(_)
        | Value::Text(_)
        | Value::Symbol(_)
        | Value::Object(_) => value,
    }
}

fn equal_in(heap: &Heap, left: Value, right: Value) -> Result<bool, NoNumber>
    ensures { (w : World) → StandsFor heap.now w → result ≡ equal_in w.lists left right }
{
    match left {
        Value::Undefined | Value::Null => Ok(is_nullish(right)),
        Value::Whole(n) => number_equal(heap, n, right),
        Value::Text(text) => text_equal(heap, text, right),
        Value::Bool(_) | Value::Symbol(_) | Value::Object(_) => Ok(same_value(left, right)),
    }
}

fn equal_number(n: i64, number: Result<i64, NoNumber>) -> Result<bool, NoNumber>
    ensures { result ≡ equal_number n number }
{
    match number {
        Ok(m) => Ok(n == m),
        Err(why) => Err(why),
    }
}

/// A number is compared with a text as numbers (step 5).
fn number_equal(heap: &Heap, n: i64, right: Value) -> Result<bool, NoNumber>
    ensures { (w : World) → StandsFor heap.now w → result ≡ number_equal w.lists n right }
{
    match right {
        Value::Text(text) => equal_number(n, text_number(heap, text)),
        Value::Undefined
        | Value::Null
        | Value::Bool(_)
        | Value::Whole(_)
        | Value::Symbol(_)
        | Value::Object(_) => Ok(same_value(Value::Whole(n), right)),
    }
}

/// A text is compared with a number as numbers (step 6).
fn text_equal(heap: &Heap, text: TextId, right: Value) -> Result<bool, NoNumber>
    ensures { (w : World) → StandsFor heap.now w → result ≡ text_equal w.lists text right }
{
    match right {
        Value::Whole(n) => equal_number(n, text_number(heap, text)),
        Value::Undefined
        | Value::Null
        | Value::Bool(_)
        | Value::Text(_)
        | Value::Symbol(_)
        | Value::Object(_) => Ok(same_value(Value::Text(text), right)),
    }
}

/// IsLessThan, with the standard's LeftFirst.
pub(crate) fn less_than<L: Ledger>(
    alloc: Global,
    heap: &mut Heap,
    left: Value,
    right: Value,
    left_first: bool,
    steps: &mut Steps<L>,
) -> Result<Turn<PlainFrame>, Stop>
    ensures stops { StopsAt heap.old heap.new (less_than left right left_first) result }
    ensures named { (w : World) → IsKnown w.lists left → IsKnown w.lists right → KeepsNamed names_of w result }
    ensures retains { Retains heap.old heap.new }
{
    if left_first {
        convert_left_first(alloc, heap, left, right, steps)
    } else {
        convert_right_first(alloc, heap, left, right, steps)
    }
}

/// Step 1.a.
fn convert_left_first<L: Ledger>(
    alloc: Global,
    heap: &mut Heap,
    left: Value,
    right: Value,
    steps: &mut Steps<L>,
) -> Result<Turn<PlainFrame>, Stop>
    ensures stops { StopsAt heap.old heap.new (converted left (left_first right)) result }
    ensures named { (w : World) → IsKnown w.lists left → IsKnown w.lists right → KeepsNamed names_of w result }
    ensures retains { Retains heap.old heap.new }
{
    match as_object(left) {
        None => {
            let answer = Completion::Normal(Reply::Value(left));
            left_first(alloc, heap, right, answer, steps)
        }
        Some(_) => {
            let request = Request::Work {
                operation: Operation::ToPrimitiveNumber,
                operands: one(alloc, left)?,
            };
            let frame = ComparedFrame::LeftFirst(right);
            Ok(Turn::Ask(request, PlainFrame::Compared(frame)))
        }
    }
}

/// Step 2.b.
fn convert_right_first<L: Ledger>(
    alloc: Global,
    heap: &mut Heap,
    left: Value,
    right: Value,
    steps: &mut Steps<L>,
) -> Result<Turn<PlainFrame>, Stop>
    ensures stops { StopsAt heap.old heap.new (converted right (right_first left)) result }
    ensures named { (w : World) → IsKnown w.lists left → IsKnown w.lists right → KeepsNamed names_of w result }
    ensures retains { Retains heap.old heap.new }
{
    match as_object(right) {
        None => {
            let answer = Completion::Normal(Reply::Value(right));
            right_first(alloc, heap, left, answer, steps)
        }
        Some(_) => {
            let request = Request::Work {
                operation: Operation::ToPrimitiveNumber,
                operands: one(alloc, right)?,
            };
            let frame = ComparedFrame::RightFirst(left);
            Ok(Turn::Ask(request, PlainFrame::Compared(frame)))
        }
    }
}

/// What follows step 1.a.
pub(crate) fn left_first<L: Ledger>(
    alloc: Global,
    heap: &mut Heap,
    right: Value,
    answer: Completion,
    steps: &mut Steps<L>,
) -> Result<Turn<PlainFrame>, Stop>
    ensures stops { StopsAt heap.old heap.new (left_first right (answered answer)) result }
    ensures named { (w : World) → IsKnown w.lists right → IsKnownCompletion w.lists (answered answer) → KeepsNamed names_of w result }
    ensures retains { Retains heap.old heap.new }
{
    match value_of(answer) {
        Ok(left) => convert_right_after(alloc, heap, left, right, steps),
        Err(thrown) => Ok(Turn::Done(Completion::Throw(thrown))),
    }
}

/// What follows step 2.b.
pub(crate) fn right_first<L: Ledger>(
    alloc: Global,
    heap: &mut Heap,
    left: Value,
    answer: Completion,
    steps: &mut Steps<L>,
) -> Result<Turn<PlainFrame>, Stop>
    ensures stops { StopsAt heap.old heap.new (right_first left (answered answer)) result }
    ensures named { (w : World) → IsKnown w.lists left → IsKnownCompletion w.lists (answered answer) → KeepsNamed names_of w result }
    ensures retains { Retains heap.old heap.new }
{
    match value_of(answer) {
        Ok(right) => convert_left_after(alloc, heap, left, right, steps),
        Err(thrown) => Ok(Turn::Done(Completion::Throw(thrown))),
    }
}

/// Step 1.b.
fn convert_right_after<L: Ledger>(
    alloc: Global,
    heap: &mut Heap,
    left: Value,
    right: Value,
    steps: &mut Steps<L>,
) -> Result<Turn<PlainFrame>, Stop>
    ensures stops { StopsAt heap.old heap.new (converted right (right_after left)) result }
    ensures named { (w : World) → IsKnown w.lists left → KeepsNamed names_of w result }
    ensures retains { Retains heap.old heap.new }
{
    match as_object(right) {
        None => {
            let answer = Completion::Normal(Reply::Value(right));
            right_after(heap, left, answer, steps)
        }
        Some(_) => {
            let request = Request::Work {
                operation: Operation::ToPrimitiveNumber,
                operands: one(alloc, right)?,
            };
            let frame = ComparedFrame::RightAfter(left);
            Ok(Turn::Ask(request, PlainFrame::Compared(frame)))
        }
    }
}

/// Step 2.c.
fn convert_left_after<L: Ledger>(
    alloc: Global,
    heap: &mut Heap,
    left: Value,
    right: Value,
    steps: &mut Steps<L>,
) -> Result<Turn<PlainFrame>, Stop>
    ensures stops { StopsAt heap.old heap.new (converted left (left_after right)) result }
    ensures named { (w : World) → IsKnown w.lists right → KeepsNamed names_of w result }
    ensures retains { Retains heap.old heap.new }
{
    match as_object(left) {
        None => {
            let answer = Completion::Normal(Reply::Value(left));
            left_after(heap, right, answer, steps)
        }
        Some(_) => {
            let request = Request::Work {
                operation: Operation::ToPrimitiveNumber,
                operands: one(alloc, left)?,
            };
            let frame = ComparedFrame::LeftAfter(right);
            Ok(Turn::Ask(request, PlainFrame::Compared(frame)))
        }
    }
}

/// What follows step 1.b.
pub(crate) fn right_after<L: Ledger>(
    heap: &mut Heap,
    left: Value,
    answer: Completion,
    steps: &mut Steps<L>,
) -> Result<Turn<PlainFrame>, Stop>
    ensures stops { StopsAt heap.old heap.new (right_after left (answered answer)) result }
    ensures named { (w : World) → KeepsNamed names_of w result }
    ensures retains { Retains heap.old heap.new }
{
    match answer.value() {
        Ok(right) => primitives_less(heap, left, right, steps),
        Err(thrown) => Ok(Turn::Done(Completion::Throw(thrown))),
    }
}

/// What follows step 2.c.
pub(crate) fn left_after<L: Ledger>(
    heap: &mut Heap,
    right: Value,
    answer: Completion,
    steps: &mut Steps<L>,
) -> Result<Turn<PlainFrame>, Stop>
    ensures stops { StopsAt heap.old heap.new (left_after right (answered answer)) result }
    ensures named { (w : World) → KeepsNamed names_of w result }
    ensures retains { Retains heap.old heap.new }
{
    match answer.value() {
        Ok(left) => primitives_less(heap, left, right, steps),
        Err(thrown) => Ok(Turn::Done(Completion::Throw(thrown))),
    }
}

/// Steps 3 and 4, of two values that are no objects.
fn primitives_less<L: Ledger>(
    heap: &mut Heap,
    left: Value,
    right: Value,
    steps: &mut Steps<L>,
) -> Result<Turn<PlainFrame>, Stop>
    ensures stops { StopsAt heap.old heap.new (primitives_less left right) result }
    ensures named { (w : World) → KeepsNamed names_of w result }
    ensures retains { Retains heap.old heap.new }
{
    match (as_text(left), as_text(right)) {
        (Some(left), Some(right)) => texts_less(heap, left, right),
        (Some(_), None) | (None, Some(_)) | (None, None) => {
            numbers_less(heap, left, right, steps)
        }
    }
}

fn as_text(value: Value) -> Option<TextId>
    ensures { result ≡ as_text value }
{
    match value {
        Value::Text(text) => Some(text),
        Value::Undefined
        | Value::Null
        | Value::Bool(_)
        | Value::Whole(_)
        | Value::Symbol(_)
        | Value::Object(_) => None,
    }
}

/// Step 3, a turn for each place that is looked at.
fn texts_less(heap: &mut Heap, left: TextId, right: TextId) -> Result<Turn<PlainFrame>, Stop>
    ensures stops { StopsAt heap.old heap.new (texts_less left right) result }
    ensures named { (w : World) → KeepsNamed names_of w result }
    ensures retains { Retains heap.old heap.new }
{
    let order = order_of(heap.units(left), heap.units(right));
    heap.charge(order.looked)?;
    Ok(Turn::Done(Completion::Normal(Reply::Flag(order.is_less))))
}

/// Step 4.
fn numbers_less<L: Ledger>(
    heap: &mut Heap,
    left: Value,
    right: Value,
    steps: &mut Steps<L>,
) -> Result<Turn<PlainFrame>, Stop>
    ensures stops { StopsAt heap.old heap.new (numbers_less left right) result }
    ensures named { (w : World) → KeepsNamed names_of w result }
    ensures retains { Retains heap.old heap.new }
{
    match number_in(heap, left) {
        Err(why) => no_number(heap, why, steps),
        Ok(n) => match number_in(heap, right) {
            Err(why) => no_number(heap, why, steps),
            Ok(m) => Ok(Turn::Done(Completion::Normal(Reply::Flag(n < m)))),
        },
    }
}
