//! Number and the functions of its prototype (ECMA-262, 21.1).

ghost use Rattle.property_keys.specs.Wholes.{IsWhole};
ghost use Rattle.es_model.specs.Completions.{answered};
ghost use Rattle.es_model.specs.Fits.{IsKnownCompletion};
ghost use Rattle.es_model.specs.Known.{AreKnown, IsKnown, IsObject};
ghost use Rattle.es_model.specs.World.{World};
ghost use Rattle.es_model.specs.programs.Converting.{to_number};
ghost use Rattle.object_heap.specs.Retains.{Retains};
ghost use Rattle.object_heap.specs.Turns.{KeepsNamed};
ghost use Rattle.core_builtins.specs.Names.{names_of};
ghost use Rattle.core_builtins.specs.Numbers.{number_called, number_constructed, number_given, number_to_wrap, number_value_of, wrap_number};
ghost use Rattle.core_builtins.specs.Turns.{StopsAt};

use crate::arguments::{first_given, inner_value};
use crate::asking::{one, value_of};
use crate::frame::{CoreFrame, WrapperFrame};
use crate::throwing::wrong_value;
use crate::wrappers::create_wrapper;
use es_model::{Class, Completion, Operation, Reply, Request, Stop, Turn, Values};
use object_heap::Heap;
use property_keys::{Ledger, ObjectId, Steps, Value};
use std::alloc::Global;

/// Number, called (21.1.1.1).
pub(crate) fn number_called(
    alloc: Global,
    heap: &mut Heap,
    arguments: &Values,
) -> Result<Turn<CoreFrame>, Stop>
    ensures stops { StopsAt heap.old heap.new (number_called arguments.now) result }
    ensures named { (w : World) → KeepsNamed names_of w result }
    ensures retains { Retains heap.old heap.new }
{
    match first_given(arguments) {
        None => Ok(Turn::Done(Completion::Normal(Reply::Value(Value::Whole(0))))),
        Some(value) => to_number(alloc, heap, value),
    }
}

/// Step 1.a of a call.
fn to_number(alloc: Global, heap: &mut Heap, value: Value) -> Result<Turn<CoreFrame>, Stop>
    ensures stops { StopsAt heap.old heap.new (to_number value number_given) result }
    ensures named { (w : World) → KeepsNamed names_of w result }
    ensures retains { Retains heap.old heap.new }
{
    match value {
        Value::Whole(n) => Ok(Turn::Done(Completion::Normal(Reply::Value(Value::Whole(n))))),
        Value::Undefined
        | Value::Null
        | Value::Bool(_)
        | Value::Text(_)
        | Value::Symbol(_)
        | Value::Object(_) => {
            let request = Request::Work {
                operation: Operation::ToWhole,
                operands: one(alloc, value)?,
            };
            Ok(Turn::Ask(request, CoreFrame::Wrapper(WrapperFrame::NumberGiven)))
        }
    }
}

/// What follows step 1.a of a call.
pub(crate) fn number_given(heap: &mut Heap, answer: Completion) -> Result<Turn<CoreFrame>, Stop>
    ensures stops { StopsAt heap.old heap.new (number_given (answered answer)) result }
    ensures named { (w : World) → KeepsNamed names_of w result }
    ensures retains { Retains heap.old heap.new }
{
    match answer.value() {
        Ok(Value::Whole(n)) => Ok(Turn::Done(Completion::Normal(Reply::Value(Value::Whole(n))))),
        Ok(_) => Ok(Turn::Done(Completion::Throw(Value::Undefined))),
        Err(thrown) => Ok(Turn::Done(Completion::Throw(thrown))),
    }
}

/// Number, constructed (21.1.1.1).
pub(crate) fn number_constructed(
    alloc: Global,
    heap: &mut Heap,
    arguments: &Values,
    target: ObjectId,
) -> Result<Turn<CoreFrame>, Stop>
    ensures stops { StopsAt heap.old heap.new (number_constructed arguments.now target) result }
    ensures named { (w : World) → IsObject w.lists target → AreKnown w.lists arguments.now → KeepsNamed names_of w result }
    ensures retains { Retains heap.old heap.new }
{
    match first_given(arguments) {
        None => wrap_number(heap, target, 0),
        Some(value) => to_wrap(alloc, heap, target, value),
    }
}

/// Step 1.a of a construction.
fn to_wrap(
    alloc: Global,
    heap: &mut Heap,
    target: ObjectId,
    value: Value,
) -> Result<Turn<CoreFrame>, Stop>
    ensures stops { StopsAt heap.old heap.new (to_number value (number_to_wrap target)) result }
    ensures named { (w : World) → IsObject w.lists target → IsKnown w.lists value → KeepsNamed names_of w result }
    ensures retains { Retains heap.old heap.new }
{
    match value {
        Value::Whole(n) => wrap_number(heap, target, n),
        Value::Undefined
        | Value::Null
        | Value::Bool(_)
        | Value::Text(_)
        | Value::Symbol(_)
        | Value::Object(_) => {
            let request = Request::Work {
                operation: Operation::ToWhole,
                operands: one(alloc, value)?,
            };
            Ok(Turn::Ask(
                request,
                CoreFrame::Wrapper(WrapperFrame::NumberToWrap(target)),
            ))
        }
    }
}

/// Steps 4 to 6.
fn wrap_number(heap: &mut Heap, target: ObjectId, n: i64) -> Result<Turn<CoreFrame>, Stop>
    ensures stops { StopsAt heap.old heap.new (wrap_number target n) result }
    ensures named { (w : World) → IsObject w.lists target → IsWhole n → KeepsNamed names_of w result }
    ensures retains { Retains heap.old heap.new }
{
    create_wrapper(heap, Class::Number, Value::Whole(n), target)
}

/// What follows step 1.a of a construction.
pub(crate) fn number_to_wrap(
    heap: &mut Heap,
    target: ObjectId,
    answer: Completion,
) -> Result<Turn<CoreFrame>, Stop>
    ensures stops { StopsAt heap.old heap.new (number_to_wrap target (answered answer)) result }
    ensures named { (w : World) → IsObject w.lists target → IsKnownCompletion w.lists (answered answer) → KeepsNamed names_of w result }
    ensures retains { Retains heap.old heap.new }
{
    match value_of(answer) {
        Ok(Value::Whole(n)) => wrap_number(heap, target, n),
        Ok(_) => Ok(Turn::Done(Completion::Throw(Value::Undefined))),
        Err(thrown) => Ok(Turn::Done(Completion::Throw(thrown))),
    }
}

/// Number.prototype.valueOf (21.1.3.7).
pub(crate) fn number_value_of<L: Ledger>(
    heap: &mut Heap,
    this: Value,
    steps: &mut Steps<L>,
) -> Result<Turn<CoreFrame>, Stop>
    ensures stops { StopsAt heap.old heap.new (number_value_of this) result }
    ensures named { (w : World) → KeepsNamed names_of w result }
    ensures retains { Retains heap.old heap.new }
{
    match inner_value(heap, this) {
        Value::Whole(n) => Ok(Turn::Done(Completion::Normal(Reply::Value(Value::Whole(n))))),
        Value::Undefined
        | Value::Null
        | Value::Bool(_)
        | Value::Text(_)
        | Value::Symbol(_)
        | Value::Object(_) => wrong_value(heap, steps),
    }
}
