//! The functions of %Function.prototype% (ECMA-262, 20.2.3).

ghost use Rattle.std.specs.Prelude.{◌≡◌, IfOk};
ghost use Rattle.es_model.specs.Completions.{answered};
ghost use Rattle.es_model.specs.Known.{AreKnown, IsKnown};
ghost use Rattle.es_model.specs.World.{World};
ghost use Rattle.object_heap.specs.Retains.{Retains};
ghost use Rattle.object_heap.specs.Turns.{KeepsNamed};
ghost use Rattle.core_builtins.specs.Answers.{rest_of};
ghost use Rattle.core_builtins.specs.Functions.{apply_with, function_apply, function_call, function_has_instance, instance_given, list_given};
ghost use Rattle.core_builtins.specs.Names.{names_of};
ghost use Rattle.core_builtins.specs.Turns.{StopsAt};

use crate::arguments::{first_of, second_of};
use crate::asking::{one, two};
use crate::frame::{Calling, CoreFrame, FunctionFrame};
use crate::throwing::not_a_function;
use es_model::{Completion, Operation, Reply, Request, Stop, Turn, Values};
use object_heap::Heap;
use property_keys::{Ledger, NoMemory, Steps, Value};
use std::alloc::Global;

/// The arguments behind the first one.
fn rest_of(alloc: Global, arguments: &Values) -> Result<Values, NoMemory>
    ensures { IfOk result (λ rest. rest ≡ rest_of arguments.now) }
{
    let mut rest = Values::new(alloc);
    let mut n = 1;
    'copied: while n < arguments.len() {
        rest.push(*arguments.at(n))?;
        n += 1;
    }
    Ok(rest)
}

/// Function.prototype.call (20.2.3.3).
pub(crate) fn function_call<L: Ledger>(
    alloc: Global,
    heap: &mut Heap,
    this: Value,
    arguments: &Values,
    steps: &mut Steps<L>,
) -> Result<Turn<CoreFrame>, Stop>
    ensures stops { StopsAt heap.old heap.new (function_call this arguments.now) result }
    ensures named { (w : World) → KeepsNamed names_of w result }
    ensures retains { Retains heap.old heap.new }
{
    if heap.is_callable(this) {
        let request = Request::Call {
            function: this,
            this: first_of(arguments),
            arguments: rest_of(alloc, arguments)?,
        };
        Ok(Turn::Ask(request, CoreFrame::Function(FunctionFrame::Called)))
    } else {
        not_a_function(heap, steps)
    }
}

/// Function.prototype.apply (20.2.3.1).
pub(crate) fn function_apply<L: Ledger>(
    alloc: Global,
    heap: &mut Heap,
    this: Value,
    arguments: &Values,
    steps: &mut Steps<L>,
) -> Result<Turn<CoreFrame>, Stop>
    ensures stops { StopsAt heap.old heap.new (function_apply this arguments.now) result }
    ensures named { (w : World) → IsKnown w.lists this → AreKnown w.lists arguments.now → KeepsNamed names_of w result }
    ensures retains { Retains heap.old heap.new }
{
    if heap.is_callable(this) {
        let calling = Calling {
            function: this,
            this: first_of(arguments),
        };
        apply_with(alloc, heap, calling, second_of(arguments))
    } else {
        not_a_function(heap, steps)
    }
}

/// Steps 3 and 4.
fn apply_with(
    alloc: Global,
    heap: &mut Heap,
    calling: Calling,
    list: Value,
) -> Result<Turn<CoreFrame>, Stop>
    ensures stops { StopsAt heap.old heap.new (apply_with calling.function calling.this list) result }
    ensures named { (w : World) → IsKnown w.lists calling.function → IsKnown w.lists calling.this → KeepsNamed names_of w result }
    ensures retains { Retains heap.old heap.new }
{
    match list {
        Value::Undefined | Value::Null => {
            let request = Request::Call {
                function: calling.function,
                this: calling.this,
                arguments: Values::new(alloc),
            };
            Ok(Turn::Ask(request, CoreFrame::Function(FunctionFrame::Called)))
        }
        Value::Bool(_) | Value::Whole(_) | Value::Text(_) | Value::Symbol(_) | Value::Object(_) => {
            let request = Request::Work {
                operation: Operation::ListFromArrayLike,
                operands: one(alloc, list)?,
            };
            Ok(Turn::Ask(
                request,
                CoreFrame::Function(FunctionFrame::ListGiven(calling)),
            ))
        }
    }
}

/// What follows step 4: step 6.
pub(crate) fn list_given(
    heap: &mut Heap,
    calling: Calling,
    answer: Completion,
) -> Result<Turn<CoreFrame>, Stop>
    ensures stops { StopsAt heap.old heap.new (list_given calling.function calling.this (answered answer)) result }
    ensures named { (w : World) → KeepsNamed names_of w result }
    ensures retains { Retains heap.old heap.new }
{
    match answer.list() {
        Ok(arguments) => {
            let request = Request::Call {
                function: calling.function,
                this: calling.this,
                arguments,
            };
            Ok(Turn::Ask(request, CoreFrame::Function(FunctionFrame::Called)))
        }
        Err(thrown) => Ok(Turn::Done(Completion::Throw(thrown))),
    }
}

/// Function.prototype[@@hasInstance] (20.2.3.6).
pub(crate) fn function_has_instance(
    alloc: Global,
    heap: &mut Heap,
    this: Value,
    arguments: &Values,
) -> Result<Turn<CoreFrame>, Stop>
    ensures stops { StopsAt heap.old heap.new (function_has_instance this arguments.now) result }
    ensures named { (w : World) → KeepsNamed names_of w result }
    ensures retains { Retains heap.old heap.new }
{
    let request = Request::Work {
        operation: Operation::OrdinaryHasInstance,
        operands: two(alloc, this, first_of(arguments))?,
    };
    Ok(Turn::Ask(request, CoreFrame::Function(FunctionFrame::InstanceGiven)))
}

/// What follows step 2.
pub(crate) fn instance_given(heap: &mut Heap, answer: Completion) -> Result<Turn<CoreFrame>, Stop>
    ensures stops { StopsAt heap.old heap.new (instance_given (answered answer)) result }
    ensures named { (w : World) → KeepsNamed names_of w result }
    ensures retains { Retains heap.old heap.new }
{
    match answer.flag() {
        Ok(flag) => Ok(Turn::Done(Completion::Normal(Reply::Value(Value::Bool(flag))))),
        Err(thrown) => Ok(Turn::Done(Completion::Throw(thrown))),
    }
}
