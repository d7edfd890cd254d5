//! Boolean and the functions of its prototype (ECMA-262, 20.3).

ghost use Rattle.std.specs.Prelude.{◌≡◌, ◌≤◌, length};
ghost use Rattle.es_model.specs.Known.{IsObject};
ghost use Rattle.es_model.specs.World.{World};
ghost use Rattle.object_heap.specs.Retains.{Retains};
ghost use Rattle.object_heap.specs.Turns.{KeepsNamed};
ghost use Rattle.core_builtins.specs.Booleans.{boolean_called, boolean_constructed, boolean_to_string, boolean_value_of, truth_text};
ghost use Rattle.core_builtins.specs.Names.{names_of};
ghost use Rattle.core_builtins.specs.Turns.{StopsAt};

use crate::arguments::{first_of, inner_value};
use crate::asking::gives_text;
use crate::frame::CoreFrame;
use crate::throwing::wrong_value;
use crate::wrappers::create_wrapper;
use es_model::{Class, Completion, Reply, Stop, Turn, Values};
use object_heap::Heap;
use property_keys::{Ledger, ObjectId, Steps, Value};

/// Boolean, called (20.3.1.1).
pub(crate) fn boolean_called(heap: &mut Heap, arguments: &Values) -> Result<Turn<CoreFrame>, Stop>
    ensures stops { StopsAt heap.old heap.new (boolean_called arguments.now) result }
    ensures named { (w : World) → KeepsNamed names_of w result }
    ensures retains { Retains heap.old heap.new }
{
    let is_truth = heap.is_truth(first_of(arguments));
    Ok(Turn::Done(Completion::Normal(Reply::Value(Value::Bool(is_truth)))))
}

/// Boolean, constructed (20.3.1.1).
pub(crate) fn boolean_constructed(
    heap: &mut Heap,
    arguments: &Values,
    target: ObjectId,
) -> Result<Turn<CoreFrame>, Stop>
    ensures stops { StopsAt heap.old heap.new (boolean_constructed arguments.now target) result }
    ensures named { (w : World) → IsObject w.lists target → KeepsNamed names_of w result }
    ensures retains { Retains heap.old heap.new }
{
    let is_truth = heap.is_truth(first_of(arguments));
    create_wrapper(heap, Class::Boolean, Value::Bool(is_truth), target)
}

fn truth_text(flag: bool) -> &'static [u8]
    ensures text { result.now ≡ truth_text flag }
    ensures short { length result.now ≤ 40 }
{
    if flag { b"true" } else { b"false" }
}

/// Boolean.prototype.toString (20.3.3.2).
pub(crate) fn boolean_to_string<L: Ledger>(
    heap: &mut Heap,
    this: Value,
    steps: &mut Steps<L>,
) -> Result<Turn<CoreFrame>, Stop>
    ensures stops { StopsAt heap.old heap.new (boolean_to_string this) result }
    ensures named { (w : World) → KeepsNamed names_of w result }
    ensures retains { Retains heap.old heap.new }
{
    match inner_value(heap, this) {
        Value::Bool(flag) => gives_text(heap, truth_text(flag)),
        Value::Undefined
        | Value::Null
        | Value::Whole(_)
        | Value::Text(_)
        | Value::Symbol(_)
        | Value::Object(_) => wrong_value(heap, steps),
    }
}

/// Boolean.prototype.valueOf (20.3.3.3).
pub(crate) fn boolean_value_of<L: Ledger>(
    heap: &mut Heap,
    this: Value,
    steps: &mut Steps<L>,
) -> Result<Turn<CoreFrame>, Stop>
    ensures stops { StopsAt heap.old heap.new (boolean_value_of this) result }
    ensures named { (w : World) → KeepsNamed names_of w result }
    ensures retains { Retains heap.old heap.new }
{
    match inner_value(heap, this) {
        Value::Bool(flag) => Ok(Turn::Done(Completion::Normal(Reply::Value(Value::Bool(flag))))),
        Value::Undefined
        | Value::Null
        | Value::Whole(_)
        | Value::Text(_)
        | Value::Symbol(_)
        | Value::Object(_) => wrong_value(heap, steps),
    }
}
