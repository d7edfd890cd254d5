//! ToNumber (ECMA-262, 7.1.4), where every number is whole.

ghost use Rattle.std.specs.Prelude.{◌≡◌};
ghost use Rattle.property_keys.specs.declared.values.Value.TheVariants as value;
ghost use Rattle.plain_builtins.specs.Conversions.{number_in, to_whole, truth_number, whole_given, whole_of};
ghost use Rattle.object_heap.specs.Stands.{StandsFor};
ghost use Rattle.es_model.specs.Completions.{answered};
ghost use Rattle.es_model.specs.World.{World};
ghost use Rattle.object_heap.specs.Retains.{Retains};
ghost use Rattle.object_heap.specs.Turns.{KeepsNamed};
ghost use Rattle.plain_builtins.specs.Names.{names_of};
ghost use Rattle.plain_builtins.specs.Turns.{StopsAt};

use crate::asking::{as_object, one};
use crate::frame::{ConvertedFrame, PlainFrame};
use crate::throwing::no_number;
use crate::words::NoNumber;
use es_model::{Completion, Operation, Reply, Request, Stop, Turn};
use object_heap::Heap;
use property_keys::{Ledger, Steps, TextId, Value};
use std::alloc::Global;

/// The number of a value that is no object.
pub(crate) fn number_in(heap: &Heap, value: Value) -> Result<i64, NoNumber>
    ensures { (w : World) → StandsFor heap.now w → result ≡ number_in w.lists value }
{
    match value {
        Value::Undefined => Err(NoNumber::Outside),
        Value::Null => Ok(0),
        Value::Bool(flag) => Ok(truth_number(flag)),
        Value::Whole(n) => Ok(n),
        Value::Text(text) => text_number(heap, text),
        Value::Symbol(_) | Value::Object(_) => Err(NoNumber::Inconvertible),
    }
}

pub(crate) fn text_number(heap: &Heap, text: TextId) -> Result<i64, NoNumber>
    ensures { (w : World) → StandsFor heap.now w → result ≡ number_in w.lists (value.Text text) }
{
    match heap.text_whole(text) {
        Ok(n) => Ok(n),
        Err(_) => Err(NoNumber::Outside),
    }
}

pub(crate) fn truth_number(flag: bool) -> i64
    ensures { result ≡ truth_number flag }
{
    if flag { 1 } else { 0 }
}

/// ToNumber. A number is its own, and asks nothing.
pub(crate) fn to_whole<L: Ledger>(
    alloc: Global,
    heap: &mut Heap,
    value: Value,
    steps: &mut Steps<L>,
) -> Result<Turn<PlainFrame>, Stop>
    ensures stops { StopsAt heap.old heap.new (to_whole value) result }
    ensures named { (w : World) → KeepsNamed names_of w result }
    ensures retains { Retains heap.old heap.new }
{
    match as_object(value) {
        None => whole_of(heap, value, steps),
        Some(_) => {
            let request = Request::Work {
                operation: Operation::ToPrimitiveNumber,
                operands: one(alloc, value)?,
            };
            Ok(Turn::Ask(request, PlainFrame::Converted(ConvertedFrame::Whole)))
        }
    }
}

/// What follows step 8.
pub(crate) fn whole_given<L: Ledger>(
    heap: &mut Heap,
    answer: Completion,
    steps: &mut Steps<L>,
) -> Result<Turn<PlainFrame>, Stop>
    ensures stops { StopsAt heap.old heap.new (whole_given (answered answer)) result }
    ensures named { (w : World) → KeepsNamed names_of w result }
    ensures retains { Retains heap.old heap.new }
{
    match answer.value() {
        Ok(value) => whole_of(heap, value, steps),
        Err(thrown) => Ok(Turn::Done(Completion::Throw(thrown))),
    }
}

/// Steps 1 to 6, of a value that is no object.
fn whole_of<L: Ledger>(
    heap: &mut Heap,
    value: Value,
    steps: &mut Steps<L>,
) -> Result<Turn<PlainFrame>, Stop>
    ensures stops { StopsAt heap.old heap.new (whole_of value) result }
    ensures named { (w : World) → KeepsNamed names_of w result }
    ensures retains { Retains heap.old heap.new }
{
    match number_in(heap, value) {
        Ok(n) => Ok(Turn::Done(Completion::Normal(Reply::Value(Value::Whole(n))))),
        Err(why) => no_number(heap, why, steps),
    }
}
