//! Error.prototype.toString (ECMA-262, 20.5.3.4).

ghost use Rattle.es_model.specs.Completions.{answered};
ghost use Rattle.es_model.specs.Fits.{IsKnownCompletion};
ghost use Rattle.es_model.specs.Known.{IsKnown, IsObject, IsText};
ghost use Rattle.es_model.specs.World.{World};
ghost use Rattle.object_heap.specs.Retains.{Retains};
ghost use Rattle.object_heap.specs.Stands.{StandsFor};
ghost use Rattle.object_heap.specs.Turns.{KeepsNamed};
ghost use Rattle.core_builtins.specs.ErrorTexts.{error_to_string, message_asked, message_got, message_text_given, name_got, name_text_given, shown, with_colon, with_message_text, with_name_text};
ghost use Rattle.core_builtins.specs.Names.{names_of};
ghost use Rattle.core_builtins.specs.Turns.{StopsAt};

use crate::asking::{as_object, get_named, one, value_of};
use crate::frame::{CoreFrame, ErrorTextFrame};
use crate::texts::three_joined;
use crate::throwing::not_an_object;
use es_model::{Completion, Operation, Reply, Request, Stop, Turn};
use object_heap::Heap;
use property_keys::{Ledger, ObjectId, Steps, TextId, Value};
use std::alloc::Global;

/// Error.prototype.toString.
pub(crate) fn error_to_string<L: Ledger>(
    heap: &mut Heap,
    this: Value,
    steps: &mut Steps<L>,
) -> Result<Turn<CoreFrame>, Stop>
    ensures stops { StopsAt heap.old heap.new (error_to_string this) result }
    ensures named { (w : World) → IsKnown w.lists this → KeepsNamed names_of w result }
    ensures retains { Retains heap.old heap.new }
{
    match as_object(this) {
        None => not_an_object(heap, steps),
        Some(object) => {
            let frame = CoreFrame::ErrorText(ErrorTextFrame::NameGot(object));
            get_named(heap, object, b"name", frame)
        }
    }
}

/// What follows step 3.
pub(crate) fn name_got(
    alloc: Global,
    heap: &mut Heap,
    object: ObjectId,
    answer: Completion,
) -> Result<Turn<CoreFrame>, Stop>
    ensures stops { StopsAt heap.old heap.new (name_got object (answered answer)) result }
    ensures named { (w v : World) → StandsFor heap.old w → StandsFor heap.new v → IsObject v.lists object → IsKnownCompletion v.lists (answered answer) → KeepsNamed names_of v result }
    ensures retains { Retains heap.old heap.new }
{
    match value_of(answer) {
        Ok(name) => with_name_text(alloc, heap, object, name),
        Err(thrown) => Ok(Turn::Done(Completion::Throw(thrown))),
    }
}

/// Step 4, and what follows it.
#[tactic(auto, using(object_heap::specs::Stands::goes_none, object_heap::specs::Stands::goes_then, object_heap::specs::Stands::halts_at, object_heap::specs::Stops::stops_then, object_heap::proofs::Retaining::retains_none, object_heap::proofs::Retaining::retains_then, object_heap::proofs::Turns::named_ask, object_heap::proofs::Turns::named_done, object_heap::proofs::Turns::named_stop))]
fn with_name_text(
    alloc: Global,
    heap: &mut Heap,
    object: ObjectId,
    name: Value,
) -> Result<Turn<CoreFrame>, Stop>
    ensures stops { StopsAt heap.old heap.new (with_name_text object name) result }
    ensures named { (w v : World) → StandsFor heap.old w → StandsFor heap.new v → IsObject v.lists object → IsKnown v.lists name → KeepsNamed names_of v result }
    ensures retains { Retains heap.old heap.new }
{
    match name {
        Value::Undefined => {
            let error = heap.word(b"Error")?;
            message_asked(heap, object, error)
        }
        Value::Text(text) => message_asked(heap, object, text),
        Value::Null | Value::Bool(_) | Value::Whole(_) | Value::Symbol(_) | Value::Object(_) => {
            let request = Request::Work {
                operation: Operation::ToText,
                operands: one(alloc, name)?,
            };
            Ok(Turn::Ask(
                request,
                CoreFrame::ErrorText(ErrorTextFrame::NameGiven(object)),
            ))
        }
    }
}

/// What follows the conversion of step 4.
pub(crate) fn name_given(
    heap: &mut Heap,
    object: ObjectId,
    answer: Completion,
) -> Result<Turn<CoreFrame>, Stop>
    ensures stops { StopsAt heap.old heap.new (name_text_given object (answered answer)) result }
    ensures named { (w : World) → IsKnownCompletion w.lists (answered answer) → KeepsNamed names_of w result }
    ensures retains { Retains heap.old heap.new }
{
    match value_of(answer) {
        Ok(Value::Text(text)) => message_asked(heap, object, text),
        Ok(_) => Ok(Turn::Done(Completion::Throw(Value::Undefined))),
        Err(thrown) => Ok(Turn::Done(Completion::Throw(thrown))),
    }
}

/// Step 5.
fn message_asked(heap: &mut Heap, object: ObjectId, name: TextId) -> Result<Turn<CoreFrame>, Stop>
    ensures stops { StopsAt heap.old heap.new (message_asked object name) result }
    ensures named { (w : World) → IsText w.lists name → KeepsNamed names_of w result }
    ensures retains { Retains heap.old heap.new }
{
    let frame = CoreFrame::ErrorText(ErrorTextFrame::MessageGot(name));
    get_named(heap, object, b"message", frame)
}

/// What follows step 5.
pub(crate) fn message_got<L: Ledger>(
    alloc: Global,
    heap: &mut Heap,
    name: TextId,
    answer: Completion,
    steps: &mut Steps<L>,
) -> Result<Turn<CoreFrame>, Stop>
    ensures stops { StopsAt heap.old heap.new (message_got name (answered answer)) result }
    ensures named { (w : World) → IsText w.lists name → KeepsNamed names_of w result }
    ensures retains { Retains heap.old heap.new }
{
    match answer.value() {
        Ok(message) => with_message_text(alloc, heap, name, message, steps),
        Err(thrown) => Ok(Turn::Done(Completion::Throw(thrown))),
    }
}

/// Step 6, and what follows it.
#[tactic(auto, using(object_heap::specs::Stands::goes_none, object_heap::specs::Stands::goes_then, object_heap::specs::Stands::halts_at, object_heap::specs::Stops::stops_then, object_heap::proofs::Retaining::retains_none, object_heap::proofs::Retaining::retains_then, object_heap::proofs::Turns::named_ask, object_heap::proofs::Turns::named_done, object_heap::proofs::Turns::named_stop))]
fn with_message_text<L: Ledger>(
    alloc: Global,
    heap: &mut Heap,
    name: TextId,
    message: Value,
    steps: &mut Steps<L>,
) -> Result<Turn<CoreFrame>, Stop>
    ensures stops { StopsAt heap.old heap.new (with_message_text name message) result }
    ensures named { (w : World) → IsText w.lists name → KeepsNamed names_of w result }
    ensures retains { Retains heap.old heap.new }
{
    match message {
        Value::Undefined => {
            let empty = heap.word(b"")?;
            shown(heap, name, empty, steps)
        }
        Value::Text(text) => shown(heap, name, text, steps),
        Value::Null | Value::Bool(_) | Value::Whole(_) | Value::Symbol(_) | Value::Object(_) => {
            let request = Request::Work {
                operation: Operation::ToText,
                operands: one(alloc, message)?,
            };
            Ok(Turn::Ask(
                request,
                CoreFrame::ErrorText(ErrorTextFrame::MessageGiven(name)),
            ))
        }
    }
}

/// What follows the conversion of step 6.
pub(crate) fn message_text_given<L: Ledger>(
    heap: &mut Heap,
    name: TextId,
    answer: Completion,
    steps: &mut Steps<L>,
) -> Result<Turn<CoreFrame>, Stop>
    ensures stops { StopsAt heap.old heap.new (message_text_given name (answered answer)) result }
    ensures named { (w : World) → KeepsNamed names_of w result }
    ensures retains { Retains heap.old heap.new }
{
    match answer.value() {
        Ok(Value::Text(text)) => shown(heap, name, text, steps),
        Ok(_) => Ok(Turn::Done(Completion::Throw(Value::Undefined))),
        Err(thrown) => Ok(Turn::Done(Completion::Throw(thrown))),
    }
}

/// Steps 7 to 9.
fn shown<L: Ledger>(
    heap: &mut Heap,
    name: TextId,
    message: TextId,
    steps: &mut Steps<L>,
) -> Result<Turn<CoreFrame>, Stop>
    ensures stops { StopsAt heap.old heap.new (shown name message) result }
    ensures named { (w : World) → KeepsNamed names_of w result }
    ensures retains { Retains heap.old heap.new }
{
    let is_named = heap.is_truth(Value::Text(name));
    let has_message = heap.is_truth(Value::Text(message));
    match (is_named, has_message) {
        (false, _) => Ok(Turn::Done(Completion::Normal(Reply::Value(Value::Text(message))))),
        (true, false) => Ok(Turn::Done(Completion::Normal(Reply::Value(Value::Text(name))))),
        (true, true) => with_colon(heap, name, message, steps),
    }
}

/// Step 9.
#[tactic(auto, using(object_heap::specs::Stands::goes_none, object_heap::specs::Stands::goes_then, object_heap::specs::Stands::halts_at, object_heap::specs::Stops::stops_then, object_heap::proofs::Retaining::retains_none, object_heap::proofs::Retaining::retains_then, object_heap::proofs::Turns::named_ask, object_heap::proofs::Turns::named_done, object_heap::proofs::Turns::named_stop))]
fn with_colon<L: Ledger>(
    heap: &mut Heap,
    name: TextId,
    message: TextId,
    steps: &mut Steps<L>,
) -> Result<Turn<CoreFrame>, Stop>
    ensures stops { StopsAt heap.old heap.new (with_colon name message) result }
    ensures named { (w : World) → KeepsNamed names_of w result }
    ensures retains { Retains heap.old heap.new }
{
    let colon = heap.word(b": ")?;
    three_joined(heap, name, colon, message, steps)
}
