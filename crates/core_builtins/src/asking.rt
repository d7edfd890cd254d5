//! What many built-in functions ask for, and what they take from an answer.

ghost use Rattle.std.specs.Prelude.{◌≡◌, ◌≤◌, ◌∷◌, [], IfOk, length};
ghost use Rattle.es_model.specs.Belongs.{Belongs};
ghost use Rattle.es_model.specs.Completions.{answered};
ghost use Rattle.es_model.specs.Fits.{IsKnownCompletion};
ghost use Rattle.es_model.specs.Known.{IfThere, IsKnown, IsObject};
ghost use Rattle.es_model.specs.World.{Lists, World};
ghost use Rattle.es_model.specs.programs.Abrupt.{or_throw, taken, value_in};
ghost use Rattle.es_model.specs.programs.Methods.{get_named, has_named};
ghost use Rattle.es_model.specs.programs.Testing.{as_object};
ghost use Rattle.object_heap.specs.Retains.{Retains};
ghost use Rattle.object_heap.specs.Turns.{KeepsNamed};
ghost use Rattle.core_builtins.specs.Answers.{gives_text};
ghost use Rattle.core_builtins.specs.Names.{names_of};
ghost use Rattle.core_builtins.specs.Rests.{program_after};
ghost use Rattle.core_builtins.specs.Turns.{StopsAt};

use crate::frame::CoreFrame;
use es_model::{Completion, Reply, Request, Stop, Turn, Values};
use object_heap::Heap;
use property_keys::{NoMemory, ObjectId, PropKey, Value};
use std::alloc::Global;

/// The object that a value is, if it is one.
pub(crate) fn as_object(value: Value) -> Option<ObjectId>
    ensures object { result ≡ as_object value }
    ensures known { (l : Lists) → IsKnown l value → IfThere (IsObject l) result }
{
    match value {
        Value::Object(object) => Some(object),
        Value::Undefined
        | Value::Null
        | Value::Bool(_)
        | Value::Whole(_)
        | Value::Text(_)
        | Value::Symbol(_) => None,
    }
}

/// A list of one value.
pub(crate) fn one(alloc: Global, value: Value) -> Result<Values, NoMemory>
    ensures { IfOk result (λ values. values ≡ value ∷ []) }
{
    let mut values = Values::new(alloc);
    values.push(value)?;
    Ok(values)
}

/// A list of two values.
pub(crate) fn two(alloc: Global, first: Value, second: Value) -> Result<Values, NoMemory>
    ensures { IfOk result (λ values. values ≡ first ∷ second ∷ []) }
{
    let mut values = one(alloc, first)?;
    values.push(second)?;
    Ok(values)
}

/// What an algorithm goes on with, or what is thrown on. What the answer names is there.
pub(crate) fn value_of(answer: Completion) -> Result<Value, Value>
    ensures taken { taken value_in (answered answer) ≡ or_throw result }
    ensures known { (l : Lists) → IsKnownCompletion l (answered answer) → IfOk result (IsKnown l) }
{
    answer.value()
}

/// A text of the standard's own is the answer.
pub(crate) fn gives_text(heap: &mut Heap, text: &[u8]) -> Result<Turn<CoreFrame>, Stop>
    requires { length text.now ≤ 40 }
    ensures stops { StopsAt heap.old heap.new (gives_text text.now) result }
    ensures named { (w : World) → KeepsNamed names_of w result }
    ensures retains { Retains heap.old heap.new }
{
    let text = heap.word(text)?;
    Ok(Turn::Done(Completion::Normal(Reply::Value(Value::Text(text)))))
}

/// Get (ECMA-262, 7.3.2) under a name of the standard's own.
pub(crate) fn get_named(
    heap: &mut Heap,
    object: ObjectId,
    name: &[u8],
    frame: CoreFrame,
) -> Result<Turn<CoreFrame>, Stop>
    requires { length name.now ≤ 40 }
    ensures stops { StopsAt heap.old heap.new (get_named object name.now (program_after frame)) result }
    ensures named { (w : World) → Belongs names_of w frame → KeepsNamed names_of w result }
    ensures retains { Retains heap.old heap.new }
{
    let text = heap.word(name)?;
    let request = Request::Read {
        object,
        key: PropKey::Name(text),
        receiver: Value::Object(object),
        site: None,
    };
    Ok(Turn::Ask(request, frame))
}

/// HasProperty (ECMA-262, 7.3.11) under a name of the standard's own.
pub(crate) fn has_named(
    heap: &mut Heap,
    object: ObjectId,
    name: &[u8],
    frame: CoreFrame,
) -> Result<Turn<CoreFrame>, Stop>
    requires { length name.now ≤ 40 }
    ensures stops { StopsAt heap.old heap.new (has_named object name.now (program_after frame)) result }
    ensures named { (w : World) → Belongs names_of w frame → KeepsNamed names_of w result }
    ensures retains { Retains heap.old heap.new }
{
    let text = heap.word(name)?;
    let request = Request::Has {
        object,
        key: PropKey::Name(text),
    };
    Ok(Turn::Ask(request, frame))
}
