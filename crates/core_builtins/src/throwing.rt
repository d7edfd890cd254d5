//! Errors that the built-in functions throw.

ghost use Rattle.std.specs.Prelude.{◌≤◌, length};
ghost use Rattle.es_model.specs.World.{World};
ghost use Rattle.es_model.specs.programs.Converting.{not_an_object};
ghost use Rattle.es_model.specs.programs.Errors.{not_a_function, throw_error};
ghost use Rattle.es_model.specs.programs.Texts.{text_too_long};
ghost use Rattle.object_heap.specs.Retains.{Retains};
ghost use Rattle.object_heap.specs.Turns.{KeepsNamed};
ghost use Rattle.core_builtins.specs.Answers.{wrong_value};
ghost use Rattle.core_builtins.specs.Names.{names_of};
ghost use Rattle.core_builtins.specs.Turns.{StopsAt};

use crate::frame::CoreFrame;
use es_model::{Completion, ErrorKind, Stop, Turn};
use object_heap::Heap;
use property_keys::{Ledger, Steps, Value};

/// A new error of this kind, with this message, is thrown.
pub(crate) fn throw_error<L: Ledger>(
    heap: &mut Heap,
    kind: ErrorKind,
    message: &[u8],
    steps: &mut Steps<L>,
) -> Result<Turn<CoreFrame>, Stop>
    requires { length message.now ≤ 40 }
    ensures stops { StopsAt heap.old heap.new (throw_error kind message.now) result }
    ensures named { (w : World) → KeepsNamed names_of w result }
    ensures retains { Retains heap.old heap.new }
{
    let text = heap.word(message)?;
    let error = heap.make_error(kind, text, steps)?;
    Ok(Turn::Done(Completion::Throw(Value::Object(error))))
}

pub(crate) fn not_an_object<L: Ledger>(
    heap: &mut Heap,
    steps: &mut Steps<L>,
) -> Result<Turn<CoreFrame>, Stop>
    ensures stops { StopsAt heap.old heap.new not_an_object result }
    ensures named { (w : World) → KeepsNamed names_of w result }
    ensures retains { Retains heap.old heap.new }
{
    throw_error(heap, ErrorKind::TypeError, b"not an object", steps)
}

pub(crate) fn not_a_function<L: Ledger>(
    heap: &mut Heap,
    steps: &mut Steps<L>,
) -> Result<Turn<CoreFrame>, Stop>
    ensures stops { StopsAt heap.old heap.new not_a_function result }
    ensures named { (w : World) → KeepsNamed names_of w result }
    ensures retains { Retains heap.old heap.new }
{
    throw_error(heap, ErrorKind::TypeError, b"not a function", steps)
}

pub(crate) fn wrong_value<L: Ledger>(
    heap: &mut Heap,
    steps: &mut Steps<L>,
) -> Result<Turn<CoreFrame>, Stop>
    ensures stops { StopsAt heap.old heap.new wrong_value result }
    ensures named { (w : World) → KeepsNamed names_of w result }
    ensures retains { Retains heap.old heap.new }
{
    throw_error(heap, ErrorKind::TypeError, b"wrong value", steps)
}

pub(crate) fn text_too_long<L: Ledger>(
    heap: &mut Heap,
    steps: &mut Steps<L>,
) -> Result<Turn<CoreFrame>, Stop>
    ensures stops { StopsAt heap.old heap.new text_too_long result }
    ensures named { (w : World) → KeepsNamed names_of w result }
    ensures retains { Retains heap.old heap.new }
{
    throw_error(heap, ErrorKind::RangeError, b"text too long", steps)
}
