//! Errors that the algorithms throw.

ghost use Rattle.std.specs.Prelude.{◌≤◌, length};
ghost use Rattle.es_model.specs.World.{World};
ghost use Rattle.es_model.specs.programs.Converting.{not_an_object};
ghost use Rattle.es_model.specs.programs.Errors.{not_a_constructor, not_a_function, throw_error};
ghost use Rattle.object_heap.specs.Retains.{Retains};
ghost use Rattle.object_heap.specs.Turns.{KeepsNamed};
ghost use Rattle.plain_builtins.specs.ArrayLikes.{wrong_value};
ghost use Rattle.plain_builtins.specs.Conversions.{cannot_convert, no_number};
ghost use Rattle.plain_builtins.specs.Names.{names_of};
ghost use Rattle.plain_builtins.specs.Turns.{StopsAt};

use crate::frame::PlainFrame;
use crate::words::NoNumber;
use es_model::{Completion, ErrorKind, Stop, Turn};
use object_heap::Heap;
use property_keys::{Ledger, Steps, Value};

/// A new error of this kind, with this message, is thrown.
pub(crate) fn throw_error<L: Ledger>(
    heap: &mut Heap,
    kind: ErrorKind,
    message: &[u8],
    steps: &mut Steps<L>,
) -> Result<Turn<PlainFrame>, Stop>
    requires { length message.now ≤ 40 }
    ensures stops { StopsAt heap.old heap.new (throw_error kind message.now) result }
    ensures named { (w : World) → KeepsNamed names_of w result }
    ensures retains { Retains heap.old heap.new }
{
    let text = heap.word(message)?;
    let error = heap.make_error(kind, text, steps)?;
    Ok(Turn::Done(Completion::Throw(Value::Object(error))))
}

pub(crate) fn cannot_convert<L: Ledger>(
    heap: &mut Heap,
    steps: &mut Steps<L>,
) -> Result<Turn<PlainFrame>, Stop>
    ensures stops { StopsAt heap.old heap.new cannot_convert result }
    ensures named { (w : World) → KeepsNamed names_of w result }
    ensures retains { Retains heap.old heap.new }
{
    throw_error(heap, ErrorKind::TypeError, b"cannot convert", steps)
}

pub(crate) fn not_an_object<L: Ledger>(
    heap: &mut Heap,
    steps: &mut Steps<L>,
) -> Result<Turn<PlainFrame>, Stop>
    ensures stops { StopsAt heap.old heap.new not_an_object result }
    ensures named { (w : World) → KeepsNamed names_of w result }
    ensures retains { Retains heap.old heap.new }
{
    throw_error(heap, ErrorKind::TypeError, b"not an object", steps)
}

pub(crate) fn not_a_function<L: Ledger>(
    heap: &mut Heap,
    steps: &mut Steps<L>,
) -> Result<Turn<PlainFrame>, Stop>
    ensures stops { StopsAt heap.old heap.new not_a_function result }
    ensures named { (w : World) → KeepsNamed names_of w result }
    ensures retains { Retains heap.old heap.new }
{
    throw_error(heap, ErrorKind::TypeError, b"not a function", steps)
}

pub(crate) fn not_a_constructor<L: Ledger>(
    heap: &mut Heap,
    steps: &mut Steps<L>,
) -> Result<Turn<PlainFrame>, Stop>
    ensures stops { StopsAt heap.old heap.new not_a_constructor result }
    ensures named { (w : World) → KeepsNamed names_of w result }
    ensures retains { Retains heap.old heap.new }
{
    throw_error(heap, ErrorKind::TypeError, b"not a constructor", steps)
}

pub(crate) fn wrong_value<L: Ledger>(
    heap: &mut Heap,
    steps: &mut Steps<L>,
) -> Result<Turn<PlainFrame>, Stop>
    ensures stops { StopsAt heap.old heap.new wrong_value result }
    ensures named { (w : World) → KeepsNamed names_of w result }
    ensures retains { Retains heap.old heap.new }
{
    throw_error(heap, ErrorKind::TypeError, b"wrong value", steps)
}

/// A value has no number.
pub(crate) fn no_number<L: Ledger>(
    heap: &mut Heap,
    why: NoNumber,
    steps: &mut Steps<L>,
) -> Result<Turn<PlainFrame>, Stop>
    ensures stops { StopsAt heap.old heap.new (no_number why) result }
    ensures named { (w : World) → KeepsNamed names_of w result }
    ensures retains { Retains heap.old heap.new }
{
    match why {
        NoNumber::Outside => throw_error(
            heap,
            ErrorKind::RangeError,
            b"number outside the profile",
            steps,
        ),
        NoNumber::Inconvertible => cannot_convert(heap, steps),
    }
}
