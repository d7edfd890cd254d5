//! The error that the dispatcher throws itself. It is thrown in the place of an algorithm, whose kind of frame does not matter.

ghost use Rattle.std.specs.Prelude.{◌≤◌, length};
ghost use Rattle.es_model.specs.Stages.{stage_of};
ghost use Rattle.es_model.specs.World.{World};
ghost use Rattle.es_model.specs.programs.Errors.{throw_error, too_many_calls};
ghost use Rattle.object_heap.specs.Stands.{StandsFor};
ghost use Rattle.object_heap.specs.Stops.{Stops};
ghost use Rattle.ordinary_object.specs.Rests.{program_after};

use es_model::{Completion, ErrorKind, Stop, Turn};
use object_heap::Heap;
use ordinary_object::OrdinaryFrame;
use property_keys::{Ledger, Steps, Value};

/// A new error of this kind, with this message, is thrown.
fn throw_error<L: Ledger>(
    heap: &mut Heap,
    kind: ErrorKind,
    message: &[u8],
    steps: &mut Steps<L>,
) -> Result<Turn<OrdinaryFrame>, Stop>
    requires { length message.now ≤ 40 }
    ensures { (w : World) → StandsFor heap.old w → Stops program_after heap.old heap.new w (stage_of (throw_error kind message.now) w) result }
{
    let text = heap.word(message)?;
    let error = heap.make_error(kind, text, steps)?;
    Ok(Turn::Done(Completion::Throw(Value::Object(error))))
}

/// What is entered would be one call more than may run at once.
pub(crate) fn too_many_calls<L: Ledger>(
    heap: &mut Heap,
    steps: &mut Steps<L>,
) -> Result<Turn<OrdinaryFrame>, Stop>
    ensures { (w : World) → StandsFor heap.old w → Stops program_after heap.old heap.new w (stage_of too_many_calls w) result }
{
    throw_error(heap, ErrorKind::RangeError, b"too many nested calls", steps)
}
