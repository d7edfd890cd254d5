//! The two calls of the crate: which method begins a request, and which goes on with an answer.

ghost use Rattle.es_model.specs.Completions.{answered};
ghost use Rattle.es_model.specs.Fits.{IsKnownRequest};
ghost use Rattle.es_model.specs.Program.{Of, Task};
ghost use Rattle.es_model.specs.Sound.{IsSound};
ghost use Rattle.es_model.specs.Stages.{stage_of};
ghost use Rattle.es_model.specs.World.{World};
ghost use Rattle.object_heap.specs.Retains.{Retains};
ghost use Rattle.object_heap.specs.Stands.{StandsFor};
ghost use Rattle.object_heap.specs.Stops.{Stops};
ghost use Rattle.object_heap.specs.Turns.{IsTurn, KeepsFor, KeepsNamed, StaysSound, world_after};
ghost use Rattle.ordinary_object.specs.Names.{names_of};
ghost use Rattle.ordinary_object.specs.Rests.{program_after};
ghost use Rattle.arguments_exotic.specs.Arguments.{arguments_program};
ghost use Rattle.arguments_exotic.specs.Serving.{IsForArguments};
ghost use Rattle.arguments_exotic.specs.Turns.{StopsAt};

use crate::defining::arguments_define_own_property;
use crate::deleting::arguments_delete;
use crate::ordinary::ordinary;
use crate::reading::{arguments_get, arguments_get_own_property};
use crate::setting::arguments_set;
use es_model::{Completion, Request, Stop, Turn};
use object_heap::Heap;
use ordinary_object::OrdinaryFrame;
use property_keys::{Ledger, Steps};
use std::alloc::Global;

/// Where a method of an arguments object has asked. Only the ordinary methods ask, so it is a frame of theirs.
pub type ArgumentsFrame = OrdinaryFrame;

/// The first turn of an internal method of an arguments object, mapped or unmapped. A call, a construction, an abstract operation and a line of print are for
/// other crates, and throw undefined here.
///
/// Halted comes exactly where a charge does not fit: one turn for each step on to a prototype's own method, and one for each round of [[SetPrototypeOf]].
#[tactic(auto, using(object_heap::proofs::Turns::turn_of, object_heap::proofs::Turns::sound_of, object_heap::proofs::Turns::named_of, crate::proofs::Kept::arguments_kept))]
pub fn start<L: Ledger>(
    alloc: Global,
    heap: &mut Heap,
    request: &Request,
    steps: &mut Steps<L>,
) -> Result<Turn<ArgumentsFrame>, Stop>
    ensures stops { (w : World) → StandsFor heap.old w → Stops program_after heap.old heap.new w (stage_of (arguments_program request.now) w) result }
    ensures turn { (w : World) → StandsFor heap.old w → IsTurn program_after heap.old heap.new (arguments_program request.now) w result }
    ensures sound { (w : World) → StandsFor heap.old w → IsSound w → IsKnownRequest w.lists request.now → IsForArguments w.lists request.now → StaysSound program_after (Of request.now) (world_after (arguments_program request.now) w) result }
    ensures belongs { (w : World) → StandsFor heap.old w → IsKnownRequest w.lists request.now → KeepsNamed names_of (world_after (arguments_program request.now) w) result }
    ensures retains { Retains heap.old heap.new }
{
    first_turn(alloc, heap, request, steps)
}

/// The next turn of a frame, with the answer to what it asked.
///
/// Halted comes exactly where a charge does not fit.
pub fn resume<L: Ledger>(
    alloc: Global,
    heap: &mut Heap,
    frame: ArgumentsFrame,
    answer: Completion,
    steps: &mut Steps<L>,
) -> Result<Turn<ArgumentsFrame>, Stop>
    ensures stops { (w : World) → StandsFor heap.old w → Stops program_after heap.old heap.new w (stage_of (program_after frame (answered answer)) w) result }
    ensures turn { (w : World) → StandsFor heap.old w → IsTurn program_after heap.old heap.new (program_after frame (answered answer)) w result }
    ensures sound { (started : Task) (w : World) → StandsFor heap.old w → KeepsFor started (program_after frame (answered answer)) w → StaysSound program_after started (world_after (program_after frame (answered answer)) w) result }
    ensures belongs { (w : World) → StandsFor heap.old w → KeepsNamed names_of (world_after (program_after frame (answered answer)) w) result }
    ensures retains { Retains heap.old heap.new }
{
    ordinary_object::resume(alloc, heap, frame, answer, steps)
}

fn first_turn<L: Ledger>(
    alloc: Global,
    heap: &mut Heap,
    request: &Request,
    steps: &mut Steps<L>,
) -> Result<Turn<ArgumentsFrame>, Stop>
    ensures stops { StopsAt heap.old heap.new (arguments_program request.now) result }
    ensures named { (w : World) → StandsFor heap.old w → IsKnownRequest w.lists request.now → KeepsNamed names_of (world_after (arguments_program request.now) w) result }
    ensures retains { Retains heap.old heap.new }
{
    match request {
        Request::GetOwn { object, key } => arguments_get_own_property(heap, *object, *key, steps),
        Request::Define {
            object,
            key,
            wanted,
        } => arguments_define_own_property(heap, *object, *key, wanted, steps),
        Request::Read {
            object,
            key,
            receiver,
            ..
        } => arguments_get(alloc, heap, *object, *key, *receiver, steps),
        Request::Write {
            object,
            key,
            value,
            receiver,
            ..
        } => arguments_set(alloc, heap, *object, *key, *value, *receiver, steps),
        Request::Delete { object, key } => arguments_delete(heap, *object, *key, steps),
        Request::Has { .. }
        | Request::Keys { .. }
        | Request::Proto { .. }
        | Request::SetProto { .. }
        | Request::Extensible { .. }
        | Request::Prevent { .. }
        | Request::Call { .. }
        | Request::Construct { .. }
        | Request::Work { .. }
        | Request::Print { .. } => ordinary(alloc, heap, request, steps),
    }
}
