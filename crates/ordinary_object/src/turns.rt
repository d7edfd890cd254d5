//! The two calls of the crate.

ghost use Rattle.es_model.specs.Completions.{answered};
ghost use Rattle.es_model.specs.Fits.{IsKnownRequest};
ghost use Rattle.es_model.specs.Sound.{IsSound};
ghost use Rattle.es_model.specs.Stages.{stage_of};
ghost use Rattle.es_model.specs.World.{World};
ghost use Rattle.es_model.specs.Program.{Of, Task};
ghost use Rattle.ordinary_object.specs.Ordinary.{ordinary_program};
ghost use Rattle.object_heap.specs.Retains.{Retains};
ghost use Rattle.object_heap.specs.Stands.{StandsFor};
ghost use Rattle.object_heap.specs.Stops.{Stops};
ghost use Rattle.object_heap.specs.Turns.{IsTurn, KeepsFor, KeepsNamed, StaysSound, world_after};
ghost use Rattle.ordinary_object.specs.Names.{names_of};
ghost use Rattle.ordinary_object.specs.Rests.{program_after};
ghost use Rattle.ordinary_object.specs.Serving.{IsForOrdinary};

use crate::OrdinaryFrame;
use crate::extensions::{ordinary_is_extensible, ordinary_prevent_extensions};
use crate::getting::{ordinary_get, ordinary_has_property};
use crate::properties::{
    ordinary_define_own_property, ordinary_delete, ordinary_get_own_property,
    ordinary_own_property_keys,
};
use crate::prototypes::{ordinary_get_prototype_of, set_prototype_of};
use crate::receivers::set_had;
use crate::setting::{ordinary_set, set_called};
use es_model::{Completion, Request, Stop, Turn};
use object_heap::Heap;
use property_keys::{Ledger, Steps, Value};
use std::alloc::Global;

/// The first turn of a request whose object has the ordinary method. A call, a construction, an abstract operation and a line of print are for other crates, and
/// throw undefined here. A definition on an Array object is none of the ordinary methods (10.4.2.1), and soundness is not said of it.
///
/// Halted comes exactly where a charge does not fit: one turn for each step on to a prototype's own method, and one for each round of [[SetPrototypeOf]].
#[tactic(auto, using(object_heap::proofs::Turns::turn_of, object_heap::proofs::Turns::sound_of, object_heap::proofs::Turns::named_of, crate::proofs::Kept::ordinary_kept))]
pub fn start<L: Ledger>(
    alloc: Global,
    heap: &mut Heap,
    request: &Request,
    steps: &mut Steps<L>,
) -> Result<Turn<OrdinaryFrame>, Stop>
    ensures stops { (w : World) → StandsFor heap.old w → Stops program_after heap.old heap.new w (stage_of (ordinary_program request.now) w) result }
    ensures turn { (w : World) → StandsFor heap.old w → IsTurn program_after heap.old heap.new (ordinary_program request.now) w result }
    ensures sound { (w : World) → StandsFor heap.old w → IsSound w → IsKnownRequest w.lists request.now → IsForOrdinary w.lists request.now → StaysSound program_after (Of request.now) (world_after (ordinary_program request.now) w) result }
    ensures belongs { (w : World) → StandsFor heap.old w → IsKnownRequest w.lists request.now → KeepsNamed names_of (world_after (ordinary_program request.now) w) result }
    ensures retains { Retains heap.old heap.new }
{
    first_turn(alloc, heap, request, steps)
}

/// The next turn of a frame, with the answer to what it asked.
///
/// Halted comes exactly where a charge does not fit.
#[tactic(auto, using(object_heap::proofs::Turns::turn_of, object_heap::proofs::Turns::sound_of, object_heap::proofs::Turns::named_of))]
pub fn resume<L: Ledger>(
    _alloc: Global,
    heap: &mut Heap,
    frame: OrdinaryFrame,
    answer: Completion,
    _steps: &mut Steps<L>,
) -> Result<Turn<OrdinaryFrame>, Stop>
    ensures stops { (w : World) → StandsFor heap.old w → Stops program_after heap.old heap.new w (stage_of (program_after frame (answered answer)) w) result }
    ensures turn { (w : World) → StandsFor heap.old w → IsTurn program_after heap.old heap.new (program_after frame (answered answer)) w result }
    ensures sound { (started : Task) (w : World) → StandsFor heap.old w → KeepsFor started (program_after frame (answered answer)) w → StaysSound program_after started (world_after (program_after frame (answered answer)) w) result }
    ensures belongs { (w : World) → StandsFor heap.old w → KeepsNamed names_of (world_after (program_after frame (answered answer)) w) result }
    ensures retains { Retains heap.old heap.new }
{
    next_turn(heap, frame, answer)
}

fn first_turn<L: Ledger>(
    alloc: Global,
    heap: &mut Heap,
    request: &Request,
    steps: &mut Steps<L>,
) -> Result<Turn<OrdinaryFrame>, Stop>
    ensures stops { (w : World) → StandsFor heap.old w → Stops program_after heap.old heap.new w (stage_of (ordinary_program request.now) w) result }
    ensures named { (w : World) → IsKnownRequest w.lists request.now → KeepsNamed names_of w result }
    ensures retains { Retains heap.old heap.new }
{
    match request {
        Request::GetOwn { object, key } => ordinary_get_own_property(heap, *object, *key, steps),
        Request::Define {
            object,
            key,
            wanted,
        } => ordinary_define_own_property(heap, *object, *key, wanted, steps),
        Request::Has { object, key } => ordinary_has_property(heap, *object, *key, steps),
        Request::Read {
            object,
            key,
            receiver,
            ..
        } => ordinary_get(alloc, heap, *object, *key, *receiver, steps),
        Request::Write {
            object,
            key,
            value,
            receiver,
            ..
        } => ordinary_set(alloc, heap, *object, *key, *value, *receiver, steps),
        Request::Delete { object, key } => ordinary_delete(heap, *object, *key, steps),
        Request::Keys { object } => ordinary_own_property_keys(heap, *object, steps),
        Request::Proto { object } => ordinary_get_prototype_of(heap, *object),
        Request::SetProto { object, proto } => set_prototype_of(heap, *object, *proto, steps),
        Request::Extensible { object } => ordinary_is_extensible(heap, *object),
        Request::Prevent { object } => ordinary_prevent_extensions(heap, *object, steps),
        Request::Call { .. }
        | Request::Construct { .. }
        | Request::Work { .. }
        | Request::Print { .. } => Ok(Turn::Done(Completion::Throw(Value::Undefined))),
    }
}

fn next_turn(
    heap: &mut Heap,
    frame: OrdinaryFrame,
    answer: Completion,
) -> Result<Turn<OrdinaryFrame>, Stop>
    ensures stops { (w : World) → StandsFor heap.old w → Stops program_after heap.old heap.new w (stage_of (program_after frame (answered answer)) w) result }
    ensures named { (w : World) → KeepsNamed names_of w result }
    ensures retains { Retains heap.old heap.new }
{
    match frame {
        OrdinaryFrame::ParentHas
        | OrdinaryFrame::ParentGet
        | OrdinaryFrame::GetterCalled
        | OrdinaryFrame::ParentSet
        | OrdinaryFrame::ReceiverDefined => Ok(Turn::Done(answer)),
        OrdinaryFrame::SetterCalled => set_called(heap, answer),
        OrdinaryFrame::ReceiverHad(pending) => set_had(heap, pending, answer),
    }
}
