//! The frames of all crates, a variant for each, and how one goes on.

ghost use Rattle.std.specs.Prelude.{◌≡◌, ℕ};
ghost use Rattle.es_tree.specs.Tree.{Tree};
ghost use Rattle.es_model.specs.Completions.{answered};
ghost use Rattle.es_model.specs.Frames.{program_rest};
ghost use Rattle.es_model.specs.Program.{Outcome, Server};
ghost use Rattle.es_model.specs.Servers.{IsServerBy};
ghost use Rattle.es_model.specs.World.{World};
ghost use Rattle.es_serve.specs.Serve.{program_of};
ghost use Rattle.object_heap.specs.Stands.{HeapView, StandsFor};
ghost use Rattle.object_heap.specs.Turns.{IsTurnOf};
ghost use Rattle.evaluator.specs.Machine.{eval_rest};
ghost use Rattle.ordinary_object.specs.Rests.{program_after as after_ordinary};
ghost use Rattle.core_builtins.specs.Rests.{program_after as after_core};
ghost use Rattle.plain_builtins.specs.Rests.{program_after as after_plain};
ghost use Rattle.dispatcher.specs.Rests.{frame_rest};

use core_builtins::CoreFrame;
use es_model::{Completion, Stop, Turn};
use es_tree::Checked;
use evaluator::EvalFrame;
use object_heap::Heap;
use ordinary_object::OrdinaryFrame;
use plain_builtins::PlainFrame;
use property_keys::{Ledger, Steps};
use std::alloc::Global;

/// A frame that waits for an answer: a variant for each crate of frames.
#[derive(Drop)]
pub(crate) enum Frame {
    Ordinary(OrdinaryFrame),
    Plain(PlainFrame),
    Core(CoreFrame),
    Running(EvalFrame),
}

pub(crate) fn of_ordinary(turn: Result<Turn<OrdinaryFrame>, Stop>) -> Result<Turn<Frame>, Stop>
    ensures { (script : Tree) (old new : HeapView) (w : World) (S : Server) (n : ℕ) (o : Outcome) → IsTurnOf (program_rest after_ordinary) old new w S n o turn → IsTurnOf (frame_rest script) old new w S n o result }
{
    match turn {
        Ok(Turn::Ask(request, frame)) => Ok(Turn::Ask(request, Frame::Ordinary(frame))),
        Ok(Turn::Done(answer)) => Ok(Turn::Done(answer)),
        Err(stop) => Err(stop),
    }
}

pub(crate) fn of_plain(turn: Result<Turn<PlainFrame>, Stop>) -> Result<Turn<Frame>, Stop>
    ensures { (script : Tree) (old new : HeapView) (w : World) (S : Server) (n : ℕ) (o : Outcome) → IsTurnOf (program_rest after_plain) old new w S n o turn → IsTurnOf (frame_rest script) old new w S n o result }
{
    match turn {
        Ok(Turn::Ask(request, frame)) => Ok(Turn::Ask(request, Frame::Plain(frame))),
        Ok(Turn::Done(answer)) => Ok(Turn::Done(answer)),
        Err(stop) => Err(stop),
    }
}

pub(crate) fn of_core(turn: Result<Turn<CoreFrame>, Stop>) -> Result<Turn<Frame>, Stop>
    ensures { (script : Tree) (old new : HeapView) (w : World) (S : Server) (n : ℕ) (o : Outcome) → IsTurnOf (program_rest after_core) old new w S n o turn → IsTurnOf (frame_rest script) old new w S n o result }
{
    match turn {
        Ok(Turn::Ask(request, frame)) => Ok(Turn::Ask(request, Frame::Core(frame))),
        Ok(Turn::Done(answer)) => Ok(Turn::Done(answer)),
        Err(stop) => Err(stop),
    }
}

pub(crate) fn of_running(turn: Result<Turn<EvalFrame>, Stop>) -> Result<Turn<Frame>, Stop>
    ensures { (script : Tree) (old new : HeapView) (w : World) (S : Server) (n : ℕ) (o : Outcome) → IsTurnOf (eval_rest script) old new w S n o turn → IsTurnOf (frame_rest script) old new w S n o result }
{
    match turn {
        Ok(Turn::Ask(request, frame)) => Ok(Turn::Ask(request, Frame::Running(frame))),
        Ok(Turn::Done(answer)) => Ok(Turn::Done(answer)),
        Err(stop) => Err(stop),
    }
}

/// The next turn of a frame.
pub(crate) fn resume<L: Ledger>(
    alloc: Global,
    heap: &mut Heap,
    script: &Checked,
    frame: Frame,
    answer: Completion,
    steps: &mut Steps<L>,
) -> Result<Turn<Frame>, Stop>
    ensures { (S : Server) (n : ℕ) (w : World) → IsServerBy program_of S → w.script ≡ script.now → StandsFor heap.old w → IsTurnOf (frame_rest script.now) heap.old heap.new w S n (frame_rest script.now frame S n (answered answer) w) result }
{
    match frame {
        Frame::Ordinary(frame) => {
            of_ordinary(ordinary_object::resume(alloc, heap, frame, answer, steps))
        }
        Frame::Plain(frame) => of_plain(plain_builtins::resume(alloc, heap, frame, answer, steps)),
        Frame::Core(frame) => of_core(core_builtins::resume(alloc, heap, frame, answer, steps)),
        Frame::Running(frame) => {
            of_running(evaluator::resume(heap, script, frame, answer, steps))
        }
    }
}
