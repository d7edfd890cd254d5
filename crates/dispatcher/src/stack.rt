//! The stack of the frames that wait.

ghost use Rattle.std.specs.Prelude.{◌≡◌, ◌++◌, ◌∷◌, ◌+◌, [], OnOk, length};
ghost use Rattle.es_tree.specs.Tree.{Tree};
ghost use Rattle.es_model.specs.Completions.{answered};
ghost use Rattle.es_model.specs.Program.{Outcome, Server};
ghost use Rattle.es_model.specs.Servers.{IsServerBy};
ghost use Rattle.es_model.specs.Unwinding.{unwind};
ghost use Rattle.es_model.specs.World.{World};
ghost use Rattle.es_serve.specs.Serve.{program_of};
ghost use Rattle.object_heap.specs.Stands.{HeapView, StandsFor};
ghost use Rattle.object_heap.specs.Turns.{IsTurnOf};
ghost use Rattle.dispatcher.specs.Rests.{frame_rest};
ghost use Rattle.dispatcher.specs.Stack.{Leads, entry_rest, height, meaning};
ghost use Rattle.dispatcher.specs.declared.state.State.TheVariants as state;

use crate::frames::{Frame, resume};
use crate::state::{Entry, Next, State};
use es_model::{Completion, Stop, Turn};
use es_tree::Checked;
use object_heap::Heap;
use property_keys::{Ledger, NoMemory, Steps};
use std::alloc::Global;

fn wait(stack: &mut Vec<Entry>, entry: Entry) -> Result<(), NoMemory>
    ensures { OnOk result (stack.new.items ≡ stack.old.items ++ entry ∷ []) }
{
    match stack.push(entry) {
        Ok(()) => Ok(()),
        Err(_) => Err(NoMemory),
    }
}

/// Takes a turn: its frame waits, or it has ended.
pub(crate) fn take(
    stack: &mut Vec<Entry>,
    nested: u32,
    turn: Result<Turn<Frame>, Stop>,
) -> Result<Next, Stop>
    ensures { (script : Tree) (S : Server) (o : Outcome) (old new : HeapView) (w : World) → IsTurnOf (frame_rest script) old new w S nested o turn → Leads script S (length stack.old.items + 2) (unwind (entry_rest script S) stack.old.items o) old new w stack.new.items result }
{
    match turn {
        Ok(Turn::Ask(request, frame)) => {
            wait(stack, Entry { frame, nested })?;
            Ok(Next::GoOn(State::Serving(request, nested)))
        }
        Ok(Turn::Done(answer)) => Ok(Next::GoOn(State::Returning(answer))),
        Err(stop) => Err(stop),
    }
}

/// A frame that no longer waits goes on.
fn wake<L: Ledger>(
    alloc: Global,
    heap: &mut Heap,
    script: &Checked,
    stack: &mut Vec<Entry>,
    entry: Entry,
    answer: Completion,
    steps: &mut Steps<L>,
) -> Result<Next, Stop>
    ensures { (S : Server) (w : World) → IsServerBy program_of S → w.script ≡ script.now → StandsFor heap.old w → Leads script.now S (length stack.old.items + 2) (unwind (entry_rest script.now S) stack.old.items (entry_rest script.now S entry (answered answer) w)) heap.old heap.new w stack.new.items result }
{
    let Entry { frame, nested } = entry;
    let turn = resume(alloc, heap, script, frame, answer, steps);
    take(stack, nested, turn)
}

/// Gives an answer to the frame that was the last to wait, if one does.
pub(crate) fn give<L: Ledger>(
    alloc: Global,
    heap: &mut Heap,
    script: &Checked,
    stack: &mut Vec<Entry>,
    answer: Completion,
    steps: &mut Steps<L>,
) -> Result<Next, Stop>
    ensures { (S : Server) (w : World) → IsServerBy program_of S → w.script ≡ script.now → StandsFor heap.old w → Leads script.now S (height stack.old.items (state.Returning answer)) (meaning script.now S stack.old.items (state.Returning answer) w) heap.old heap.new w stack.new.items result }
{
    match stack.pop() {
        None => Ok(Next::Ends(answer)),
        Some(entry) => wake(alloc, heap, script, stack, entry, answer, steps),
    }
}
