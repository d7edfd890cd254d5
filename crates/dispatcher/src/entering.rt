//! Requests are served: those that are entered, those that only begin, and lines.

ghost use Rattle.std.specs.Prelude.{◌≡◌, ◌+◌, ℕ, List, Ok, length};
ghost use Rattle.es_tree.specs.Tree.{Tree};
ghost use Rattle.es_model.specs.Program.{Of, Server, run};
ghost use Rattle.es_model.specs.Servers.{IsServerBy};
ghost use Rattle.es_model.specs.Unwinding.{unwind};
ghost use Rattle.es_model.specs.World.{World};
ghost use Rattle.es_model.specs.programs.Errors.{entering};
ghost use Rattle.es_serve.specs.Serve.{program_of};
ghost use Rattle.object_heap.specs.Stands.{HeapView, StandsFor};
ghost use Rattle.object_heap.specs.Turns.{IsTurnOf};
ghost use Rattle.dispatcher.specs.Rests.{frame_rest};
ghost use Rattle.dispatcher.specs.Stack.{Leads, entry_rest};
ghost use Rattle.dispatcher.specs.Table.{begin_program, print_program};
ghost use Rattle.dispatcher.specs.declared.state.Entry.{Entry as Waiting};

use crate::bodies::begin_body;
use crate::errors::too_many_calls;
use crate::frames::{Frame, of_core, of_ordinary, of_plain, of_running};
use crate::noting::note;
use crate::stack::take;
use crate::state::{Entry, Next, State};
use crate::table::{Provider, Service, served_by};
use es_model::{Completion, Halted, Request, Stop, Turn};
use es_tree::Checked;
use object_heap::Heap;
use property_keys::{Ledger, Steps, Value};
use std::alloc::Global;

/// How many calls may run at once.
const NESTED_LIMIT: u32 = 2000;

/// The first turn of a request, at the crate that serves it.
fn begin<L: Ledger>(
    alloc: Global,
    heap: &mut Heap,
    script: &Checked,
    provider: Provider,
    request: Request,
    steps: &mut Steps<L>,
) -> Result<Turn<Frame>, Stop>
    ensures { (S : Server) (n : ℕ) (w : World) → IsServerBy program_of S → w.script ≡ script.now → StandsFor heap.old w → IsTurnOf (frame_rest script.now) heap.old heap.new w S n (run S (begin_program script.now provider request) n w) result }
{
    match provider {
        Provider::Ordinary => of_ordinary(ordinary_object::start(alloc, heap, &request, steps)),
        Provider::Plain => of_plain(plain_builtins::start(alloc, heap, &request, steps)),
        Provider::Core => of_core(core_builtins::start(alloc, heap, &request, steps)),
        Provider::Running(function) => {
            of_running(begin_body(heap, script, function, request, steps))
        }
        Provider::Unwritten => Ok(Turn::Done(Completion::Throw(Value::Undefined))),
    }
}

/// Enters what serves a request: a turn, and then the test of the nested calls.
fn enter<L: Ledger>(
    alloc: Global,
    heap: &mut Heap,
    script: &Checked,
    stack: &mut Vec<Entry>,
    provider: Provider,
    request: Request,
    nested: u32,
    steps: &mut Steps<L>,
) -> Result<Next, Stop>
    ensures { (S : Server) (w : World) → IsServerBy program_of S → w.script ≡ script.now → StandsFor heap.old w → Leads script.now S (length stack.old.items + 2) (unwind (entry_rest script.now S) stack.old.items (run S (entering (begin_program script.now provider request)) nested w)) heap.old heap.new w stack.new.items result }
{
    match heap.charge(1) {
        Err(Halted) => Err(Stop::Halted),
        Ok(()) => {
            if nested < NESTED_LIMIT {
                let turn = begin(alloc, heap, script, provider, request, steps);
                take(stack, nested + 1, turn)
            } else {
                let turn = of_ordinary(too_many_calls(heap, steps));
                take(stack, nested, turn)
            }
        }
    }
}

/// A line is printed. No other request comes here.
fn printed(request: Request) -> Next
    ensures { (script : Tree) (S : Server) (n : ℕ) (fs : List Waiting) (heap : HeapView) (w : World) → StandsFor heap w → Leads script S (length fs + 2) (unwind (entry_rest script S) fs (run S (print_program request) n w)) heap heap w fs (Ok result) }
{
    match request {
        Request::Print { line } => Next::Prints(line),
        Request::GetOwn { .. }
        | Request::Define { .. }
        | Request::Has { .. }
        | Request::Read { .. }
        | Request::Write { .. }
        | Request::Delete { .. }
        | Request::Keys { .. }
        | Request::Proto { .. }
        | Request::SetProto { .. }
        | Request::Extensible { .. }
        | Request::Prevent { .. }
        | Request::Call { .. }
        | Request::Construct { .. }
        | Request::Work { .. } => {
            Next::GoOn(State::Returning(Completion::Throw(Value::Undefined)))
        }
    }
}

/// Begins a request, after which an answer or another request is in hand, or a line is to be printed.
pub(crate) fn serve<L: Ledger>(
    alloc: Global,
    heap: &mut Heap,
    script: &Checked,
    stack: &mut Vec<Entry>,
    request: Request,
    nested: u32,
    steps: &mut Steps<L>,
) -> Result<Next, Stop>
    ensures { (S : Server) (w : World) → IsServerBy program_of S → w.script ≡ script.now → StandsFor heap.old w → Leads script.now S (length stack.old.items + 2) (unwind (entry_rest script.now S) stack.old.items (S nested (Of request) w)) heap.old heap.new w stack.new.items result }
{
    note(heap, &request, steps)?;
    match served_by(heap, &request) {
        Service::Prints => Ok(printed(request)),
        Service::Enters(provider) => {
            enter(alloc, heap, script, stack, provider, request, nested, steps)
        }
        Service::Begins(provider) => {
            let turn = begin(alloc, heap, script, provider, request, steps);
            take(stack, nested, turn)
        }
    }
}
