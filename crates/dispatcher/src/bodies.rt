//! The bodies of the script's functions.

ghost use Rattle.std.specs.Prelude.{◌≡◌, ℕ};
ghost use Rattle.es_model.specs.Program.{Server, run};
ghost use Rattle.es_model.specs.Servers.{IsServerBy};
ghost use Rattle.es_model.specs.World.{World};
ghost use Rattle.es_serve.specs.Serve.{program_of};
ghost use Rattle.evaluator.specs.Machine.{eval_rest};
ghost use Rattle.object_heap.specs.Stands.{StandsFor};
ghost use Rattle.object_heap.specs.Turns.{IsTurnOf};
ghost use Rattle.dispatcher.specs.Table.{body_program, called_program};

use es_model::{Completion, Request, Stop, Turn, Values};
use es_tree::{Checked, FunctionNo};
use evaluator::{EvalFrame, start_body, start_construction};
use object_heap::Heap;
use property_keys::{Ledger, Steps, Value};

/// The first turn of the body of a function that is called. No other value comes here.
#[tactic(auto, using(object_heap::specs::Stands::goes_none, crate::proofs::Jobs::unwritten_turn))]
fn begin_call<L: Ledger>(
    heap: &mut Heap,
    script: &Checked,
    function: FunctionNo,
    callee: Value,
    this: Value,
    arguments: Values,
    steps: &mut Steps<L>,
) -> Result<Turn<EvalFrame>, Stop>
    ensures { (S : Server) (n : ℕ) (w : World) → IsServerBy program_of S → w.script ≡ script.now → StandsFor heap.old w → IsTurnOf (eval_rest script.now) heap.old heap.new w S n (run S (called_program script.now function callee this arguments) n w) result }
{
    match callee {
        Value::Object(callee) => start_body(heap, script, function, callee, this, arguments, steps),
        Value::Undefined
        | Value::Null
        | Value::Bool(_)
        | Value::Whole(_)
        | Value::Text(_)
        | Value::Symbol(_) => Ok(Turn::Done(Completion::Throw(Value::Undefined))),
    }
}

/// The first turn of the body of a function that is called, or of a construction. No other request comes here.
#[tactic(auto, using(object_heap::specs::Stands::goes_none, crate::proofs::Jobs::unwritten_turn))]
pub(crate) fn begin_body<L: Ledger>(
    heap: &mut Heap,
    script: &Checked,
    function: FunctionNo,
    request: Request,
    steps: &mut Steps<L>,
) -> Result<Turn<EvalFrame>, Stop>
    ensures { (S : Server) (n : ℕ) (w : World) → IsServerBy program_of S → w.script ≡ script.now → StandsFor heap.old w → IsTurnOf (eval_rest script.now) heap.old heap.new w S n (run S (body_program script.now function request) n w) result }
{
    match request {
        Request::Call {
            function: callee,
            this,
            arguments,
        } => begin_call(heap, script, function, callee, this, arguments, steps),
        Request::Construct {
            function: callee,
            arguments,
            target,
        } => start_construction(heap, script, function, callee, arguments, target),
        Request::GetOwn { .. }
        | Request::Define { .. }
        | Request::Has { .. }
        | Request::Read { .. }
        | Request::Write { .. }
        | Request::Delete { .. }
        | Request::Keys { .. }
        | Request::Proto { .. }
        | Request::SetProto { .. }
        | Request::Extensible { .. }
        | Request::Prevent { .. }
        | Request::Work { .. }
        | Request::Print { .. } => Ok(Turn::Done(Completion::Throw(Value::Undefined))),
    }
}
