//! The calls of the crate: the first turn of a script, of a body and of a construction, and each turn after that.

ghost use Rattle.std.specs.Prelude.{◌≡◌, ◌≤◌, ◌<◌, [], ℕ, Some, false, is_some, length, slice_get, true};
ghost use Rattle.es_tree.specs.Tree.{top_names};
ghost use Rattle.es_model.specs.Belongs.{Belongs};
ghost use Rattle.es_model.specs.Completions.{answered};
ghost use Rattle.es_model.specs.Fits.{IsKnownCompletion};
ghost use Rattle.es_model.specs.Known.{AreKnown, IsKnown, IsObject};
ghost use Rattle.es_model.specs.Program.{Server, run as run_of};
ghost use Rattle.es_model.specs.Sound.{IsSound};
ghost use Rattle.es_model.specs.World.{World};
ghost use Rattle.evaluator.specs.Contexts.{context};
ghost use Rattle.evaluator.specs.Functions.{call_program, construct_answered, construct_on, construct_program, run_body, run_part, script_body, script_program};
ghost use Rattle.evaluator.specs.Machine.{IsServer, eval_rest};
ghost use Rattle.evaluator.specs.Names.{NamesTurn, names_of};
ghost use Rattle.evaluator.specs.Soundness.{KeepsConstruction, KeepsRest, StaysSoundTurn, StopsKept, does_construct};
ghost use Rattle.object_heap.specs.Retains.{Retains};
ghost use Rattle.object_heap.specs.Stands.{StandsFor};
ghost use Rattle.object_heap.specs.Turns.{IsTurnOf, KeepsNamed};

use crate::bodies::{enter_function, running};
use crate::cells::{Cells, make_cells};
use crate::endings::end_of_body;
use crate::frames::{BodyFrame, Construction, Current, EvalFrame};
use crate::functions::declare_functions;
use crate::items::{Ending, Job};
use crate::machine::{go, take_answer};
use crate::tree::facts_at;
use es_model::{Class, Completion, Intrinsic, Part, Running, Stop, Turn, Values};
use es_tree::{Checked, FunctionFacts, FunctionNo};
use function_objects::{
    bind_this, new_constructed, note_construction, prototype_of, prototype_request,
};
use object_heap::Heap;
use property_keys::{Ledger, ObjectId, Steps, Value};

// ---- bodies

/// The statements of a part, with no item that waits.
fn begin<L: Ledger>(
    heap: &mut Heap,
    script: &Checked,
    body: Running,
    cells: Cells,
    list: Part,
    steps: &mut Steps<L>,
) -> Result<Turn<EvalFrame>, Stop>
    ensures turn { (S : Server) (n : ℕ) (w : World) → IsServer S → w.script ≡ script.now → StandsFor heap.old w → IsTurnOf (eval_rest script.now) heap.old heap.new w S n (run_of S (run_part (context script.now body cells) list) n w) result }
    ensures sound { (w : World) → w.script ≡ script.now → StandsFor heap.old w → StopsKept (run_part (context script.now body cells) list) w → StaysSoundTurn (is_some body.constructs) script.now heap.old heap.new w result }
    ensures belongs { (w v : World) → w.script ≡ script.now → StandsFor heap.old w → StopsKept (run_part (context script.now body cells) list) w → StandsFor heap.new v → NamesTurn script.now v.lists result }
    ensures retains { Retains heap.old heap.new }
{
    let pending = Vec::new(heap.alloc());
    let first = Current::At(Job::Statements(list, 0));
    go(heap, script, body, cells, pending, first, steps)
}

/// The body of a function runs, once its receiver is bound (ECMA-262, 10.2.11, 15.2.3). One that names `arguments` is not written yet, and throws undefined.
fn run_body<L: Ledger>(
    heap: &mut Heap,
    script: &Checked,
    body: Running,
    function: FunctionNo,
    facts: FunctionFacts,
    arguments: &Values,
    steps: &mut Steps<L>,
) -> Result<Turn<EvalFrame>, Stop>
    requires { slice_get script.now.functions function.0 ≡ Some facts }
    ensures turn { (S : Server) (n : ℕ) (w : World) → IsServer S → w.script ≡ script.now → StandsFor heap.old w → IsTurnOf (eval_rest script.now) heap.old heap.new w S n (run_of S (run_body (context script.now body []) function facts arguments.now) n w) result }
    ensures sound { (w : World) → w.script ≡ script.now → StandsFor heap.old w → StopsKept (run_body (context script.now body []) function facts arguments.now) w → StaysSoundTurn (is_some body.constructs) script.now heap.old heap.new w result }
    ensures belongs { (w v : World) → w.script ≡ script.now → StandsFor heap.old w → StopsKept (run_body (context script.now body []) function facts arguments.now) w → StandsFor heap.new v → NamesTurn script.now v.lists result }
    ensures retains { Retains heap.old heap.new }
{
    let code = script.body(function);
    if code.arguments {
        let thrown = Ending::Throws(Value::Undefined);
        let answer = end_of_body(heap, script, body, thrown)?;
        return Ok(Turn::Done(answer));
    }
    let mut cells = Cells::new(heap.alloc());
    match enter_function(
        heap, script, body, &mut cells, facts, code, arguments, steps,
    ) {
        Err(stop) => Err(stop),
        Ok(()) => begin(heap, script, body, cells, Part::Body(function), steps),
    }
}

// ---- the start of a script

/// The script's own code as a body.
fn script_running(script: &Checked) -> Running
    ensures { result ≡ script_body script.now }
{
    Running {
        function: None,
        callee: None,
        arguments: None,
        this: Value::Object(Intrinsic::Global.object()),
        constructs: None,
        strict: script.strict(),
    }
}

/// The first turn of a script (ECMA-262, 16.1.6). Its top scope's names get cells without a value, which come first in the world's, and its own names are in
/// no frame.
///
/// Halted comes exactly where a charge does not fit: one turn for each node that is evaluated, for each declared function and for each primitive base's prototype.
#[tactic(auto, using(object_heap::specs::Stands::goes_none, object_heap::specs::Stands::goes_then, object_heap::specs::Stands::halts_at, object_heap::proofs::Retaining::retains_none, object_heap::proofs::Retaining::retains_then, object_heap::proofs::Turns::named_done, object_heap::proofs::Turns::named_stop))]
pub fn start_script<L: Ledger>(
    heap: &mut Heap,
    script: &Checked,
    steps: &mut Steps<L>,
) -> Result<Turn<EvalFrame>, Stop>
    ensures turn { (S : Server) (n : ℕ) (w : World) → IsServer S → w.script ≡ script.now → StandsFor heap.old w → IsTurnOf (eval_rest script.now) heap.old heap.new w S n (run_of S (script_program script.now) n w) result }
    ensures sound { (w : World) → w.script ≡ script.now → StandsFor heap.old w → IsSound w → StaysSoundTurn false script.now heap.old heap.new w result }
    ensures belongs { (w v : World) → w.script ≡ script.now → StandsFor heap.old w → IsSound w → StandsFor heap.new v → v.script ≡ script.now → KeepsNamed names_of v result }
    ensures retains { Retains heap.old heap.new }
{
    let body = script_running(script);
    let mut top = Cells::new(heap.alloc());
    make_cells(heap, &mut top, script.top_names())?;
    let cells = Cells::new(heap.alloc());
    match declare_functions(heap, script, body, &top, script.script(), steps) {
        Err(stop) => Err(stop),
        Ok(()) => begin(heap, script, body, cells, Part::Script, steps),
    }
}

// ---- a call

/// The first turn of the body of a function of the script, after it is entered ([[Call]], ECMA-262, 10.2.1): the function, its object, the receiver and the
/// arguments. A body that names `arguments` is not written yet, and throws undefined.
///
/// Halted comes exactly where a charge does not fit.
#[tactic(auto, using(object_heap::specs::Stands::goes_none, object_heap::specs::Stands::goes_then, object_heap::specs::Stands::halts_at, object_heap::proofs::Retaining::retains_none, object_heap::proofs::Retaining::retains_then, object_heap::proofs::Turns::named_done, object_heap::proofs::Turns::named_stop))]
pub fn start_body<L: Ledger>(
    heap: &mut Heap,
    script: &Checked,
    function: FunctionNo,
    callee: ObjectId,
    this: Value,
    arguments: Values,
    steps: &mut Steps<L>,
) -> Result<Turn<EvalFrame>, Stop>
    ensures turn { (S : Server) (n : ℕ) (w : World) → IsServer S → w.script ≡ script.now → StandsFor heap.old w → IsTurnOf (eval_rest script.now) heap.old heap.new w S n (run_of S (call_program script.now function callee this arguments) n w) result }
    ensures sound { (w : World) → w.script ≡ script.now → StandsFor heap.old w → IsSound w → top_names script.now ≤ length w.lists.cells → IsObject w.lists callee → IsKnown w.lists this → AreKnown w.lists arguments → StaysSoundTurn false script.now heap.old heap.new w result }
    ensures belongs { (w v : World) → w.script ≡ script.now → StandsFor heap.old w → IsSound w → top_names script.now ≤ length w.lists.cells → IsObject w.lists callee → IsKnown w.lists this → AreKnown w.lists arguments → StandsFor heap.new v → v.script ≡ script.now → KeepsNamed names_of v result }
    ensures retains { Retains heap.old heap.new }
{
    match facts_at(script, function) {
        None => Ok(Turn::Done(Completion::Throw(Value::Undefined))),
        Some(facts) => {
            let receiver = bind_this(heap, facts.strict, this, steps)?;
            let body = running(function, facts, callee, receiver, None);
            run_body(heap, script, body, function, facts, &arguments, steps)
        }
    }
}

// ---- a construction

/// The first turn of a construction by a function of the script, after it is entered ([[Construct]], ECMA-262, 10.2.2): the function, its object, the arguments
/// and the new target, whose prototype is asked for.
#[tactic(auto, using(object_heap::specs::Stands::goes_none, object_heap::specs::Stands::goes_then, object_heap::specs::Stands::halts_at, object_heap::proofs::Retaining::retains_none, object_heap::proofs::Retaining::retains_then, object_heap::proofs::Turns::named_done, object_heap::proofs::Turns::named_stop))]
pub fn start_construction(
    heap: &mut Heap,
    script: &Checked,
    function: FunctionNo,
    callee: ObjectId,
    arguments: Values,
    target: ObjectId,
) -> Result<Turn<EvalFrame>, Stop>
    ensures turn { (S : Server) (n : ℕ) (w : World) → IsServer S → w.script ≡ script.now → StandsFor heap.old w → IsTurnOf (eval_rest script.now) heap.old heap.new w S n (run_of S (construct_program script.now function callee arguments target) n w) result }
    ensures sound { (w : World) → w.script ≡ script.now → StandsFor heap.old w → IsSound w → top_names script.now ≤ length w.lists.cells → IsObject w.lists callee → AreKnown w.lists arguments → IsObject w.lists target → StaysSoundTurn true script.now heap.old heap.new w result }
    ensures belongs { (w v : World) → w.script ≡ script.now → StandsFor heap.old w → top_names script.now ≤ length w.lists.cells → IsObject w.lists callee → AreKnown w.lists arguments → IsObject w.lists target → StandsFor heap.new v → v.script ≡ script.now → KeepsNamed names_of v result }
    ensures retains { Retains heap.old heap.new }
{
    match facts_at(script, function) {
        None => Ok(Turn::Done(Completion::Throw(Value::Undefined))),
        Some(_) => {
            let request = prototype_request(heap, target)?;
            let construction = Construction {
                function,
                callee,
                arguments,
                target,
            };
            Ok(Turn::Ask(request, EvalFrame::Constructing(construction)))
        }
    }
}

/// The body of a constructor runs on the new object.
fn construct_on<L: Ledger>(
    heap: &mut Heap,
    script: &Checked,
    function: FunctionNo,
    facts: FunctionFacts,
    callee: ObjectId,
    arguments: &Values,
    prototype: ObjectId,
    steps: &mut Steps<L>,
) -> Result<Turn<EvalFrame>, Stop>
    requires { slice_get script.now.functions function.0 ≡ Some facts }
    ensures turn { (S : Server) (n : ℕ) (w : World) → IsServer S → w.script ≡ script.now → StandsFor heap.old w → IsTurnOf (eval_rest script.now) heap.old heap.new w S n (run_of S (construct_on script.now function facts callee arguments.now prototype) n w) result }
    ensures sound { (w : World) → w.script ≡ script.now → StandsFor heap.old w → StopsKept (construct_on script.now function facts callee arguments.now prototype) w → StaysSoundTurn true script.now heap.old heap.new w result }
    ensures belongs { (w v : World) → w.script ≡ script.now → StandsFor heap.old w → StopsKept (construct_on script.now function facts callee arguments.now prototype) w → StandsFor heap.new v → NamesTurn script.now v.lists result }
    ensures retains { Retains heap.old heap.new }
{
    let object = new_constructed(heap, facts, prototype, steps)?;
    let body = running(function, facts, callee, Value::Object(object), Some(object));
    run_body(heap, script, body, function, facts, arguments, steps)
}

/// A construction goes on with the prototype of its new target.
fn construct_with<L: Ledger>(
    heap: &mut Heap,
    script: &Checked,
    construction: Construction,
    answer: Completion,
    steps: &mut Steps<L>,
) -> Result<Turn<EvalFrame>, Stop>
    ensures turn { (S : Server) (n : ℕ) (w : World) → IsServer S → w.script ≡ script.now → StandsFor heap.old w → IsTurnOf (eval_rest script.now) heap.old heap.new w S n (run_of S (construct_answered script.now construction.function construction.callee construction.arguments construction.target (answered answer)) n w) result }
    ensures sound { (w : World) → w.script ≡ script.now → StandsFor heap.old w → KeepsConstruction script.now w construction (answered answer) → StaysSoundTurn true script.now heap.old heap.new w result }
    ensures belongs { (w v : World) → w.script ≡ script.now → StandsFor heap.old w → KeepsConstruction script.now w construction (answered answer) → StandsFor heap.new v → NamesTurn script.now v.lists result }
    ensures retains { Retains heap.old heap.new }
{
    let Construction {
        function,
        callee,
        arguments,
        target,
    } = construction;
    match facts_at(script, function) {
        None => Ok(Turn::Done(Completion::Throw(Value::Undefined))),
        Some(facts) => {
            let found = prototype_of(heap, Class::Object, target, answer, steps)?;
            match found {
                Ok(prototype) => construct_on(
                    heap, script, function, facts, callee, &arguments, prototype, steps,
                ),
                Err(thrown) => {
                    note_construction(heap, facts)?;
                    Ok(Turn::Done(Completion::Throw(thrown)))
                }
            }
        }
    }
}

// ---- with an answer

/// The next turn of a body or of a construction, with the answer to what it asked.
///
/// Halted comes exactly where a charge does not fit.
#[tactic(auto, using(object_heap::specs::Stands::goes_none, object_heap::specs::Stands::goes_then, object_heap::specs::Stands::halts_at, object_heap::proofs::Retaining::retains_none, object_heap::proofs::Retaining::retains_then, object_heap::proofs::Turns::named_done, object_heap::proofs::Turns::named_stop))]
pub fn resume<L: Ledger>(
    heap: &mut Heap,
    script: &Checked,
    frame: EvalFrame,
    answer: Completion,
    steps: &mut Steps<L>,
) -> Result<Turn<EvalFrame>, Stop>
    ensures turn { (S : Server) (n : ℕ) (w : World) → IsServer S → w.script ≡ script.now → StandsFor heap.old w → IsTurnOf (eval_rest script.now) heap.old heap.new w S n (eval_rest script.now frame S n (answered answer) w) result }
    ensures sound { (w : World) → w.script ≡ script.now → StandsFor heap.old w → KeepsRest script.now w frame (answered answer) → StaysSoundTurn (does_construct frame) script.now heap.old heap.new w result }
    ensures belongs { (w v : World) → w.script ≡ script.now → StandsFor heap.old w → IsSound w → KeepsRest script.now w frame (answered answer) → Belongs names_of w frame → IsKnownCompletion w.lists (answered answer) → StandsFor heap.new v → v.script ≡ script.now → KeepsNamed names_of v result }
    ensures retains { Retains heap.old heap.new }
{
    match frame {
        EvalFrame::Body(waiting) => {
            let BodyFrame {
                body,
                cells,
                pending,
                asked,
            } = waiting;
            take_answer(heap, script, body, cells, pending, asked, answer, steps)
        }
        EvalFrame::Constructing(construction) => {
            construct_with(heap, script, construction, answer, steps)
        }
    }
}
