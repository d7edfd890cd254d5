//! ReturnIfAbrupt (ECMA-262, 5.2.3.3) over the ends of parts, and the ends of bodies.

ghost use Rattle.std.specs.Prelude.{◌≡◌, IfOk, List, OnOk};
ghost use Rattle.es_model.specs.declared.kinds.CellNo.{CellNo};
ghost use Rattle.es_model.specs.Fits.{IsKnownCompletion};
ghost use Rattle.es_model.specs.Known.{IsKnown};
ghost use Rattle.es_model.specs.World.{Lists, World};
ghost use Rattle.es_model.specs.Completions.{answered};
ghost use Rattle.es_model.specs.programs.Abrupt.{taken, value_in};
ghost use Rattle.evaluator.specs.Contexts.{context};
ghost use Rattle.evaluator.specs.Functions.{body_end, body_ended, constructed_end, facts_of, note_by};
ghost use Rattle.evaluator.specs.Entering.{Answers, Passes};
ghost use Rattle.evaluator.specs.Plans.{ended, or_end};
ghost use Rattle.object_heap.specs.Retains.{Retains};
ghost use Rattle.object_heap.specs.Stands.{StandsFor};

use crate::items::Ending;
use crate::tree::facts_at;
use es_model::{Completion, Reply, Running};
use es_tree::{Checked, FunctionFacts, FunctionNo};
use function_objects::note_construction;
use object_heap::Heap;
use property_keys::{NoMemory, ObjectId, Value};

/// The value of an end, or the abrupt end.
pub(crate) fn value_of(end: Ending) -> Result<Value, Ending>
    ensures taken { taken value_in (ended end) ≡ or_end result }
    ensures known { (l : Lists) → IsKnownCompletion l (ended end) → IfOk result (IsKnown l) }
{
    match end {
        Ending::Gives(value) => Ok(value),
        Ending::Breaks => Err(Ending::Breaks),
        Ending::Continues => Err(Ending::Continues),
        Ending::Returns(value) => Err(Ending::Returns(value)),
        Ending::Throws(thrown) => Err(Ending::Throws(thrown)),
    }
}

/// How a body ends that is no constructor's: as every request does (ECMA-262, 10.2.1, steps 8 to 10).
fn end_of_call(end: Ending) -> Completion
    ensures { answered result ≡ body_end (ended end) }
{
    match end {
        Ending::Returns(value) => Completion::Normal(Reply::Value(value)),
        Ending::Throws(thrown) => Completion::Throw(thrown),
        Ending::Gives(_) | Ending::Breaks | Ending::Continues => {
            Completion::Normal(Reply::Value(Value::Undefined))
        }
    }
}

/// A constructor gives the object that its body returns, or else the new one (ECMA-262, 10.2.2, steps 10 to 13).
fn end_of_construction(object: ObjectId, end: Ending) -> Completion
    ensures { answered result ≡ constructed_end object (ended end) }
{
    match end {
        Ending::Returns(Value::Object(other)) => {
            Completion::Normal(Reply::Value(Value::Object(other)))
        }
        Ending::Throws(thrown) => Completion::Throw(thrown),
        Ending::Returns(_) | Ending::Gives(_) | Ending::Breaks | Ending::Continues => {
            Completion::Normal(Reply::Value(Value::Object(object)))
        }
    }
}

/// What is known of the function whose body runs, if it is there.
fn own_facts(script: &Checked, function: Option<FunctionNo>) -> Option<FunctionFacts>
    ensures { result ≡ facts_of script.now function }
{
    match function {
        None => None,
        Some(f) => facts_at(script, f),
    }
}

/// The event of a construction by the function whose body runs, if it is there.
fn note_by(heap: &mut Heap, script: &Checked, function: Option<FunctionNo>) -> Result<(), NoMemory>
    ensures passes { OnOk result ((w : World) → w.script ≡ script.now → StandsFor heap.old w → Passes heap.old heap.new w (note_by script.now (facts_of script.now function))) }
    ensures retains { Retains heap.old heap.new }
{
    match own_facts(script, function) {
        None => Ok(()),
        Some(facts) => note_construction(heap, facts),
    }
}

/// The end of the body that runs: what is answered. The event of a construction stands behind the last step, also where that throws.
pub(crate) fn end_of_body(
    heap: &mut Heap,
    script: &Checked,
    body: Running,
    end: Ending,
) -> Result<Completion, NoMemory>
    ensures answers { IfOk result (λ answer. (cells : List CellNo) (w : World) → w.script ≡ script.now → StandsFor heap.old w → Answers heap.old heap.new w (body_ended (context script.now body cells) (ended end)) answer) }
    ensures retains { Retains heap.old heap.new }
{
    match body.constructs {
        None => Ok(end_of_call(end)),
        Some(object) => {
            note_by(heap, script, body.function)?;
            Ok(end_of_construction(object, end))
        }
    }
}
