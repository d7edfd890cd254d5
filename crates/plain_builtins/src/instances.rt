//! InstanceofOperator and OrdinaryHasInstance (ECMA-262, 13.10.2, 7.3.21).

ghost use Rattle.std.specs.Prelude.{◌≡◌, Some, if◌then◌else◌, suc};
ghost use Rattle.es_model.specs.Fits.{IsKnownCompletion};
ghost use Rattle.es_model.specs.Known.{IfThere, IsKnown, IsObject};
ghost use Rattle.es_model.specs.Program.{look};
ghost use Rattle.es_model.specs.World.{kind};
ghost use Rattle.es_model.specs.programs.Errors.{not_a_function};
ghost use Rattle.es_model.specs.programs.Methods.{method_in, with_method};
ghost use Rattle.es_model.specs.programs.Testing.{as_object, is_callable_kind};
ghost use Rattle.plain_builtins.specs.Counting.{IsAfterFirst};
ghost use Rattle.plain_builtins.specs.Instances.{handler_called, handler_found, handler_given, has_instance, instance_of, instance_round, ordinary_by, ordinary_has_instance, parent_found, parent_given, prototype_by, prototype_given, same_object};
ghost use Rattle.es_model.specs.Completions.{answered};
ghost use Rattle.es_model.specs.World.{World};
ghost use Rattle.object_heap.specs.Retains.{Retains};
ghost use Rattle.object_heap.specs.Turns.{KeepsNamed};
ghost use Rattle.plain_builtins.specs.Names.{names_of};
ghost use Rattle.plain_builtins.specs.Turns.{StopsAt};

use crate::asking::{as_object, get_named, one, take_one, value_of};
use crate::frame::{Handling, InstanceFrame, PlainFrame, Walk};
use crate::throwing::{not_a_function, not_an_object};
use es_model::{Completion, Method, Reply, Request, Stop, Turn, WellKnown};
use object_heap::Heap;
use property_keys::{Ledger, ObjectId, PropKey, Steps, Value};
use std::alloc::Global;

/// InstanceofOperator.
pub(crate) fn instance_of<L: Ledger>(
    heap: &mut Heap,
    value: Value,
    target: Value,
    steps: &mut Steps<L>,
) -> Result<Turn<PlainFrame>, Stop>
    ensures stops { StopsAt heap.old heap.new (instance_of value target) result }
    ensures named { (w : World) → IsKnown w.lists value → IsKnown w.lists target → KeepsNamed names_of w result }
    ensures retains { Retains heap.old heap.new }
{
    match as_object(target) {
        None => not_an_object(heap, steps),
        Some(target) => {
            let request = Request::Read {
                object: target,
                key: PropKey::Sym(WellKnown::HasInstance.symbol()),
                receiver: Value::Object(target),
                site: None,
            };
            let frame = InstanceFrame::HandlerGiven(Handling { value, target });
            Ok(Turn::Ask(request, PlainFrame::Instance(frame)))
        }
    }
}

/// What follows step 2: the method, if there is one.
pub(crate) fn handler_given<L: Ledger>(
    alloc: Global,
    heap: &mut Heap,
    handling: Handling,
    answer: Completion,
    steps: &mut Steps<L>,
) -> Result<Turn<PlainFrame>, Stop>
    ensures stops { StopsAt heap.old heap.new (handler_given handling.value handling.target (answered answer)) result }
    ensures named { (w : World) → IsKnown w.lists handling.value → KeepsNamed names_of w result }
    ensures retains { Retains heap.old heap.new }
{
    match answer.value() {
        Ok(value) => handler_method(alloc, heap, handling, value, steps),
        Err(thrown) => Ok(Turn::Done(Completion::Throw(thrown))),
    }
}

/// GetMethod, and then steps 3 to 5.
fn handler_method<L: Ledger>(
    alloc: Global,
    heap: &mut Heap,
    handling: Handling,
    value: Value,
    steps: &mut Steps<L>,
) -> Result<Turn<PlainFrame>, Stop>
    ensures stops { StopsAt heap.old heap.new (look (λ l. with_method (handler_found handling.value handling.target) (method_in l value))) result }
    ensures named { (w : World) → IsKnown w.lists handling.value → KeepsNamed names_of w result }
    ensures retains { Retains heap.old heap.new }
{
    match heap.method(value) {
        Method::Absent => without_handler(heap, handling, steps),
        Method::Function(handler) => call_handler(alloc, heap, handling, handler),
        Method::Other => not_a_function(heap, steps),
    }
}

/// Step 3.a.
fn call_handler(
    alloc: Global,
    heap: &mut Heap,
    handling: Handling,
    handler: ObjectId,
) -> Result<Turn<PlainFrame>, Stop>
    ensures stops { StopsAt heap.old heap.new (handler_found handling.value handling.target (Some handler)) result }
    ensures named { (w : World) → KeepsNamed names_of w result }
    ensures retains { Retains heap.old heap.new }
{
    let request = Request::Call {
        function: Value::Object(handler),
        this: Value::Object(handling.target),
        arguments: one(alloc, handling.value)?,
    };
    Ok(Turn::Ask(request, PlainFrame::Instance(InstanceFrame::HandlerCalled)))
}

/// What follows step 3.a.
pub(crate) fn handler_called(heap: &mut Heap, answer: Completion) -> Result<Turn<PlainFrame>, Stop>
    ensures stops { StopsAt heap.old heap.new (handler_called (answered answer)) result }
    ensures named { (w : World) → KeepsNamed names_of w result }
    ensures retains { Retains heap.old heap.new }
{
    match answer.value() {
        Ok(value) => {
            let is_instance = heap.is_truth(value);
            Ok(Turn::Done(Completion::Normal(Reply::Flag(is_instance))))
        }
        Err(thrown) => Ok(Turn::Done(Completion::Throw(thrown))),
    }
}

/// Steps 4 and 5.
fn without_handler<L: Ledger>(
    heap: &mut Heap,
    handling: Handling,
    steps: &mut Steps<L>,
) -> Result<Turn<PlainFrame>, Stop>
    ensures stops { StopsAt heap.old heap.new (look (λ l. if is_callable_kind (kind l handling.target) then has_instance handling.target (as_object handling.value) else not_a_function)) result }
    ensures named { (w : World) → IsKnown w.lists handling.value → KeepsNamed names_of w result }
    ensures retains { Retains heap.old heap.new }
{
    if heap.kind(handling.target).is_callable() {
        has_instance(heap, handling.target, as_object(handling.value))
    } else {
        not_a_function(heap, steps)
    }
}

/// OrdinaryHasInstance of a function, steps 3 and 4.
fn has_instance(
    heap: &mut Heap,
    function: ObjectId,
    object: Option<ObjectId>,
) -> Result<Turn<PlainFrame>, Stop>
    ensures stops { StopsAt heap.old heap.new (has_instance function object) result }
    ensures named { (w : World) → IfThere (IsObject w.lists) object → KeepsNamed names_of w result }
    ensures retains { Retains heap.old heap.new }
{
    match object {
        None => Ok(Turn::Done(Completion::Normal(Reply::Flag(false)))),
        Some(object) => {
            let frame = InstanceFrame::PrototypeGiven(object);
            get_named(heap, function, b"prototype", PlainFrame::Instance(frame))
        }
    }
}

/// OrdinaryHasInstance of any value.
pub(crate) fn ordinary_has_instance(
    heap: &mut Heap,
    function: Value,
    value: Value,
) -> Result<Turn<PlainFrame>, Stop>
    ensures stops { StopsAt heap.old heap.new (ordinary_has_instance function value) result }
    ensures named { (w : World) → IsKnown w.lists value → KeepsNamed names_of w result }
    ensures retains { Retains heap.old heap.new }
{
    match as_object(function) {
        None => Ok(Turn::Done(Completion::Normal(Reply::Flag(false)))),
        Some(function) => ordinary_by(heap, function, value),
    }
}

/// Step 1, of an object.
fn ordinary_by(heap: &mut Heap, function: ObjectId, value: Value) -> Result<Turn<PlainFrame>, Stop>
    ensures stops { StopsAt heap.old heap.new (ordinary_by (Some function) value) result }
    ensures named { (w : World) → IsKnown w.lists value → KeepsNamed names_of w result }
    ensures retains { Retains heap.old heap.new }
{
    if heap.kind(function).is_callable() {
        has_instance(heap, function, as_object(value))
    } else {
        Ok(Turn::Done(Completion::Normal(Reply::Flag(false))))
    }
}

/// What follows step 4.
pub(crate) fn prototype_given<L: Ledger>(
    heap: &mut Heap,
    object: ObjectId,
    answer: Completion,
    steps: &mut Steps<L>,
) -> Result<Turn<PlainFrame>, Stop>
    ensures stops { StopsAt heap.old heap.new (prototype_given object (answered answer)) result }
    ensures named { (w : World) → IsKnownCompletion w.lists (answered answer) → KeepsNamed names_of w result }
    ensures retains { Retains heap.old heap.new }
{
    match value_of(answer) {
        Ok(value) => prototype_found(heap, object, value, steps),
        Err(thrown) => Ok(Turn::Done(Completion::Throw(thrown))),
    }
}

/// Step 5, and the first round of step 6.
#[tactic(auto, using(crate::proofs::Rounds::first_round))]
fn prototype_found<L: Ledger>(
    heap: &mut Heap,
    object: ObjectId,
    value: Value,
    steps: &mut Steps<L>,
) -> Result<Turn<PlainFrame>, Stop>
    ensures stops { StopsAt heap.old heap.new (prototype_by (as_object value) object) result }
    ensures named { (w : World) → IsKnown w.lists value → KeepsNamed names_of w result }
    ensures retains { Retains heap.old heap.new }
{
    match as_object(value) {
        None => not_an_object(heap, steps),
        Some(wanted) => {
            let left = rounds_after_first();
            instance_round(heap, Walk { left, wanted }, object)
        }
    }
}

/// One less than there are turns at most, so that no walk ends for want of rounds.
#[tactic(auto, unfolding(crate::specs::Counting::IsAfterFirst))]
fn rounds_after_first() -> u64
    ensures { IsAfterFirst result }
{
    u64::MAX
}

/// A round of step 6, after which so many may follow: its turn, and the question for the prototype.
fn instance_round(heap: &mut Heap, walk: Walk, object: ObjectId) -> Result<Turn<PlainFrame>, Stop>
    ensures stops { StopsAt heap.old heap.new (instance_round (suc walk.left) walk.wanted object) result }
    ensures named { (w : World) → IsObject w.lists walk.wanted → KeepsNamed names_of w result }
    ensures retains { Retains heap.old heap.new }
{
    heap.charge(1)?;
    let request = Request::Proto { object };
    let frame = InstanceFrame::ParentGiven(walk);
    Ok(Turn::Ask(request, PlainFrame::Instance(frame)))
}

/// What follows step 6.a.
pub(crate) fn parent_given(
    heap: &mut Heap,
    walk: Walk,
    answer: Completion,
) -> Result<Turn<PlainFrame>, Stop>
    ensures stops { StopsAt heap.old heap.new (parent_given (instance_round walk.left walk.wanted) walk.wanted (answered answer)) result }
    ensures named { (w : World) → IsObject w.lists walk.wanted → KeepsNamed names_of w result }
    ensures retains { Retains heap.old heap.new }
{
    match answer.proto() {
        Ok(parent) => parent_found(heap, walk, parent),
        Err(thrown) => Ok(Turn::Done(Completion::Throw(thrown))),
    }
}

/// Steps 6.b and 6.c.
fn parent_found(
    heap: &mut Heap,
    walk: Walk,
    parent: Option<ObjectId>,
) -> Result<Turn<PlainFrame>, Stop>
    ensures stops { StopsAt heap.old heap.new (parent_found (instance_round walk.left walk.wanted) walk.wanted parent) result }
    ensures named { (w : World) → IsObject w.lists walk.wanted → KeepsNamed names_of w result }
    ensures retains { Retains heap.old heap.new }
{
    match parent {
        None => Ok(Turn::Done(Completion::Normal(Reply::Flag(false)))),
        Some(parent) => {
            if same_object(parent, walk.wanted) {
                Ok(Turn::Done(Completion::Normal(Reply::Flag(true))))
            } else {
                next_round(heap, walk, parent)
            }
        }
    }
}

/// The next round. No walk is so long that none is left.
#[tactic(auto, using(object_heap::proofs::Retaining::retains_none, object_heap::proofs::Turns::named_done, crate::proofs::Rounds::no_round, crate::proofs::Rounds::a_round))]
fn next_round(heap: &mut Heap, walk: Walk, object: ObjectId) -> Result<Turn<PlainFrame>, Stop>
    ensures stops { StopsAt heap.old heap.new (instance_round walk.left walk.wanted object) result }
    ensures named { (w : World) → IsObject w.lists walk.wanted → KeepsNamed names_of w result }
    ensures retains { Retains heap.old heap.new }
{
    match take_one(walk.left) {
        None => Ok(Turn::Done(Completion::Normal(Reply::Flag(false)))),
        Some(left) => {
            let walk = Walk {
                left,
                wanted: walk.wanted,
            };
            instance_round(heap, walk, object)
        }
    }
}

fn same_object(a: ObjectId, b: ObjectId) -> bool
    ensures { result ≡ same_object a b }
{
    a.0 == b.0
}
