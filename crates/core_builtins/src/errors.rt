//! The constructors of errors (ECMA-262, 20.5.1.1, 20.5.6.1.1).

ghost use Rattle.std.specs.Prelude.{◌≡◌};
ghost use Rattle.es_model.specs.Completions.{answered};
ghost use Rattle.es_model.specs.Known.{AreKnown, IsKnown, IsObject};
ghost use Rattle.es_model.specs.World.{World};
ghost use Rattle.es_model.specs.programs.Errors.{hidden};
ghost use Rattle.object_heap.specs.Retains.{Retains};
ghost use Rattle.object_heap.specs.Stands.{StandsFor};
ghost use Rattle.object_heap.specs.Turns.{KeepsNamed};
ghost use Rattle.core_builtins.specs.Errors.{cause_given, cause_had, cause_put, error_constructed, error_given, error_made, install_cause, message_given, message_put, with_message};
ghost use Rattle.core_builtins.specs.Names.{names_of};
ghost use Rattle.core_builtins.specs.Turns.{StopsAt};

use crate::arguments::{first_of, second_of};
use crate::asking::{as_object, get_named, has_named, one};
use crate::frame::{Causing, CoreFrame, Erring, ErrorFrame, Installing};
use descriptors::Descriptor;
use es_model::{
    Class, Completion, ErrorKind, ObjectKind, Operation, Reply, Request, Stop, Turn, Values,
};
use function_objects::prototype_of;
use object_heap::Heap;
use property_keys::{Ledger, ObjectId, PropKey, Steps, TextId, Value};
use slack_tracking::OriginKind;
use std::alloc::Global;

/// An error of this kind, called or constructed. The target is the active function where it is called.
pub(crate) fn error_constructed(
    heap: &mut Heap,
    kind: ErrorKind,
    arguments: &Values,
    target: ObjectId,
) -> Result<Turn<CoreFrame>, Stop>
    ensures stops { StopsAt heap.old heap.new (error_constructed kind arguments.now target) result }
    ensures named { (w : World) → IsObject w.lists target → AreKnown w.lists arguments.now → KeepsNamed names_of w result }
    ensures retains { Retains heap.old heap.new }
{
    let erring = Erring {
        kind,
        target,
        message: first_of(arguments),
        options: second_of(arguments),
    };
    let frame = CoreFrame::Error(ErrorFrame::PrototypeGiven(erring));
    get_named(heap, target, b"prototype", frame)
}

/// What follows the question for the prototype.
pub(crate) fn error_given<L: Ledger>(
    alloc: Global,
    heap: &mut Heap,
    erring: Erring,
    answer: Completion,
    steps: &mut Steps<L>,
) -> Result<Turn<CoreFrame>, Stop>
    ensures stops { StopsAt heap.old heap.new (error_given erring.kind erring.target erring.message erring.options (answered answer)) result }
    ensures named { (w v : World) → StandsFor heap.old w → StandsFor heap.new v → IsKnown v.lists erring.options → KeepsNamed names_of v result }
    ensures retains { Retains heap.old heap.new }
{
    match prototype_of(
        heap,
        Class::Error(erring.kind),
        erring.target,
        answer,
        steps,
    )? {
        Ok(prototype) => error_made(alloc, heap, erring, prototype, steps),
        Err(thrown) => Ok(Turn::Done(Completion::Throw(thrown))),
    }
}

/// Step 2: the new object.
#[tactic(auto, using(object_heap::specs::Stands::goes_none, object_heap::specs::Stands::goes_then, object_heap::specs::Stands::halts_at, object_heap::specs::Stops::stops_then, object_heap::proofs::Retaining::retains_none, object_heap::proofs::Retaining::retains_then, object_heap::proofs::Turns::named_ask, object_heap::proofs::Turns::named_done, object_heap::proofs::Turns::named_stop))]
fn error_made<L: Ledger>(
    alloc: Global,
    heap: &mut Heap,
    erring: Erring,
    prototype: ObjectId,
    steps: &mut Steps<L>,
) -> Result<Turn<CoreFrame>, Stop>
    ensures stops { StopsAt heap.old heap.new (error_made erring.message erring.options prototype) result }
    ensures named { (w v : World) → StandsFor heap.old w → StandsFor heap.new v → IsKnown v.lists erring.options → KeepsNamed names_of v result }
    ensures retains { Retains heap.old heap.new }
{
    let origin = heap.origin_for(OriginKind::Error, 4)?;
    let error = heap.make(ObjectKind::Error, origin, Some(prototype), steps)?;
    let installing = Installing {
        error,
        options: erring.options,
    };
    with_message(alloc, heap, installing, erring.message, steps)
}

/// Step 3, and what follows it.
fn with_message<L: Ledger>(
    alloc: Global,
    heap: &mut Heap,
    installing: Installing,
    message: Value,
    steps: &mut Steps<L>,
) -> Result<Turn<CoreFrame>, Stop>
    ensures stops { StopsAt heap.old heap.new (with_message installing.error message installing.options) result }
    ensures named { (w : World) → IsObject w.lists installing.error → IsKnown w.lists installing.options → KeepsNamed names_of w result }
    ensures retains { Retains heap.old heap.new }
{
    match message {
        Value::Undefined => install_cause(heap, installing),
        Value::Text(text) => message_put(heap, installing, text, steps),
        Value::Null | Value::Bool(_) | Value::Whole(_) | Value::Symbol(_) | Value::Object(_) => {
            let request = Request::Work {
                operation: Operation::ToText,
                operands: one(alloc, message)?,
            };
            Ok(Turn::Ask(
                request,
                CoreFrame::Error(ErrorFrame::MessageGiven(installing)),
            ))
        }
    }
}

/// What follows step 3.a.
pub(crate) fn message_given<L: Ledger>(
    heap: &mut Heap,
    installing: Installing,
    answer: Completion,
    steps: &mut Steps<L>,
) -> Result<Turn<CoreFrame>, Stop>
    ensures stops { StopsAt heap.old heap.new (message_given installing.error installing.options (answered answer)) result }
    ensures named { (w : World) → IsObject w.lists installing.error → IsKnown w.lists installing.options → KeepsNamed names_of w result }
    ensures retains { Retains heap.old heap.new }
{
    match answer.value() {
        Ok(Value::Text(text)) => message_put(heap, installing, text, steps),
        Ok(_) => Ok(Turn::Done(Completion::Throw(Value::Undefined))),
        Err(thrown) => Ok(Turn::Done(Completion::Throw(thrown))),
    }
}

/// Step 3.b, and what follows it.
#[tactic(auto, using(object_heap::specs::Stands::goes_none, object_heap::specs::Stands::goes_then, object_heap::specs::Stands::halts_at, object_heap::specs::Stops::stops_then, object_heap::proofs::Retaining::retains_none, object_heap::proofs::Retaining::retains_then, object_heap::proofs::Turns::named_ask, object_heap::proofs::Turns::named_done, object_heap::proofs::Turns::named_stop))]
fn message_put<L: Ledger>(
    heap: &mut Heap,
    installing: Installing,
    text: TextId,
    steps: &mut Steps<L>,
) -> Result<Turn<CoreFrame>, Stop>
    ensures stops { StopsAt heap.old heap.new (message_put installing.error installing.options text) result }
    ensures named { (w : World) → IsObject w.lists installing.error → IsKnown w.lists installing.options → KeepsNamed names_of w result }
    ensures retains { Retains heap.old heap.new }
{
    let name = heap.word(b"message")?;
    heap.define_own(
        installing.error,
        PropKey::Name(name),
        &hidden(Value::Text(text)),
        steps,
    )?;
    install_cause(heap, installing)
}

/// A property that is writable, configurable and not enumerable.
fn hidden(value: Value) -> Descriptor
    ensures { result ≡ hidden value }
{
    Descriptor {
        value: Some(value),
        writable: Some(true),
        get: None,
        set: None,
        enumerable: Some(false),
        configurable: Some(true),
    }
}

/// InstallErrorCause (20.5.8.1).
fn install_cause(heap: &mut Heap, installing: Installing) -> Result<Turn<CoreFrame>, Stop>
    ensures stops { StopsAt heap.old heap.new (install_cause installing.error installing.options) result }
    ensures named { (w : World) → IsObject w.lists installing.error → IsKnown w.lists installing.options → KeepsNamed names_of w result }
    ensures retains { Retains heap.old heap.new }
{
    match as_object(installing.options) {
        None => {
            let error = Value::Object(installing.error);
            Ok(Turn::Done(Completion::Normal(Reply::Value(error))))
        }
        Some(options) => {
            let causing = Causing {
                error: installing.error,
                options,
            };
            let frame = CoreFrame::Error(ErrorFrame::CauseHad(causing));
            has_named(heap, options, b"cause", frame)
        }
    }
}

/// What follows the test of step 1.
pub(crate) fn cause_had(
    heap: &mut Heap,
    causing: Causing,
    answer: Completion,
) -> Result<Turn<CoreFrame>, Stop>
    ensures stops { StopsAt heap.old heap.new (cause_had causing.error causing.options (answered answer)) result }
    ensures named { (w : World) → IsObject w.lists causing.error → KeepsNamed names_of w result }
    ensures retains { Retains heap.old heap.new }
{
    match answer.flag() {
        Ok(true) => {
            let frame = CoreFrame::Error(ErrorFrame::CauseGiven(causing.error));
            get_named(heap, causing.options, b"cause", frame)
        }
        Ok(false) => {
            let error = Value::Object(causing.error);
            Ok(Turn::Done(Completion::Normal(Reply::Value(error))))
        }
        Err(thrown) => Ok(Turn::Done(Completion::Throw(thrown))),
    }
}

/// What follows step 1.a.
pub(crate) fn cause_given<L: Ledger>(
    heap: &mut Heap,
    error: ObjectId,
    answer: Completion,
    steps: &mut Steps<L>,
) -> Result<Turn<CoreFrame>, Stop>
    ensures stops { StopsAt heap.old heap.new (cause_given error (answered answer)) result }
    ensures named { (w : World) → KeepsNamed names_of w result }
    ensures retains { Retains heap.old heap.new }
{
    match answer.value() {
        Ok(cause) => cause_put(heap, error, cause, steps),
        Err(thrown) => Ok(Turn::Done(Completion::Throw(thrown))),
    }
}

/// Step 1.b.
fn cause_put<L: Ledger>(
    heap: &mut Heap,
    error: ObjectId,
    cause: Value,
    steps: &mut Steps<L>,
) -> Result<Turn<CoreFrame>, Stop>
    ensures stops { StopsAt heap.old heap.new (cause_put error cause) result }
    ensures named { (w : World) → KeepsNamed names_of w result }
    ensures retains { Retains heap.old heap.new }
{
    let name = heap.word(b"cause")?;
    heap.define_own(error, PropKey::Name(name), &hidden(cause), steps)?;
    Ok(Turn::Done(Completion::Normal(Reply::Value(Value::Object(error)))))
}
