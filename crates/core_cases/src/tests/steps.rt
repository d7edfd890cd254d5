//! What a test does with a heap and the frame that waits.

use super::seen::{Seen, is_object, is_property, is_turn};
use core_builtins::{CoreFrame, resume, start};
use es_model::{Completion, Reply, Request, Stop, Turn, Values};
use object_heap::Heap;
use property_keys::{Counting, NoMemory, ObjectId, PropKey, Steps, TextId, Units, Value};
use std::alloc::Global;

#[derive(Clone, Copy)]
pub(crate) enum Step {
    /// The number of a text.
    Text(&'static str),
    /// A call of a function with a receiver and arguments.
    Call(ObjectId, Value, &'static [Value]),
    /// A construction by a function with arguments and a new target.
    Construct(ObjectId, &'static [Value], ObjectId),
    /// The frame that waits goes on.
    Answer(Given),
    /// An object.
    Object(ObjectId),
    /// A property of an object by its name.
    Own(ObjectId, &'static str),
}

/// An answer to what the frame that waits has asked.
#[derive(Clone, Copy)]
pub(crate) enum Given {
    Value(Value),
    Flag(bool),
    List(&'static [Value]),
    Thrown(Value),
}

pub(crate) fn counting() -> Steps<Counting> {
    Steps::new(Counting::new())
}

/// Whether this is seen of a step.
pub(crate) fn is_seen(
    heap: &mut Heap,
    waiting: &mut Option<CoreFrame>,
    step: Step,
    wanted: Seen,
) -> Result<bool, NoMemory> {
    match step {
        Step::Text(text) => {
            let id = text_of(heap, text)?;
            Ok(matches!(wanted, Seen::Value(value) if value == Value::Text(id)))
        }
        Step::Call(function, this, arguments) => {
            let request = call(heap.alloc(), function, this, arguments)?;
            started(heap, waiting, &request, wanted)
        }
        Step::Construct(function, arguments, target) => {
            let request = construct(heap.alloc(), function, arguments, target)?;
            started(heap, waiting, &request, wanted)
        }
        Step::Answer(given) => answered(heap, waiting, given, wanted),
        Step::Object(object) => Ok(is_object(heap, object, wanted)),
        Step::Own(object, name) => {
            let key = PropKey::Name(text_of(heap, name)?);
            Ok(is_property(heap, heap.own(object, key, &mut counting()), wanted))
        }
    }
}

fn text_of(heap: &mut Heap, text: &str) -> Result<TextId, NoMemory> {
    let mut units = Units::new(heap.alloc());
    for byte in text.as_bytes() {
        if units.push(u16::from(*byte)).is_err() {
            return Err(NoMemory);
        }
    }
    heap.intern(units)
}

fn started(
    heap: &mut Heap,
    waiting: &mut Option<CoreFrame>,
    request: &Request,
    wanted: Seen,
) -> Result<bool, NoMemory> {
    let turn = start(heap.alloc(), heap, request, &mut counting());
    turned(heap, waiting, turn, wanted)
}

fn answered(
    heap: &mut Heap,
    waiting: &mut Option<CoreFrame>,
    given: Given,
    wanted: Seen,
) -> Result<bool, NoMemory> {
    match waiting.take() {
        Some(frame) => {
            let answer = completion_of(heap.alloc(), given)?;
            let turn = resume(heap.alloc(), heap, frame, answer, &mut counting());
            turned(heap, waiting, turn, wanted)
        }
        None => Ok(false),
    }
}

/// A frame that asks waits from now on.
fn turned(
    heap: &Heap,
    waiting: &mut Option<CoreFrame>,
    turn: Result<Turn<CoreFrame>, Stop>,
    wanted: Seen,
) -> Result<bool, NoMemory> {
    match turn {
        Ok(turn) => {
            let is_wanted = is_turn(heap, &turn, wanted);
            if let Turn::Ask(_, frame) = turn {
                *waiting = Some(frame);
            }
            Ok(is_wanted)
        }
        Err(Stop::Halted) => Ok(false),
        Err(Stop::NoMemory) => Err(NoMemory),
    }
}

fn completion_of(alloc: Global, given: Given) -> Result<Completion, NoMemory> {
    Ok(match given {
        Given::Value(value) => Completion::Normal(Reply::Value(value)),
        Given::Flag(flag) => Completion::Normal(Reply::Flag(flag)),
        Given::List(values) => Completion::Normal(Reply::List(values_of(alloc, values)?)),
        Given::Thrown(value) => Completion::Throw(value),
    })
}

fn call(
    alloc: Global,
    function: ObjectId,
    this: Value,
    arguments: &[Value],
) -> Result<Request, NoMemory> {
    Ok(Request::Call {
        function: Value::Object(function),
        this,
        arguments: values_of(alloc, arguments)?,
    })
}

fn construct(
    alloc: Global,
    function: ObjectId,
    arguments: &[Value],
    target: ObjectId,
) -> Result<Request, NoMemory> {
    Ok(Request::Construct {
        function,
        arguments: values_of(alloc, arguments)?,
        target,
    })
}

fn values_of(alloc: Global, values: &[Value]) -> Result<Values, NoMemory> {
    let mut all = Values::new(alloc);
    for value in values {
        all.push(*value)?;
    }
    Ok(all)
}
