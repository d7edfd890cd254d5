//! What a test does with a heap and the frame that waits.

use super::seen::{Seen, seen_turn};
use crate::tests::numbers::OBJECT_PROTOTYPE;
use es_model::{Completion, Operation, Reply, Request, StartText, Stop, Turn, Values};
use object_heap::Heap;
use plain_builtins::{PlainFrame, resume, start};
use property_keys::{Counting, NoMemory, ObjectId, PropKey, Steps, TextId, Units, Value};
use std::alloc::Global;

#[derive(Clone, Copy)]
pub(crate) enum Step {
    /// The number of a text.
    Text(&'static str),
    /// The message of an error.
    Message(ObjectId),
    /// The turns that are left.
    Left,
    Start(Question),
    /// The frame that waits goes on.
    Answer(Given),
}

#[derive(Clone, Copy)]
pub(crate) enum Question {
    One(Operation, Value),
    Two(Operation, Value, Value),
    /// IsLessThan, with LeftFirst
    Less(Value, Value, bool),
    /// a call with two arguments
    Call(Value, Value, Value),
    Construct(ObjectId),
    /// an internal method, which is for another crate
    Keys,
}

/// An answer to what the frame that waits has asked.
#[derive(Clone, Copy)]
pub(crate) enum Given {
    Value(Value),
    Flag(bool),
    Proto(Option<ObjectId>),
    Thrown(Value),
}

/// What is seen of a step.
pub(crate) fn seen_of(
    heap: &mut Heap,
    waiting: &mut Option<PlainFrame>,
    step: Step,
) -> Result<Seen, NoMemory> {
    match step {
        Step::Text(text) => Ok(Seen::Value(Value::Text(text_of(heap, text)?))),
        Step::Message(error) => Ok(message_of(heap, error)),
        Step::Left => Ok(Seen::Turns(heap.turns_ref().left())),
        Step::Start(question) => started(heap, waiting, question),
        Step::Answer(given) => answered(heap, waiting, given),
    }
}

fn counting() -> Steps<Counting> {
    Steps::new(Counting::new())
}

fn text_of(heap: &mut Heap, text: &str) -> Result<TextId, NoMemory> {
    let mut units = Units::new(heap.alloc());
    for byte in text.as_bytes() {
        if units.push(u16::from(*byte)).is_err() {
            return Err(NoMemory);
        }
    }
    heap.intern(units)
}

fn message_of(heap: &Heap, error: ObjectId) -> Seen {
    let key = PropKey::Name(StartText::Message.number());
    Seen::Property(heap.own(error, key, &mut counting()))
}

fn started(
    heap: &mut Heap,
    waiting: &mut Option<PlainFrame>,
    question: Question,
) -> Result<Seen, NoMemory> {
    let request = request_of(heap.alloc(), question)?;
    seen_turn(waiting, first_turn(heap, &request))
}

fn first_turn(heap: &mut Heap, request: &Request) -> Result<Turn<PlainFrame>, Stop> {
    start(heap.alloc(), heap, request, &mut counting())
}

fn answered(
    heap: &mut Heap,
    waiting: &mut Option<PlainFrame>,
    given: Given,
) -> Result<Seen, NoMemory> {
    match waiting.take() {
        Some(frame) => {
            let answer = completion_of(given);
            let turn = resume(heap.alloc(), heap, frame, answer, &mut counting());
            seen_turn(waiting, turn)
        }
        None => Ok(Seen::Other),
    }
}

fn completion_of(given: Given) -> Completion {
    match given {
        Given::Value(value) => Completion::Normal(Reply::Value(value)),
        Given::Flag(flag) => Completion::Normal(Reply::Flag(flag)),
        Given::Proto(proto) => Completion::Normal(Reply::Proto(proto)),
        Given::Thrown(value) => Completion::Throw(value),
    }
}

fn request_of(alloc: Global, question: Question) -> Result<Request, NoMemory> {
    match question {
        Question::One(operation, value) => work(operation, values_of(alloc, &[value])?),
        Question::Two(operation, a, b) => work(operation, values_of(alloc, &[a, b])?),
        Question::Less(a, b, first) => {
            let operands = values_of(alloc, &[a, b, Value::Bool(first)])?;
            work(Operation::LessThan, operands)
        }
        Question::Call(function, a, b) => {
            let arguments = values_of(alloc, &[a, b])?;
            call(function, arguments)
        }
        Question::Construct(function) => construct(alloc, function),
        Question::Keys => Ok(Request::Keys {
            object: OBJECT_PROTOTYPE,
        }),
    }
}

fn work(operation: Operation, operands: Values) -> Result<Request, NoMemory> {
    Ok(Request::Work {
        operation,
        operands,
    })
}

fn call(function: Value, arguments: Values) -> Result<Request, NoMemory> {
    Ok(Request::Call {
        function,
        this: Value::Undefined,
        arguments,
    })
}

fn construct(alloc: Global, function: ObjectId) -> Result<Request, NoMemory> {
    Ok(Request::Construct {
        function,
        arguments: Values::new(alloc),
        target: function,
    })
}

fn values_of(alloc: Global, values: &[Value]) -> Result<Values, NoMemory> {
    let mut all = Values::new(alloc);
    for value in values {
        all.push(*value)?;
    }
    Ok(all)
}
