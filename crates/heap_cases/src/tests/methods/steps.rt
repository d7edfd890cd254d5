//! What a test does with a heap and the frame that waits.

use super::seen::{KEY, Seen, seen_turn};
use descriptors::{Complete, Descriptor};
use es_model::{Completion, ErrorKind, Reply, Request, StartText, Stop, Turn, Values};
use object_heap::Heap;
use ordinary_object::{OrdinaryFrame, resume, start};
use property_keys::{Counting, NoMemory, ObjectId, Steps, Value};
use std::alloc::Global;

#[derive(Clone, Copy)]
pub(crate) enum Step {
    /// A new object with this prototype, and without a property under the key of the tests. Its methods are the ordinary ones.
    Make(Option<ObjectId>),
    /// The heap defines the property of the key of the tests.
    Define(ObjectId, Descriptor),
    /// The heap closes the object.
    Prevent(ObjectId),
    /// What the heap has under the key of the tests.
    Own(ObjectId),
    /// The prototype that the heap has.
    Proto(ObjectId),
    /// The turns that are left.
    Left,
    Start(Question),
    /// The frame that waits goes on.
    Answer(Given),
}

/// A request, with the key of the tests.
#[derive(Clone, Copy)]
pub(crate) enum Question {
    GetOwn(ObjectId),
    Define(ObjectId, Descriptor),
    Has(ObjectId),
    /// with the receiver
    Read(ObjectId, Value),
    /// of the value 8, with the receiver
    Write(ObjectId, Value),
    Delete(ObjectId),
    Keys(ObjectId),
    Proto(ObjectId),
    SetProto(ObjectId, Option<ObjectId>),
    Extensible(ObjectId),
    Prevent(ObjectId),
    /// an empty line
    Print,
}

/// An answer to what the frame that waits has asked.
#[derive(Clone, Copy)]
pub(crate) enum Given {
    Value(Value),
    Flag(bool),
    Property(Option<Complete>),
    /// the property that the object has when the answer is given
    OwnOf(ObjectId),
    Thrown(Value),
}

/// What is seen of a step.
pub(crate) fn seen_of(
    heap: &mut Heap,
    waiting: &mut Option<OrdinaryFrame>,
    step: Step,
) -> Result<Seen, NoMemory> {
    match step {
        Step::Make(proto) => made(heap, proto),
        Step::Define(object, wanted) => defined(heap, object, &wanted),
        Step::Prevent(object) => prevented(heap, object),
        Step::Own(object) => Ok(Seen::Property(own_of(heap, object))),
        Step::Proto(object) => Ok(Seen::Proto(heap.proto(object))),
        Step::Left => Ok(Seen::Turns(heap.turns_ref().left())),
        Step::Start(question) => seen_turn(waiting, started(heap, question)),
        Step::Answer(given) => answered(heap, waiting, given),
    }
}

fn counting() -> Steps<Counting> {
    Steps::new(Counting::new())
}

fn made(heap: &mut Heap, proto: Option<ObjectId>) -> Result<Seen, NoMemory> {
    let text = StartText::Message.number();
    let object = heap.make_error(ErrorKind::Error, text, &mut counting())?;
    heap.set_proto(object, proto, &mut counting())?;
    Ok(Seen::Made(object))
}

fn defined(heap: &mut Heap, object: ObjectId, wanted: &Descriptor) -> Result<Seen, NoMemory> {
    let is_defined = heap.define_own(object, KEY, wanted, &mut counting())?;
    Ok(Seen::Flag(is_defined))
}

fn prevented(heap: &mut Heap, object: ObjectId) -> Result<Seen, NoMemory> {
    heap.prevent(object, &mut counting())?;
    Ok(Seen::Done)
}

fn own_of(heap: &Heap, object: ObjectId) -> Option<Complete> {
    heap.own(object, KEY, &mut counting())
}

fn started(heap: &mut Heap, question: Question) -> Result<Turn<OrdinaryFrame>, Stop> {
    let alloc = heap.alloc();
    let request = request_of(alloc, question);
    start(alloc, heap, &request, &mut counting())
}

fn answered(
    heap: &mut Heap,
    waiting: &mut Option<OrdinaryFrame>,
    given: Given,
) -> Result<Seen, NoMemory> {
    let answer = completion_of(heap, given);
    match waiting.take() {
        Some(frame) => {
            let turn = resume(heap.alloc(), heap, frame, answer, &mut counting());
            seen_turn(waiting, turn)
        }
        None => Ok(Seen::Other),
    }
}

fn completion_of(heap: &Heap, given: Given) -> Completion {
    match given {
        Given::Value(value) => Completion::Normal(Reply::Value(value)),
        Given::Flag(flag) => Completion::Normal(Reply::Flag(flag)),
        Given::Property(property) => Completion::Normal(Reply::Property(property)),
        Given::OwnOf(object) => Completion::Normal(Reply::Property(own_of(heap, object))),
        Given::Thrown(value) => Completion::Throw(value),
    }
}

fn request_of(alloc: Global, question: Question) -> Request {
    match question {
        Question::GetOwn(object) => Request::GetOwn { object, key: KEY },
        Question::Define(object, wanted) => Request::Define {
            object,
            key: KEY,
            wanted,
        },
        Question::Has(object) => Request::Has { object, key: KEY },
        Question::Read(object, receiver) => Request::Read {
            object,
            key: KEY,
            receiver,
            site: None,
        },
        Question::Write(object, receiver) => Request::Write {
            object,
            key: KEY,
            value: Value::Whole(8),
            receiver,
            site: None,
        },
        Question::Delete(object) => Request::Delete { object, key: KEY },
        Question::Keys(object) => Request::Keys { object },
        Question::Proto(object) => Request::Proto { object },
        Question::SetProto(object, proto) => Request::SetProto { object, proto },
        Question::Extensible(object) => Request::Extensible { object },
        Question::Prevent(object) => Request::Prevent { object },
        Question::Print => Request::Print {
            line: Values::new(alloc),
        },
    }
}
