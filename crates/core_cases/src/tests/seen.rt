//! What a test sees of a turn and of an object.

use crate::tests::steps::counting;
use core_builtins::CoreFrame;
use descriptors::Complete;
use es_model::{
    Class, Completion, ErrorKind, Intrinsic, ObjectKind, Operation, Reply, Request, StartText,
    Turn, Values,
};
use object_heap::Heap;
use property_keys::{Attributes, ObjectId, PropKey, Value};

#[derive(Clone, Copy)]
pub(crate) enum Seen {
    /// a read by this name, on its own receiver
    AsksRead(ObjectId, &'static str),
    AsksHas(ObjectId, &'static str),
    /// a call of a function with a receiver and arguments
    AsksCall(ObjectId, Value, &'static [Value]),
    AsksWork(Operation, Value),
    /// OrdinaryHasInstance of a function and a value
    AsksInstance(Value, Value),
    Value(Value),
    /// a text with these code units
    Text(&'static str),
    Thrown(Value),
    /// a new error of this kind with this message is thrown
    Error(ErrorKind, &'static str),
    /// of an object: its prototype and the value in its inner slot
    Wrapper(ObjectId, Value),
    /// of an object: it is an error with this prototype
    IsError(ObjectId),
    /// of a property: it is hidden, with this value
    Hidden(Value),
    /// of a property: it is hidden, with this text
    HiddenText(&'static str),
    /// of a property: it is not there
    Absent,
}

const HIDDEN: Attributes = Attributes {
    writable: true,
    enumerable: false,
    configurable: true,
};

fn is_text(heap: &Heap, value: Value, text: &str) -> bool {
    match value {
        Value::Text(id) => heap.units(id).is_ascii(text.as_bytes()),
        _ => false,
    }
}

fn is_name(heap: &Heap, key: PropKey, text: &str) -> bool {
    match key {
        PropKey::Name(id) => heap.units(id).is_ascii(text.as_bytes()),
        _ => false,
    }
}

fn are_values(given: &Values, wanted: &[Value]) -> bool {
    if given.len() != wanted.len() {
        return false;
    }
    for i in 0..given.len() {
        if *given.at(i) != wanted[i] {
            return false;
        }
    }
    true
}

fn is_error_with(heap: &Heap, value: Value, kind: ErrorKind, message: &str) -> bool {
    match value {
        Value::Object(error) => {
            let key = PropKey::Name(StartText::Message.number());
            heap.proto(error) == Some(Intrinsic::Prototype(Class::Error(kind)).object())
                && is_hidden_text(heap, heap.own(error, key, &mut counting()), message)
        }
        _ => false,
    }
}

fn hidden_value(property: Option<Complete>) -> Option<Value> {
    match property {
        Some(Complete::Stored { value, attributes }) if attributes == HIDDEN => Some(value),
        _ => None,
    }
}

fn is_hidden_text(heap: &Heap, property: Option<Complete>, text: &str) -> bool {
    match hidden_value(property) {
        Some(value) => is_text(heap, value, text),
        None => false,
    }
}

/// Whether this is seen of a turn.
pub(crate) fn is_turn(heap: &Heap, turn: &Turn<CoreFrame>, wanted: Seen) -> bool {
    match turn {
        Turn::Ask(request, _) => is_request(heap, request, wanted),
        Turn::Done(completion) => is_completion(heap, completion, wanted),
    }
}

fn is_request(heap: &Heap, request: &Request, wanted: Seen) -> bool {
    match (request, wanted) {
        (
            Request::Read {
                object,
                key,
                receiver,
                site: None,
            },
            Seen::AsksRead(from, name),
        ) => *object == from && *receiver == Value::Object(from) && is_name(heap, *key, name),
        (Request::Has { object, key }, Seen::AsksHas(of, name)) => {
            *object == of && is_name(heap, *key, name)
        }
        (
            Request::Call {
                function,
                this,
                arguments,
            },
            Seen::AsksCall(callee, receiver, values),
        ) => {
            *function == Value::Object(callee) && *this == receiver && are_values(arguments, values)
        }
        (
            Request::Work {
                operation,
                operands,
            },
            Seen::AsksWork(wanted, value),
        ) => *operation == wanted && are_values(operands, &[value]),
        (
            Request::Work {
                operation: Operation::OrdinaryHasInstance,
                operands,
            },
            Seen::AsksInstance(function, value),
        ) => are_values(operands, &[function, value]),
        _ => false,
    }
}

fn is_completion(heap: &Heap, completion: &Completion, wanted: Seen) -> bool {
    match (completion, wanted) {
        (Completion::Normal(Reply::Value(value)), Seen::Value(wanted)) => *value == wanted,
        (Completion::Normal(Reply::Value(value)), Seen::Text(text)) => is_text(heap, *value, text),
        (Completion::Throw(value), Seen::Thrown(wanted)) => *value == wanted,
        (Completion::Throw(value), Seen::Error(kind, message)) => {
            is_error_with(heap, *value, kind, message)
        }
        _ => false,
    }
}

/// Whether this is seen of an object.
pub(crate) fn is_object(heap: &Heap, object: ObjectId, wanted: Seen) -> bool {
    match (heap.kind(object), wanted) {
        (ObjectKind::Wrapper(value), Seen::Wrapper(proto, inner)) => {
            heap.proto(object) == Some(proto) && *value == inner
        }
        (ObjectKind::Error, Seen::IsError(proto)) => heap.proto(object) == Some(proto),
        _ => false,
    }
}

/// Whether this is seen of a property.
pub(crate) fn is_property(heap: &Heap, property: Option<Complete>, wanted: Seen) -> bool {
    match wanted {
        Seen::Hidden(value) => hidden_value(property) == Some(value),
        Seen::HiddenText(text) => is_hidden_text(heap, property, text),
        Seen::Absent => property == None,
        _ => false,
    }
}
