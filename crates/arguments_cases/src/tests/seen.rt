//! What a test sees of a turn and of a property.

use super::steps::Key;
use arguments_exotic::ArgumentsFrame;
use descriptors::Complete;
use es_model::{Completion, KeyList, Reply, Request, Turn};
use object_heap::Heap;
use property_keys::{Attributes, ObjectId, PropKey, Value};

#[derive(Clone, Copy)]
pub(crate) enum Seen {
    AsksHas(ObjectId, Key),
    AsksRead(ObjectId, Key),
    AsksOwn(ObjectId, Key),
    /// a function is called with this receiver
    AsksCall(ObjectId, ObjectId),
    Flag(bool),
    /// the value that is answered, or that of a cell
    Value(Value),
    Keys(&'static [Key]),
    /// the property, or the answer to [[GetOwnProperty]]: it is stored with these flags (writable, enumerable, configurable)
    Stored(Value, [bool; 3]),
    /// it is an accessor with this getter and setter and these flags (enumerable, configurable)
    Accessor(Option<ObjectId>, Option<ObjectId>, [bool; 2]),
    Absent,
    /// a new object
    Object(ObjectId),
    Turns(u64),
    Halts,
}

fn is_key(heap: &Heap, key: PropKey, wanted: Key) -> bool {
    match (key, wanted) {
        (PropKey::Index(index), Key::Index(wanted)) => index == wanted,
        (PropKey::Name(name), Key::Name(wanted)) => { heap.units(name).is_ascii(wanted.as_bytes()) }
        _ => false,
    }
}

fn are_keys(heap: &Heap, keys: &KeyList, wanted: &[Key]) -> bool {
    if keys.len() != wanted.len() {
        return false;
    }
    for i in 0..keys.len() {
        if !is_key(heap, *keys.at(i), wanted[i]) {
            return false;
        }
    }
    true
}

/// Whether this is seen of a turn.
pub(crate) fn is_turn(heap: &Heap, turn: &Turn<ArgumentsFrame>, wanted: Seen) -> bool {
    match turn {
        Turn::Ask(request, _) => is_request(heap, request, wanted),
        Turn::Done(completion) => is_completion(heap, completion, wanted),
    }
}

fn is_request(heap: &Heap, request: &Request, wanted: Seen) -> bool {
    match (request, wanted) {
        (Request::Has { object, key }, Seen::AsksHas(of, wanted)) => {
            *object == of && is_key(heap, *key, wanted)
        }
        (Request::Read { object, key, .. }, Seen::AsksRead(of, wanted)) => {
            *object == of && is_key(heap, *key, wanted)
        }
        (Request::GetOwn { object, key }, Seen::AsksOwn(of, wanted)) => {
            *object == of && is_key(heap, *key, wanted)
        }
        (
            Request::Call {
                function,
                this,
                arguments,
            },
            Seen::AsksCall(getter, receiver),
        ) => {
            *function == Value::Object(getter)
                && *this == Value::Object(receiver)
                && arguments.len() == 0
        }
        _ => false,
    }
}

fn is_completion(heap: &Heap, completion: &Completion, wanted: Seen) -> bool {
    match (completion, wanted) {
        (Completion::Normal(Reply::Flag(flag)), Seen::Flag(wanted)) => *flag == wanted,
        (Completion::Normal(Reply::Value(value)), Seen::Value(wanted)) => *value == wanted,
        (Completion::Normal(Reply::Keys(keys)), Seen::Keys(wanted)) => are_keys(heap, keys, wanted),
        (Completion::Normal(Reply::Property(property)), wanted) => {
            is_property(*property, wanted)
        }
        _ => false,
    }
}

fn has_flags(attributes: Attributes, wanted: [bool; 3]) -> bool {
    attributes.writable == wanted[0]
        && attributes.enumerable == wanted[1]
        && attributes.configurable == wanted[2]
}

/// Whether this is seen of a property.
pub(crate) fn is_property(property: Option<Complete>, wanted: Seen) -> bool {
    match (property, wanted) {
        (Some(Complete::Stored { value, attributes }), Seen::Stored(wanted, flags)) => {
            value == wanted && has_flags(attributes, flags)
        }
        (
            Some(
                Complete::Accessor {
                    get,
                    set,
                    enumerable,
                    configurable,
                },
            ),
            Seen::Accessor(getter, setter, flags),
        ) => {
            get == getter && set == setter && enumerable == flags[0] && configurable == flags[1]
        }
        (None, Seen::Absent) => true,
        _ => false,
    }
}
