//! What a test sees of a turn.

use descriptors::{Complete, Descriptor};
use es_model::{Completion, Reply, Request, Stop, Turn};
use ordinary_object::OrdinaryFrame;
use property_keys::{NoMemory, ObjectId, PropKey, Value};

/// The key of all tests.
pub(crate) const KEY: PropKey = PropKey::Index(3);

#[derive(Clone, Copy, PartialEq)]
pub(crate) enum Seen {
    Made(ObjectId),
    Done,
    Turns(u64),
    AsksHas(ObjectId),
    AsksRead(ObjectId, Value),
    AsksWrite(ObjectId, Value, Value),
    AsksGetOwn(ObjectId),
    AsksDefine(ObjectId, Descriptor),
    /// a call without arguments
    AsksCall(Value, Value),
    /// a call with one argument
    AsksCallWith(Value, Value, Value),
    Value(Value),
    Flag(bool),
    Property(Option<Complete>),
    Proto(Option<ObjectId>),
    /// how many keys, and whether the first is the key of the tests
    Keys(usize, bool),
    Thrown(Value),
    Halted,
    Other,
}

/// What is seen of a turn. A frame that asks waits from now on.
pub(crate) fn seen_turn(
    waiting: &mut Option<OrdinaryFrame>,
    turn: Result<Turn<OrdinaryFrame>, Stop>,
) -> Result<Seen, NoMemory> {
    match turn {
        Ok(Turn::Ask(request, frame)) => {
            *waiting = Some(frame);
            Ok(seen_request(&request))
        }
        Ok(Turn::Done(completion)) => Ok(seen_completion(&completion)),
        Err(Stop::Halted) => Ok(Seen::Halted),
        Err(Stop::NoMemory) => Err(NoMemory),
    }
}

fn seen_request(request: &Request) -> Seen {
    match request {
        Request::Has { object, key } if *key == KEY => Seen::AsksHas(*object),
        Request::Read {
            object,
            key,
            receiver,
            site: None,
        } if *key == KEY => Seen::AsksRead(*object, *receiver),
        Request::Write {
            object,
            key,
            value,
            receiver,
            site: None,
        } if *key == KEY => Seen::AsksWrite(*object, *value, *receiver),
        Request::GetOwn { object, key } if *key == KEY => Seen::AsksGetOwn(*object),
        Request::Define {
            object,
            key,
            wanted,
        } if *key == KEY => Seen::AsksDefine(*object, *wanted),
        Request::Call {
            function,
            this,
            arguments,
        } => match arguments.len() {
            0 => Seen::AsksCall(*function, *this),
            1 => Seen::AsksCallWith(*function, *this, *arguments.at(0)),
            _ => Seen::Other,
        },
        _ => Seen::Other,
    }
}

fn seen_completion(completion: &Completion) -> Seen {
    match completion {
        Completion::Throw(value) => Seen::Thrown(*value),
        Completion::Normal(Reply::Value(value)) => Seen::Value(*value),
        Completion::Normal(Reply::Flag(flag)) => Seen::Flag(*flag),
        Completion::Normal(Reply::Property(property)) => Seen::Property(*property),
        Completion::Normal(Reply::Proto(proto)) => Seen::Proto(*proto),
        Completion::Normal(Reply::Keys(keys)) => {
            let count = keys.len();
            Seen::Keys(count, count > 0 && *keys.at(0) == KEY)
        }
        _ => Seen::Other,
    }
}
