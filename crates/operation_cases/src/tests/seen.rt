//! What a test sees of a turn.

use descriptors::{Complete, Descriptor};
use es_model::{Completion, KeyList, Operation, Reply, Request, Stop, Turn, Values};
use plain_builtins::PlainFrame;
use property_keys::{NoMemory, ObjectId, PropKey, Value};

#[derive(Clone, Copy, PartialEq)]
pub(crate) enum Seen {
    Turns(u64),
    /// on its own receiver
    AsksRead(ObjectId, PropKey),
    AsksHas(ObjectId, PropKey),
    /// with its arguments
    AsksCall(Value, Value, Few),
    AsksWork(Operation, Few),
    AsksProto(ObjectId),
    AsksPrint(Few),
    Value(Value),
    Flag(bool),
    Key(PropKey),
    Wanted(Descriptor),
    List(Few),
    Keys(usize, Option<PropKey>),
    Property(Option<Complete>),
    Thrown(Value),
    Halted,
    Other,
}

/// How many values, and the first two.
#[derive(Clone, Copy, PartialEq)]
pub(crate) struct Few(
    pub(crate) usize,
    pub(crate) Option<Value>,
    pub(crate) Option<Value>,
);

/// What is seen of a turn. A frame that asks waits from now on.
pub(crate) fn seen_turn(
    waiting: &mut Option<PlainFrame>,
    turn: Result<Turn<PlainFrame>, Stop>,
) -> Result<Seen, NoMemory> {
    match turn {
        Ok(Turn::Ask(request, frame)) => {
            *waiting = Some(frame);
            Ok(seen_request(&request))
        }
        Ok(Turn::Done(completion)) => Ok(seen_completion(&completion)),
        Err(Stop::Halted) => Ok(Seen::Halted),
        Err(Stop::NoMemory) => Err(NoMemory),
    }
}

fn few_of(values: &Values) -> Few {
    let count = values.len();
    let first = if count > 0 { Some(*values.at(0)) } else { None };
    let second = if count > 1 { Some(*values.at(1)) } else { None };
    Few(count, first, second)
}

fn seen_keys(keys: &KeyList) -> Seen {
    let count = keys.len();
    Seen::Keys(count, if count > 0 { Some(*keys.at(0)) } else { None })
}

fn seen_request(request: &Request) -> Seen {
    match request {
        Request::Has { object, key } => Seen::AsksHas(*object, *key),
        Request::Read {
            object,
            key,
            receiver,
            site: None,
        } if *receiver == Value::Object(*object) => Seen::AsksRead(*object, *key),
        Request::Call {
            function,
            this,
            arguments,
        } => Seen::AsksCall(*function, *this, few_of(arguments)),
        Request::Work {
            operation,
            operands,
        } => Seen::AsksWork(*operation, few_of(operands)),
        Request::Proto { object } => Seen::AsksProto(*object),
        Request::Print { line } => Seen::AsksPrint(few_of(line)),
        _ => Seen::Other,
    }
}

fn seen_completion(completion: &Completion) -> Seen {
    match completion {
        Completion::Throw(value) => Seen::Thrown(*value),
        Completion::Normal(Reply::Value(value)) => Seen::Value(*value),
        Completion::Normal(Reply::Flag(flag)) => Seen::Flag(*flag),
        Completion::Normal(Reply::Key(key)) => Seen::Key(*key),
        Completion::Normal(Reply::Wanted(wanted)) => Seen::Wanted(*wanted),
        Completion::Normal(Reply::List(values)) => Seen::List(few_of(values)),
        Completion::Normal(Reply::Keys(keys)) => seen_keys(keys),
        _ => Seen::Other,
    }
}
