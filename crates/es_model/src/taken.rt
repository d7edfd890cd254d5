//! ReturnIfAbrupt (ECMA-262, 5.2.3.3) over answers: what an algorithm goes on with, or what is thrown on. A reply of another kind throws undefined.

ghost use Rattle.std.specs.Prelude.{◌≡◌};
ghost use Rattle.es_model.specs.Completions.{answered};
ghost use Rattle.es_model.specs.programs.Abrupt.{flag_in, key_in, keys_in, list_in, property_in, proto_in, value_in, wanted_in, or_throw, taken};

use crate::{Completion, KeyList, Reply, Values};
use descriptors::{Complete, Descriptor};
use property_keys::{ObjectId, PropKey, Value};

impl Completion {
    pub fn value(self) -> Result<Value, Value>
        ensures { taken value_in (answered self) ≡ or_throw result }
    {
        match self {
            Completion::Normal(Reply::Value(value)) => Ok(value),
            Completion::Normal(_) => Err(Value::Undefined),
            Completion::Throw(thrown) => Err(thrown),
        }
    }

    pub fn flag(self) -> Result<bool, Value>
        ensures { taken flag_in (answered self) ≡ or_throw result }
    {
        match self {
            Completion::Normal(Reply::Flag(flag)) => Ok(flag),
            Completion::Normal(_) => Err(Value::Undefined),
            Completion::Throw(thrown) => Err(thrown),
        }
    }

    pub fn property(self) -> Result<Option<Complete>, Value>
        ensures { taken property_in (answered self) ≡ or_throw result }
    {
        match self {
            Completion::Normal(Reply::Property(property)) => Ok(property),
            Completion::Normal(_) => Err(Value::Undefined),
            Completion::Throw(thrown) => Err(thrown),
        }
    }

    pub fn keys(self) -> Result<KeyList, Value>
        ensures { taken keys_in (answered self) ≡ or_throw result }
    {
        match self {
            Completion::Normal(Reply::Keys(keys)) => Ok(keys),
            Completion::Normal(_) => Err(Value::Undefined),
            Completion::Throw(thrown) => Err(thrown),
        }
    }

    pub fn key(self) -> Result<PropKey, Value>
        ensures { taken key_in (answered self) ≡ or_throw result }
    {
        match self {
            Completion::Normal(Reply::Key(key)) => Ok(key),
            Completion::Normal(_) => Err(Value::Undefined),
            Completion::Throw(thrown) => Err(thrown),
        }
    }

    pub fn proto(self) -> Result<Option<ObjectId>, Value>
        ensures { taken proto_in (answered self) ≡ or_throw result }
    {
        match self {
            Completion::Normal(Reply::Proto(prototype)) => Ok(prototype),
            Completion::Normal(_) => Err(Value::Undefined),
            Completion::Throw(thrown) => Err(thrown),
        }
    }

    pub fn list(self) -> Result<Values, Value>
        ensures { taken list_in (answered self) ≡ or_throw result }
    {
        match self {
            Completion::Normal(Reply::List(list)) => Ok(list),
            Completion::Normal(_) => Err(Value::Undefined),
            Completion::Throw(thrown) => Err(thrown),
        }
    }

    pub fn wanted(self) -> Result<Descriptor, Value>
        ensures { taken wanted_in (answered self) ≡ or_throw result }
    {
        match self {
            Completion::Normal(Reply::Wanted(descriptor)) => Ok(descriptor),
            Completion::Normal(_) => Err(Value::Undefined),
            Completion::Throw(thrown) => Err(thrown),
        }
    }
}
