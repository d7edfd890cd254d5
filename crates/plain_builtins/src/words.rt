//! Words of the algorithms, by which their steps go.

use es_model::{KeyList, Values};
use property_keys::Value;

/// The preferred type of ToPrimitive (ECMA-262, 7.1.1).
#[derive(Clone, Copy)]
pub enum Hint {
    Default,
    Number,
    Text,
}

/// Why a value that is no object has no number.
#[derive(Clone, Copy)]
pub enum NoNumber {
    /// It has none, or none that is whole and in the range.
    Outside,
    /// It is a Symbol, or an object after all.
    Inconvertible,
}

/// The fields of a descriptor, in the order in which ToPropertyDescriptor asks for them (ECMA-262, 6.2.6.5).
#[derive(Clone, Copy)]
pub enum Field {
    Enumerable,
    Configurable,
    Value,
    Writable,
    Get,
    Set,
}

/// What CreateListFromArrayLike has collected (ECMA-262, 7.3.19): values of all types, or property keys.
#[derive(Drop)]
pub enum Collected {
    Values(Values),
    Keys(KeyList),
}

/// The operands of an abstract operation.
#[derive(Clone, Copy)]
pub enum Operands {
    One(Value),
    Two(Value, Value),
    Three(Value, Value, Value),
    /// No operation has so many.
    OtherCount,
}

/// Who is called.
#[derive(Clone, Copy)]
pub enum Callee {
    /// the built-in function of this row
    Row(u32),
    /// a function whose algorithm stands in another crate
    Elsewhere,
    NoFunction,
}
