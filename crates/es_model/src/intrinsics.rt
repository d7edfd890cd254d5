//! The start objects by name (6.1.7.4).

ghost use Rattle.std.specs.Prelude.{◌≡◌};
ghost use Rattle.es_model.specs.StartObjects.{class_place, error_place, object_of};

use crate::{BuiltinFunction, ErrorKind};
use property_keys::ObjectId;

/// What has a constructor and a prototype object among the start objects.
#[derive(Clone, Copy, Debug, PartialEq, Eq)]
pub enum Class {
    Object,
    Function,
    Array,
    String,
    Number,
    Boolean,
    Symbol,
    Error(ErrorKind),
}

/// The objects that are there before a script runs (ECMA-262, 6.1.7.4).
#[derive(Clone, Copy, Debug, PartialEq, Eq)]
pub enum Intrinsic {
    /// The global object.
    Global,
    Constructor(Class),
    Prototype(Class),
    Proxy,
    ThrowTypeError,
    Reflect,
    /// The function that prints a line.
    Print,
    Function(BuiltinFunction),
}

impl Intrinsic {
    /// Its number: the start objects are the first in the list of objects.
    pub fn object(self) -> ObjectId
        ensures { result ≡ object_of self }
    {
        match self {
            Intrinsic::Global => ObjectId(0),
            Intrinsic::Constructor(class) => ObjectId(1 + 2 * class.place()),
            Intrinsic::Prototype(class) => ObjectId(2 + 2 * class.place()),
            Intrinsic::Proxy => ObjectId(25),
            Intrinsic::ThrowTypeError => ObjectId(26),
            Intrinsic::Reflect => ObjectId(27),
            Intrinsic::Print => ObjectId(28),
            Intrinsic::Function(function) => ObjectId(29 + function.place()),
        }
    }
}

impl Class {
    /// Its place among the classes.
    pub(crate) fn place(self) -> u32
        ensures { result ≡ class_place self }
    {
        match self {
            Class::Object => 0,
            Class::Function => 1,
            Class::Array => 2,
            Class::String => 3,
            Class::Number => 4,
            Class::Boolean => 5,
            Class::Symbol => 6,
            Class::Error(kind) => 7 + place_of_error(kind),
        }
    }
}

fn place_of_error(kind: ErrorKind) -> u32
    ensures { result ≡ error_place kind }
{
    match kind {
        ErrorKind::Error => 0,
        ErrorKind::TypeError => 1,
        ErrorKind::RangeError => 2,
        ErrorKind::ReferenceError => 3,
        ErrorKind::SyntaxError => 4,
    }
}
