//! Kinds and prototypes of the start objects.

ghost use Rattle.std.specs.Prelude.{◌≡◌, option_map, slice_get};
ghost use Rattle.es_model.specs.StartObjects.{object_of};
ghost use Rattle.es_model.specs.StartTable.{
  builtin,
  constructor_parent,
  prototype_kind,
  prototype_parent,
  start_extensible,
  start_kind,
  start_parent,
};
ghost use Rattle.es_model.specs.StartWorld.{all_intrinsics};

use crate::nth::nth;
use crate::{BuiltinFunction, Class, ErrorKind, Intrinsic, ObjectKind, StartText};
use property_keys::{ObjectId, Value};

impl Intrinsic {
    /// What the object is at the start.
    pub fn kind(self) -> ObjectKind
        ensures { result ≡ start_kind self }
    {
        match self {
            Intrinsic::Global | Intrinsic::Reflect => ObjectKind::Ordinary,
            Intrinsic::Prototype(class) => kind_of_prototype(class),
            Intrinsic::Constructor(_) | Intrinsic::Proxy => self.function(true),
            Intrinsic::ThrowTypeError | Intrinsic::Print | Intrinsic::Function(_) => self.function(
                false,
            ),
        }
    }

    /// A built-in function. Its row is the object's number.
    fn function(self, constructor: bool) -> ObjectKind
        ensures { result ≡ builtin self constructor }
    {
        ObjectKind::Builtin {
            row: self.object().0,
            constructor,
            proxy: None,
        }
    }

    /// Its prototype at the start.
    pub fn proto(self) -> Option<ObjectId>
        ensures { result ≡ option_map object_of (start_parent self) }
    {
        self.parent().map(Intrinsic::object)
    }

    fn parent(self) -> Option<Intrinsic>
        ensures { result ≡ start_parent self }
    {
        match self {
            Intrinsic::Global | Intrinsic::Reflect => Some(Intrinsic::Prototype(Class::Object)),
            Intrinsic::Constructor(class) => Some(parent_of_constructor(class)),
            Intrinsic::Prototype(class) => parent_of_prototype(class),
            Intrinsic::Proxy
            | Intrinsic::ThrowTypeError
            | Intrinsic::Print
            | Intrinsic::Function(_) => { Some(Intrinsic::Prototype(Class::Function)) }
        }
    }

    /// Whether it is extensible at the start.
    pub fn extensible(self) -> bool
        ensures { result ≡ start_extensible self }
    {
        match self {
            Intrinsic::ThrowTypeError => false,
            _ => true,
        }
    }
}

fn kind_of_prototype(class: Class) -> ObjectKind
    ensures { result ≡ prototype_kind class }
{
    match class {
        Class::Function => Intrinsic::Prototype(class).function(false),
        Class::Array => ObjectKind::Array,
        Class::String => ObjectKind::Text(StartText::Empty.number()),
        Class::Number => ObjectKind::Wrapper(Value::Whole(0)),
        Class::Boolean => ObjectKind::Wrapper(Value::Bool(false)),
        Class::Object | Class::Symbol | Class::Error(_) => ObjectKind::Ordinary,
    }
}

fn parent_of_constructor(class: Class) -> Intrinsic
    ensures { result ≡ constructor_parent class }
{
    match class {
        Class::Error(
            ErrorKind::TypeError
            | ErrorKind::RangeError
            | ErrorKind::ReferenceError
            | ErrorKind::SyntaxError,
        ) => Intrinsic::Constructor(Class::Error(ErrorKind::Error)),
        _ => Intrinsic::Prototype(Class::Function),
    }
}

fn parent_of_prototype(class: Class) -> Option<Intrinsic>
    ensures { result ≡ prototype_parent class }
{
    match class {
        Class::Object => None,
        Class::Error(
            ErrorKind::TypeError
            | ErrorKind::RangeError
            | ErrorKind::ReferenceError
            | ErrorKind::SyntaxError,
        ) => Some(Intrinsic::Prototype(Class::Error(ErrorKind::Error))),
        _ => Some(Intrinsic::Prototype(Class::Object)),
    }
}

/// The n-th start object, where there is one.
pub fn start_intrinsic(n: usize) -> Option<Intrinsic>
    ensures { result ≡ slice_get all_intrinsics n }
{
    let all = [
        Intrinsic::Global,
        Intrinsic::Constructor(Class::Object),
        Intrinsic::Prototype(Class::Object),
        Intrinsic::Constructor(Class::Function),
        Intrinsic::Prototype(Class::Function),
        Intrinsic::Constructor(Class::Array),
        Intrinsic::Prototype(Class::Array),
        Intrinsic::Constructor(Class::String),
        Intrinsic::Prototype(Class::String),
        Intrinsic::Constructor(Class::Number),
        Intrinsic::Prototype(Class::Number),
        Intrinsic::Constructor(Class::Boolean),
        Intrinsic::Prototype(Class::Boolean),
        Intrinsic::Constructor(Class::Symbol),
        Intrinsic::Prototype(Class::Symbol),
        Intrinsic::Constructor(Class::Error(ErrorKind::Error)),
        Intrinsic::Prototype(Class::Error(ErrorKind::Error)),
        Intrinsic::Constructor(Class::Error(ErrorKind::TypeError)),
        Intrinsic::Prototype(Class::Error(ErrorKind::TypeError)),
        Intrinsic::Constructor(Class::Error(ErrorKind::RangeError)),
        Intrinsic::Prototype(Class::Error(ErrorKind::RangeError)),
        Intrinsic::Constructor(Class::Error(ErrorKind::ReferenceError)),
        Intrinsic::Prototype(Class::Error(ErrorKind::ReferenceError)),
        Intrinsic::Constructor(Class::Error(ErrorKind::SyntaxError)),
        Intrinsic::Prototype(Class::Error(ErrorKind::SyntaxError)),
        Intrinsic::Proxy,
        Intrinsic::ThrowTypeError,
        Intrinsic::Reflect,
        Intrinsic::Print,
        Intrinsic::Function(BuiltinFunction::FunctionCall),
        Intrinsic::Function(BuiltinFunction::FunctionApply),
        Intrinsic::Function(BuiltinFunction::FunctionHasInstance),
        Intrinsic::Function(BuiltinFunction::NumberToString),
        Intrinsic::Function(BuiltinFunction::NumberValueOf),
        Intrinsic::Function(BuiltinFunction::BooleanToString),
        Intrinsic::Function(BuiltinFunction::BooleanValueOf),
        Intrinsic::Function(BuiltinFunction::SymbolToString),
        Intrinsic::Function(BuiltinFunction::SymbolValueOf),
        Intrinsic::Function(BuiltinFunction::SymbolDescription),
        Intrinsic::Function(BuiltinFunction::SymbolToPrimitive),
        Intrinsic::Function(BuiltinFunction::ErrorToString),
    ];
    nth(&all, n)
}
