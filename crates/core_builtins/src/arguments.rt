//! Arguments and receivers of the built-in functions.

ghost use Rattle.std.specs.Prelude.{◌≡◌};
ghost use Rattle.es_model.specs.Known.{AreKnown, IfThere, IsKnown};
ghost use Rattle.es_model.specs.World.{Lists, World};
ghost use Rattle.object_heap.specs.Stands.{StandsFor};
ghost use Rattle.core_builtins.specs.Answers.{first_given, first_of, inner_of, inner_value, second_of};

use es_model::{ObjectKind, Values};
use object_heap::Heap;
use property_keys::Value;

/// The first argument, and undefined where none is given.
pub(crate) fn first_of(arguments: &Values) -> Value
    ensures value { result ≡ first_of arguments.now }
    ensures known { (l : Lists) → AreKnown l arguments.now → IsKnown l result }
{
    match arguments.len() {
        0 => Value::Undefined,
        _ => *arguments.at(0),
    }
}

/// The first argument, if one is given.
pub(crate) fn first_given(arguments: &Values) -> Option<Value>
    ensures value { result ≡ first_given arguments.now }
    ensures known { (l : Lists) → AreKnown l arguments.now → IfThere (IsKnown l) result }
{
    match arguments.len() {
        0 => None,
        _ => Some(*arguments.at(0)),
    }
}

/// The second argument, and undefined where it is not given.
pub(crate) fn second_of(arguments: &Values) -> Value
    ensures value { result ≡ second_of arguments.now }
    ensures known { (l : Lists) → AreKnown l arguments.now → IsKnown l result }
{
    match arguments.len() {
        0 | 1 => Value::Undefined,
        _ => *arguments.at(1),
    }
}

/// The value that a receiver is, or that it holds in the inner slot of a Number, Boolean or Symbol object.
pub(crate) fn inner_value(heap: &Heap, this: Value) -> Value
    ensures { (w : World) → StandsFor heap.now w → result ≡ inner_value w.lists this }
{
    match this {
        Value::Object(object) => inner_of(heap.kind(object), Value::Object(object)),
        Value::Undefined
        | Value::Null
        | Value::Bool(_)
        | Value::Whole(_)
        | Value::Text(_)
        | Value::Symbol(_) => this,
    }
}

fn inner_of(kind: &ObjectKind, this: Value) -> Value
    ensures { result ≡ inner_of kind.now this }
{
    match kind {
        ObjectKind::Wrapper(value) => *value,
        ObjectKind::Ordinary
        | ObjectKind::Function { .. }
        | ObjectKind::Builtin { .. }
        | ObjectKind::Array
        | ObjectKind::Text(_)
        | ObjectKind::Arguments { .. }
        | ObjectKind::Error
        | ObjectKind::Proxy { .. } => this,
    }
}
