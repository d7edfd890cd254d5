//! CompletePropertyDescriptor (6.2.6.6), and the descriptor of a property (6.2.6.4).

ghost use Rattle.std.specs.Prelude.{◌≡◌, IsTrue};
ghost use Rattle.descriptors.specs.Kinds.{is_sound};
ghost use Rattle.descriptors.specs.Completion as completion;
ghost use Rattle.descriptors.specs.Completion.{completed, fields_of, value_of_function};
ghost use Rattle.descriptors.specs.Validation as validation;

use crate::{Complete, Descriptor};
use property_keys::{Attributes, ObjectId, Value};

/// The flags of a data property for which none is asked.
const ALL_FALSE: Attributes = Attributes {
    writable: false,
    enumerable: false,
    configurable: false,
};

/// The property that a definition makes where there was none (CompletePropertyDescriptor, ECMA-262, 6.2.6.6).
///
/// An absent field becomes Undefined or false. The property is an accessor exactly where `get` or `set` is present.
pub fn complete(wanted: &Descriptor) -> Complete
    ensures { result ≡ completed wanted.now }
{
    if wanted.is_accessor() {
        accessor_or(wanted, None, None, false, false)
    } else {
        stored_or(wanted, Value::Undefined, ALL_FALSE)
    }
}

/// The descriptor of a property (OrdinaryGetOwnProperty, ECMA-262, 10.1.5.1).
///
/// It has every field of the property's kind, and no other; to complete it gives the property back.
pub fn from_complete(property: &Complete) -> Descriptor
    ensures fields { result ≡ fields_of property.now }
    ensures sound { IsTrue (is_sound result) }
    ensures whole { completed result ≡ property.now }
{
    match *property {
        Complete::Stored { value, attributes } => Descriptor {
            value: Some(value),
            writable: Some(attributes.writable),
            get: None,
            set: None,
            enumerable: Some(attributes.enumerable),
            configurable: Some(attributes.configurable),
        },
        Complete::Accessor {
            get,
            set,
            enumerable,
            configurable,
        } => Descriptor {
            value: None,
            writable: None,
            get: Some(function_value(get)),
            set: Some(function_value(set)),
            enumerable: Some(enumerable),
            configurable: Some(configurable),
        },
    }
}

/// The property that a definition makes of the one that stands there, if it is not refused.
///
/// At a change of kind only `enumerable` and `configurable` carry over.
pub(crate) fn applied(wanted: &Descriptor, current: &Complete) -> Complete
    ensures { result ≡ validation.applied wanted.now current.now }
{
    match *current {
        Complete::Stored { value, attributes } => {
            if wanted.is_accessor() {
                let Attributes {
                    enumerable,
                    configurable,
                    ..
                } = attributes;
                accessor_or(wanted, None, None, enumerable, configurable)
            } else {
                stored_or(wanted, value, attributes)
            }
        }
        Complete::Accessor {
            get,
            set,
            enumerable,
            configurable,
        } => {
            if wanted.is_data() {
                let attributes = Attributes {
                    enumerable,
                    configurable,
                    ..ALL_FALSE
                };
                stored_or(wanted, Value::Undefined, attributes)
            } else {
                accessor_or(wanted, get, set, enumerable, configurable)
            }
        }
    }
}

/// A getter or setter as a value: Undefined where there is none.
pub(crate) fn function_value(function: Option<ObjectId>) -> Value
    ensures { result ≡ value_of_function function }
{
    match function {
        Some(id) => Value::Object(id),
        None => Value::Undefined,
    }
}

/// A data property: each field is the wanted one, or else the given one.
fn stored_or(wanted: &Descriptor, value: Value, given: Attributes) -> Complete
    ensures { result ≡ completion.stored_or wanted.now value given }
{
    Complete::Stored {
        value: wanted.value.unwrap_or(value),
        attributes: Attributes {
            writable: wanted.writable.unwrap_or(given.writable),
            enumerable: wanted.enumerable.unwrap_or(given.enumerable),
            configurable: wanted.configurable.unwrap_or(given.configurable),
        },
    }
}

/// An accessor property: each field is the wanted one, or else the given one.
fn accessor_or(
    wanted: &Descriptor,
    get: Option<ObjectId>,
    set: Option<ObjectId>,
    enumerable: bool,
    configurable: bool,
) -> Complete
    ensures { result ≡ completion.accessor_or wanted.now get set enumerable configurable }
{
    Complete::Accessor {
        get: function_or(wanted.get, get),
        set: function_or(wanted.set, set),
        enumerable: wanted.enumerable.unwrap_or(enumerable),
        configurable: wanted.configurable.unwrap_or(configurable),
    }
}

/// The wanted getter or setter, of which Undefined is none; where none is wanted, the given one.
fn function_or(wanted: Option<Value>, given: Option<ObjectId>) -> Option<ObjectId>
    ensures { result ≡ completion.function_or wanted given }
{
    match wanted {
        Some(Value::Object(id)) => Some(id),
        Some(_) => None,
        None => given,
    }
}
