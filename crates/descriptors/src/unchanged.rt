//! Whether each field that is wanted is there already (10.1.6.3).

ghost use Rattle.std.specs.Prelude.{◌≡◌};
ghost use Rattle.std.specs.Bool.{beq};
ghost use Rattle.property_keys.specs.Values.{same_value};
ghost use Rattle.descriptors.specs.Sameness.{stands};
ghost use Rattle.descriptors.specs.Validation as validation;

use crate::{Complete, Descriptor, from_complete};
use property_keys::{Value, same_value};

/// Whether each wanted field stands there with the same value.
pub(crate) fn changes_nothing(wanted: &Descriptor, current: &Complete) -> bool
    ensures { result ≡ validation.changes_nothing wanted.now current.now }
{
    let here = from_complete(current);
    value_stands(wanted.value, here.value)
        && flag_stands(wanted.writable, here.writable)
        && value_stands(wanted.get, here.get)
        && value_stands(wanted.set, here.set)
        && flag_stands(wanted.enumerable, here.enumerable)
        && flag_stands(wanted.configurable, here.configurable)
}

/// Whether a value is not wanted, or stands there.
fn value_stands(wanted: Option<Value>, here: Option<Value>) -> bool
    ensures { result ≡ stands same_value wanted here }
{
    match (wanted, here) {
        (None, _) => true,
        (Some(_), None) => false,
        (Some(value), Some(stored)) => same_value(value, stored),
    }
}

/// Whether a flag is not wanted, or stands there.
fn flag_stands(wanted: Option<bool>, here: Option<bool>) -> bool
    ensures { result ≡ stands beq wanted here }
{
    match (wanted, here) {
        (None, _) => true,
        (Some(_), None) => false,
        (Some(flag), Some(stored)) => flag == stored,
    }
}
