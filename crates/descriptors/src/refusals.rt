//! Where ValidateAndApplyPropertyDescriptor (10.1.6.3) refuses.

ghost use Rattle.std.specs.Prelude.{◌≡◌, ◌||◌, false, unwrap_or};
ghost use Rattle.std.specs.Bool.{beq};
ghost use Rattle.property_keys.specs.Values.{same_value};
ghost use Rattle.descriptors.specs.Sameness.{differs};
ghost use Rattle.descriptors.specs.Validation as validation;

use crate::completing::function_value;
use crate::{Complete, Descriptor};
use property_keys::{Value, same_value};

/// Whether a property that is not configurable is to change in a way that it may not (10.1.6.3, step 5).
pub(crate) fn is_refused(wanted: &Descriptor, current: &Complete) -> bool
    ensures { result ≡ validation.is_refused wanted.now current.now }
{
    if current.configurable() {
        return false;
    }
    if wanted.configurable == Some(true) || flag_differs(wanted.enumerable, current.enumerable()) {
        return true;
    }
    match *current {
        Complete::Stored { value, attributes } => {
            wanted.is_accessor() || (!attributes.writable && is_fixed_data_changed(wanted, value))
        }
        Complete::Accessor { get, set, .. } => {
            wanted.is_data()
                || value_differs(wanted.get, function_value(get))
                || value_differs(wanted.set, function_value(set))
        }
    }
}

/// Whether a data property that is neither configurable nor writable is to become writable or to get another value.
fn is_fixed_data_changed(wanted: &Descriptor, value: Value) -> bool
    ensures { result ≡ (unwrap_or wanted.now.writable false || differs same_value wanted.now.value value) }
{
    wanted.writable == Some(true) || value_differs(wanted.value, value)
}

/// Whether a value is wanted and is not the one that stands there.
fn value_differs(wanted: Option<Value>, here: Value) -> bool
    ensures { result ≡ differs same_value wanted here }
{
    match wanted {
        Some(value) => !same_value(value, here),
        None => false,
    }
}

/// Whether a flag is wanted and is not the one that stands there.
fn flag_differs(wanted: Option<bool>, here: bool) -> bool
    ensures { result ≡ differs beq wanted here }
{
    match wanted {
        Some(flag) => flag != here,
        None => false,
    }
}
