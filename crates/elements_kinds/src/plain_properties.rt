//! The properties that a store can hold: data properties whose three flags are true.

ghost use Rattle.std.specs.Prelude.{◌≡◌, false, MatchOption};
ghost use Rattle.elements_kinds.specs.Properties.{plain};
ghost use Rattle.elements_kinds.specs.Rules.{is_plain};

use descriptors::Complete;
use property_keys::{Attributes, Value};

/// A data property whose three flags are true.
pub(crate) fn plain(value: Value) -> Complete
    ensures { result ≡ plain value }
{
    let attributes = Attributes {
        writable: true,
        enumerable: true,
        configurable: true,
    };
    Complete::Stored { value, attributes }
}

/// The value of a data property whose three flags are true.
pub(crate) fn plain_value(property: Complete) -> Option<Value>
    ensures { MatchOption result (is_plain property ≡ false) (λ value. property ≡ plain value) }
{
    match property {
        Complete::Stored {
            value,
            attributes: Attributes {
                writable: true,
                enumerable: true,
                configurable: true,
            },
        } => Some(value),
        _ => None,
    }
}
