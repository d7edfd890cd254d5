//! A property with all of its fields.

ghost use Rattle.std.specs.Prelude.{◌≡◌};

use property_keys::{Attributes, ObjectId, Value};

/// A whole property (ECMA-262, 6.1.7.1): a data property, or an accessor property whose functions may be undefined.
#[derive(Clone, Copy, Debug, PartialEq, Eq)]
pub enum Complete {
    Stored {
        value: Value,
        attributes: Attributes,
    },
    Accessor {
        get: Option<ObjectId>,
        set: Option<ObjectId>,
        enumerable: bool,
        configurable: bool,
    },
}

impl Complete {
    ghost use Rattle.descriptors.specs.Validation.{is_enumerable, is_configurable};

    pub(crate) fn enumerable(&self) -> bool
        ensures { result ≡ is_enumerable self.now }
    {
        match *self {
            Complete::Stored { attributes, .. } => attributes.enumerable,
            Complete::Accessor { enumerable, .. } => enumerable,
        }
    }

    pub(crate) fn configurable(&self) -> bool
        ensures { result ≡ is_configurable self.now }
    {
        match *self {
            Complete::Stored { attributes, .. } => attributes.configurable,
            Complete::Accessor { configurable, .. } => configurable,
        }
    }
}
