//! Property descriptors with fields that may be absent (6.2.6).

ghost use Rattle.std.specs.Prelude.{◌≡◌, IsTrue};
ghost use Rattle.descriptors.specs.Kinds.{has_functions, is_of_both_kinds};

use property_keys::Value;

/// What is wanted of a property: each field may be absent (ECMA-262, 6.2.6).
///
/// In a sound one `get` and `set`, where they are present, are Undefined or an Object, and it is not mixed ([`is_mixed`]). Requests and answers have no other.
#[derive(Clone, Copy, Debug, Default, PartialEq, Eq)]
pub struct Descriptor {
    pub value: Option<Value>,
    pub writable: Option<bool>,
    pub get: Option<Value>,
    pub set: Option<Value>,
    pub enumerable: Option<bool>,
    pub configurable: Option<bool>,
}

impl Descriptor {
    ghost use Rattle.descriptors.specs.Kinds.{is_accessor_descriptor, is_data_descriptor, is_without_fields};

    /// Whether it has a field of an accessor property (6.2.6.1).
    pub(crate) fn is_accessor(&self) -> bool
        ensures { result ≡ is_accessor_descriptor self.now }
    {
        self.get.is_some() || self.set.is_some()
    }

    /// Whether it has a field of a data property (6.2.6.2).
    pub(crate) fn is_data(&self) -> bool
        ensures { result ≡ is_data_descriptor self.now }
    {
        self.value.is_some() || self.writable.is_some()
    }

    /// Whether it has no field at all.
    pub(crate) fn is_without_fields(&self) -> bool
        ensures { result ≡ is_without_fields self.now }
    {
        !self.is_accessor()
            && !self.is_data()
            && self.enumerable.is_none()
            && self.configurable.is_none()
    }
}

/// Whether a field of `value`, `writable` and a field of `get`, `set` are both present (ECMA-262, 6.2.6.5).
///
/// No property is of both kinds, so ToPropertyDescriptor throws where this is true. The other calls answer for such a descriptor too, as their definitions do.
pub fn is_mixed(wanted: &Descriptor) -> bool
    requires { IsTrue (has_functions wanted.now) }
    ensures { result ≡ is_of_both_kinds wanted.now }
{
    wanted.is_accessor() && wanted.is_data()
}
