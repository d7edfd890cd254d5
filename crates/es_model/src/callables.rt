//! Which objects are called and constructed, and what GetMethod finds (ECMA-262, 7.2.3, 7.2.4, 7.3.10).

ghost use Rattle.std.specs.Prelude.{◌≡◌};
ghost use Rattle.es_model.specs.programs.Testing.{is_callable_kind, is_constructor_kind};

use crate::ObjectKind;
use property_keys::ObjectId;

/// What GetMethod finds under a key (ECMA-262, 7.3.10).
#[derive(Clone, Copy, Debug, PartialEq, Eq)]
pub enum Method {
    /// undefined or null
    Absent,
    Function(ObjectId),
    /// another value, which cannot be called
    Other,
}

impl ObjectKind {
    /// Whether an object of this kind has [[Call]] (ECMA-262, 7.2.3).
    pub fn is_callable(&self) -> bool
        ensures { result ≡ is_callable_kind self.now }
    {
        match self {
            ObjectKind::Function { .. } | ObjectKind::Builtin { .. } => true,
            ObjectKind::Proxy { callable, .. } => *callable,
            ObjectKind::Ordinary
            | ObjectKind::Array
            | ObjectKind::Text(_)
            | ObjectKind::Wrapper(_)
            | ObjectKind::Arguments { .. }
            | ObjectKind::Error => false,
        }
    }

    /// Whether an object of this kind has [[Construct]] (ECMA-262, 7.2.4).
    pub fn is_constructor(&self) -> bool
        ensures { result ≡ is_constructor_kind self.now }
    {
        match self {
            ObjectKind::Function { constructor, .. }
            | ObjectKind::Builtin { constructor, .. }
            | ObjectKind::Proxy { constructor, .. } => *constructor,
            ObjectKind::Ordinary
            | ObjectKind::Array
            | ObjectKind::Text(_)
            | ObjectKind::Wrapper(_)
            | ObjectKind::Arguments { .. }
            | ObjectKind::Error => false,
        }
    }
}
