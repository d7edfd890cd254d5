//! The kinds of elements, and the classes of what a word stands for.

ghost use Rattle.std.specs.Prelude.{◌≡◌, MatchOption};

use property_keys::Value;

/// How the elements of an object are kept, and which values they take: a store of small numbers, of whole numbers or of any values, or a dictionary. A
/// store is packed until an index was absent below a present one, and then holey for good.
#[derive(Clone, Copy, PartialEq, Eq)]
pub enum ElementsKind {
    PackedSmi,
    PackedWhole,
    PackedTagged,
    HoleySmi,
    HoleyWhole,
    HoleyTagged,
    Dictionary,
}

/// What the words of a store stand for.
#[derive(Clone, Copy)]
pub(crate) enum Class {
    Smi,
    Whole,
    Tagged,
}

impl Class {
    ghost use Rattle.elements_kinds.specs.Kinds.{class_of, kind_of};
    ghost use Rattle.elements_kinds.specs.Steps.{Admits, Widens};

    /// The class of a value.
    pub(crate) fn of(value: Value) -> Class
        ensures { result ≡ class_of value }
    {
        match value {
            Value::Whole(n) => {
                if n >= -0x8000_0000 && n <= 0x7FFF_FFFF {
                    Class::Smi
                } else {
                    Class::Whole
                }
            }
            _ => Class::Tagged,
        }
    }

    /// The least class above both, where it is another.
    pub(crate) fn wider(self, other: Class) -> Option<Class>
        ensures { MatchOption result (Admits self other) (Widens self other) }
    {
        match (self, other) {
            (Class::Smi, Class::Whole) => Some(Class::Whole),
            (Class::Smi, Class::Tagged) => Some(Class::Tagged),
            (Class::Whole, Class::Tagged) => Some(Class::Tagged),
            (Class::Smi, Class::Smi) => None,
            (Class::Whole, Class::Smi) => None,
            (Class::Whole, Class::Whole) => None,
            (Class::Tagged, _) => None,
        }
    }

    /// The kind of a store of this class.
    pub(crate) fn kind(self, holey: bool) -> ElementsKind
        ensures { result ≡ kind_of self holey }
    {
        match (self, holey) {
            (Class::Smi, false) => ElementsKind::PackedSmi,
            (Class::Smi, true) => ElementsKind::HoleySmi,
            (Class::Whole, false) => ElementsKind::PackedWhole,
            (Class::Whole, true) => ElementsKind::HoleyWhole,
            (Class::Tagged, false) => ElementsKind::PackedTagged,
            (Class::Tagged, true) => ElementsKind::HoleyTagged,
        }
    }
}
