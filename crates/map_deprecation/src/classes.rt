//! The classes of values, by the representation that a field needs for them.

ghost use Rattle.std.specs.Prelude.{◌≡◌, ◌≢◌};
ghost use Rattle.map_deprecation.specs.Classes.{value_class, of_class, is_at_or_above, IsLeastAbove};

use map_store::Representation;
use property_keys::Value;

/// What a value needs of the representation of its field.
#[derive(Clone, Copy, Debug, PartialEq, Eq)]
pub enum Class {
    /// A whole number from -2^31 to 2^31 - 1.
    Smi,
    /// Another whole number.
    Whole,
    /// An object.
    Ref,
    /// Any other value.
    Tagged,
}

/// The class of a value.
pub fn class_of(value: Value) -> Class
    ensures { result ≡ value_class value }
{
    match value {
        Value::Whole(n) if -0x8000_0000 <= n && n <= 0x7fff_ffff => Class::Smi,
        Value::Whole(_) => Class::Whole,
        Value::Object(_) => Class::Ref,
        _ => Class::Tagged,
    }
}

/// Whether a field of this representation holds each value of the class: whether it is at or above the class.
pub fn takes(representation: Representation, class: Class) -> bool
    ensures { result ≡ is_at_or_above representation (of_class class) }
{
    match (representation, class) {
        (Representation::Tagged, _) => true,
        (Representation::Smi, Class::Smi) => true,
        (Representation::Whole, Class::Smi | Class::Whole) => true,
        (Representation::Ref, Class::Ref) => true,
        _ => false,
    }
}

/// The least representation that holds what this one holds and each value of the class.
pub fn join(representation: Representation, class: Class) -> Representation
    requires { representation ≢ Representation.Pair }
    ensures { IsLeastAbove representation (of_class class) result }
{
    match (representation, class) {
        (Representation::None | Representation::Smi, Class::Smi) => Representation::Smi,
        (Representation::None | Representation::Smi, Class::Whole) => Representation::Whole,
        (Representation::Whole, Class::Smi | Class::Whole) => Representation::Whole,
        (Representation::None | Representation::Ref, Class::Ref) => Representation::Ref,
        _ => Representation::Tagged,
    }
}
