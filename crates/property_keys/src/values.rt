//! Values, and when two are the same.

ghost use Rattle.std.specs.Prelude.{◌≡◌, ◌↔◌, IsTrue};
ghost use Rattle.property_keys.specs.Values.{same_value};

use crate::{ObjectId, SymbolId, TextId};

/// The greatest whole number, 2^53 - 1 (ECMA-262, 21.1.2.6).
pub const MOST_WHOLE: i64 = (1 << 53) - 1;

/// A value of the language (ECMA-262, 6.1). Texts, Symbols and objects are named by their numbers.
///
/// A `Whole` is from -(2^53 - 1) to 2^53 - 1, and there is no negative zero.
#[derive(Clone, Copy, Debug, PartialEq, Eq)]
pub enum Value {
    Undefined,
    Null,
    Bool(bool),
    Whole(i64),
    Text(TextId),
    Symbol(SymbolId),
    Object(ObjectId),
}

/// SameValue, SameValueZero and IsStrictlyEqual (ECMA-262, 7.2.10, 7.2.11, 7.2.15), which are one without NaN and -0.
///
/// Texts are compared by their numbers, so both must be of one table.
pub fn same_value(a: Value, b: Value) -> bool
    ensures value { result ≡ same_value a b }
    ensures equal { IsTrue result ↔ (a ≡ b) }
{
    a == b
}
