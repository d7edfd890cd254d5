//! The objects, texts and Symbols of the rows by name. A new start object or start text moves the numbers here, and no row.

use property_keys::{ObjectId, SymbolId, TextId};

// ---- start objects

pub(crate) const OBJECT: ObjectId = ObjectId(1);

pub(crate) const OBJECT_PROTOTYPE: ObjectId = ObjectId(2);

pub(crate) const FUNCTION: ObjectId = ObjectId(3);

pub(crate) const FUNCTION_PROTOTYPE: ObjectId = ObjectId(4);

pub(crate) const ARRAY_PROTOTYPE: ObjectId = ObjectId(6);

pub(crate) const PRINT_FUNCTION: ObjectId = ObjectId(28);

/// How many start objects there are: what a test makes first has this number.
const START_OBJECTS: u32 = 41;

pub(crate) const FIRST_OBJECT: ObjectId = ObjectId(START_OBJECTS);

pub(crate) const SECOND_OBJECT: ObjectId = ObjectId(START_OBJECTS + 1);

pub(crate) const THIRD_OBJECT: ObjectId = ObjectId(START_OBJECTS + 2);

// ---- Symbols

pub(crate) const HAS_INSTANCE: SymbolId = SymbolId(0);

pub(crate) const TO_PRIMITIVE: SymbolId = SymbolId(1);

pub(crate) const TO_STRING_TAG: SymbolId = SymbolId(2);

// ---- start texts

/// `length`
pub(crate) const LENGTH: TextId = TextId(0);
/// `prototype`
pub(crate) const PROTOTYPE: TextId = TextId(2);
/// `constructor`
pub(crate) const CONSTRUCTOR: TextId = TextId(3);
/// The empty text.
pub(crate) const EMPTY: TextId = TextId(5);
/// `undefined`
pub(crate) const UNDEFINED: TextId = TextId(7);
/// `Symbol.hasInstance`, the description of that Symbol.
pub(crate) const HAS_INSTANCE_DESCRIPTION: TextId = TextId(13);

/// `toString`
pub(crate) const TO_STRING: TextId = TextId(31);
/// `valueOf`
pub(crate) const VALUE_OF: TextId = TextId(32);

/// How many start texts there are: what is new first in a test has this number.
const START_TEXTS: u32 = 37;

pub(crate) const FIRST_TEXT: TextId = TextId(START_TEXTS);

pub(crate) const SECOND_TEXT: TextId = TextId(START_TEXTS + 1);

pub(crate) const THIRD_TEXT: TextId = TextId(START_TEXTS + 2);

pub(crate) const FOURTH_TEXT: TextId = TextId(START_TEXTS + 3);

pub(crate) const FIFTH_TEXT: TextId = TextId(START_TEXTS + 4);

pub(crate) const SIXTH_TEXT: TextId = TextId(START_TEXTS + 5);

pub(crate) const SEVENTH_TEXT: TextId = TextId(START_TEXTS + 6);
