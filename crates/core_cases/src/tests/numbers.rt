//! The objects, texts and Symbols of the rows by name. A new start object or start text moves the numbers here, and no row.

use property_keys::{ObjectId, SymbolId, TextId};

// ---- start objects

pub(crate) const OBJECT: ObjectId = ObjectId(1);

pub(crate) const OBJECT_PROTOTYPE: ObjectId = ObjectId(2);

pub(crate) const FUNCTION: ObjectId = ObjectId(3);

pub(crate) const FUNCTION_PROTOTYPE: ObjectId = ObjectId(4);

pub(crate) const NUMBER: ObjectId = ObjectId(9);

pub(crate) const NUMBER_PROTOTYPE: ObjectId = ObjectId(10);

pub(crate) const BOOLEAN: ObjectId = ObjectId(11);

pub(crate) const BOOLEAN_PROTOTYPE: ObjectId = ObjectId(12);

pub(crate) const SYMBOL: ObjectId = ObjectId(13);

pub(crate) const ERROR: ObjectId = ObjectId(15);

pub(crate) const ERROR_PROTOTYPE: ObjectId = ObjectId(16);

pub(crate) const TYPE_ERROR: ObjectId = ObjectId(17);

pub(crate) const TYPE_ERROR_PROTOTYPE: ObjectId = ObjectId(18);

pub(crate) const RANGE_ERROR: ObjectId = ObjectId(19);

pub(crate) const RANGE_ERROR_PROTOTYPE: ObjectId = ObjectId(20);

pub(crate) const THROW_TYPE_ERROR: ObjectId = ObjectId(26);

pub(crate) const CALL: ObjectId = ObjectId(29);

pub(crate) const APPLY: ObjectId = ObjectId(30);

pub(crate) const FUNCTION_HAS_INSTANCE: ObjectId = ObjectId(31);

pub(crate) const NUMBER_TO_STRING: ObjectId = ObjectId(32);

pub(crate) const NUMBER_VALUE_OF: ObjectId = ObjectId(33);

pub(crate) const BOOLEAN_TO_STRING: ObjectId = ObjectId(34);

pub(crate) const BOOLEAN_VALUE_OF: ObjectId = ObjectId(35);

pub(crate) const SYMBOL_TO_STRING: ObjectId = ObjectId(36);

pub(crate) const SYMBOL_VALUE_OF: ObjectId = ObjectId(37);

pub(crate) const SYMBOL_DESCRIPTION: ObjectId = ObjectId(38);

pub(crate) const SYMBOL_TO_PRIMITIVE: ObjectId = ObjectId(39);

pub(crate) const ERROR_TO_STRING: ObjectId = ObjectId(40);

/// How many start objects there are: what a test makes first has this number.
const START_OBJECTS: u32 = 41;

pub(crate) const FIRST_OBJECT: ObjectId = ObjectId(START_OBJECTS);

pub(crate) const SECOND_OBJECT: ObjectId = ObjectId(START_OBJECTS + 1);

// ---- Symbols

pub(crate) const HAS_INSTANCE: SymbolId = SymbolId(0);

/// The first Symbol that a test makes.
pub(crate) const FIRST_SYMBOL: SymbolId = SymbolId(3);

pub(crate) const SECOND_SYMBOL: SymbolId = SymbolId(4);

// ---- texts

pub(crate) const EMPTY: TextId = TextId(5);

/// How many start texts there are: what a test interns first has this number.
const START_TEXTS: u32 = 37;

pub(crate) const FIRST_TEXT: TextId = TextId(START_TEXTS);

pub(crate) const SECOND_TEXT: TextId = TextId(START_TEXTS + 1);
