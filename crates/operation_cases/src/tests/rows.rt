//! The steps of the tests, with what is to be seen of each.

mod calls;
mod comparisons;
mod conversions;
mod fields;
mod instances;
mod lists;
mod primitives;

use super::seen::Seen;
use super::steps::Step;
use crate::tests::numbers::{
    FIFTH_TEXT, FIRST_TEXT, FOURTH_TEXT, SECOND_TEXT, SEVENTH_TEXT, SIXTH_TEXT, THIRD_TEXT,
};
use descriptors::Complete;
use property_keys::{Attributes, Value};

pub(crate) struct Row(pub(crate) Step, pub(crate) Seen);

/// What is thrown.
const FIVE: Value = Value::Whole(5);

const HIDDEN: Attributes = Attributes {
    writable: true,
    enumerable: false,
    configurable: true,
};

const FIRST_MESSAGE: Complete = Complete::Stored {
    value: Value::Text(FIRST_TEXT),
    attributes: HIDDEN,
};

const SECOND_MESSAGE: Complete = Complete::Stored {
    value: Value::Text(SECOND_TEXT),
    attributes: HIDDEN,
};

const THIRD_MESSAGE: Complete = Complete::Stored {
    value: Value::Text(THIRD_TEXT),
    attributes: HIDDEN,
};

const FOURTH_MESSAGE: Complete = Complete::Stored {
    value: Value::Text(FOURTH_TEXT),
    attributes: HIDDEN,
};

const FIFTH_MESSAGE: Complete = Complete::Stored {
    value: Value::Text(FIFTH_TEXT),
    attributes: HIDDEN,
};

const SIXTH_MESSAGE: Complete = Complete::Stored {
    value: Value::Text(SIXTH_TEXT),
    attributes: HIDDEN,
};

const SEVENTH_MESSAGE: Complete = Complete::Stored {
    value: Value::Text(SEVENTH_TEXT),
    attributes: HIDDEN,
};

/// How many paths there are.
pub(crate) const PATHS: usize = 22;

pub(crate) fn numbered(number: usize) -> &'static [Row] {
    match number {
        0 => &primitives::NUMBER_FIRST,
        1 => &primitives::TEXT_FIRST,
        2 => &primitives::OWN_METHOD,
        3 => &primitives::PRIMITIVE_THROWS,
        4 => &conversions::TEXTS,
        5 => &conversions::NUMBERS,
        6 => &conversions::KEYS,
        7 => &comparisons::EQUAL,
        8 => &comparisons::LESS,
        9 => &comparisons::LESS_THROWS,
        10 => &instances::INSTANCE,
        11 => &instances::INSTANCE_THROWS,
        12 => &fields::DESCRIPTOR,
        13 => &fields::ACCESSOR,
        14 => &fields::MIXED,
        15 => &fields::NO_GETTER,
        16 => &lists::LIST,
        17 => &lists::LIST_OF_KEYS,
        18 => &lists::LIST_THROWS,
        19 => &calls::PRINT,
        20 => &instances::ORDINARY,
        _ => &calls::CALLS,
    }
}
