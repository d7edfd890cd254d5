//! The steps of the tests, with what is to be seen of each.

mod booleans;
mod error_texts;
mod errors;
mod functions;
mod numbers;
mod symbols;

use super::seen::Seen;
use super::steps::Step;
use property_keys::Value;

pub(crate) struct Row(pub(crate) Step, pub(crate) Seen);

/// What is thrown.
const FIVE: Value = Value::Whole(5);

/// How many paths there are.
pub(crate) const PATHS: usize = 16;

pub(crate) fn numbered(number: usize) -> &'static [Row] {
    match number {
        0 => &booleans::CALLED,
        1 => &booleans::CONSTRUCTED,
        2 => &booleans::PROTOTYPE,
        3 => &functions::CALLS,
        4 => &functions::APPLIES,
        5 => &functions::OTHERS,
        6 => &symbols::CALLED,
        7 => &symbols::PROTOTYPE,
        8 => &numbers::CALLED,
        9 => &numbers::CONSTRUCTED,
        10 => &errors::PLAIN,
        11 => &errors::CAUSES,
        12 => &errors::THROWS,
        13 => &numbers::RADICES,
        14 => &functions::INSTANCES,
        _ => &error_texts::TEXTS,
    }
}
