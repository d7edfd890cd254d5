//! The steps of the tests, with what is to be seen of each.

mod changing;
mod making;
mod unmapping;

use super::seen::Seen;
use super::steps::{Key, Step};
use property_keys::ObjectId;

pub(crate) struct Row(pub(crate) Step, pub(crate) Seen);

/// How many turns each path has.
pub(crate) const TURNS: u64 = 3;

/// The first object that a path makes.
const ARGUMENTS: ObjectId = ObjectId(41);

/// %Object.prototype%, in which arguments objects stand.
const OBJECT_PROTOTYPE: ObjectId = ObjectId(2);

/// The function whose arguments they are: %Object% does for it.
const FUNCTION: ObjectId = ObjectId(1);

/// %ThrowTypeError%
const THROWER: ObjectId = ObjectId(26);

const ZERO: Key = Key::Index(0);

const ONE: Key = Key::Index(1);

const LENGTH: Key = Key::Name("length");

const CALLEE: Key = Key::Name("callee");

/// Three true flags: writable, enumerable, configurable.
const PLAIN: [bool; 3] = [true, true, true];

/// Writable and configurable.
const HIDDEN: [bool; 3] = [true, false, true];

/// How many paths there are.
pub(crate) const PATHS: usize = 12;

pub(crate) fn numbered(number: usize) -> &'static [Row] {
    match number {
        0 => &making::MAPPED,
        1 => &making::FEWER,
        2 => &making::UNMAPPED,
        3 => &making::NONE,
        4 => &changing::BOTH_WAYS,
        5 => &changing::OTHERS,
        6 => &changing::REFUSED,
        7 => &unmapping::DELETED,
        8 => &unmapping::ACCESSOR,
        9 => &unmapping::NOT_WRITABLE,
        10 => &unmapping::VALUE_NOT_WRITABLE,
        _ => &unmapping::FROZEN,
    }
}
