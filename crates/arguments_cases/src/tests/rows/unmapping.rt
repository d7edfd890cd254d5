//! The three ways in which an index is unmapped: its deletion, its redefinition as an accessor, and its redefinition as not writable.

use super::{ARGUMENTS, CALLEE, FUNCTION, HIDDEN, LENGTH, PLAIN, Row, ZERO};
use crate::tests::seen::Seen;
use crate::tests::steps::{Step, Wanted};
use property_keys::Value;

/// Enumerable and configurable.
const SHUT: [bool; 3] = [false, true, true];

/// A deleted index that is written again shares nothing.
pub(crate) static DELETED: [Row; 9] = [
    Row(Step::MakeMapped(FUNCTION, &[1], 1), Seen::Object(ARGUMENTS)),
    Row(Step::Delete(ARGUMENTS, ZERO), Seen::Flag(true)),
    Row(Step::GetOwn(ARGUMENTS, ZERO), Seen::Absent),
    Row(
        Step::Define(ARGUMENTS, ZERO, Wanted::Plain(Value::Whole(9))),
        Seen::Flag(true),
    ),
    Row(Step::Cell(0), Seen::Value(Value::Whole(1))),
    Row(
        Step::SetCell(0, Value::Whole(4)),
        Seen::Value(Value::Whole(4)),
    ),
    Row(Step::Read(ARGUMENTS, ZERO), Seen::Value(Value::Whole(9))),
    Row(
        Step::Write(ARGUMENTS, ZERO, Value::Whole(3)),
        Seen::Flag(true),
    ),
    Row(Step::Cell(0), Seen::Value(Value::Whole(4))),
];

/// An index that is made an accessor, and then a stored property again.
pub(crate) static ACCESSOR: [Row; 8] = [
    Row(Step::MakeMapped(FUNCTION, &[1], 1), Seen::Object(ARGUMENTS)),
    Row(
        Step::Define(ARGUMENTS, ZERO, Wanted::Getter(FUNCTION)),
        Seen::Flag(true),
    ),
    Row(
        Step::GetOwn(ARGUMENTS, ZERO),
        Seen::Accessor(Some(FUNCTION), None, [true, true]),
    ),
    Row(
        Step::Read(ARGUMENTS, ZERO),
        Seen::AsksCall(FUNCTION, ARGUMENTS),
    ),
    Row(
        Step::Write(ARGUMENTS, ZERO, Value::Whole(2)),
        Seen::Flag(false),
    ),
    Row(Step::Cell(0), Seen::Value(Value::Whole(1))),
    Row(
        Step::Define(ARGUMENTS, ZERO, Wanted::Value(Value::Whole(5))),
        Seen::Flag(true),
    ),
    Row(Step::Cell(0), Seen::Value(Value::Whole(1))),
];

/// Not writable with no value: the value of the parameter is the value defined, and not that of the list.
pub(crate) static NOT_WRITABLE: [Row; 7] = [
    Row(Step::MakeMapped(FUNCTION, &[1], 1), Seen::Object(ARGUMENTS)),
    Row(
        Step::SetCell(0, Value::Whole(5)),
        Seen::Value(Value::Whole(5)),
    ),
    Row(
        Step::Define(ARGUMENTS, ZERO, Wanted::NotWritable),
        Seen::Flag(true),
    ),
    Row(
        Step::Own(ARGUMENTS, ZERO),
        Seen::Stored(Value::Whole(5), SHUT),
    ),
    Row(
        Step::SetCell(0, Value::Whole(6)),
        Seen::Value(Value::Whole(6)),
    ),
    Row(
        Step::GetOwn(ARGUMENTS, ZERO),
        Seen::Stored(Value::Whole(5), SHUT),
    ),
    Row(
        Step::Write(ARGUMENTS, ZERO, Value::Whole(7)),
        Seen::Flag(false),
    ),
];

/// Not writable with a value: the value is written to the parameter, and the index is unmapped after that.
pub(crate) static VALUE_NOT_WRITABLE: [Row; 6] = [
    Row(Step::MakeMapped(FUNCTION, &[1], 1), Seen::Object(ARGUMENTS)),
    Row(
        Step::Define(ARGUMENTS, ZERO, Wanted::ValueNotWritable(Value::Whole(3))),
        Seen::Flag(true),
    ),
    Row(Step::Cell(0), Seen::Value(Value::Whole(3))),
    Row(
        Step::SetCell(0, Value::Whole(6)),
        Seen::Value(Value::Whole(6)),
    ),
    Row(
        Step::GetOwn(ARGUMENTS, ZERO),
        Seen::Stored(Value::Whole(3), SHUT),
    ),
    Row(Step::Cell(0), Seen::Value(Value::Whole(6))),
];

/// A frozen arguments object, key by key as SetIntegrityLevel (7.3.15) has it.
pub(crate) static FROZEN: [Row; 13] = [
    Row(Step::MakeMapped(FUNCTION, &[1], 1), Seen::Object(ARGUMENTS)),
    Row(
        Step::SetCell(0, Value::Whole(2)),
        Seen::Value(Value::Whole(2)),
    ),
    Row(Step::Prevent(ARGUMENTS), Seen::Flag(true)),
    Row(Step::Keys(ARGUMENTS), Seen::Keys(&[ZERO, LENGTH, CALLEE])),
    Row(
        Step::GetOwn(ARGUMENTS, ZERO),
        Seen::Stored(Value::Whole(2), PLAIN),
    ),
    Row(
        Step::Define(ARGUMENTS, ZERO, Wanted::Frozen),
        Seen::Flag(true),
    ),
    Row(
        Step::GetOwn(ARGUMENTS, LENGTH),
        Seen::Stored(Value::Whole(1), HIDDEN),
    ),
    Row(
        Step::Define(ARGUMENTS, LENGTH, Wanted::Frozen),
        Seen::Flag(true),
    ),
    Row(
        Step::SetCell(0, Value::Whole(7)),
        Seen::Value(Value::Whole(7)),
    ),
    Row(
        Step::GetOwn(ARGUMENTS, ZERO),
        Seen::Stored(Value::Whole(2), [false, true, false]),
    ),
    Row(
        Step::Write(ARGUMENTS, ZERO, Value::Whole(8)),
        Seen::Flag(false),
    ),
    Row(Step::Delete(ARGUMENTS, ZERO), Seen::Flag(false)),
    Row(Step::Cell(0), Seen::Value(Value::Whole(7))),
];
