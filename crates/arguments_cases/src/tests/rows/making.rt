//! How arguments objects are made (10.4.4.6, 10.4.4.7).

use super::{ARGUMENTS, CALLEE, FUNCTION, HIDDEN, LENGTH, ONE, PLAIN, Row, THROWER, ZERO};
use crate::tests::seen::Seen;
use crate::tests::steps::{Key, Step, Wanted};
use property_keys::Value;

/// Two arguments of a function with one parameter: the indices, then `length`, then `callee`. The second index shares nothing, so it keeps its value.
pub(crate) static MAPPED: [Row; 10] = [
    Row(
        Step::MakeMapped(FUNCTION, &[1, 2], 1),
        Seen::Object(ARGUMENTS),
    ),
    Row(
        Step::Keys(ARGUMENTS),
        Seen::Keys(&[ZERO, ONE, LENGTH, CALLEE]),
    ),
    Row(
        Step::GetOwn(ARGUMENTS, ZERO),
        Seen::Stored(Value::Whole(1), PLAIN),
    ),
    Row(
        Step::GetOwn(ARGUMENTS, ONE),
        Seen::Stored(Value::Whole(2), PLAIN),
    ),
    Row(
        Step::GetOwn(ARGUMENTS, LENGTH),
        Seen::Stored(Value::Whole(2), HIDDEN),
    ),
    Row(
        Step::GetOwn(ARGUMENTS, CALLEE),
        Seen::Stored(Value::Object(FUNCTION), HIDDEN),
    ),
    Row(Step::GetOwn(ARGUMENTS, Key::Index(2)), Seen::Absent),
    Row(Step::Cell(0), Seen::Value(Value::Whole(1))),
    Row(Step::Cell(1), Seen::Absent),
    Row(Step::Turns, Seen::Turns(3)),
];

/// One argument of a function with two parameters: the second parameter is shared by no index, also once there is one.
pub(crate) static FEWER: [Row; 9] = [
    Row(Step::MakeMapped(FUNCTION, &[7], 2), Seen::Object(ARGUMENTS)),
    Row(Step::Keys(ARGUMENTS), Seen::Keys(&[ZERO, LENGTH, CALLEE])),
    Row(Step::GetOwn(ARGUMENTS, ONE), Seen::Absent),
    Row(
        Step::GetOwn(ARGUMENTS, LENGTH),
        Seen::Stored(Value::Whole(1), HIDDEN),
    ),
    Row(
        Step::Define(ARGUMENTS, ONE, Wanted::Plain(Value::Whole(9))),
        Seen::Flag(true),
    ),
    Row(Step::Cell(1), Seen::Value(Value::Undefined)),
    Row(
        Step::SetCell(1, Value::Whole(5)),
        Seen::Value(Value::Whole(5)),
    ),
    Row(Step::Read(ARGUMENTS, ONE), Seen::Value(Value::Whole(9))),
    Row(
        Step::Keys(ARGUMENTS),
        Seen::Keys(&[ZERO, ONE, LENGTH, CALLEE]),
    ),
];

/// Strict code: no index shares anything, and `callee` is an accessor that throws, neither enumerable nor configurable.
pub(crate) static UNMAPPED: [Row; 12] = [
    Row(Step::MakeUnmapped(&[1, 2]), Seen::Object(ARGUMENTS)),
    Row(
        Step::Keys(ARGUMENTS),
        Seen::Keys(&[ZERO, ONE, LENGTH, CALLEE]),
    ),
    Row(
        Step::GetOwn(ARGUMENTS, ZERO),
        Seen::Stored(Value::Whole(1), PLAIN),
    ),
    Row(
        Step::GetOwn(ARGUMENTS, ONE),
        Seen::Stored(Value::Whole(2), PLAIN),
    ),
    Row(
        Step::GetOwn(ARGUMENTS, LENGTH),
        Seen::Stored(Value::Whole(2), HIDDEN),
    ),
    Row(
        Step::GetOwn(ARGUMENTS, CALLEE),
        Seen::Accessor(Some(THROWER), Some(THROWER), [false, false]),
    ),
    Row(Step::Delete(ARGUMENTS, CALLEE), Seen::Flag(false)),
    Row(
        Step::Read(ARGUMENTS, CALLEE),
        Seen::AsksCall(THROWER, ARGUMENTS),
    ),
    Row(
        Step::Write(ARGUMENTS, ZERO, Value::Whole(5)),
        Seen::Flag(true),
    ),
    Row(Step::Read(ARGUMENTS, ZERO), Seen::Value(Value::Whole(5))),
    Row(Step::Delete(ARGUMENTS, ZERO), Seen::Flag(true)),
    Row(Step::Keys(ARGUMENTS), Seen::Keys(&[ONE, LENGTH, CALLEE])),
];

/// No arguments and no parameters.
pub(crate) static NONE: [Row; 4] = [
    Row(Step::MakeMapped(FUNCTION, &[], 0), Seen::Object(ARGUMENTS)),
    Row(Step::Keys(ARGUMENTS), Seen::Keys(&[LENGTH, CALLEE])),
    Row(
        Step::GetOwn(ARGUMENTS, LENGTH),
        Seen::Stored(Value::Whole(0), HIDDEN),
    ),
    Row(Step::GetOwn(ARGUMENTS, ZERO), Seen::Absent),
];
