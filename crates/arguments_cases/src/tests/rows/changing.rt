//! A parameter and its index have one value, whichever is written.

use super::{ARGUMENTS, FUNCTION, OBJECT_PROTOTYPE, ONE, PLAIN, Row, ZERO};
use crate::tests::seen::Seen;
use crate::tests::steps::{Key, Step, Wanted};
use property_keys::{ObjectId, Value};

const X: Key = Key::Name("x");

/// An object of another kind.
const OTHER: ObjectId = ObjectId(3);

/// Writes through the parameter and through the object. The list keeps the value of the last definition, which is not seen.
pub(crate) static BOTH_WAYS: [Row; 13] = [
    Row(
        Step::MakeMapped(FUNCTION, &[1, 2], 1),
        Seen::Object(ARGUMENTS),
    ),
    Row(
        Step::SetCell(0, Value::Whole(5)),
        Seen::Value(Value::Whole(5)),
    ),
    Row(Step::Read(ARGUMENTS, ZERO), Seen::Value(Value::Whole(5))),
    Row(
        Step::GetOwn(ARGUMENTS, ZERO),
        Seen::Stored(Value::Whole(5), PLAIN),
    ),
    Row(
        Step::Own(ARGUMENTS, ZERO),
        Seen::Stored(Value::Whole(1), PLAIN),
    ),
    Row(
        Step::Write(ARGUMENTS, ZERO, Value::Whole(6)),
        Seen::Flag(true),
    ),
    Row(Step::Cell(0), Seen::Value(Value::Whole(6))),
    Row(
        Step::Own(ARGUMENTS, ZERO),
        Seen::Stored(Value::Whole(6), PLAIN),
    ),
    Row(
        Step::Define(ARGUMENTS, ZERO, Wanted::Value(Value::Whole(7))),
        Seen::Flag(true),
    ),
    Row(Step::Cell(0), Seen::Value(Value::Whole(7))),
    Row(
        Step::Write(ARGUMENTS, ONE, Value::Whole(8)),
        Seen::Flag(true),
    ),
    Row(Step::Read(ARGUMENTS, ONE), Seen::Value(Value::Whole(8))),
    Row(Step::Cell(0), Seen::Value(Value::Whole(7))),
];

/// Other keys have the ordinary methods: the prototype is asked, for a turn each. A write on another receiver leaves the parameter.
pub(crate) static OTHERS: [Row; 8] = [
    Row(Step::MakeMapped(FUNCTION, &[1], 1), Seen::Object(ARGUMENTS)),
    Row(Step::Has(ARGUMENTS, ZERO), Seen::Flag(true)),
    Row(Step::Has(ARGUMENTS, X), Seen::AsksHas(OBJECT_PROTOTYPE, X)),
    Row(
        Step::Read(ARGUMENTS, X),
        Seen::AsksRead(OBJECT_PROTOTYPE, X),
    ),
    Row(Step::Turns, Seen::Turns(1)),
    Row(
        Step::WriteOn(ARGUMENTS, ZERO, Value::Whole(4), OTHER),
        Seen::AsksOwn(OTHER, ZERO),
    ),
    Row(Step::Cell(0), Seen::Value(Value::Whole(1))),
    Row(Step::Read(ARGUMENTS, ZERO), Seen::Value(Value::Whole(1))),
];

/// A definition and a deletion that are refused leave the parameter and the mapping: an index that is not configurable, and still writable, is mapped.
pub(crate) static REFUSED: [Row; 10] = [
    Row(Step::MakeMapped(FUNCTION, &[1], 1), Seen::Object(ARGUMENTS)),
    Row(
        Step::Define(ARGUMENTS, ZERO, Wanted::NotConfigurable),
        Seen::Flag(true),
    ),
    Row(
        Step::Define(ARGUMENTS, ZERO, Wanted::ValueHidden(Value::Whole(9))),
        Seen::Flag(false),
    ),
    Row(Step::Cell(0), Seen::Value(Value::Whole(1))),
    Row(Step::Delete(ARGUMENTS, ZERO), Seen::Flag(false)),
    Row(
        Step::Define(ARGUMENTS, ZERO, Wanted::Getter(FUNCTION)),
        Seen::Flag(false),
    ),
    Row(
        Step::SetCell(0, Value::Whole(5)),
        Seen::Value(Value::Whole(5)),
    ),
    Row(
        Step::GetOwn(ARGUMENTS, ZERO),
        Seen::Stored(Value::Whole(5), [true, true, false]),
    ),
    Row(
        Step::Write(ARGUMENTS, ZERO, Value::Whole(6)),
        Seen::Flag(true),
    ),
    Row(Step::Cell(0), Seen::Value(Value::Whole(6))),
];
