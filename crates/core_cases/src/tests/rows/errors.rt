//! The constructors of errors (ECMA-262, 20.5.1.1, 20.5.6.1.1).

use super::{FIVE, Row};
use crate::tests::numbers::{
    ERROR, ERROR_PROTOTYPE, FIRST_OBJECT, FIRST_TEXT, NUMBER_PROTOTYPE, OBJECT_PROTOTYPE,
    RANGE_ERROR, RANGE_ERROR_PROTOTYPE, SECOND_OBJECT, TYPE_ERROR, TYPE_ERROR_PROTOTYPE,
};
use crate::tests::seen::Seen;
use crate::tests::steps::{Given, Step};
use es_model::Operation;
use property_keys::{ObjectId, Value};

const THIRD_OBJECT: ObjectId = ObjectId(SECOND_OBJECT.0 + 1);

/// A message is set where one is given, and undefined is none. Called, the function is its own target.
pub(crate) static PLAIN: [Row; 16] = [
    Row(Step::Text("m"), Seen::Value(Value::Text(FIRST_TEXT))),
    Row(
        Step::Call(ERROR, FIVE, &[Value::Text(FIRST_TEXT)]),
        Seen::AsksRead(ERROR, "prototype"),
    ),
    Row(
        Step::Answer(Given::Value(Value::Object(ERROR_PROTOTYPE))),
        Seen::Value(Value::Object(FIRST_OBJECT)),
    ),
    Row(Step::Object(FIRST_OBJECT), Seen::IsError(ERROR_PROTOTYPE)),
    Row(Step::Own(FIRST_OBJECT, "message"), Seen::HiddenText("m")),
    Row(Step::Own(FIRST_OBJECT, "cause"), Seen::Absent),
    Row(
        Step::Construct(TYPE_ERROR, &[Value::Undefined], OBJECT_PROTOTYPE),
        Seen::AsksRead(OBJECT_PROTOTYPE, "prototype"),
    ),
    Row(
        Step::Answer(Given::Value(Value::Null)),
        Seen::Value(Value::Object(SECOND_OBJECT)),
    ),
    Row(
        Step::Object(SECOND_OBJECT),
        Seen::IsError(TYPE_ERROR_PROTOTYPE),
    ),
    Row(Step::Own(SECOND_OBJECT, "message"), Seen::Absent),
    Row(
        Step::Construct(RANGE_ERROR, &[FIVE], RANGE_ERROR),
        Seen::AsksRead(RANGE_ERROR, "prototype"),
    ),
    Row(
        Step::Answer(Given::Value(Value::Object(NUMBER_PROTOTYPE))),
        Seen::AsksWork(Operation::ToText, FIVE),
    ),
    Row(
        Step::Answer(Given::Value(Value::Text(FIRST_TEXT))),
        Seen::Value(Value::Object(THIRD_OBJECT)),
    ),
    Row(Step::Object(THIRD_OBJECT), Seen::IsError(NUMBER_PROTOTYPE)),
    Row(Step::Own(THIRD_OBJECT, "message"), Seen::HiddenText("m")),
    Row(Step::Own(THIRD_OBJECT, "name"), Seen::Absent),
];

/// The cause (20.5.8.1): from an object that has one, also where it is undefined.
pub(crate) static CAUSES: [Row; 15] = [
    Row(Step::Text("m"), Seen::Value(Value::Text(FIRST_TEXT))),
    Row(
        Step::Construct(
            ERROR,
            &[Value::Text(FIRST_TEXT), Value::Object(OBJECT_PROTOTYPE)],
            ERROR,
        ),
        Seen::AsksRead(ERROR, "prototype"),
    ),
    Row(
        Step::Answer(Given::Value(Value::Object(ERROR_PROTOTYPE))),
        Seen::AsksHas(OBJECT_PROTOTYPE, "cause"),
    ),
    Row(Step::Own(FIRST_OBJECT, "message"), Seen::HiddenText("m")),
    Row(
        Step::Answer(Given::Flag(true)),
        Seen::AsksRead(OBJECT_PROTOTYPE, "cause"),
    ),
    Row(
        Step::Answer(Given::Value(Value::Undefined)),
        Seen::Value(Value::Object(FIRST_OBJECT)),
    ),
    Row(
        Step::Own(FIRST_OBJECT, "cause"),
        Seen::Hidden(Value::Undefined),
    ),
    Row(
        Step::Call(
            ERROR,
            Value::Undefined,
            &[Value::Undefined, Value::Object(OBJECT_PROTOTYPE)],
        ),
        Seen::AsksRead(ERROR, "prototype"),
    ),
    Row(
        Step::Answer(Given::Value(Value::Object(ERROR_PROTOTYPE))),
        Seen::AsksHas(OBJECT_PROTOTYPE, "cause"),
    ),
    Row(
        Step::Answer(Given::Flag(false)),
        Seen::Value(Value::Object(SECOND_OBJECT)),
    ),
    Row(Step::Own(SECOND_OBJECT, "cause"), Seen::Absent),
    Row(
        Step::Call(ERROR, Value::Undefined, &[Value::Undefined, FIVE]),
        Seen::AsksRead(ERROR, "prototype"),
    ),
    Row(
        Step::Answer(Given::Value(Value::Undefined)),
        Seen::Value(Value::Object(THIRD_OBJECT)),
    ),
    Row(Step::Own(THIRD_OBJECT, "cause"), Seen::Absent),
    Row(Step::Object(THIRD_OBJECT), Seen::IsError(ERROR_PROTOTYPE)),
];

/// What is asked may throw at each point: the prototype, the text of the message, the test for a cause, and the cause.
pub(crate) static THROWS: [Row; 14] = [
    Row(
        Step::Construct(RANGE_ERROR, &[FIVE], RANGE_ERROR),
        Seen::AsksRead(RANGE_ERROR, "prototype"),
    ),
    Row(
        Step::Answer(Given::Thrown(Value::Null)),
        Seen::Thrown(Value::Null),
    ),
    Row(
        Step::Construct(RANGE_ERROR, &[Value::Object(ERROR)], RANGE_ERROR),
        Seen::AsksRead(RANGE_ERROR, "prototype"),
    ),
    Row(
        Step::Answer(Given::Value(Value::Object(RANGE_ERROR_PROTOTYPE))),
        Seen::AsksWork(Operation::ToText, Value::Object(ERROR)),
    ),
    Row(Step::Answer(Given::Thrown(FIVE)), Seen::Thrown(FIVE)),
    Row(
        Step::Construct(ERROR, &[Value::Undefined, Value::Object(ERROR)], ERROR),
        Seen::AsksRead(ERROR, "prototype"),
    ),
    Row(
        Step::Answer(Given::Value(Value::Object(ERROR_PROTOTYPE))),
        Seen::AsksHas(ERROR, "cause"),
    ),
    Row(Step::Answer(Given::Thrown(FIVE)), Seen::Thrown(FIVE)),
    Row(
        Step::Construct(ERROR, &[Value::Undefined, Value::Object(ERROR)], ERROR),
        Seen::AsksRead(ERROR, "prototype"),
    ),
    Row(
        Step::Answer(Given::Value(Value::Object(ERROR_PROTOTYPE))),
        Seen::AsksHas(ERROR, "cause"),
    ),
    Row(
        Step::Answer(Given::Flag(true)),
        Seen::AsksRead(ERROR, "cause"),
    ),
    Row(Step::Answer(Given::Thrown(FIVE)), Seen::Thrown(FIVE)),
    Row(
        Step::Call(ERROR, Value::Undefined, &[]),
        Seen::AsksRead(ERROR, "prototype"),
    ),
    Row(
        Step::Answer(Given::Value(Value::Object(ERROR_PROTOTYPE))),
        Seen::Value(Value::Object(ObjectId(THIRD_OBJECT.0 + 1))),
    ),
];
