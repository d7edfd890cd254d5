//! Error.prototype.toString (ECMA-262, 20.5.3.4).

use super::{FIVE, Row};
use crate::tests::numbers::{
    EMPTY, ERROR_PROTOTYPE, ERROR_TO_STRING, FIRST_TEXT, OBJECT_PROTOTYPE, SECOND_TEXT,
};
use crate::tests::seen::Seen;
use crate::tests::steps::{Given, Step};
use es_model::{ErrorKind, Operation};
use property_keys::Value;

/// A name and a message with a colon; an empty name; an empty message; both undefined; both converted; what throws; and what is no object.
pub(crate) static TEXTS: [Row; 28] = [
    Row(Step::Text("N"), Seen::Value(Value::Text(FIRST_TEXT))),
    Row(Step::Text("m"), Seen::Value(Value::Text(SECOND_TEXT))),
    Row(
        Step::Call(ERROR_TO_STRING, Value::Object(ERROR_PROTOTYPE), &[]),
        Seen::AsksRead(ERROR_PROTOTYPE, "name"),
    ),
    Row(
        Step::Answer(Given::Value(Value::Text(FIRST_TEXT))),
        Seen::AsksRead(ERROR_PROTOTYPE, "message"),
    ),
    Row(
        Step::Answer(Given::Value(Value::Text(SECOND_TEXT))),
        Seen::Text("N: m"),
    ),
    // step 7
    Row(
        Step::Call(ERROR_TO_STRING, Value::Object(OBJECT_PROTOTYPE), &[]),
        Seen::AsksRead(OBJECT_PROTOTYPE, "name"),
    ),
    Row(
        Step::Answer(Given::Value(Value::Text(EMPTY))),
        Seen::AsksRead(OBJECT_PROTOTYPE, "message"),
    ),
    Row(
        Step::Answer(Given::Value(Value::Text(SECOND_TEXT))),
        Seen::Text("m"),
    ),
    // step 8
    Row(
        Step::Call(ERROR_TO_STRING, Value::Object(OBJECT_PROTOTYPE), &[]),
        Seen::AsksRead(OBJECT_PROTOTYPE, "name"),
    ),
    Row(
        Step::Answer(Given::Value(Value::Text(FIRST_TEXT))),
        Seen::AsksRead(OBJECT_PROTOTYPE, "message"),
    ),
    Row(
        Step::Answer(Given::Value(Value::Text(EMPTY))),
        Seen::Text("N"),
    ),
    // steps 4 and 6: undefined is `Error`, and the empty text
    Row(
        Step::Call(ERROR_TO_STRING, Value::Object(OBJECT_PROTOTYPE), &[]),
        Seen::AsksRead(OBJECT_PROTOTYPE, "name"),
    ),
    Row(
        Step::Answer(Given::Value(Value::Undefined)),
        Seen::AsksRead(OBJECT_PROTOTYPE, "message"),
    ),
    Row(
        Step::Answer(Given::Value(Value::Undefined)),
        Seen::Text("Error"),
    ),
    // both are converted
    Row(
        Step::Call(ERROR_TO_STRING, Value::Object(OBJECT_PROTOTYPE), &[]),
        Seen::AsksRead(OBJECT_PROTOTYPE, "name"),
    ),
    Row(
        Step::Answer(Given::Value(Value::Null)),
        Seen::AsksWork(Operation::ToText, Value::Null),
    ),
    Row(
        Step::Answer(Given::Value(Value::Text(SECOND_TEXT))),
        Seen::AsksRead(OBJECT_PROTOTYPE, "message"),
    ),
    Row(
        Step::Answer(Given::Value(FIVE)),
        Seen::AsksWork(Operation::ToText, FIVE),
    ),
    Row(
        Step::Answer(Given::Value(Value::Text(FIRST_TEXT))),
        Seen::Text("m: N"),
    ),
    // what throws
    Row(
        Step::Call(ERROR_TO_STRING, Value::Object(OBJECT_PROTOTYPE), &[]),
        Seen::AsksRead(OBJECT_PROTOTYPE, "name"),
    ),
    Row(Step::Answer(Given::Thrown(FIVE)), Seen::Thrown(FIVE)),
    Row(
        Step::Call(ERROR_TO_STRING, Value::Object(OBJECT_PROTOTYPE), &[]),
        Seen::AsksRead(OBJECT_PROTOTYPE, "name"),
    ),
    Row(
        Step::Answer(Given::Value(Value::Text(FIRST_TEXT))),
        Seen::AsksRead(OBJECT_PROTOTYPE, "message"),
    ),
    Row(
        Step::Answer(Given::Value(FIVE)),
        Seen::AsksWork(Operation::ToText, FIVE),
    ),
    Row(
        Step::Answer(Given::Thrown(Value::Null)),
        Seen::Thrown(Value::Null),
    ),
    // step 2
    Row(
        Step::Call(ERROR_TO_STRING, Value::Undefined, &[]),
        Seen::Error(ErrorKind::TypeError, "not an object"),
    ),
    Row(
        Step::Call(ERROR_TO_STRING, Value::Text(FIRST_TEXT), &[]),
        Seen::Error(ErrorKind::TypeError, "not an object"),
    ),
    Row(
        Step::Call(ERROR_TO_STRING, FIVE, &[]),
        Seen::Error(ErrorKind::TypeError, "not an object"),
    ),
];
