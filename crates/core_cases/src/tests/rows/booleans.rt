//! Boolean and the functions of its prototype (ECMA-262, 20.3).

use super::{FIVE, Row};
use crate::tests::numbers::{
    BOOLEAN, BOOLEAN_PROTOTYPE, BOOLEAN_TO_STRING, BOOLEAN_VALUE_OF, EMPTY, FIRST_OBJECT,
    NUMBER_PROTOTYPE, OBJECT_PROTOTYPE, SECOND_OBJECT,
};
use crate::tests::seen::Seen;
use crate::tests::steps::{Given, Step};
use es_model::ErrorKind;
use property_keys::Value;

/// Boolean, called (20.3.1.1, steps 1 and 2): undefined and the empty text are false, and an object is true.
pub(crate) static CALLED: [Row; 4] = [
    Row(
        Step::Call(BOOLEAN, Value::Undefined, &[]),
        Seen::Value(Value::Bool(false)),
    ),
    Row(
        Step::Call(BOOLEAN, Value::Undefined, &[Value::Text(EMPTY)]),
        Seen::Value(Value::Bool(false)),
    ),
    Row(
        Step::Call(
            BOOLEAN,
            Value::Undefined,
            &[Value::Object(BOOLEAN_PROTOTYPE)],
        ),
        Seen::Value(Value::Bool(true)),
    ),
    Row(
        Step::Call(BOOLEAN, FIVE, &[FIVE, Value::Undefined]),
        Seen::Value(Value::Bool(true)),
    ),
];

/// Boolean, constructed (20.3.1.1, steps 3 to 5): the prototype is read from the new target (10.1.14), and is the realm's own where that is no object.
pub(crate) static CONSTRUCTED: [Row; 8] = [
    Row(
        Step::Construct(BOOLEAN, &[FIVE], OBJECT_PROTOTYPE),
        Seen::AsksRead(OBJECT_PROTOTYPE, "prototype"),
    ),
    Row(
        Step::Answer(Given::Value(Value::Object(NUMBER_PROTOTYPE))),
        Seen::Value(Value::Object(FIRST_OBJECT)),
    ),
    Row(
        Step::Object(FIRST_OBJECT),
        Seen::Wrapper(NUMBER_PROTOTYPE, Value::Bool(true)),
    ),
    Row(
        Step::Construct(BOOLEAN, &[], BOOLEAN),
        Seen::AsksRead(BOOLEAN, "prototype"),
    ),
    Row(
        Step::Answer(Given::Value(Value::Null)),
        Seen::Value(Value::Object(SECOND_OBJECT)),
    ),
    Row(
        Step::Object(SECOND_OBJECT),
        Seen::Wrapper(BOOLEAN_PROTOTYPE, Value::Bool(false)),
    ),
    Row(
        Step::Construct(BOOLEAN, &[], BOOLEAN),
        Seen::AsksRead(BOOLEAN, "prototype"),
    ),
    Row(Step::Answer(Given::Thrown(FIVE)), Seen::Thrown(FIVE)),
];

/// toString and valueOf (20.3.3.2, 20.3.3.3): of a Boolean, of a Boolean object (%Boolean.prototype% is one, of false), and of what is neither.
pub(crate) static PROTOTYPE: [Row; 8] = [
    Row(
        Step::Call(BOOLEAN_TO_STRING, Value::Bool(true), &[]),
        Seen::Text("true"),
    ),
    Row(
        Step::Call(BOOLEAN_TO_STRING, Value::Object(BOOLEAN_PROTOTYPE), &[]),
        Seen::Text("false"),
    ),
    Row(
        Step::Call(BOOLEAN_TO_STRING, Value::Object(NUMBER_PROTOTYPE), &[]),
        Seen::Error(ErrorKind::TypeError, "wrong value"),
    ),
    Row(
        Step::Call(BOOLEAN_TO_STRING, FIVE, &[]),
        Seen::Error(ErrorKind::TypeError, "wrong value"),
    ),
    Row(
        Step::Call(BOOLEAN_VALUE_OF, Value::Bool(true), &[]),
        Seen::Value(Value::Bool(true)),
    ),
    Row(
        Step::Call(BOOLEAN_VALUE_OF, Value::Object(BOOLEAN_PROTOTYPE), &[]),
        Seen::Value(Value::Bool(false)),
    ),
    Row(
        Step::Call(BOOLEAN_VALUE_OF, Value::Object(OBJECT_PROTOTYPE), &[]),
        Seen::Error(ErrorKind::TypeError, "wrong value"),
    ),
    Row(
        Step::Call(BOOLEAN_VALUE_OF, Value::Undefined, &[]),
        Seen::Error(ErrorKind::TypeError, "wrong value"),
    ),
];
