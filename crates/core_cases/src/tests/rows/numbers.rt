//! Number and the functions of its prototype (ECMA-262, 21.1).

use super::{FIVE, Row};
use crate::tests::numbers::{
    BOOLEAN_PROTOTYPE, EMPTY, FIRST_OBJECT, NUMBER, NUMBER_PROTOTYPE, NUMBER_TO_STRING,
    NUMBER_VALUE_OF, OBJECT_PROTOTYPE, SECOND_OBJECT,
};
use crate::tests::seen::Seen;
use crate::tests::steps::{Given, Step};
use es_model::{ErrorKind, Operation};
use property_keys::Value;

/// Number, called (21.1.1.1, steps 1 to 3): 0 without a value, and undefined is a value. Then valueOf (21.1.3.7).
pub(crate) static CALLED: [Row; 12] = [
    Row(
        Step::Call(NUMBER, Value::Undefined, &[]),
        Seen::Value(Value::Whole(0)),
    ),
    Row(
        Step::Call(NUMBER, Value::Undefined, &[Value::Whole(-7)]),
        Seen::Value(Value::Whole(-7)),
    ),
    Row(
        Step::Call(NUMBER, Value::Undefined, &[Value::Undefined]),
        Seen::AsksWork(Operation::ToWhole, Value::Undefined),
    ),
    Row(Step::Answer(Given::Thrown(FIVE)), Seen::Thrown(FIVE)),
    Row(
        Step::Call(NUMBER, Value::Undefined, &[Value::Text(EMPTY)]),
        Seen::AsksWork(Operation::ToWhole, Value::Text(EMPTY)),
    ),
    Row(
        Step::Answer(Given::Value(Value::Whole(16))),
        Seen::Value(Value::Whole(16)),
    ),
    Row(
        Step::Call(NUMBER_VALUE_OF, Value::Whole(-7), &[]),
        Seen::Value(Value::Whole(-7)),
    ),
    Row(
        Step::Call(NUMBER_VALUE_OF, Value::Object(NUMBER_PROTOTYPE), &[]),
        Seen::Value(Value::Whole(0)),
    ),
    Row(
        Step::Call(NUMBER_VALUE_OF, Value::Object(BOOLEAN_PROTOTYPE), &[]),
        Seen::Error(ErrorKind::TypeError, "wrong value"),
    ),
    Row(
        Step::Call(NUMBER_VALUE_OF, Value::Text(EMPTY), &[]),
        Seen::Error(ErrorKind::TypeError, "wrong value"),
    ),
    Row(
        Step::Call(NUMBER_VALUE_OF, Value::Object(OBJECT_PROTOTYPE), &[]),
        Seen::Error(ErrorKind::TypeError, "wrong value"),
    ),
    Row(
        Step::Call(NUMBER_VALUE_OF, Value::Bool(true), &[]),
        Seen::Error(ErrorKind::TypeError, "wrong value"),
    ),
];

/// Number, constructed (21.1.1.1, steps 4 to 6): the value is converted before the prototype is read.
pub(crate) static CONSTRUCTED: [Row; 11] = [
    Row(
        Step::Construct(NUMBER, &[], NUMBER),
        Seen::AsksRead(NUMBER, "prototype"),
    ),
    Row(
        Step::Answer(Given::Value(Value::Object(OBJECT_PROTOTYPE))),
        Seen::Value(Value::Object(FIRST_OBJECT)),
    ),
    Row(
        Step::Object(FIRST_OBJECT),
        Seen::Wrapper(OBJECT_PROTOTYPE, Value::Whole(0)),
    ),
    Row(
        Step::Construct(NUMBER, &[Value::Bool(true)], NUMBER),
        Seen::AsksWork(Operation::ToWhole, Value::Bool(true)),
    ),
    Row(
        Step::Answer(Given::Value(Value::Whole(1))),
        Seen::AsksRead(NUMBER, "prototype"),
    ),
    Row(
        Step::Answer(Given::Value(Value::Undefined)),
        Seen::Value(Value::Object(SECOND_OBJECT)),
    ),
    Row(
        Step::Object(SECOND_OBJECT),
        Seen::Wrapper(NUMBER_PROTOTYPE, Value::Whole(1)),
    ),
    Row(
        Step::Call(NUMBER_VALUE_OF, Value::Object(SECOND_OBJECT), &[]),
        Seen::Value(Value::Whole(1)),
    ),
    Row(
        Step::Construct(NUMBER, &[FIVE], NUMBER),
        Seen::AsksRead(NUMBER, "prototype"),
    ),
    Row(
        Step::Construct(NUMBER, &[Value::Null], NUMBER),
        Seen::AsksWork(Operation::ToWhole, Value::Null),
    ),
    Row(Step::Answer(Given::Thrown(FIVE)), Seen::Thrown(FIVE)),
];

/// toString (21.1.3.6): the receiver is tested before the radix is converted, and the radix is from 2 to 36.
pub(crate) static RADICES: [Row; 20] = [
    Row(
        Step::Call(NUMBER_TO_STRING, Value::Whole(255), &[]),
        Seen::Text("255"),
    ),
    Row(
        Step::Call(NUMBER_TO_STRING, Value::Whole(255), &[Value::Undefined]),
        Seen::Text("255"),
    ),
    Row(
        Step::Call(NUMBER_TO_STRING, Value::Whole(255), &[Value::Whole(16)]),
        Seen::Text("ff"),
    ),
    Row(
        Step::Call(NUMBER_TO_STRING, Value::Whole(5), &[Value::Whole(2)]),
        Seen::Text("101"),
    ),
    Row(
        Step::Call(NUMBER_TO_STRING, Value::Whole(-35), &[Value::Whole(36)]),
        Seen::Text("-z"),
    ),
    Row(
        Step::Call(NUMBER_TO_STRING, Value::Whole(0), &[Value::Whole(2)]),
        Seen::Text("0"),
    ),
    Row(
        Step::Call(NUMBER_TO_STRING, Value::Object(NUMBER_PROTOTYPE), &[]),
        Seen::Text("0"),
    ),
    // 2 ^ 53 - 1
    Row(
        Step::Call(
            NUMBER_TO_STRING,
            Value::Whole(9007199254740991),
            &[Value::Whole(2)],
        ),
        Seen::Text("11111111111111111111111111111111111111111111111111111"),
    ),
    Row(
        Step::Call(
            NUMBER_TO_STRING,
            Value::Whole(-9007199254740991),
            &[Value::Whole(10)],
        ),
        Seen::Text("-9007199254740991"),
    ),
    Row(
        Step::Call(NUMBER_TO_STRING, FIVE, &[Value::Whole(37)]),
        Seen::Error(ErrorKind::RangeError, "invalid radix"),
    ),
    Row(
        Step::Call(NUMBER_TO_STRING, FIVE, &[Value::Whole(1)]),
        Seen::Error(ErrorKind::RangeError, "invalid radix"),
    ),
    Row(
        Step::Call(NUMBER_TO_STRING, FIVE, &[Value::Whole(-2)]),
        Seen::Error(ErrorKind::RangeError, "invalid radix"),
    ),
    // 71 is 1 * 36 + 35
    Row(
        Step::Call(
            NUMBER_TO_STRING,
            Value::Whole(71),
            &[Value::Object(OBJECT_PROTOTYPE)],
        ),
        Seen::AsksWork(Operation::ToWhole, Value::Object(OBJECT_PROTOTYPE)),
    ),
    Row(
        Step::Answer(Given::Value(Value::Whole(36))),
        Seen::Text("1z"),
    ),
    Row(
        Step::Call(NUMBER_TO_STRING, FIVE, &[Value::Null]),
        Seen::AsksWork(Operation::ToWhole, Value::Null),
    ),
    Row(
        Step::Answer(Given::Value(Value::Whole(0))),
        Seen::Error(ErrorKind::RangeError, "invalid radix"),
    ),
    Row(
        Step::Call(NUMBER_TO_STRING, FIVE, &[Value::Text(EMPTY)]),
        Seen::AsksWork(Operation::ToWhole, Value::Text(EMPTY)),
    ),
    Row(
        Step::Answer(Given::Thrown(Value::Null)),
        Seen::Thrown(Value::Null),
    ),
    Row(
        Step::Call(
            NUMBER_TO_STRING,
            Value::Text(EMPTY),
            &[Value::Object(OBJECT_PROTOTYPE)],
        ),
        Seen::Error(ErrorKind::TypeError, "wrong value"),
    ),
    Row(
        Step::Call(
            NUMBER_TO_STRING,
            Value::Object(BOOLEAN_PROTOTYPE),
            &[Value::Whole(37)],
        ),
        Seen::Error(ErrorKind::TypeError, "wrong value"),
    ),
];
