//! IsLooselyEqual and IsLessThan (ECMA-262, 7.2.14, 7.2.13).

use super::{FIVE, Row, SECOND_MESSAGE, THIRD_MESSAGE};
use crate::tests::numbers::{
    CONSTRUCTOR, EMPTY, FIRST_OBJECT, FIRST_TEXT, FUNCTION_PROTOTYPE, HAS_INSTANCE,
    HAS_INSTANCE_DESCRIPTION, OBJECT_PROTOTYPE, SECOND_TEXT, THIRD_TEXT,
};
use crate::tests::seen::{Few, Seen};
use crate::tests::steps::{Given, Question, Step};
use es_model::Operation;
use property_keys::Value;

/// IsLooselyEqual (7.2.14).
pub(crate) static EQUAL: [Row; 20] = [
    Row(
        Step::Start(Question::Two(Operation::LooselyEqual, Value::Null, Value::Undefined)),
        Seen::Flag(true),
    ),
    Row(
        Step::Start(Question::Two(Operation::LooselyEqual, Value::Null, Value::Whole(0))),
        Seen::Flag(false),
    ),
    Row(Step::Text("1"), Seen::Value(Value::Text(FIRST_TEXT))),
    Row(
        Step::Start(Question::Two(
            Operation::LooselyEqual,
            Value::Text(FIRST_TEXT),
            Value::Bool(true),
        )),
        Seen::Flag(true),
    ),
    Row(
        Step::Start(Question::Two(
            Operation::LooselyEqual,
            Value::Whole(2),
            Value::Text(FIRST_TEXT),
        )),
        Seen::Flag(false),
    ),
    Row(
        Step::Start(Question::Two(
            Operation::LooselyEqual,
            Value::Whole(2),
            Value::Text(CONSTRUCTOR),
        )),
        Seen::Thrown(Value::Object(FIRST_OBJECT)),
    ),
    Row(
        Step::Text("number outside the profile"),
        Seen::Value(Value::Text(SECOND_TEXT)),
    ),
    Row(
        Step::Message(FIRST_OBJECT),
        Seen::Property(Some(SECOND_MESSAGE)),
    ),
    Row(
        Step::Start(Question::Two(
            Operation::LooselyEqual,
            Value::Symbol(HAS_INSTANCE),
            Value::Text(HAS_INSTANCE_DESCRIPTION),
        )),
        Seen::Flag(false),
    ),
    Row(
        Step::Start(Question::Two(
            Operation::LooselyEqual,
            Value::Object(OBJECT_PROTOTYPE),
            Value::Null,
        )),
        Seen::Flag(false),
    ),
    Row(
        Step::Start(Question::Two(
            Operation::LooselyEqual,
            Value::Object(OBJECT_PROTOTYPE),
            Value::Object(OBJECT_PROTOTYPE),
        )),
        Seen::Flag(true),
    ),
    Row(
        Step::Start(Question::Two(
            Operation::LooselyEqual,
            Value::Object(OBJECT_PROTOTYPE),
            Value::Text(CONSTRUCTOR),
        )),
        Seen::AsksWork(
            Operation::ToPrimitiveDefault,
            Few(1, Some(Value::Object(OBJECT_PROTOTYPE)), None),
        ),
    ),
    Row(
        Step::Answer(Given::Value(Value::Text(CONSTRUCTOR))),
        Seen::Flag(true),
    ),
    Row(
        Step::Start(Question::Two(
            Operation::LooselyEqual,
            Value::Bool(false),
            Value::Object(OBJECT_PROTOTYPE),
        )),
        Seen::AsksWork(
            Operation::ToPrimitiveDefault,
            Few(1, Some(Value::Object(OBJECT_PROTOTYPE)), None),
        ),
    ),
    Row(
        Step::Answer(Given::Value(Value::Text(EMPTY))),
        Seen::Flag(true),
    ),
    Row(
        Step::Start(Question::Two(
            Operation::LooselyEqual,
            Value::Object(OBJECT_PROTOTYPE),
            Value::Text(CONSTRUCTOR),
        )),
        Seen::AsksWork(
            Operation::ToPrimitiveDefault,
            Few(1, Some(Value::Object(OBJECT_PROTOTYPE)), None),
        ),
    ),
    Row(Step::Answer(Given::Thrown(FIVE)), Seen::Thrown(FIVE)),
    Row(
        Step::Start(Question::Two(
            Operation::LooselyEqual,
            Value::Text(CONSTRUCTOR),
            Value::Object(OBJECT_PROTOTYPE),
        )),
        Seen::AsksWork(
            Operation::ToPrimitiveDefault,
            Few(1, Some(Value::Object(OBJECT_PROTOTYPE)), None),
        ),
    ),
    Row(Step::Answer(Given::Thrown(FIVE)), Seen::Thrown(FIVE)),
    Row(Step::Left, Seen::Turns(10)),
];

/// IsLessThan (7.2.13), with both orders of conversion.
pub(crate) static LESS: [Row; 21] = [
    Row(
        Step::Start(Question::Less(
            Value::Object(OBJECT_PROTOTYPE),
            Value::Object(FUNCTION_PROTOTYPE),
            true,
        )),
        Seen::AsksWork(
            Operation::ToPrimitiveNumber,
            Few(1, Some(Value::Object(OBJECT_PROTOTYPE)), None),
        ),
    ),
    Row(
        Step::Answer(Given::Value(Value::Whole(1))),
        Seen::AsksWork(
            Operation::ToPrimitiveNumber,
            Few(1, Some(Value::Object(FUNCTION_PROTOTYPE)), None),
        ),
    ),
    Row(
        Step::Answer(Given::Value(Value::Whole(2))),
        Seen::Flag(true),
    ),
    Row(
        Step::Start(Question::Less(
            Value::Object(OBJECT_PROTOTYPE),
            Value::Object(FUNCTION_PROTOTYPE),
            false,
        )),
        Seen::AsksWork(
            Operation::ToPrimitiveNumber,
            Few(1, Some(Value::Object(FUNCTION_PROTOTYPE)), None),
        ),
    ),
    Row(
        Step::Answer(Given::Value(Value::Whole(1))),
        Seen::AsksWork(
            Operation::ToPrimitiveNumber,
            Few(1, Some(Value::Object(OBJECT_PROTOTYPE)), None),
        ),
    ),
    Row(
        Step::Answer(Given::Value(Value::Whole(2))),
        Seen::Flag(false),
    ),
    Row(
        Step::Start(Question::Less(Value::Object(OBJECT_PROTOTYPE), Value::Whole(5), true)),
        Seen::AsksWork(
            Operation::ToPrimitiveNumber,
            Few(1, Some(Value::Object(OBJECT_PROTOTYPE)), None),
        ),
    ),
    Row(
        Step::Answer(Given::Value(Value::Whole(1))),
        Seen::Flag(true),
    ),
    Row(
        Step::Start(Question::Less(Value::Whole(5), Value::Object(FUNCTION_PROTOTYPE), true)),
        Seen::AsksWork(
            Operation::ToPrimitiveNumber,
            Few(1, Some(Value::Object(FUNCTION_PROTOTYPE)), None),
        ),
    ),
    Row(
        Step::Answer(Given::Value(Value::Whole(1))),
        Seen::Flag(false),
    ),
    Row(Step::Text("ab"), Seen::Value(Value::Text(FIRST_TEXT))),
    Row(Step::Text("ac"), Seen::Value(Value::Text(SECOND_TEXT))),
    Row(
        Step::Start(Question::Less(Value::Text(FIRST_TEXT), Value::Text(SECOND_TEXT), true)),
        Seen::Flag(true),
    ),
    Row(Step::Left, Seen::Turns(8)),
    Row(
        Step::Start(Question::Less(Value::Text(FIRST_TEXT), Value::Text(FIRST_TEXT), true)),
        Seen::Flag(false),
    ),
    Row(Step::Left, Seen::Turns(6)),
    Row(
        Step::Start(Question::Less(Value::Text(EMPTY), Value::Text(FIRST_TEXT), true)),
        Seen::Flag(true),
    ),
    Row(Step::Left, Seen::Turns(6)),
    Row(
        Step::Start(Question::Less(Value::Symbol(HAS_INSTANCE), Value::Undefined, false)),
        Seen::Thrown(Value::Object(FIRST_OBJECT)),
    ),
    Row(
        Step::Text("cannot convert"),
        Seen::Value(Value::Text(THIRD_TEXT)),
    ),
    Row(
        Step::Message(FIRST_OBJECT),
        Seen::Property(Some(THIRD_MESSAGE)),
    ),
];

/// What is thrown at each point of IsLessThan is thrown on.
pub(crate) static LESS_THROWS: [Row; 10] = [
    Row(
        Step::Start(Question::Less(
            Value::Object(OBJECT_PROTOTYPE),
            Value::Object(FUNCTION_PROTOTYPE),
            true,
        )),
        Seen::AsksWork(
            Operation::ToPrimitiveNumber,
            Few(1, Some(Value::Object(OBJECT_PROTOTYPE)), None),
        ),
    ),
    Row(Step::Answer(Given::Thrown(FIVE)), Seen::Thrown(FIVE)),
    Row(
        Step::Start(Question::Less(
            Value::Object(OBJECT_PROTOTYPE),
            Value::Object(FUNCTION_PROTOTYPE),
            true,
        )),
        Seen::AsksWork(
            Operation::ToPrimitiveNumber,
            Few(1, Some(Value::Object(OBJECT_PROTOTYPE)), None),
        ),
    ),
    Row(
        Step::Answer(Given::Value(Value::Whole(1))),
        Seen::AsksWork(
            Operation::ToPrimitiveNumber,
            Few(1, Some(Value::Object(FUNCTION_PROTOTYPE)), None),
        ),
    ),
    Row(Step::Answer(Given::Thrown(FIVE)), Seen::Thrown(FIVE)),
    Row(
        Step::Start(Question::Less(
            Value::Object(OBJECT_PROTOTYPE),
            Value::Object(FUNCTION_PROTOTYPE),
            false,
        )),
        Seen::AsksWork(
            Operation::ToPrimitiveNumber,
            Few(1, Some(Value::Object(FUNCTION_PROTOTYPE)), None),
        ),
    ),
    Row(Step::Answer(Given::Thrown(FIVE)), Seen::Thrown(FIVE)),
    Row(
        Step::Start(Question::Less(
            Value::Object(OBJECT_PROTOTYPE),
            Value::Object(FUNCTION_PROTOTYPE),
            false,
        )),
        Seen::AsksWork(
            Operation::ToPrimitiveNumber,
            Few(1, Some(Value::Object(FUNCTION_PROTOTYPE)), None),
        ),
    ),
    Row(
        Step::Answer(Given::Value(Value::Whole(1))),
        Seen::AsksWork(
            Operation::ToPrimitiveNumber,
            Few(1, Some(Value::Object(OBJECT_PROTOTYPE)), None),
        ),
    ),
    Row(Step::Answer(Given::Thrown(FIVE)), Seen::Thrown(FIVE)),
];
