//! The function that prints a line, and calls and constructions of what has no such method.

use super::{FIRST_MESSAGE, FIVE, Row, SECOND_MESSAGE};
use crate::tests::numbers::{
    CONSTRUCTOR, EMPTY, FIRST_OBJECT, FIRST_TEXT, OBJECT_PROTOTYPE, PRINT_FUNCTION, SECOND_OBJECT,
    SECOND_TEXT, THIRD_OBJECT,
};
use crate::tests::seen::{Few, Seen};
use crate::tests::steps::{Given, Question, Step};
use es_model::Operation;
use property_keys::Value;

/// The function that prints a line: its arguments from left to right, and then the line.
pub(crate) static PRINT: [Row; 13] = [
    Row(
        Step::Start(Question::Call(
            Value::Object(PRINT_FUNCTION),
            Value::Whole(1),
            Value::Text(CONSTRUCTOR),
        )),
        Seen::AsksWork(Operation::ToText, Few(1, Some(Value::Whole(1)), None)),
    ),
    Row(Step::Left, Seen::Turns(9)),
    Row(
        Step::Answer(Given::Value(Value::Text(EMPTY))),
        Seen::AsksWork(
            Operation::ToText,
            Few(1, Some(Value::Text(CONSTRUCTOR)), None),
        ),
    ),
    Row(Step::Left, Seen::Turns(8)),
    Row(
        Step::Answer(Given::Value(Value::Text(CONSTRUCTOR))),
        Seen::AsksPrint(Few(2, Some(Value::Text(EMPTY)), Some(Value::Text(CONSTRUCTOR)))),
    ),
    Row(
        Step::Answer(Given::Value(Value::Whole(1))),
        Seen::Value(Value::Undefined),
    ),
    Row(
        Step::Start(Question::Call(
            Value::Object(PRINT_FUNCTION),
            Value::Whole(1),
            Value::Text(CONSTRUCTOR),
        )),
        Seen::AsksWork(Operation::ToText, Few(1, Some(Value::Whole(1)), None)),
    ),
    Row(Step::Answer(Given::Thrown(FIVE)), Seen::Thrown(FIVE)),
    Row(
        Step::Start(Question::Call(
            Value::Object(PRINT_FUNCTION),
            Value::Whole(1),
            Value::Text(CONSTRUCTOR),
        )),
        Seen::AsksWork(Operation::ToText, Few(1, Some(Value::Whole(1)), None)),
    ),
    Row(
        Step::Answer(Given::Value(Value::Text(EMPTY))),
        Seen::AsksWork(
            Operation::ToText,
            Few(1, Some(Value::Text(CONSTRUCTOR)), None),
        ),
    ),
    Row(
        Step::Answer(Given::Value(Value::Text(CONSTRUCTOR))),
        Seen::AsksPrint(Few(2, Some(Value::Text(EMPTY)), Some(Value::Text(CONSTRUCTOR)))),
    ),
    Row(Step::Answer(Given::Thrown(FIVE)), Seen::Thrown(FIVE)),
    Row(Step::Left, Seen::Turns(5)),
];

/// Calls and constructions of what has no such method, and what does not come here.
pub(crate) static CALLS: [Row; 12] = [
    Row(
        Step::Start(Question::Call(Value::Whole(1), Value::Undefined, Value::Undefined)),
        Seen::Thrown(Value::Object(FIRST_OBJECT)),
    ),
    Row(
        Step::Text("not a function"),
        Seen::Value(Value::Text(FIRST_TEXT)),
    ),
    Row(
        Step::Message(FIRST_OBJECT),
        Seen::Property(Some(FIRST_MESSAGE)),
    ),
    Row(
        Step::Start(Question::Call(
            Value::Object(OBJECT_PROTOTYPE),
            Value::Undefined,
            Value::Undefined,
        )),
        Seen::Thrown(Value::Object(SECOND_OBJECT)),
    ),
    Row(
        Step::Message(SECOND_OBJECT),
        Seen::Property(Some(FIRST_MESSAGE)),
    ),
    Row(
        Step::Start(Question::Construct(PRINT_FUNCTION)),
        Seen::Thrown(Value::Object(THIRD_OBJECT)),
    ),
    Row(
        Step::Text("not a constructor"),
        Seen::Value(Value::Text(SECOND_TEXT)),
    ),
    Row(
        Step::Message(THIRD_OBJECT),
        Seen::Property(Some(SECOND_MESSAGE)),
    ),
    Row(Step::Left, Seen::Turns(10)),
    Row(Step::Start(Question::Keys), Seen::Thrown(Value::Undefined)),
    Row(
        Step::Start(Question::Two(Operation::ToText, Value::Whole(1), Value::Whole(2))),
        Seen::Thrown(Value::Undefined),
    ),
    Row(
        Step::Start(Question::One(Operation::LessThan, Value::Whole(1))),
        Seen::Thrown(Value::Undefined),
    ),
];
