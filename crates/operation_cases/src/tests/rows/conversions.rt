//! ToString, ToNumber and ToPropertyKey (ECMA-262, 7.1.17, 7.1.4, 7.1.19).

use super::{FIVE, FOURTH_MESSAGE, Row, THIRD_MESSAGE};
use crate::tests::numbers::{
    CONSTRUCTOR, EMPTY, FIRST_OBJECT, FIRST_TEXT, FOURTH_TEXT, HAS_INSTANCE, OBJECT_PROTOTYPE,
    SECOND_OBJECT, SECOND_TEXT, THIRD_OBJECT, THIRD_TEXT, TO_STRING_TAG, UNDEFINED,
};
use crate::tests::seen::{Few, Seen};
use crate::tests::steps::{Given, Question, Step};
use es_model::Operation;
use property_keys::{PropKey, Value};

/// ToString (7.1.17).
pub(crate) static TEXTS: [Row; 16] = [
    Row(
        Step::Start(Question::One(Operation::ToText, Value::Text(CONSTRUCTOR))),
        Seen::Value(Value::Text(CONSTRUCTOR)),
    ),
    Row(
        Step::Start(Question::One(Operation::ToText, Value::Undefined)),
        Seen::Value(Value::Text(UNDEFINED)),
    ),
    Row(
        Step::Start(Question::One(Operation::ToText, Value::Null)),
        Seen::Value(Value::Text(FIRST_TEXT)),
    ),
    Row(Step::Text("null"), Seen::Value(Value::Text(FIRST_TEXT))),
    Row(
        Step::Start(Question::One(Operation::ToText, Value::Bool(false))),
        Seen::Value(Value::Text(SECOND_TEXT)),
    ),
    Row(Step::Text("false"), Seen::Value(Value::Text(SECOND_TEXT))),
    Row(
        Step::Start(Question::One(Operation::ToText, Value::Whole(-20))),
        Seen::Value(Value::Text(THIRD_TEXT)),
    ),
    Row(Step::Text("-20"), Seen::Value(Value::Text(THIRD_TEXT))),
    Row(
        Step::Start(Question::One(Operation::ToText, Value::Symbol(HAS_INSTANCE))),
        Seen::Thrown(Value::Object(FIRST_OBJECT)),
    ),
    Row(
        Step::Text("cannot convert"),
        Seen::Value(Value::Text(FOURTH_TEXT)),
    ),
    Row(
        Step::Message(FIRST_OBJECT),
        Seen::Property(Some(FOURTH_MESSAGE)),
    ),
    Row(
        Step::Start(Question::One(Operation::ToText, Value::Object(OBJECT_PROTOTYPE))),
        Seen::AsksWork(
            Operation::ToPrimitiveText,
            Few(1, Some(Value::Object(OBJECT_PROTOTYPE)), None),
        ),
    ),
    Row(
        Step::Answer(Given::Value(Value::Null)),
        Seen::Value(Value::Text(FIRST_TEXT)),
    ),
    Row(
        Step::Start(Question::One(Operation::ToText, Value::Object(OBJECT_PROTOTYPE))),
        Seen::AsksWork(
            Operation::ToPrimitiveText,
            Few(1, Some(Value::Object(OBJECT_PROTOTYPE)), None),
        ),
    ),
    Row(Step::Answer(Given::Thrown(FIVE)), Seen::Thrown(FIVE)),
    Row(Step::Left, Seen::Turns(10)),
];

/// ToNumber (7.1.4).
pub(crate) static NUMBERS: [Row; 19] = [
    Row(
        Step::Start(Question::One(Operation::ToWhole, Value::Whole(3))),
        Seen::Value(Value::Whole(3)),
    ),
    Row(
        Step::Start(Question::One(Operation::ToWhole, Value::Text(EMPTY))),
        Seen::Value(Value::Whole(0)),
    ),
    Row(Step::Text("0x1F"), Seen::Value(Value::Text(FIRST_TEXT))),
    Row(
        Step::Start(Question::One(Operation::ToWhole, Value::Text(FIRST_TEXT))),
        Seen::Value(Value::Whole(31)),
    ),
    Row(Step::Text("+0x1F"), Seen::Value(Value::Text(SECOND_TEXT))),
    Row(
        Step::Start(Question::One(Operation::ToWhole, Value::Text(SECOND_TEXT))),
        Seen::Thrown(Value::Object(FIRST_OBJECT)),
    ),
    Row(
        Step::Text("number outside the profile"),
        Seen::Value(Value::Text(THIRD_TEXT)),
    ),
    Row(
        Step::Message(FIRST_OBJECT),
        Seen::Property(Some(THIRD_MESSAGE)),
    ),
    Row(
        Step::Start(Question::One(Operation::ToWhole, Value::Undefined)),
        Seen::Thrown(Value::Object(SECOND_OBJECT)),
    ),
    Row(
        Step::Message(SECOND_OBJECT),
        Seen::Property(Some(THIRD_MESSAGE)),
    ),
    Row(
        Step::Start(Question::One(Operation::ToWhole, Value::Symbol(HAS_INSTANCE))),
        Seen::Thrown(Value::Object(THIRD_OBJECT)),
    ),
    Row(
        Step::Text("cannot convert"),
        Seen::Value(Value::Text(FOURTH_TEXT)),
    ),
    Row(
        Step::Message(THIRD_OBJECT),
        Seen::Property(Some(FOURTH_MESSAGE)),
    ),
    Row(
        Step::Start(Question::One(Operation::ToWhole, Value::Bool(true))),
        Seen::Value(Value::Whole(1)),
    ),
    Row(
        Step::Start(Question::One(Operation::ToWhole, Value::Null)),
        Seen::Value(Value::Whole(0)),
    ),
    Row(
        Step::Start(Question::One(Operation::ToWhole, Value::Object(OBJECT_PROTOTYPE))),
        Seen::AsksWork(
            Operation::ToPrimitiveNumber,
            Few(1, Some(Value::Object(OBJECT_PROTOTYPE)), None),
        ),
    ),
    Row(
        Step::Answer(Given::Value(Value::Bool(false))),
        Seen::Value(Value::Whole(0)),
    ),
    Row(
        Step::Start(Question::One(Operation::ToWhole, Value::Object(OBJECT_PROTOTYPE))),
        Seen::AsksWork(
            Operation::ToPrimitiveNumber,
            Few(1, Some(Value::Object(OBJECT_PROTOTYPE)), None),
        ),
    ),
    Row(Step::Answer(Given::Thrown(FIVE)), Seen::Thrown(FIVE)),
];

/// ToPropertyKey (7.1.19).
pub(crate) static KEYS: [Row; 14] = [
    Row(
        Step::Start(Question::One(Operation::ToKey, Value::Text(CONSTRUCTOR))),
        Seen::Key(PropKey::Name(CONSTRUCTOR)),
    ),
    Row(
        Step::Start(Question::One(Operation::ToKey, Value::Whole(4294967294))),
        Seen::Key(PropKey::Index(4294967294)),
    ),
    Row(
        Step::Start(Question::One(Operation::ToKey, Value::Whole(4294967295))),
        Seen::Key(PropKey::Name(FIRST_TEXT)),
    ),
    Row(
        Step::Text("4294967295"),
        Seen::Value(Value::Text(FIRST_TEXT)),
    ),
    Row(Step::Text("17"), Seen::Value(Value::Text(SECOND_TEXT))),
    Row(
        Step::Start(Question::One(Operation::ToKey, Value::Text(SECOND_TEXT))),
        Seen::Key(PropKey::Index(17)),
    ),
    Row(
        Step::Start(Question::One(Operation::ToKey, Value::Symbol(TO_STRING_TAG))),
        Seen::Key(PropKey::Sym(TO_STRING_TAG)),
    ),
    Row(
        Step::Start(Question::One(Operation::ToKey, Value::Null)),
        Seen::Key(PropKey::Name(THIRD_TEXT)),
    ),
    Row(
        Step::Start(Question::One(Operation::ToKey, Value::Whole(-1))),
        Seen::Key(PropKey::Name(FOURTH_TEXT)),
    ),
    Row(Step::Text("-1"), Seen::Value(Value::Text(FOURTH_TEXT))),
    Row(
        Step::Start(Question::One(Operation::ToKey, Value::Object(OBJECT_PROTOTYPE))),
        Seen::AsksWork(
            Operation::ToPrimitiveText,
            Few(1, Some(Value::Object(OBJECT_PROTOTYPE)), None),
        ),
    ),
    Row(
        Step::Answer(Given::Value(Value::Whole(0))),
        Seen::Key(PropKey::Index(0)),
    ),
    Row(
        Step::Start(Question::One(Operation::ToKey, Value::Object(OBJECT_PROTOTYPE))),
        Seen::AsksWork(
            Operation::ToPrimitiveText,
            Few(1, Some(Value::Object(OBJECT_PROTOTYPE)), None),
        ),
    ),
    Row(Step::Answer(Given::Thrown(FIVE)), Seen::Thrown(FIVE)),
];
