//! CreateListFromArrayLike (ECMA-262, 7.3.19).

use super::{FIRST_MESSAGE, FIVE, Row};
use crate::tests::numbers::{
    CONSTRUCTOR, FIRST_OBJECT, FIRST_TEXT, LENGTH, OBJECT, OBJECT_PROTOTYPE, TO_PRIMITIVE,
};
use crate::tests::seen::{Few, Seen};
use crate::tests::steps::{Given, Question, Step};
use es_model::Operation;
use property_keys::{PropKey, Value};

/// CreateListFromArrayLike (7.3.19): the length is read once, and a turn is taken for each element.
pub(crate) static LIST: [Row; 19] = [
    Row(
        Step::Start(Question::One(
            Operation::ListFromArrayLike,
            Value::Object(OBJECT_PROTOTYPE),
        )),
        Seen::AsksRead(OBJECT_PROTOTYPE, PropKey::Name(LENGTH)),
    ),
    Row(
        Step::Answer(Given::Value(Value::Whole(2))),
        Seen::AsksRead(OBJECT_PROTOTYPE, PropKey::Index(0)),
    ),
    Row(Step::Left, Seen::Turns(9)),
    Row(
        Step::Answer(Given::Value(Value::Whole(7))),
        Seen::AsksRead(OBJECT_PROTOTYPE, PropKey::Index(1)),
    ),
    Row(Step::Left, Seen::Turns(8)),
    Row(
        Step::Answer(Given::Value(Value::Undefined)),
        Seen::List(Few(2, Some(Value::Whole(7)), Some(Value::Undefined))),
    ),
    Row(
        Step::Start(Question::One(
            Operation::ListFromArrayLike,
            Value::Object(OBJECT_PROTOTYPE),
        )),
        Seen::AsksRead(OBJECT_PROTOTYPE, PropKey::Name(LENGTH)),
    ),
    Row(
        Step::Answer(Given::Value(Value::Text(CONSTRUCTOR))),
        Seen::AsksWork(
            Operation::ToWhole,
            Few(1, Some(Value::Text(CONSTRUCTOR)), None),
        ),
    ),
    Row(
        Step::Answer(Given::Value(Value::Whole(1))),
        Seen::AsksRead(OBJECT_PROTOTYPE, PropKey::Index(0)),
    ),
    Row(Step::Left, Seen::Turns(7)),
    Row(
        Step::Answer(Given::Value(Value::Object(OBJECT))),
        Seen::List(Few(1, Some(Value::Object(OBJECT)), None)),
    ),
    Row(
        Step::Start(Question::One(
            Operation::ListFromArrayLike,
            Value::Object(OBJECT_PROTOTYPE),
        )),
        Seen::AsksRead(OBJECT_PROTOTYPE, PropKey::Name(LENGTH)),
    ),
    Row(
        Step::Answer(Given::Value(Value::Undefined)),
        Seen::List(Few(0, None, None)),
    ),
    Row(
        Step::Start(Question::One(
            Operation::ListFromArrayLike,
            Value::Object(OBJECT_PROTOTYPE),
        )),
        Seen::AsksRead(OBJECT_PROTOTYPE, PropKey::Name(LENGTH)),
    ),
    Row(
        Step::Answer(Given::Value(Value::Whole(-3))),
        Seen::List(Few(0, None, None)),
    ),
    Row(Step::Left, Seen::Turns(7)),
    Row(
        Step::Start(Question::One(Operation::ListFromArrayLike, Value::Whole(1))),
        Seen::Thrown(Value::Object(FIRST_OBJECT)),
    ),
    Row(
        Step::Text("not an object"),
        Seen::Value(Value::Text(FIRST_TEXT)),
    ),
    Row(
        Step::Message(FIRST_OBJECT),
        Seen::Property(Some(FIRST_MESSAGE)),
    ),
];

/// Elements that are to be property keys.
pub(crate) static LIST_OF_KEYS: [Row; 10] = [
    Row(
        Step::Start(Question::One(
            Operation::KeysFromArrayLike,
            Value::Object(OBJECT_PROTOTYPE),
        )),
        Seen::AsksRead(OBJECT_PROTOTYPE, PropKey::Name(LENGTH)),
    ),
    Row(
        Step::Answer(Given::Value(Value::Whole(2))),
        Seen::AsksRead(OBJECT_PROTOTYPE, PropKey::Index(0)),
    ),
    Row(
        Step::Answer(Given::Value(Value::Text(CONSTRUCTOR))),
        Seen::AsksRead(OBJECT_PROTOTYPE, PropKey::Index(1)),
    ),
    Row(
        Step::Answer(Given::Value(Value::Symbol(TO_PRIMITIVE))),
        Seen::Keys(2, Some(PropKey::Name(CONSTRUCTOR))),
    ),
    Row(
        Step::Start(Question::One(
            Operation::KeysFromArrayLike,
            Value::Object(OBJECT_PROTOTYPE),
        )),
        Seen::AsksRead(OBJECT_PROTOTYPE, PropKey::Name(LENGTH)),
    ),
    Row(
        Step::Answer(Given::Value(Value::Whole(2))),
        Seen::AsksRead(OBJECT_PROTOTYPE, PropKey::Index(0)),
    ),
    Row(
        Step::Answer(Given::Value(Value::Whole(1))),
        Seen::Thrown(Value::Object(FIRST_OBJECT)),
    ),
    Row(
        Step::Text("wrong value"),
        Seen::Value(Value::Text(FIRST_TEXT)),
    ),
    Row(
        Step::Message(FIRST_OBJECT),
        Seen::Property(Some(FIRST_MESSAGE)),
    ),
    Row(Step::Left, Seen::Turns(7)),
];

/// What is thrown at each point is thrown on, and a list halts at the turn that is not there.
pub(crate) static LIST_THROWS: [Row; 21] = [
    Row(
        Step::Start(Question::One(
            Operation::ListFromArrayLike,
            Value::Object(OBJECT_PROTOTYPE),
        )),
        Seen::AsksRead(OBJECT_PROTOTYPE, PropKey::Name(LENGTH)),
    ),
    Row(Step::Answer(Given::Thrown(FIVE)), Seen::Thrown(FIVE)),
    Row(
        Step::Start(Question::One(
            Operation::ListFromArrayLike,
            Value::Object(OBJECT_PROTOTYPE),
        )),
        Seen::AsksRead(OBJECT_PROTOTYPE, PropKey::Name(LENGTH)),
    ),
    Row(
        Step::Answer(Given::Value(Value::Text(CONSTRUCTOR))),
        Seen::AsksWork(
            Operation::ToWhole,
            Few(1, Some(Value::Text(CONSTRUCTOR)), None),
        ),
    ),
    Row(Step::Answer(Given::Thrown(FIVE)), Seen::Thrown(FIVE)),
    Row(
        Step::Start(Question::One(
            Operation::ListFromArrayLike,
            Value::Object(OBJECT_PROTOTYPE),
        )),
        Seen::AsksRead(OBJECT_PROTOTYPE, PropKey::Name(LENGTH)),
    ),
    Row(
        Step::Answer(Given::Value(Value::Whole(2))),
        Seen::AsksRead(OBJECT_PROTOTYPE, PropKey::Index(0)),
    ),
    Row(Step::Answer(Given::Thrown(FIVE)), Seen::Thrown(FIVE)),
    Row(Step::Left, Seen::Turns(9)),
    Row(
        Step::Start(Question::One(
            Operation::ListFromArrayLike,
            Value::Object(OBJECT_PROTOTYPE),
        )),
        Seen::AsksRead(OBJECT_PROTOTYPE, PropKey::Name(LENGTH)),
    ),
    Row(
        Step::Answer(Given::Value(Value::Whole(99))),
        Seen::AsksRead(OBJECT_PROTOTYPE, PropKey::Index(0)),
    ),
    Row(
        Step::Answer(Given::Value(Value::Undefined)),
        Seen::AsksRead(OBJECT_PROTOTYPE, PropKey::Index(1)),
    ),
    Row(
        Step::Answer(Given::Value(Value::Undefined)),
        Seen::AsksRead(OBJECT_PROTOTYPE, PropKey::Index(2)),
    ),
    Row(
        Step::Answer(Given::Value(Value::Undefined)),
        Seen::AsksRead(OBJECT_PROTOTYPE, PropKey::Index(3)),
    ),
    Row(
        Step::Answer(Given::Value(Value::Undefined)),
        Seen::AsksRead(OBJECT_PROTOTYPE, PropKey::Index(4)),
    ),
    Row(
        Step::Answer(Given::Value(Value::Undefined)),
        Seen::AsksRead(OBJECT_PROTOTYPE, PropKey::Index(5)),
    ),
    Row(
        Step::Answer(Given::Value(Value::Undefined)),
        Seen::AsksRead(OBJECT_PROTOTYPE, PropKey::Index(6)),
    ),
    Row(
        Step::Answer(Given::Value(Value::Undefined)),
        Seen::AsksRead(OBJECT_PROTOTYPE, PropKey::Index(7)),
    ),
    Row(
        Step::Answer(Given::Value(Value::Undefined)),
        Seen::AsksRead(OBJECT_PROTOTYPE, PropKey::Index(8)),
    ),
    Row(Step::Left, Seen::Turns(0)),
    Row(Step::Answer(Given::Value(Value::Undefined)), Seen::Halted),
];
