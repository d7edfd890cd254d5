//! ToPropertyDescriptor (ECMA-262, 6.2.6.5).

use super::{FIVE, Row, SEVENTH_MESSAGE, SIXTH_MESSAGE};
use crate::tests::numbers::{
    FIFTH_TEXT, FIRST_OBJECT, FIRST_TEXT, FOURTH_TEXT, OBJECT, OBJECT_PROTOTYPE, SECOND_OBJECT,
    SECOND_TEXT, SEVENTH_TEXT, SIXTH_TEXT, THIRD_TEXT,
};
use crate::tests::seen::Seen;
use crate::tests::steps::{Given, Question, Step};
use descriptors::Descriptor;
use es_model::Operation;
use property_keys::{PropKey, Value};

/// ToPropertyDescriptor (6.2.6.5): HasProperty and then Get of each field, in their order.
pub(crate) static DESCRIPTOR: [Row; 18] = [
    Row(
        Step::Start(Question::One(Operation::ToWanted, Value::Object(OBJECT_PROTOTYPE))),
        Seen::AsksHas(OBJECT_PROTOTYPE, PropKey::Name(FIRST_TEXT)),
    ),
    Row(
        Step::Answer(Given::Flag(true)),
        Seen::AsksRead(OBJECT_PROTOTYPE, PropKey::Name(FIRST_TEXT)),
    ),
    Row(
        Step::Answer(Given::Value(Value::Whole(1))),
        Seen::AsksHas(OBJECT_PROTOTYPE, PropKey::Name(SECOND_TEXT)),
    ),
    Row(
        Step::Answer(Given::Flag(true)),
        Seen::AsksRead(OBJECT_PROTOTYPE, PropKey::Name(SECOND_TEXT)),
    ),
    Row(
        Step::Answer(Given::Value(Value::Whole(0))),
        Seen::AsksHas(OBJECT_PROTOTYPE, PropKey::Name(THIRD_TEXT)),
    ),
    Row(
        Step::Answer(Given::Flag(true)),
        Seen::AsksRead(OBJECT_PROTOTYPE, PropKey::Name(THIRD_TEXT)),
    ),
    Row(
        Step::Answer(Given::Value(Value::Whole(7))),
        Seen::AsksHas(OBJECT_PROTOTYPE, PropKey::Name(FOURTH_TEXT)),
    ),
    Row(
        Step::Answer(Given::Flag(true)),
        Seen::AsksRead(OBJECT_PROTOTYPE, PropKey::Name(FOURTH_TEXT)),
    ),
    Row(
        Step::Answer(Given::Value(Value::Bool(true))),
        Seen::AsksHas(OBJECT_PROTOTYPE, PropKey::Name(FIFTH_TEXT)),
    ),
    Row(
        Step::Answer(Given::Flag(false)),
        Seen::AsksHas(OBJECT_PROTOTYPE, PropKey::Name(SIXTH_TEXT)),
    ),
    Row(
        Step::Answer(Given::Flag(false)),
        Seen::Wanted(Descriptor {
            value: Some(Value::Whole(7)),
            writable: Some(true),
            get: None,
            set: None,
            enumerable: Some(true),
            configurable: Some(false),
        }),
    ),
    Row(
        Step::Text("enumerable"),
        Seen::Value(Value::Text(FIRST_TEXT)),
    ),
    Row(
        Step::Text("configurable"),
        Seen::Value(Value::Text(SECOND_TEXT)),
    ),
    Row(Step::Text("value"), Seen::Value(Value::Text(THIRD_TEXT))),
    Row(
        Step::Text("writable"),
        Seen::Value(Value::Text(FOURTH_TEXT)),
    ),
    Row(Step::Text("get"), Seen::Value(Value::Text(FIFTH_TEXT))),
    Row(Step::Text("set"), Seen::Value(Value::Text(SIXTH_TEXT))),
    Row(Step::Left, Seen::Turns(10)),
];

/// A getter and a setter.
pub(crate) static ACCESSOR: [Row; 9] = [
    Row(
        Step::Start(Question::One(Operation::ToWanted, Value::Object(OBJECT_PROTOTYPE))),
        Seen::AsksHas(OBJECT_PROTOTYPE, PropKey::Name(FIRST_TEXT)),
    ),
    Row(
        Step::Answer(Given::Flag(false)),
        Seen::AsksHas(OBJECT_PROTOTYPE, PropKey::Name(SECOND_TEXT)),
    ),
    Row(
        Step::Answer(Given::Flag(false)),
        Seen::AsksHas(OBJECT_PROTOTYPE, PropKey::Name(THIRD_TEXT)),
    ),
    Row(
        Step::Answer(Given::Flag(false)),
        Seen::AsksHas(OBJECT_PROTOTYPE, PropKey::Name(FOURTH_TEXT)),
    ),
    Row(
        Step::Answer(Given::Flag(false)),
        Seen::AsksHas(OBJECT_PROTOTYPE, PropKey::Name(FIFTH_TEXT)),
    ),
    Row(
        Step::Answer(Given::Flag(true)),
        Seen::AsksRead(OBJECT_PROTOTYPE, PropKey::Name(FIFTH_TEXT)),
    ),
    Row(
        Step::Answer(Given::Value(Value::Object(OBJECT))),
        Seen::AsksHas(OBJECT_PROTOTYPE, PropKey::Name(SIXTH_TEXT)),
    ),
    Row(
        Step::Answer(Given::Flag(true)),
        Seen::AsksRead(OBJECT_PROTOTYPE, PropKey::Name(SIXTH_TEXT)),
    ),
    Row(
        Step::Answer(Given::Value(Value::Undefined)),
        Seen::Wanted(Descriptor {
            value: None,
            writable: None,
            get: Some(Value::Object(OBJECT)),
            set: Some(Value::Undefined),
            enumerable: None,
            configurable: None,
        }),
    ),
];

/// A descriptor of both kinds.
pub(crate) static MIXED: [Row; 11] = [
    Row(
        Step::Start(Question::One(Operation::ToWanted, Value::Object(OBJECT_PROTOTYPE))),
        Seen::AsksHas(OBJECT_PROTOTYPE, PropKey::Name(FIRST_TEXT)),
    ),
    Row(
        Step::Answer(Given::Flag(false)),
        Seen::AsksHas(OBJECT_PROTOTYPE, PropKey::Name(SECOND_TEXT)),
    ),
    Row(
        Step::Answer(Given::Flag(false)),
        Seen::AsksHas(OBJECT_PROTOTYPE, PropKey::Name(THIRD_TEXT)),
    ),
    Row(
        Step::Answer(Given::Flag(true)),
        Seen::AsksRead(OBJECT_PROTOTYPE, PropKey::Name(THIRD_TEXT)),
    ),
    Row(
        Step::Answer(Given::Value(Value::Whole(7))),
        Seen::AsksHas(OBJECT_PROTOTYPE, PropKey::Name(FOURTH_TEXT)),
    ),
    Row(
        Step::Answer(Given::Flag(false)),
        Seen::AsksHas(OBJECT_PROTOTYPE, PropKey::Name(FIFTH_TEXT)),
    ),
    Row(
        Step::Answer(Given::Flag(true)),
        Seen::AsksRead(OBJECT_PROTOTYPE, PropKey::Name(FIFTH_TEXT)),
    ),
    Row(
        Step::Answer(Given::Value(Value::Object(OBJECT))),
        Seen::AsksHas(OBJECT_PROTOTYPE, PropKey::Name(SIXTH_TEXT)),
    ),
    Row(
        Step::Answer(Given::Flag(false)),
        Seen::Thrown(Value::Object(FIRST_OBJECT)),
    ),
    Row(
        Step::Text("bad descriptor"),
        Seen::Value(Value::Text(SEVENTH_TEXT)),
    ),
    Row(
        Step::Message(FIRST_OBJECT),
        Seen::Property(Some(SEVENTH_MESSAGE)),
    ),
];

/// A getter that cannot be called, and what is thrown at each point.
pub(crate) static NO_GETTER: [Row; 15] = [
    Row(
        Step::Start(Question::One(Operation::ToWanted, Value::Object(OBJECT_PROTOTYPE))),
        Seen::AsksHas(OBJECT_PROTOTYPE, PropKey::Name(FIRST_TEXT)),
    ),
    Row(Step::Answer(Given::Thrown(FIVE)), Seen::Thrown(FIVE)),
    Row(
        Step::Start(Question::One(Operation::ToWanted, Value::Object(OBJECT_PROTOTYPE))),
        Seen::AsksHas(OBJECT_PROTOTYPE, PropKey::Name(FIRST_TEXT)),
    ),
    Row(
        Step::Answer(Given::Flag(true)),
        Seen::AsksRead(OBJECT_PROTOTYPE, PropKey::Name(FIRST_TEXT)),
    ),
    Row(Step::Answer(Given::Thrown(FIVE)), Seen::Thrown(FIVE)),
    Row(
        Step::Start(Question::One(Operation::ToWanted, Value::Object(OBJECT_PROTOTYPE))),
        Seen::AsksHas(OBJECT_PROTOTYPE, PropKey::Name(FIRST_TEXT)),
    ),
    Row(
        Step::Answer(Given::Flag(false)),
        Seen::AsksHas(OBJECT_PROTOTYPE, PropKey::Name(SECOND_TEXT)),
    ),
    Row(
        Step::Answer(Given::Flag(false)),
        Seen::AsksHas(OBJECT_PROTOTYPE, PropKey::Name(THIRD_TEXT)),
    ),
    Row(
        Step::Answer(Given::Flag(false)),
        Seen::AsksHas(OBJECT_PROTOTYPE, PropKey::Name(FOURTH_TEXT)),
    ),
    Row(
        Step::Answer(Given::Flag(false)),
        Seen::AsksHas(OBJECT_PROTOTYPE, PropKey::Name(FIFTH_TEXT)),
    ),
    Row(
        Step::Answer(Given::Flag(true)),
        Seen::AsksRead(OBJECT_PROTOTYPE, PropKey::Name(FIFTH_TEXT)),
    ),
    Row(
        Step::Answer(Given::Value(Value::Object(OBJECT_PROTOTYPE))),
        Seen::Thrown(Value::Object(FIRST_OBJECT)),
    ),
    Row(
        Step::Text("not a function"),
        Seen::Value(Value::Text(SIXTH_TEXT)),
    ),
    Row(
        Step::Message(FIRST_OBJECT),
        Seen::Property(Some(SIXTH_MESSAGE)),
    ),
    Row(
        Step::Start(Question::One(Operation::ToWanted, Value::Whole(1))),
        Seen::Thrown(Value::Object(SECOND_OBJECT)),
    ),
];
