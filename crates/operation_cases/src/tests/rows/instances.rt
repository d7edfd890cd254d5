//! InstanceofOperator and OrdinaryHasInstance (ECMA-262, 13.10.2, 7.3.21).

use super::{FIRST_MESSAGE, FIVE, Row, SECOND_MESSAGE};
use crate::tests::numbers::{
    ARRAY_PROTOTYPE, FIRST_OBJECT, FIRST_TEXT, FUNCTION, FUNCTION_PROTOTYPE, HAS_INSTANCE, OBJECT,
    OBJECT_PROTOTYPE, PROTOTYPE, SECOND_OBJECT, SECOND_TEXT, THIRD_OBJECT,
};
use crate::tests::seen::{Few, Seen};
use crate::tests::steps::{Given, Question, Step};
use es_model::Operation;
use property_keys::{PropKey, Value};

/// InstanceofOperator (13.10.2) and OrdinaryHasInstance (7.3.21).
pub(crate) static INSTANCE: [Row; 28] = [
    Row(
        Step::Start(Question::Two(
            Operation::InstanceOf,
            Value::Object(ARRAY_PROTOTYPE),
            Value::Object(OBJECT),
        )),
        Seen::AsksRead(OBJECT, PropKey::Sym(HAS_INSTANCE)),
    ),
    Row(
        Step::Answer(Given::Value(Value::Undefined)),
        Seen::AsksRead(OBJECT, PropKey::Name(PROTOTYPE)),
    ),
    Row(
        Step::Answer(Given::Value(Value::Object(OBJECT_PROTOTYPE))),
        Seen::AsksProto(ARRAY_PROTOTYPE),
    ),
    Row(Step::Left, Seen::Turns(9)),
    Row(
        Step::Answer(Given::Proto(Some(FUNCTION_PROTOTYPE))),
        Seen::AsksProto(FUNCTION_PROTOTYPE),
    ),
    Row(
        Step::Answer(Given::Proto(Some(OBJECT_PROTOTYPE))),
        Seen::Flag(true),
    ),
    Row(Step::Left, Seen::Turns(8)),
    Row(
        Step::Start(Question::Two(
            Operation::InstanceOf,
            Value::Object(ARRAY_PROTOTYPE),
            Value::Object(OBJECT),
        )),
        Seen::AsksRead(OBJECT, PropKey::Sym(HAS_INSTANCE)),
    ),
    Row(
        Step::Answer(Given::Value(Value::Undefined)),
        Seen::AsksRead(OBJECT, PropKey::Name(PROTOTYPE)),
    ),
    Row(
        Step::Answer(Given::Value(Value::Object(OBJECT_PROTOTYPE))),
        Seen::AsksProto(ARRAY_PROTOTYPE),
    ),
    Row(Step::Answer(Given::Proto(None)), Seen::Flag(false)),
    Row(Step::Left, Seen::Turns(7)),
    Row(
        Step::Start(Question::Two(
            Operation::InstanceOf,
            Value::Object(ARRAY_PROTOTYPE),
            Value::Object(OBJECT),
        )),
        Seen::AsksRead(OBJECT, PropKey::Sym(HAS_INSTANCE)),
    ),
    Row(
        Step::Answer(Given::Value(Value::Object(FUNCTION))),
        Seen::AsksCall(
            Value::Object(FUNCTION),
            Value::Object(OBJECT),
            Few(1, Some(Value::Object(ARRAY_PROTOTYPE)), None),
        ),
    ),
    Row(
        Step::Answer(Given::Value(Value::Whole(0))),
        Seen::Flag(false),
    ),
    Row(
        Step::Start(Question::Two(
            Operation::InstanceOf,
            Value::Whole(1),
            Value::Object(OBJECT),
        )),
        Seen::AsksRead(OBJECT, PropKey::Sym(HAS_INSTANCE)),
    ),
    Row(Step::Answer(Given::Value(Value::Null)), Seen::Flag(false)),
    Row(
        Step::Start(Question::Two(
            Operation::InstanceOf,
            Value::Object(ARRAY_PROTOTYPE),
            Value::Whole(1),
        )),
        Seen::Thrown(Value::Object(FIRST_OBJECT)),
    ),
    Row(
        Step::Text("not an object"),
        Seen::Value(Value::Text(FIRST_TEXT)),
    ),
    Row(
        Step::Message(FIRST_OBJECT),
        Seen::Property(Some(FIRST_MESSAGE)),
    ),
    Row(
        Step::Start(Question::Two(
            Operation::InstanceOf,
            Value::Object(ARRAY_PROTOTYPE),
            Value::Object(OBJECT_PROTOTYPE),
        )),
        Seen::AsksRead(OBJECT_PROTOTYPE, PropKey::Sym(HAS_INSTANCE)),
    ),
    Row(
        Step::Answer(Given::Value(Value::Undefined)),
        Seen::Thrown(Value::Object(SECOND_OBJECT)),
    ),
    Row(
        Step::Text("not a function"),
        Seen::Value(Value::Text(SECOND_TEXT)),
    ),
    Row(
        Step::Message(SECOND_OBJECT),
        Seen::Property(Some(SECOND_MESSAGE)),
    ),
    Row(
        Step::Start(Question::Two(
            Operation::InstanceOf,
            Value::Object(ARRAY_PROTOTYPE),
            Value::Object(OBJECT),
        )),
        Seen::AsksRead(OBJECT, PropKey::Sym(HAS_INSTANCE)),
    ),
    Row(
        Step::Answer(Given::Value(Value::Undefined)),
        Seen::AsksRead(OBJECT, PropKey::Name(PROTOTYPE)),
    ),
    Row(
        Step::Answer(Given::Value(Value::Whole(1))),
        Seen::Thrown(Value::Object(THIRD_OBJECT)),
    ),
    Row(
        Step::Message(THIRD_OBJECT),
        Seen::Property(Some(FIRST_MESSAGE)),
    ),
];

/// What is thrown at each point of instanceof is thrown on.
pub(crate) static INSTANCE_THROWS: [Row; 13] = [
    Row(
        Step::Start(Question::Two(
            Operation::InstanceOf,
            Value::Object(ARRAY_PROTOTYPE),
            Value::Object(OBJECT),
        )),
        Seen::AsksRead(OBJECT, PropKey::Sym(HAS_INSTANCE)),
    ),
    Row(Step::Answer(Given::Thrown(FIVE)), Seen::Thrown(FIVE)),
    Row(
        Step::Start(Question::Two(
            Operation::InstanceOf,
            Value::Object(ARRAY_PROTOTYPE),
            Value::Object(OBJECT),
        )),
        Seen::AsksRead(OBJECT, PropKey::Sym(HAS_INSTANCE)),
    ),
    Row(
        Step::Answer(Given::Value(Value::Object(FUNCTION))),
        Seen::AsksCall(
            Value::Object(FUNCTION),
            Value::Object(OBJECT),
            Few(1, Some(Value::Object(ARRAY_PROTOTYPE)), None),
        ),
    ),
    Row(Step::Answer(Given::Thrown(FIVE)), Seen::Thrown(FIVE)),
    Row(
        Step::Start(Question::Two(
            Operation::InstanceOf,
            Value::Object(ARRAY_PROTOTYPE),
            Value::Object(OBJECT),
        )),
        Seen::AsksRead(OBJECT, PropKey::Sym(HAS_INSTANCE)),
    ),
    Row(
        Step::Answer(Given::Value(Value::Undefined)),
        Seen::AsksRead(OBJECT, PropKey::Name(PROTOTYPE)),
    ),
    Row(Step::Answer(Given::Thrown(FIVE)), Seen::Thrown(FIVE)),
    Row(
        Step::Start(Question::Two(
            Operation::InstanceOf,
            Value::Object(ARRAY_PROTOTYPE),
            Value::Object(OBJECT),
        )),
        Seen::AsksRead(OBJECT, PropKey::Sym(HAS_INSTANCE)),
    ),
    Row(
        Step::Answer(Given::Value(Value::Undefined)),
        Seen::AsksRead(OBJECT, PropKey::Name(PROTOTYPE)),
    ),
    Row(
        Step::Answer(Given::Value(Value::Object(OBJECT_PROTOTYPE))),
        Seen::AsksProto(ARRAY_PROTOTYPE),
    ),
    Row(Step::Answer(Given::Thrown(FIVE)), Seen::Thrown(FIVE)),
    Row(Step::Left, Seen::Turns(9)),
];

/// OrdinaryHasInstance of any function and value (7.3.21): what cannot be called has no instances, and no value but an object is one.
pub(crate) static ORDINARY: [Row; 8] = [
    Row(
        Step::Start(Question::Two(
            Operation::OrdinaryHasInstance,
            Value::Object(OBJECT),
            Value::Object(ARRAY_PROTOTYPE),
        )),
        Seen::AsksRead(OBJECT, PropKey::Name(PROTOTYPE)),
    ),
    Row(
        Step::Answer(Given::Value(Value::Object(OBJECT_PROTOTYPE))),
        Seen::AsksProto(ARRAY_PROTOTYPE),
    ),
    Row(
        Step::Answer(Given::Proto(Some(OBJECT_PROTOTYPE))),
        Seen::Flag(true),
    ),
    Row(
        Step::Start(Question::Two(
            Operation::OrdinaryHasInstance,
            Value::Object(OBJECT_PROTOTYPE),
            Value::Object(ARRAY_PROTOTYPE),
        )),
        Seen::Flag(false),
    ),
    Row(
        Step::Start(Question::Two(
            Operation::OrdinaryHasInstance,
            FIVE,
            Value::Object(ARRAY_PROTOTYPE),
        )),
        Seen::Flag(false),
    ),
    Row(
        Step::Start(Question::Two(Operation::OrdinaryHasInstance, Value::Object(OBJECT), FIVE)),
        Seen::Flag(false),
    ),
    Row(
        Step::Start(Question::One(Operation::OrdinaryHasInstance, Value::Object(OBJECT))),
        Seen::Thrown(Value::Undefined),
    ),
    Row(Step::Left, Seen::Turns(9)),
];
