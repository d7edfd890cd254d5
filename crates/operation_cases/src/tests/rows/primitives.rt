//! ToPrimitive and OrdinaryToPrimitive (ECMA-262, 7.1.1, 7.1.1.1).

use super::{FIFTH_MESSAGE, FIRST_MESSAGE, FIVE, Row, THIRD_MESSAGE};
use crate::tests::numbers::{
    FIFTH_TEXT, FIRST_OBJECT, FIRST_TEXT, FOURTH_TEXT, FUNCTION, OBJECT, OBJECT_PROTOTYPE,
    SECOND_OBJECT, SECOND_TEXT, THIRD_TEXT, TO_PRIMITIVE, TO_STRING, VALUE_OF,
};
use crate::tests::seen::{Few, Seen};
use crate::tests::steps::{Given, Question, Step};
use es_model::Operation;
use property_keys::{PropKey, Value};

/// ToPrimitive with number (7.1.1.1): valueOf gives an object, and toString a number.
pub(crate) static NUMBER_FIRST: [Row; 11] = [
    Row(
        Step::Start(Question::One(
            Operation::ToPrimitiveNumber,
            Value::Object(OBJECT_PROTOTYPE),
        )),
        Seen::AsksRead(OBJECT_PROTOTYPE, PropKey::Sym(TO_PRIMITIVE)),
    ),
    Row(
        Step::Answer(Given::Value(Value::Undefined)),
        Seen::AsksRead(OBJECT_PROTOTYPE, PropKey::Name(VALUE_OF)),
    ),
    Row(Step::Text("valueOf"), Seen::Value(Value::Text(VALUE_OF))),
    Row(Step::Left, Seen::Turns(9)),
    Row(
        Step::Answer(Given::Value(Value::Object(OBJECT))),
        Seen::AsksCall(
            Value::Object(OBJECT),
            Value::Object(OBJECT_PROTOTYPE),
            Few(0, None, None),
        ),
    ),
    Row(
        Step::Answer(Given::Value(Value::Object(FUNCTION))),
        Seen::AsksRead(OBJECT_PROTOTYPE, PropKey::Name(TO_STRING)),
    ),
    Row(Step::Text("toString"), Seen::Value(Value::Text(TO_STRING))),
    Row(Step::Left, Seen::Turns(8)),
    Row(
        Step::Answer(Given::Value(Value::Object(OBJECT))),
        Seen::AsksCall(
            Value::Object(OBJECT),
            Value::Object(OBJECT_PROTOTYPE),
            Few(0, None, None),
        ),
    ),
    Row(
        Step::Answer(Given::Value(Value::Whole(7))),
        Seen::Value(Value::Whole(7)),
    ),
    Row(Step::Left, Seen::Turns(8)),
];

/// ToPrimitive with string: toString is no function, and valueOf gives an object.
pub(crate) static TEXT_FIRST: [Row; 10] = [
    Row(
        Step::Start(Question::One(Operation::ToPrimitiveText, Value::Object(OBJECT_PROTOTYPE))),
        Seen::AsksRead(OBJECT_PROTOTYPE, PropKey::Sym(TO_PRIMITIVE)),
    ),
    Row(
        Step::Answer(Given::Value(Value::Null)),
        Seen::AsksRead(OBJECT_PROTOTYPE, PropKey::Name(TO_STRING)),
    ),
    Row(Step::Text("toString"), Seen::Value(Value::Text(TO_STRING))),
    Row(
        Step::Answer(Given::Value(Value::Whole(1))),
        Seen::AsksRead(OBJECT_PROTOTYPE, PropKey::Name(VALUE_OF)),
    ),
    Row(Step::Text("valueOf"), Seen::Value(Value::Text(VALUE_OF))),
    Row(
        Step::Answer(Given::Value(Value::Object(OBJECT))),
        Seen::AsksCall(
            Value::Object(OBJECT),
            Value::Object(OBJECT_PROTOTYPE),
            Few(0, None, None),
        ),
    ),
    Row(
        Step::Answer(Given::Value(Value::Object(FUNCTION))),
        Seen::Thrown(Value::Object(FIRST_OBJECT)),
    ),
    Row(
        Step::Text("cannot convert"),
        Seen::Value(Value::Text(FIRST_TEXT)),
    ),
    Row(
        Step::Message(FIRST_OBJECT),
        Seen::Property(Some(FIRST_MESSAGE)),
    ),
    Row(Step::Left, Seen::Turns(8)),
];

/// A method under @@toPrimitive is called with the hint, for no turn, and what it throws is thrown on.
pub(crate) static OWN_METHOD: [Row; 21] = [
    Row(
        Step::Start(Question::One(Operation::ToPrimitiveText, Value::Object(OBJECT_PROTOTYPE))),
        Seen::AsksRead(OBJECT_PROTOTYPE, PropKey::Sym(TO_PRIMITIVE)),
    ),
    Row(
        Step::Answer(Given::Value(Value::Object(OBJECT))),
        Seen::AsksCall(
            Value::Object(OBJECT),
            Value::Object(OBJECT_PROTOTYPE),
            Few(1, Some(Value::Text(FIRST_TEXT)), None),
        ),
    ),
    Row(Step::Text("string"), Seen::Value(Value::Text(FIRST_TEXT))),
    Row(
        Step::Answer(Given::Value(Value::Whole(7))),
        Seen::Value(Value::Whole(7)),
    ),
    Row(
        Step::Start(Question::One(
            Operation::ToPrimitiveNumber,
            Value::Object(OBJECT_PROTOTYPE),
        )),
        Seen::AsksRead(OBJECT_PROTOTYPE, PropKey::Sym(TO_PRIMITIVE)),
    ),
    Row(
        Step::Answer(Given::Value(Value::Object(OBJECT))),
        Seen::AsksCall(
            Value::Object(OBJECT),
            Value::Object(OBJECT_PROTOTYPE),
            Few(1, Some(Value::Text(SECOND_TEXT)), None),
        ),
    ),
    Row(Step::Text("number"), Seen::Value(Value::Text(SECOND_TEXT))),
    Row(
        Step::Answer(Given::Value(Value::Object(FUNCTION))),
        Seen::Thrown(Value::Object(FIRST_OBJECT)),
    ),
    Row(
        Step::Text("cannot convert"),
        Seen::Value(Value::Text(THIRD_TEXT)),
    ),
    Row(
        Step::Message(FIRST_OBJECT),
        Seen::Property(Some(THIRD_MESSAGE)),
    ),
    Row(
        Step::Start(Question::One(
            Operation::ToPrimitiveDefault,
            Value::Object(OBJECT_PROTOTYPE),
        )),
        Seen::AsksRead(OBJECT_PROTOTYPE, PropKey::Sym(TO_PRIMITIVE)),
    ),
    Row(
        Step::Answer(Given::Value(Value::Object(OBJECT))),
        Seen::AsksCall(
            Value::Object(OBJECT),
            Value::Object(OBJECT_PROTOTYPE),
            Few(1, Some(Value::Text(FOURTH_TEXT)), None),
        ),
    ),
    Row(Step::Text("default"), Seen::Value(Value::Text(FOURTH_TEXT))),
    Row(Step::Left, Seen::Turns(10)),
    Row(
        Step::Start(Question::One(
            Operation::ToPrimitiveDefault,
            Value::Object(OBJECT_PROTOTYPE),
        )),
        Seen::AsksRead(OBJECT_PROTOTYPE, PropKey::Sym(TO_PRIMITIVE)),
    ),
    Row(
        Step::Answer(Given::Value(Value::Whole(1))),
        Seen::Thrown(Value::Object(SECOND_OBJECT)),
    ),
    Row(
        Step::Text("not a function"),
        Seen::Value(Value::Text(FIFTH_TEXT)),
    ),
    Row(
        Step::Message(SECOND_OBJECT),
        Seen::Property(Some(FIFTH_MESSAGE)),
    ),
    Row(
        Step::Start(Question::One(Operation::ToPrimitiveText, Value::Object(OBJECT_PROTOTYPE))),
        Seen::AsksRead(OBJECT_PROTOTYPE, PropKey::Sym(TO_PRIMITIVE)),
    ),
    Row(
        Step::Answer(Given::Value(Value::Object(OBJECT))),
        Seen::AsksCall(
            Value::Object(OBJECT),
            Value::Object(OBJECT_PROTOTYPE),
            Few(1, Some(Value::Text(FIRST_TEXT)), None),
        ),
    ),
    Row(Step::Answer(Given::Thrown(FIVE)), Seen::Thrown(FIVE)),
];

/// What is thrown at each point of ToPrimitive is thrown on.
pub(crate) static PRIMITIVE_THROWS: [Row; 30] = [
    Row(
        Step::Start(Question::One(
            Operation::ToPrimitiveNumber,
            Value::Object(OBJECT_PROTOTYPE),
        )),
        Seen::AsksRead(OBJECT_PROTOTYPE, PropKey::Sym(TO_PRIMITIVE)),
    ),
    Row(Step::Answer(Given::Thrown(FIVE)), Seen::Thrown(FIVE)),
    Row(
        Step::Start(Question::One(
            Operation::ToPrimitiveNumber,
            Value::Object(OBJECT_PROTOTYPE),
        )),
        Seen::AsksRead(OBJECT_PROTOTYPE, PropKey::Sym(TO_PRIMITIVE)),
    ),
    Row(
        Step::Answer(Given::Value(Value::Undefined)),
        Seen::AsksRead(OBJECT_PROTOTYPE, PropKey::Name(VALUE_OF)),
    ),
    Row(Step::Answer(Given::Thrown(FIVE)), Seen::Thrown(FIVE)),
    Row(
        Step::Start(Question::One(
            Operation::ToPrimitiveNumber,
            Value::Object(OBJECT_PROTOTYPE),
        )),
        Seen::AsksRead(OBJECT_PROTOTYPE, PropKey::Sym(TO_PRIMITIVE)),
    ),
    Row(
        Step::Answer(Given::Value(Value::Undefined)),
        Seen::AsksRead(OBJECT_PROTOTYPE, PropKey::Name(VALUE_OF)),
    ),
    Row(
        Step::Answer(Given::Value(Value::Object(OBJECT))),
        Seen::AsksCall(
            Value::Object(OBJECT),
            Value::Object(OBJECT_PROTOTYPE),
            Few(0, None, None),
        ),
    ),
    Row(Step::Answer(Given::Thrown(FIVE)), Seen::Thrown(FIVE)),
    Row(
        Step::Start(Question::One(
            Operation::ToPrimitiveNumber,
            Value::Object(OBJECT_PROTOTYPE),
        )),
        Seen::AsksRead(OBJECT_PROTOTYPE, PropKey::Sym(TO_PRIMITIVE)),
    ),
    Row(
        Step::Answer(Given::Value(Value::Undefined)),
        Seen::AsksRead(OBJECT_PROTOTYPE, PropKey::Name(VALUE_OF)),
    ),
    Row(
        Step::Answer(Given::Value(Value::Undefined)),
        Seen::AsksRead(OBJECT_PROTOTYPE, PropKey::Name(TO_STRING)),
    ),
    Row(Step::Answer(Given::Thrown(FIVE)), Seen::Thrown(FIVE)),
    Row(
        Step::Start(Question::One(
            Operation::ToPrimitiveNumber,
            Value::Object(OBJECT_PROTOTYPE),
        )),
        Seen::AsksRead(OBJECT_PROTOTYPE, PropKey::Sym(TO_PRIMITIVE)),
    ),
    Row(
        Step::Answer(Given::Value(Value::Undefined)),
        Seen::AsksRead(OBJECT_PROTOTYPE, PropKey::Name(VALUE_OF)),
    ),
    Row(
        Step::Answer(Given::Value(Value::Undefined)),
        Seen::AsksRead(OBJECT_PROTOTYPE, PropKey::Name(TO_STRING)),
    ),
    Row(
        Step::Answer(Given::Value(Value::Object(OBJECT))),
        Seen::AsksCall(
            Value::Object(OBJECT),
            Value::Object(OBJECT_PROTOTYPE),
            Few(0, None, None),
        ),
    ),
    Row(Step::Answer(Given::Thrown(FIVE)), Seen::Thrown(FIVE)),
    Row(Step::Left, Seen::Turns(4)),
    Row(
        Step::Start(Question::One(
            Operation::ToPrimitiveNumber,
            Value::Object(OBJECT_PROTOTYPE),
        )),
        Seen::AsksRead(OBJECT_PROTOTYPE, PropKey::Sym(TO_PRIMITIVE)),
    ),
    Row(
        Step::Answer(Given::Value(Value::Undefined)),
        Seen::AsksRead(OBJECT_PROTOTYPE, PropKey::Name(VALUE_OF)),
    ),
    Row(
        Step::Answer(Given::Value(Value::Undefined)),
        Seen::AsksRead(OBJECT_PROTOTYPE, PropKey::Name(TO_STRING)),
    ),
    Row(
        Step::Answer(Given::Value(Value::Undefined)),
        Seen::Thrown(Value::Object(FIRST_OBJECT)),
    ),
    Row(Step::Left, Seen::Turns(2)),
    Row(
        Step::Start(Question::One(
            Operation::ToPrimitiveNumber,
            Value::Object(OBJECT_PROTOTYPE),
        )),
        Seen::AsksRead(OBJECT_PROTOTYPE, PropKey::Sym(TO_PRIMITIVE)),
    ),
    Row(
        Step::Answer(Given::Value(Value::Undefined)),
        Seen::AsksRead(OBJECT_PROTOTYPE, PropKey::Name(VALUE_OF)),
    ),
    Row(
        Step::Answer(Given::Value(Value::Undefined)),
        Seen::AsksRead(OBJECT_PROTOTYPE, PropKey::Name(TO_STRING)),
    ),
    Row(Step::Left, Seen::Turns(0)),
    Row(
        Step::Start(Question::One(
            Operation::ToPrimitiveNumber,
            Value::Object(OBJECT_PROTOTYPE),
        )),
        Seen::AsksRead(OBJECT_PROTOTYPE, PropKey::Sym(TO_PRIMITIVE)),
    ),
    Row(Step::Answer(Given::Value(Value::Undefined)), Seen::Halted),
];
