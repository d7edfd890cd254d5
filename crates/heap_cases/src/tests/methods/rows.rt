//! The steps of the tests, with what is to be seen of each.

use super::seen::Seen;
use super::steps::{Given, Question, Step};
use descriptors::{Complete, Descriptor};
use property_keys::{Attributes, ObjectId, Value};

pub(crate) struct Row(pub(crate) Step, pub(crate) Seen);

/// How many start objects there are.
const START: u32 = 41;

/// The objects that are made, in turn.
const A: ObjectId = ObjectId(START);

const B: ObjectId = ObjectId(START + 1);

const C: ObjectId = ObjectId(START + 2);

const D: ObjectId = ObjectId(START + 3);

const ON_A: Value = Value::Object(A);

const ON_B: Value = Value::Object(B);

/// %Object.prototype%
const OBJECT_PROTOTYPE: ObjectId = ObjectId(2);

/// %Object%, an object that can be called. No test calls it.
const FUNCTION: ObjectId = ObjectId(1);

const CALLED: Value = Value::Object(FUNCTION);

const SEVEN: Value = Value::Whole(7);

/// The value of every [[Set]].
const EIGHT: Value = Value::Whole(8);

/// The data property of 7 that is writable, enumerable and configurable.
const DATA: Descriptor = Descriptor {
    value: Some(SEVEN),
    writable: Some(true),
    get: None,
    set: None,
    enumerable: Some(true),
    configurable: Some(true),
};

const READONLY: Descriptor = Descriptor {
    value: Some(SEVEN),
    writable: Some(false),
    get: None,
    set: None,
    enumerable: Some(true),
    configurable: Some(true),
};

const READONLY_FIVE: Descriptor = Descriptor {
    value: Some(Value::Whole(5)),
    writable: Some(false),
    get: None,
    set: None,
    enumerable: Some(true),
    configurable: Some(true),
};

const FIXED: Descriptor = Descriptor {
    value: Some(SEVEN),
    writable: Some(true),
    get: None,
    set: None,
    enumerable: Some(true),
    configurable: Some(false),
};

/// CreateDataProperty (7.3.5).
const NEW_EIGHT: Descriptor = Descriptor {
    value: Some(EIGHT),
    writable: Some(true),
    get: None,
    set: None,
    enumerable: Some(true),
    configurable: Some(true),
};

/// A value alone.
const EIGHT_ALONE: Descriptor = Descriptor {
    value: Some(EIGHT),
    writable: None,
    get: None,
    set: None,
    enumerable: None,
    configurable: None,
};

const GETTER: Descriptor = Descriptor {
    value: None,
    writable: None,
    get: Some(CALLED),
    set: Some(Value::Undefined),
    enumerable: Some(true),
    configurable: Some(true),
};

const SETTER: Descriptor = Descriptor {
    value: None,
    writable: None,
    get: Some(Value::Undefined),
    set: Some(CALLED),
    enumerable: Some(true),
    configurable: Some(true),
};

const GETTER_AND_SETTER: Descriptor = Descriptor {
    value: None,
    writable: None,
    get: Some(CALLED),
    set: Some(CALLED),
    enumerable: Some(true),
    configurable: Some(true),
};

const WITH_BOTH: Complete = Complete::Accessor {
    get: Some(FUNCTION),
    set: Some(FUNCTION),
    enumerable: true,
    configurable: true,
};

const WRITABLE: Attributes = Attributes {
    writable: true,
    enumerable: true,
    configurable: true,
};

const NOT_WRITABLE: Attributes = Attributes {
    writable: false,
    enumerable: true,
    configurable: true,
};

const STORED: Complete = Complete::Stored {
    value: SEVEN,
    attributes: WRITABLE,
};

const STORED_READONLY: Complete = Complete::Stored {
    value: SEVEN,
    attributes: NOT_WRITABLE,
};

const STORED_READONLY_FIVE: Complete = Complete::Stored {
    value: Value::Whole(5),
    attributes: NOT_WRITABLE,
};

/// 10.1.8.1, step 2.b; 10.1.7.1, step 5. No turn is charged
pub(crate) static ABSENT: [Row; 3] = [
    Row(Step::Make(None), Seen::Made(A)),
    Row(
        Step::Start(Question::Read(A, ON_A)),
        Seen::Value(Value::Undefined),
    ),
    Row(Step::Start(Question::Has(A)), Seen::Flag(false)),
];

/// 10.1.8.1, steps 2.c and 7: the getter of the prototype is called on the receiver, without arguments
pub(crate) static GETTER_OF_THE_PROTOTYPE: [Row; 7] = [
    Row(Step::Make(None), Seen::Made(A)),
    Row(Step::Make(Some(A)), Seen::Made(B)),
    Row(Step::Define(A, GETTER), Seen::Flag(true)),
    Row(
        Step::Start(Question::Read(B, ON_B)),
        Seen::AsksRead(A, ON_B),
    ),
    Row(Step::Left, Seen::Turns(0)),
    Row(
        Step::Start(Question::Read(A, ON_B)),
        Seen::AsksCall(CALLED, ON_B),
    ),
    Row(Step::Answer(Given::Thrown(SEVEN)), Seen::Thrown(SEVEN)),
];

/// 10.1.8.1, steps 3 and 6
pub(crate) static WITHOUT_A_GETTER: [Row; 5] = [
    Row(Step::Make(None), Seen::Made(A)),
    Row(Step::Define(A, READONLY), Seen::Flag(true)),
    Row(
        Step::Start(Question::Read(A, Value::Null)),
        Seen::Value(SEVEN),
    ),
    Row(Step::Define(A, SETTER), Seen::Flag(true)),
    Row(
        Step::Start(Question::Read(A, Value::Null)),
        Seen::Value(Value::Undefined),
    ),
];

/// 10.1.7.1, step 4.a
pub(crate) static KEY_OF_THE_PROTOTYPE_HAD: [Row; 5] = [
    Row(Step::Make(None), Seen::Made(A)),
    Row(Step::Make(Some(A)), Seen::Made(B)),
    Row(Step::Define(A, DATA), Seen::Flag(true)),
    Row(Step::Start(Question::Has(B)), Seen::AsksHas(A)),
    Row(Step::Answer(Given::Flag(true)), Seen::Flag(true)),
];

/// Each link takes a turn before the prototype is asked. Of the chain C, B, A with two links the one turn is enough for the first of them
pub(crate) static HALT_ON_A_CHAIN: [Row; 7] = [
    Row(Step::Make(None), Seen::Made(A)),
    Row(Step::Make(Some(A)), Seen::Made(B)),
    Row(Step::Make(Some(B)), Seen::Made(C)),
    Row(
        Step::Start(Question::Read(C, Value::Null)),
        Seen::AsksRead(B, Value::Null),
    ),
    Row(Step::Start(Question::Read(B, Value::Null)), Seen::Halted),
    Row(Step::Start(Question::Write(C, Value::Null)), Seen::Halted),
    Row(
        Step::Start(Question::Read(A, Value::Null)),
        Seen::Value(Value::Undefined),
    ),
];

/// 10.1.9.2: steps 2.b, 2.a and 5
pub(crate) static REFUSED_BEFORE_A_QUESTION: [Row; 6] = [
    Row(Step::Make(None), Seen::Made(A)),
    Row(
        Step::Start(Question::Write(A, Value::Null)),
        Seen::Flag(false),
    ),
    Row(Step::Define(A, READONLY), Seen::Flag(true)),
    Row(Step::Start(Question::Write(A, ON_A)), Seen::Flag(false)),
    Row(Step::Define(A, GETTER), Seen::Flag(true)),
    Row(Step::Start(Question::Write(A, ON_A)), Seen::Flag(false)),
];

/// 10.1.9.2: steps 2.d.i and 2.d.ii
pub(crate) static REFUSED_BY_THE_RECEIVER: [Row; 8] = [
    Row(Step::Make(None), Seen::Made(A)),
    Row(Step::Make(None), Seen::Made(B)),
    Row(Step::Define(B, GETTER_AND_SETTER), Seen::Flag(true)),
    Row(Step::Own(B), Seen::Property(Some(WITH_BOTH))),
    Row(Step::Start(Question::Write(A, ON_B)), Seen::AsksGetOwn(B)),
    Row(Step::Answer(Given::OwnOf(B)), Seen::Flag(false)),
    Row(Step::Start(Question::Write(A, ON_B)), Seen::AsksGetOwn(B)),
    Row(
        Step::Answer(Given::Property(Some(STORED_READONLY))),
        Seen::Flag(false),
    ),
];

/// 10.1.9.2: steps 2.d.iii and 2.d.iv: a property that is there keeps its flags
pub(crate) static PROPERTY_OF_THE_RECEIVER: [Row; 4] = [
    Row(Step::Make(None), Seen::Made(A)),
    Row(Step::Start(Question::Write(A, ON_A)), Seen::AsksGetOwn(A)),
    Row(
        Step::Answer(Given::Property(Some(STORED))),
        Seen::AsksDefine(A, EIGHT_ALONE),
    ),
    Row(Step::Answer(Given::Flag(true)), Seen::Flag(true)),
];

/// 10.1.9.2, step 2.e, and 7.3.5: a new property has all three flags. A receiver that takes none refuses it
pub(crate) static CLOSED_RECEIVER: [Row; 6] = [
    Row(Step::Make(None), Seen::Made(A)),
    Row(Step::Prevent(A), Seen::Done),
    Row(Step::Start(Question::Write(A, ON_A)), Seen::AsksGetOwn(A)),
    Row(
        Step::Answer(Given::Property(None)),
        Seen::AsksDefine(A, NEW_EIGHT),
    ),
    Row(
        Step::Start(Question::Define(A, NEW_EIGHT)),
        Seen::Flag(false),
    ),
    Row(Step::Answer(Given::Flag(false)), Seen::Flag(false)),
];

/// 10.1.9.2, step 1.b: the prototype is asked with the same receiver, after a turn
pub(crate) static KEY_OF_THE_PROTOTYPE_SET: [Row; 5] = [
    Row(Step::Make(None), Seen::Made(A)),
    Row(Step::Make(Some(A)), Seen::Made(B)),
    Row(
        Step::Start(Question::Write(B, ON_B)),
        Seen::AsksWrite(A, EIGHT, ON_B),
    ),
    Row(Step::Left, Seen::Turns(0)),
    Row(Step::Answer(Given::Flag(true)), Seen::Flag(true)),
];

/// 10.1.9.2, steps 6 and 7: the setter gets the value, and what it answers is passed over. Meanwhile it gives the receiver a property of its own, which stays
pub(crate) static SETTER_CHANGES_THE_RECEIVER: [Row; 7] = [
    Row(Step::Make(None), Seen::Made(A)),
    Row(Step::Make(None), Seen::Made(B)),
    Row(Step::Define(A, SETTER), Seen::Flag(true)),
    Row(
        Step::Start(Question::Write(A, ON_B)),
        Seen::AsksCallWith(CALLED, ON_B, EIGHT),
    ),
    Row(Step::Define(B, READONLY_FIVE), Seen::Flag(true)),
    Row(Step::Answer(Given::Value(SEVEN)), Seen::Flag(true)),
    Row(Step::Own(B), Seen::Property(Some(STORED_READONLY_FIVE))),
];

/// What the answer says of the receiver counts, and not what was there when the question was asked: a property that was writable is not so any more
pub(crate) static RECEIVER_CHANGES: [Row; 5] = [
    Row(Step::Make(None), Seen::Made(A)),
    Row(Step::Define(A, DATA), Seen::Flag(true)),
    Row(Step::Start(Question::Write(A, ON_A)), Seen::AsksGetOwn(A)),
    Row(Step::Define(A, READONLY), Seen::Flag(true)),
    Row(Step::Answer(Given::OwnOf(A)), Seen::Flag(false)),
];

/// 10.1.2.1, step 7: rounds at C, B, A and null, a turn for each
pub(crate) static ROUNDS_UP_A_CHAIN: [Row; 7] = [
    Row(Step::Make(None), Seen::Made(A)),
    Row(Step::Make(Some(A)), Seen::Made(B)),
    Row(Step::Make(Some(B)), Seen::Made(C)),
    Row(Step::Make(None), Seen::Made(D)),
    Row(
        Step::Start(Question::SetProto(D, Some(C))),
        Seen::Flag(true),
    ),
    Row(Step::Left, Seen::Turns(0)),
    Row(Step::Start(Question::Proto(D)), Seen::Proto(Some(C))),
];

/// With a turn less than rounds it halts before the round that finds null, and the prototype is as before
pub(crate) static HALT_IN_THE_ROUNDS: [Row; 5] = [
    Row(Step::Make(None), Seen::Made(A)),
    Row(Step::Make(None), Seen::Made(B)),
    Row(Step::Start(Question::SetProto(B, Some(A))), Seen::Halted),
    Row(Step::Left, Seen::Turns(0)),
    Row(Step::Proto(B), Seen::Proto(None)),
];

/// 10.1.2.1, step 7.b: rounds at B and at its prototype, which is the object itself
pub(crate) static CYCLE: [Row; 5] = [
    Row(Step::Make(None), Seen::Made(A)),
    Row(Step::Make(Some(A)), Seen::Made(B)),
    Row(
        Step::Start(Question::SetProto(A, Some(B))),
        Seen::Flag(false),
    ),
    Row(Step::Left, Seen::Turns(0)),
    Row(Step::Proto(A), Seen::Proto(None)),
];

/// 10.1.4, and 10.1.2.1, steps 2 and 4: no round, and no turn
pub(crate) static CLOSED: [Row; 9] = [
    Row(Step::Make(None), Seen::Made(A)),
    Row(Step::Make(Some(A)), Seen::Made(B)),
    Row(Step::Start(Question::Prevent(B)), Seen::Flag(true)),
    Row(Step::Start(Question::Extensible(B)), Seen::Flag(false)),
    Row(
        Step::Start(Question::SetProto(B, Some(A))),
        Seen::Flag(true),
    ),
    Row(Step::Start(Question::SetProto(B, None)), Seen::Flag(false)),
    // nor does null become another
    Row(Step::Make(None), Seen::Made(C)),
    Row(Step::Start(Question::Prevent(C)), Seen::Flag(true)),
    Row(
        Step::Start(Question::SetProto(C, Some(A))),
        Seen::Flag(false),
    ),
];

/// 10.4.7.2: %Object.prototype% has null and no other
pub(crate) static NEVER_CHANGES: [Row; 4] = [
    Row(Step::Make(None), Seen::Made(A)),
    Row(
        Step::Start(Question::SetProto(OBJECT_PROTOTYPE, Some(A))),
        Seen::Flag(false),
    ),
    Row(
        Step::Start(Question::SetProto(OBJECT_PROTOTYPE, None)),
        Seen::Flag(true),
    ),
    Row(Step::Left, Seen::Turns(5)),
];

/// 10.1.5.1, 10.1.6.3 and 10.1.10.1: what is not configurable is not deleted
pub(crate) static OWN_PROPERTIES: [Row; 3] = [
    Row(Step::Make(None), Seen::Made(A)),
    Row(Step::Start(Question::Define(A, FIXED)), Seen::Flag(true)),
    Row(Step::Start(Question::Delete(A)), Seen::Flag(false)),
];

/// 10.1.11.1: the index stands before the text `message`, which was there first
pub(crate) static OWN_KEYS: [Row; 6] = [
    Row(Step::Make(None), Seen::Made(A)),
    Row(Step::Define(A, DATA), Seen::Flag(true)),
    Row(
        Step::Start(Question::GetOwn(A)),
        Seen::Property(Some(STORED)),
    ),
    Row(Step::Start(Question::Keys(A)), Seen::Keys(2, true)),
    Row(Step::Start(Question::Delete(A)), Seen::Flag(true)),
    Row(Step::Start(Question::Keys(A)), Seen::Keys(1, false)),
];

/// A line of print is for another crate, and a flag is no answer to [[GetOwnProperty]]
pub(crate) static DOES_NOT_FIT: [Row; 4] = [
    Row(Step::Start(Question::Print), Seen::Thrown(Value::Undefined)),
    Row(Step::Make(None), Seen::Made(A)),
    Row(Step::Start(Question::Write(A, ON_A)), Seen::AsksGetOwn(A)),
    Row(
        Step::Answer(Given::Flag(true)),
        Seen::Thrown(Value::Undefined),
    ),
];
