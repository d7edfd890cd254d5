//! Function, and the functions of its prototype (ECMA-262, 20.2).

use super::{FIVE, Row};
use crate::tests::numbers::{
    APPLY, CALL, FIRST_OBJECT, FUNCTION, FUNCTION_HAS_INSTANCE, FUNCTION_PROTOTYPE, OBJECT,
    OBJECT_PROTOTYPE, THROW_TYPE_ERROR, TYPE_ERROR_PROTOTYPE,
};
use crate::tests::seen::Seen;
use crate::tests::steps::{Given, Step};
use es_model::{ErrorKind, Operation};
use property_keys::Value;

/// Function.prototype.call (20.2.3.3): the first argument is the receiver, and what comes behind it is passed on.
pub(crate) static CALLS: [Row; 8] = [
    Row(
        Step::Call(
            CALL,
            Value::Object(OBJECT),
            &[FIVE, Value::Null, Value::Bool(true)],
        ),
        Seen::AsksCall(OBJECT, FIVE, &[Value::Null, Value::Bool(true)]),
    ),
    Row(
        Step::Answer(Given::Value(Value::Whole(7))),
        Seen::Value(Value::Whole(7)),
    ),
    Row(
        Step::Call(CALL, Value::Object(OBJECT), &[]),
        Seen::AsksCall(OBJECT, Value::Undefined, &[]),
    ),
    Row(Step::Answer(Given::Thrown(FIVE)), Seen::Thrown(FIVE)),
    Row(
        Step::Call(CALL, Value::Object(OBJECT), &[FIVE]),
        Seen::AsksCall(OBJECT, FIVE, &[]),
    ),
    Row(
        Step::Call(CALL, Value::Object(OBJECT_PROTOTYPE), &[FIVE]),
        Seen::Error(ErrorKind::TypeError, "not a function"),
    ),
    Row(
        Step::Call(CALL, Value::Undefined, &[FIVE]),
        Seen::Error(ErrorKind::TypeError, "not a function"),
    ),
    Row(
        Step::Object(FIRST_OBJECT),
        Seen::IsError(TYPE_ERROR_PROTOTYPE),
    ),
];

/// Function.prototype.apply (20.2.3.1): no list for undefined and null, and the function is tested before the list is read.
pub(crate) static APPLIES: [Row; 11] = [
    Row(
        Step::Call(APPLY, Value::Object(OBJECT), &[FIVE, Value::Null]),
        Seen::AsksCall(OBJECT, FIVE, &[]),
    ),
    Row(
        Step::Answer(Given::Value(Value::Null)),
        Seen::Value(Value::Null),
    ),
    Row(
        Step::Call(APPLY, Value::Object(OBJECT), &[FIVE]),
        Seen::AsksCall(OBJECT, FIVE, &[]),
    ),
    Row(
        Step::Call(
            APPLY,
            Value::Object(OBJECT),
            &[FIVE, Value::Object(OBJECT_PROTOTYPE)],
        ),
        Seen::AsksWork(
            Operation::ListFromArrayLike,
            Value::Object(OBJECT_PROTOTYPE),
        ),
    ),
    Row(
        Step::Answer(Given::List(&[Value::Null, FIVE])),
        Seen::AsksCall(OBJECT, FIVE, &[Value::Null, FIVE]),
    ),
    Row(
        Step::Answer(Given::Value(Value::Whole(7))),
        Seen::Value(Value::Whole(7)),
    ),
    Row(
        Step::Call(APPLY, Value::Object(OBJECT), &[FIVE, FIVE]),
        Seen::AsksWork(Operation::ListFromArrayLike, FIVE),
    ),
    Row(
        Step::Answer(Given::Thrown(Value::Null)),
        Seen::Thrown(Value::Null),
    ),
    Row(
        Step::Call(
            APPLY,
            Value::Object(OBJECT_PROTOTYPE),
            &[FIVE, Value::Object(OBJECT)],
        ),
        Seen::Error(ErrorKind::TypeError, "not a function"),
    ),
    Row(
        Step::Call(APPLY, FIVE, &[]),
        Seen::Error(ErrorKind::TypeError, "not a function"),
    ),
    Row(
        Step::Call(APPLY, Value::Object(OBJECT), &[]),
        Seen::AsksCall(OBJECT, Value::Undefined, &[]),
    ),
];

/// Function.prototype[@@hasInstance] (20.2.3.6): OrdinaryHasInstance of the receiver, whatever that is, and of the first argument.
pub(crate) static INSTANCES: [Row; 6] = [
    Row(
        Step::Call(
            FUNCTION_HAS_INSTANCE,
            Value::Object(OBJECT),
            &[FIVE, Value::Null],
        ),
        Seen::AsksInstance(Value::Object(OBJECT), FIVE),
    ),
    Row(
        Step::Answer(Given::Flag(true)),
        Seen::Value(Value::Bool(true)),
    ),
    Row(
        Step::Call(FUNCTION_HAS_INSTANCE, FIVE, &[]),
        Seen::AsksInstance(FIVE, Value::Undefined),
    ),
    Row(
        Step::Answer(Given::Flag(false)),
        Seen::Value(Value::Bool(false)),
    ),
    Row(
        Step::Call(
            FUNCTION_HAS_INSTANCE,
            Value::Undefined,
            &[Value::Object(OBJECT)],
        ),
        Seen::AsksInstance(Value::Undefined, Value::Object(OBJECT)),
    ),
    Row(Step::Answer(Given::Thrown(FIVE)), Seen::Thrown(FIVE)),
];

/// %Function.prototype% gives undefined (20.2.3). Function and %ThrowTypeError% throw.
pub(crate) static OTHERS: [Row; 5] = [
    Row(
        Step::Call(FUNCTION_PROTOTYPE, FIVE, &[FIVE]),
        Seen::Value(Value::Undefined),
    ),
    Row(
        Step::Call(FUNCTION, Value::Undefined, &[]),
        Seen::Error(ErrorKind::TypeError, "wrong value"),
    ),
    Row(
        Step::Construct(FUNCTION, &[], FUNCTION),
        Seen::Error(ErrorKind::TypeError, "wrong value"),
    ),
    Row(
        Step::Call(THROW_TYPE_ERROR, Value::Undefined, &[]),
        Seen::Error(ErrorKind::TypeError, "wrong value"),
    ),
    Row(
        Step::Construct(FUNCTION_PROTOTYPE, &[], FUNCTION),
        Seen::Thrown(Value::Undefined),
    ),
];
