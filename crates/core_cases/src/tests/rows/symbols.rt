//! Symbol and the functions of its prototype (ECMA-262, 20.4).

use super::{FIVE, Row};
use crate::tests::numbers::{
    EMPTY, FIRST_SYMBOL, FIRST_TEXT, HAS_INSTANCE, OBJECT_PROTOTYPE, SECOND_SYMBOL, SYMBOL,
    SYMBOL_DESCRIPTION, SYMBOL_TO_PRIMITIVE, SYMBOL_TO_STRING, SYMBOL_VALUE_OF,
};
use crate::tests::seen::Seen;
use crate::tests::steps::{Given, Step};
use es_model::{ErrorKind, Operation};
use property_keys::{SymbolId, Value};

/// Symbol (20.4.1.1): without a description, with one, with one that is converted, and constructed.
pub(crate) static CALLED: [Row; 13] = [
    Row(
        Step::Call(SYMBOL, Value::Undefined, &[]),
        Seen::Value(Value::Symbol(FIRST_SYMBOL)),
    ),
    Row(
        Step::Call(SYMBOL_DESCRIPTION, Value::Symbol(FIRST_SYMBOL), &[]),
        Seen::Value(Value::Undefined),
    ),
    Row(
        Step::Call(SYMBOL_TO_STRING, Value::Symbol(FIRST_SYMBOL), &[]),
        Seen::Text("Symbol()"),
    ),
    Row(
        Step::Call(SYMBOL, Value::Undefined, &[Value::Undefined]),
        Seen::Value(Value::Symbol(SECOND_SYMBOL)),
    ),
    Row(
        Step::Call(SYMBOL_DESCRIPTION, Value::Symbol(SECOND_SYMBOL), &[]),
        Seen::Value(Value::Undefined),
    ),
    Row(
        Step::Call(SYMBOL, Value::Undefined, &[Value::Text(EMPTY)]),
        Seen::Value(Value::Symbol(SymbolId(5))),
    ),
    Row(
        Step::Call(SYMBOL_DESCRIPTION, Value::Symbol(SymbolId(5)), &[]),
        Seen::Value(Value::Text(EMPTY)),
    ),
    Row(
        Step::Call(SYMBOL, Value::Undefined, &[FIVE]),
        Seen::AsksWork(Operation::ToText, FIVE),
    ),
    Row(
        Step::Answer(Given::Value(Value::Text(EMPTY))),
        Seen::Value(Value::Symbol(SymbolId(6))),
    ),
    Row(
        Step::Call(SYMBOL, Value::Undefined, &[Value::Symbol(HAS_INSTANCE)]),
        Seen::AsksWork(Operation::ToText, Value::Symbol(HAS_INSTANCE)),
    ),
    Row(Step::Answer(Given::Thrown(FIVE)), Seen::Thrown(FIVE)),
    Row(
        Step::Construct(SYMBOL, &[], SYMBOL),
        Seen::Error(ErrorKind::TypeError, "wrong value"),
    ),
    Row(
        Step::Call(SYMBOL, Value::Undefined, &[]),
        Seen::Value(Value::Symbol(SymbolId(7))),
    ),
];

/// toString, valueOf, the accessor description and @@toPrimitive (20.4.3), of a Symbol and of what is none.
pub(crate) static PROTOTYPE: [Row; 12] = [
    Row(Step::Text("a b"), Seen::Value(Value::Text(FIRST_TEXT))),
    Row(
        Step::Call(SYMBOL, Value::Undefined, &[Value::Text(FIRST_TEXT)]),
        Seen::Value(Value::Symbol(FIRST_SYMBOL)),
    ),
    Row(
        Step::Call(SYMBOL_TO_STRING, Value::Symbol(FIRST_SYMBOL), &[]),
        Seen::Text("Symbol(a b)"),
    ),
    Row(
        Step::Call(SYMBOL_TO_STRING, Value::Symbol(HAS_INSTANCE), &[]),
        Seen::Text("Symbol(Symbol.hasInstance)"),
    ),
    Row(
        Step::Call(SYMBOL_DESCRIPTION, Value::Symbol(FIRST_SYMBOL), &[]),
        Seen::Text("a b"),
    ),
    Row(
        Step::Call(SYMBOL_VALUE_OF, Value::Symbol(FIRST_SYMBOL), &[]),
        Seen::Value(Value::Symbol(FIRST_SYMBOL)),
    ),
    Row(
        Step::Call(SYMBOL_TO_PRIMITIVE, Value::Symbol(FIRST_SYMBOL), &[FIVE]),
        Seen::Value(Value::Symbol(FIRST_SYMBOL)),
    ),
    Row(
        Step::Call(SYMBOL_TO_STRING, Value::Text(FIRST_TEXT), &[]),
        Seen::Error(ErrorKind::TypeError, "wrong value"),
    ),
    Row(
        Step::Call(SYMBOL_VALUE_OF, Value::Object(OBJECT_PROTOTYPE), &[]),
        Seen::Error(ErrorKind::TypeError, "wrong value"),
    ),
    Row(
        Step::Call(SYMBOL_DESCRIPTION, Value::Undefined, &[]),
        Seen::Error(ErrorKind::TypeError, "wrong value"),
    ),
    Row(
        Step::Call(SYMBOL_TO_PRIMITIVE, Value::Null, &[]),
        Seen::Error(ErrorKind::TypeError, "wrong value"),
    ),
    Row(
        Step::Call(SYMBOL_VALUE_OF, Value::Bool(true), &[]),
        Seen::Error(ErrorKind::TypeError, "wrong value"),
    ),
];
