//! Rows of the start table.

use descriptors::Complete;
use es_model::{
    BuiltinFunction, Class, ErrorKind, Intrinsic, OwnProperty, StartText, WellKnown,
    start_intrinsic, start_text,
};
use property_keys::{Attributes, ObjectId, PropKey, SymbolId, TextId, Value};
use std::test::Fail;

/// An own property at the start: of which object, the place among its own, the key, writable, configurable, and the value.
struct Row(Intrinsic, usize, PropKey, bool, bool, Value);

static ROWS: [Row; 19] = [
    // globalThis is the first text past the six common ones, and `undefined` has three false flags
    Row(
        Intrinsic::Global,
        0,
        PropKey::Name(TextId(6)),
        true,
        true,
        Value::Object(ObjectId(0)),
    ),
    Row(
        Intrinsic::Global,
        1,
        PropKey::Name(TextId(7)),
        false,
        false,
        Value::Undefined,
    ),
    // print is the last of the objects that are no method
    Row(
        Intrinsic::Global,
        2,
        PropKey::Name(TextId(28)),
        true,
        true,
        Value::Object(ObjectId(28)),
    ),
    Row(
        Intrinsic::Print,
        1,
        PropKey::Name(TextId(1)),
        false,
        true,
        Value::Text(TextId(28)),
    ),
    // Reflect comes last on the global object, after nine constructors
    Row(
        Intrinsic::Global,
        12,
        PropKey::Name(TextId(9)),
        true,
        true,
        Value::Object(ObjectId(27)),
    ),
    // the first of the constructors there is that of functions
    Row(
        Intrinsic::Global,
        3,
        PropKey::Name(TextId(17)),
        true,
        true,
        Value::Object(ObjectId(3)),
    ),
    // the method under @@toPrimitive of Symbols is configurable only, and takes the hint
    Row(
        Intrinsic::Prototype(Class::Symbol),
        4,
        PropKey::Sym(SymbolId(1)),
        false,
        true,
        Value::Object(ObjectId(39)),
    ),
    Row(
        Intrinsic::Function(BuiltinFunction::SymbolToPrimitive),
        0,
        PropKey::Name(TextId(0)),
        false,
        true,
        Value::Whole(1),
    ),
    // Function.length is 1, and Symbol.length is 0
    Row(
        Intrinsic::Constructor(Class::Function),
        0,
        PropKey::Name(TextId(0)),
        false,
        true,
        Value::Whole(1),
    ),
    Row(
        Intrinsic::Constructor(Class::Symbol),
        0,
        PropKey::Name(TextId(0)),
        false,
        true,
        Value::Whole(0),
    ),
    Row(
        Intrinsic::Constructor(Class::Object),
        2,
        PropKey::Name(TextId(2)),
        false,
        false,
        Value::Object(ObjectId(2)),
    ),
    Row(
        Intrinsic::Constructor(Class::Symbol),
        5,
        PropKey::Name(TextId(12)),
        false,
        false,
        Value::Symbol(SymbolId(2)),
    ),
    // the lengths of the two prototypes that have one by themselves
    Row(
        Intrinsic::Prototype(Class::Array),
        0,
        PropKey::Name(TextId(0)),
        true,
        false,
        Value::Whole(0),
    ),
    Row(
        Intrinsic::Prototype(Class::String),
        0,
        PropKey::Name(TextId(0)),
        false,
        false,
        Value::Whole(0),
    ),
    Row(
        Intrinsic::Prototype(Class::Symbol),
        5,
        PropKey::Sym(SymbolId(2)),
        false,
        true,
        Value::Text(TextId(22)),
    ),
    // RangeError is the third of the errors, which come after the seven other classes
    Row(
        Intrinsic::Prototype(Class::Error(ErrorKind::RangeError)),
        1,
        PropKey::Name(TextId(1)),
        true,
        true,
        Value::Text(TextId(25)),
    ),
    Row(
        Intrinsic::Proxy,
        0,
        PropKey::Name(TextId(0)),
        false,
        true,
        Value::Whole(2),
    ),
    Row(
        Intrinsic::ThrowTypeError,
        1,
        PropKey::Name(TextId(1)),
        false,
        false,
        Value::Text(TextId(5)),
    ),
    Row(
        Intrinsic::Reflect,
        0,
        PropKey::Sym(SymbolId(2)),
        false,
        true,
        Value::Text(TextId(9)),
    ),
];

#[test]
fn properties_at_the_start(rt: HostRuntime) -> Result<(), Fail> {
    for row in ROWS.iter() {
        let attributes = Attributes {
            writable: row.3,
            enumerable: false,
            configurable: row.4,
        };
        let complete = Complete::Stored {
            value: row.5,
            attributes,
        };
        let wanted = OwnProperty {
            key: row.2,
            complete,
        };
        assert_eq!(rt; row.0.property(row.1), Some(wanted));
    }
    Ok(())
}

/// An object, and how many properties it has.
struct Count(Intrinsic, usize);

static COUNTS: [Count; 8] = [
    Count(Intrinsic::Global, 13),
    Count(Intrinsic::Print, 2),
    Count(Intrinsic::Constructor(Class::Object), 3),
    Count(Intrinsic::Constructor(Class::Symbol), 6),
    Count(Intrinsic::Prototype(Class::Function), 6),
    Count(Intrinsic::Prototype(Class::String), 1),
    Count(Intrinsic::Proxy, 2),
    Count(Intrinsic::Reflect, 1),
];

#[test]
fn no_more_properties(rt: HostRuntime) -> Result<(), Fail> {
    for count in COUNTS.iter() {
        assert!(rt; count.0.property(count.1 - 1).is_some());
        assert_eq!(rt; count.0.property(count.1), None);
    }
    // Object is not built, so %Object.prototype% has nothing
    assert_eq!(rt; Intrinsic::Prototype(Class::Object).property(0), None);
    Ok(())
}

/// An object, the number of its prototype, and whether it is extensible.
struct Above(Intrinsic, Option<ObjectId>, bool);

static ABOVE: [Above; 9] = [
    Above(Intrinsic::Global, Some(ObjectId(2)), true),
    Above(
        Intrinsic::Constructor(Class::Object),
        Some(ObjectId(4)),
        true,
    ),
    Above(Intrinsic::Prototype(Class::Object), None, true),
    Above(
        Intrinsic::Prototype(Class::Function),
        Some(ObjectId(2)),
        true,
    ),
    // %TypeError% stands on %Error%, and its prototype object on %Error.prototype%
    Above(
        Intrinsic::Constructor(Class::Error(ErrorKind::TypeError)),
        Some(ObjectId(15)),
        true,
    ),
    Above(
        Intrinsic::Prototype(Class::Error(ErrorKind::TypeError)),
        Some(ObjectId(16)),
        true,
    ),
    Above(Intrinsic::ThrowTypeError, Some(ObjectId(4)), false),
    Above(Intrinsic::Reflect, Some(ObjectId(2)), true),
    Above(Intrinsic::Print, Some(ObjectId(4)), true),
];

#[test]
fn objects_at_the_start(rt: HostRuntime) -> Result<(), Fail> {
    for above in ABOVE.iter() {
        assert_eq!(rt; above.0.proto(), above.1);
        assert_eq!(rt; above.0.extensible(), above.2);
    }
    assert_eq!(rt;
        start_intrinsic(2),
        Some(Intrinsic::Prototype(Class::Object))
    );
    assert_eq!(rt; start_intrinsic(27), Some(Intrinsic::Reflect));
    assert_eq!(rt; start_intrinsic(28), Some(Intrinsic::Print));
    assert_eq!(rt;
        start_intrinsic(29),
        Some(Intrinsic::Function(BuiltinFunction::FunctionCall))
    );
    assert_eq!(rt;
        start_intrinsic(40),
        Some(Intrinsic::Function(BuiltinFunction::ErrorToString))
    );
    assert_eq!(rt; start_intrinsic(41), None);
    Ok(())
}

#[test]
fn texts_at_the_start(rt: HostRuntime) -> Result<(), Fail> {
    for n in 0..37 {
        let text = start_text(n).map_or("", |text| text.text());
        assert!(rt; text != "Infinity" && text != "NaN" && text != "parseInt");
    }
    assert!(rt; start_text(36).is_some());
    assert_eq!(rt; start_text(37), None);
    assert_eq!(rt;
        StartText::Description(WellKnown::ToPrimitive).text(),
        "Symbol.toPrimitive"
    );
    assert_eq!(rt;
        StartText::Class(Class::Error(ErrorKind::SyntaxError)).text(),
        "SyntaxError"
    );
    Ok(())
}
