//! Requests over the start objects, one after another. Entering takes a turn, and print one for each argument.

use property_keys::{ObjectId, PropKey, SymbolId, TextId, Value};

/// A request. A property is one of the global object.
#[derive(Clone, Copy)]
pub(crate) enum Ask {
    /// a call without a receiver
    Call(Value, &'static [Value]),
    Construct(ObjectId),
    /// [[DefineOwnProperty]] with this value alone
    Store(PropKey, Value),
    /// [[DefineOwnProperty]] with this getter alone
    Getter(PropKey, Value),
    Read(PropKey),
    /// ToString
    Text(Value),
}

/// How the last request ends.
#[derive(Clone, Copy, PartialEq, Eq)]
pub(crate) enum End {
    Value(Value),
    Flag(bool),
    Throws(Value),
    Halts,
    Other,
}

/// With so many turns these requests print these lines; so the last one ends, and so many turns are left.
pub(crate) struct Row(
    pub(crate) u64,
    pub(crate) &'static [Ask],
    pub(crate) &'static [&'static [Value]],
    pub(crate) End,
    pub(crate) u64,
);

const GLOBAL: Value = Value::Object(ObjectId(0));

/// The constructor %Object%.
const OBJECT: ObjectId = ObjectId(1);

const PRINT_FUNCTION: ObjectId = ObjectId(28);

const PRINT: Value = Value::Object(PRINT_FUNCTION);

/// What a request makes first: there are so many start objects.
const FIRST_OBJECT: Value = Value::Object(ObjectId(41));

const UNDEFINED: End = End::Value(Value::Undefined);

/// The text `length`.
const LENGTH: Value = Value::Text(TextId(0));
/// The text `undefined`, and the key that it is.
const NO_VALUE: Value = Value::Text(TextId(7));

const A_KEY: PropKey = PropKey::Name(TextId(7));

const TO_PRIMITIVE: PropKey = PropKey::Sym(SymbolId(1));
/// The first new text, after the start texts: the hint `string`.
const HINT: Value = Value::Text(TextId(37));

/// print is the global object's method under @@toPrimitive: to convert it prints the hint, and gives undefined.
const PRINTS_HINT: Ask = Ask::Store(TO_PRIMITIVE, PRINT);

pub(crate) const ROWS: [Row; 16] = [
    // print takes a turn to be entered and one for each argument
    Row(10, &[Ask::Call(PRINT, &[])], &[&[]], UNDEFINED, 9),
    Row(
        10,
        &[Ask::Call(PRINT, &[LENGTH, NO_VALUE])],
        &[&[LENGTH, NO_VALUE]],
        UNDEFINED,
        7,
    ),
    Row(
        3,
        &[Ask::Call(PRINT, &[LENGTH, NO_VALUE])],
        &[&[LENGTH, NO_VALUE]],
        UNDEFINED,
        0,
    ),
    Row(
        2,
        &[Ask::Call(PRINT, &[LENGTH, NO_VALUE])],
        &[],
        End::Halts,
        0,
    ),
    Row(0, &[Ask::Call(PRINT, &[])], &[], End::Halts, 0),
    // what is no function is not entered
    Row(
        0,
        &[Ask::Call(Value::Null, &[])],
        &[],
        End::Throws(FIRST_OBJECT),
        0,
    ),
    Row(
        0,
        &[Ask::Call(GLOBAL, &[])],
        &[],
        End::Throws(FIRST_OBJECT),
        0,
    ),
    Row(
        0,
        &[Ask::Construct(PRINT_FUNCTION)],
        &[],
        End::Throws(FIRST_OBJECT),
        0,
    ),
    // constructors are entered, and are not written yet
    Row(
        5,
        &[Ask::Construct(OBJECT)],
        &[],
        End::Throws(Value::Undefined),
        4,
    ),
    Row(0, &[Ask::Construct(OBJECT)], &[], End::Halts, 0),
    // the global property `undefined` becomes no accessor; a getter is called
    Row(5, &[Ask::Getter(A_KEY, PRINT)], &[], End::Flag(false), 5),
    Row(
        5,
        &[Ask::Getter(TO_PRIMITIVE, PRINT), Ask::Read(TO_PRIMITIVE)],
        &[&[]],
        UNDEFINED,
        4,
    ),
    // a conversion calls the method under @@toPrimitive with a hint
    Row(
        9,
        &[PRINTS_HINT, Ask::Text(GLOBAL)],
        &[&[HINT]],
        End::Value(NO_VALUE),
        7,
    ),
    // in the midst of print a line is printed: two calls run at once
    Row(
        9,
        &[PRINTS_HINT, Ask::Call(PRINT, &[GLOBAL])],
        &[&[HINT], &[NO_VALUE]],
        UNDEFINED,
        5,
    ),
    // the second argument is not converted any more
    Row(
        4,
        &[PRINTS_HINT, Ask::Call(PRINT, &[GLOBAL, LENGTH])],
        &[&[HINT]],
        End::Halts,
        0,
    ),
    Row(
        3,
        &[PRINTS_HINT, Ask::Call(PRINT, &[GLOBAL, LENGTH])],
        &[],
        End::Halts,
        0,
    ),
];
