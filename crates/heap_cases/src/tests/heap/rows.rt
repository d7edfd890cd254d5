//! The steps of the tests, and what is to be seen of each.

use super::steps::{Beside, Change, Content, Hidden, Key, Make, Read, Step, Texts, Which, Words};
use descriptors::{Complete, Descriptor};
use es_model::{CellNo, Class, ErrorKind, Intrinsic, StartText, WellKnown};
use es_source::Place;
use es_tree::{FunctionFacts, FunctionNo};
use map_store::OriginId;
use property_keys::{Attributes, Value};
use slack_tracking::OriginKind;

const ONE: Value = Value::Whole(1);

const TWO: Value = Value::Whole(2);

const A: Which = Which::New(0);

const STRING: Which = Which::New(1);

const PROXY: Which = Which::New(2);

const ARGUMENTS: Which = Which::New(3);

const ERROR: Which = Which::New(4);

const GLOBAL: Which = Which::Start(Intrinsic::Global);

const PARENT: Which = Which::Start(Intrinsic::Prototype(Class::Object));

const LENGTH: Key = Key::Name(StartText::Length);

const NAME: Key = Key::Name(StartText::Name);

const PRIMITIVE: Key = Key::Symbol(WellKnown::ToPrimitive);

const INSTANCE: Key = Key::Symbol(WellKnown::HasInstance);

const PLAIN_ONE: Descriptor = Descriptor {
    value: Some(ONE),
    writable: Some(true),
    get: None,
    set: None,
    enumerable: Some(true),
    configurable: Some(true),
};

/// Another value, and no other flag.
const VALUE_TWO: Descriptor = Descriptor {
    value: Some(TWO),
    writable: None,
    get: None,
    set: None,
    enumerable: None,
    configurable: None,
};

const STORED_ONE: Complete = Complete::Stored {
    value: ONE,
    attributes: Attributes {
        writable: true,
        enumerable: true,
        configurable: true,
    },
};

const STORED_TWO: Complete = Complete::Stored {
    value: TWO,
    attributes: Attributes {
        writable: true,
        enumerable: true,
        configurable: true,
    },
};

const HERE: Place = Place { line: 2, column: 5 };

pub(crate) static BESIDE: [Step; 33] = [
    // a text that is there has its number, and a new one goes last
    Step::Text(Texts::Same(Words::Start(StartText::Name), Words::Of("name"))),
    Step::Text(Texts::Finds("name", Some(StartText::Name))),
    Step::Text(Texts::Finds("x", None)),
    Step::Text(Texts::New(0)),
    Step::Text(Texts::Same(Words::Of("x"), Words::Of("x"))),
    Step::Text(Texts::New(1)),
    Step::Text(Texts::Same(Words::Of("-12"), Words::Whole(-12))),
    Step::Text(Texts::Same(Words::Of("x-12"), Words::Joined("x", "-12"))),
    Step::Text(Texts::New(3)),
    // a text that is not there is empty
    Step::Text(Texts::Same(Words::Of("x"), Words::AfterNone("x"))),
    // the texts of keys: a Symbol has none
    Step::Text(Texts::Same(Words::Of("40"), Words::Key(Key::Index(40)))),
    Step::Text(Texts::Same(Words::Of("name"), Words::Key(Key::Name(StartText::Name)))),
    Step::Text(Texts::Same(
        Words::Of(""),
        Words::Key(Key::Symbol(WellKnown::HasInstance)),
    )),
    // a text has at most 2^20 code units: each of twenty doublings is new
    Step::Text(Texts::Same(Words::Longest, Words::Longest)),
    Step::Text(Texts::New(24)),
    Step::Text(Texts::TooLong("x")),
    Step::Beside(Beside::Symbol(None)),
    Step::Beside(Beside::Symbol(Some(StartText::Undefined))),
    // cells
    Step::Beside(Beside::NewCell(None, CellNo(0))),
    Step::Beside(Beside::NewCell(Some(ONE), CellNo(1))),
    Step::Beside(Beside::SetCell(CellNo(0), TWO)),
    Step::Beside(Beside::SetCell(CellNo(2), TWO)),
    Step::Beside(Beside::Cell(CellNo(0), Some(TWO))),
    Step::Beside(Beside::Cell(CellNo(1), Some(ONE))),
    Step::Beside(Beside::Cell(CellNo(2), None)),
    // turns: there were 50
    Step::Beside(Beside::Charge(7, true, 43)),
    Step::Beside(Beside::Charge(44, false, 43)),
    // each kind of origin has one number
    Step::Beside(Beside::Origin(OriginKind::Plain, 4, OriginId(0))),
    Step::Beside(Beside::Origin(OriginKind::Literal(HERE), 4, OriginId(1))),
    Step::Beside(Beside::Origin(OriginKind::Constructor(HERE), 8, OriginId(2))),
    Step::Beside(Beside::Origin(OriginKind::Literal(HERE), 4, OriginId(1))),
    Step::Beside(Beside::Origin(OriginKind::Plain, 4, OriginId(0))),
    Step::Beside(Beside::Constructed(OriginId(2))),
];

pub(crate) static OBJECTS: [Step; 57] = [
    Step::Beside(Beside::Make(Make::Ordinary, Some(PARENT))),
    Step::Of(A, Read::Proto(Some(PARENT))),
    Step::On(A, Change::Proto(None)),
    Step::Of(A, Read::Proto(None)),
    Step::On(A, Change::Touch),
    // a redefined key keeps its place
    Step::On(A, Change::Define(LENGTH, PLAIN_ONE, true)),
    Step::On(A, Change::Define(NAME, PLAIN_ONE, true)),
    Step::On(A, Change::Define(LENGTH, VALUE_TWO, true)),
    Step::Of(A, Read::Own(LENGTH, Some(STORED_TWO))),
    Step::Of(A, Read::Keys(&[LENGTH, NAME])),
    // a key that is added again goes last
    Step::On(A, Change::Delete(LENGTH, true)),
    Step::Of(A, Read::Own(LENGTH, None)),
    Step::On(A, Change::Define(LENGTH, PLAIN_ONE, true)),
    Step::Of(A, Read::Keys(&[NAME, LENGTH])),
    // indices ascending, then texts, then Symbols
    Step::On(A, Change::Define(PRIMITIVE, PLAIN_ONE, true)),
    Step::On(A, Change::Define(Key::Index(7), PLAIN_ONE, true)),
    Step::On(A, Change::Define(Key::Index(2), PLAIN_ONE, true)),
    Step::On(A, Change::Define(INSTANCE, PLAIN_ONE, true)),
    Step::Of(
        A,
        Read::Keys(&[
            Key::Index(2),
            Key::Index(7),
            NAME,
            LENGTH,
            PRIMITIVE,
            INSTANCE,
        ]),
    ),
    Step::On(A, Change::Store(Key::Index(7), TWO)),
    Step::Of(A, Read::Own(Key::Index(7), Some(STORED_TWO))),
    Step::Of(A, Read::Own(Key::Index(2), Some(STORED_ONE))),
    Step::On(A, Change::Store(Key::Index(9), TWO)),
    Step::Of(A, Read::Own(Key::Index(9), None)),
    // a closed object takes no property, and others do
    Step::Of(A, Read::Extensible(true)),
    Step::On(A, Change::Prevent),
    Step::Of(A, Read::Extensible(false)),
    Step::Of(PARENT, Read::Extensible(true)),
    Step::On(A, Change::Define(Key::Index(9), PLAIN_ONE, false)),
    Step::Of(A, Read::Own(Key::Index(9), None)),
    // `undefined` of the global object is not configurable
    Step::On(
        GLOBAL,
        Change::Delete(Key::Name(StartText::Undefined), false),
    ),
    // a String object of four code units, of which one is in its list too
    Step::Beside(Beside::Make(Make::Text(StartText::Name), None)),
    Step::On(STRING, Change::Define(Key::Index(9), PLAIN_ONE, true)),
    Step::On(STRING, Change::Define(Key::Index(2), PLAIN_ONE, true)),
    Step::Of(STRING, Read::Own(Key::Index(0), None)),
    Step::Of(
        STRING,
        Read::Keys(&[
            Key::Index(0),
            Key::Index(1),
            Key::Index(2),
            Key::Index(3),
            Key::Index(9),
        ]),
    ),
    // a Proxy has no prototype and takes no property
    Step::Beside(Beside::Make(
        Make::Proxy(Intrinsic::Global, Intrinsic::Reflect),
        Some(PARENT),
    )),
    Step::On(PROXY, Change::Proto(Some(PARENT))),
    Step::Of(PROXY, Read::Proto(None)),
    Step::Of(PROXY, Read::Extensible(false)),
    Step::Of(PROXY, Read::Target(Some(GLOBAL))),
    Step::On(PROXY, Change::Revoke),
    Step::Of(PROXY, Read::Target(None)),
    Step::Beside(Beside::Make(Make::Arguments(CellNo(4), CellNo(5)), None)),
    Step::On(ARGUMENTS, Change::Unmap(0)),
    Step::Of(ARGUMENTS, Read::Shared(0, None)),
    Step::Of(ARGUMENTS, Read::Shared(1, Some(CellNo(5)))),
    // an error and its message
    Step::Beside(Beside::Make(Make::Error(ErrorKind::RangeError, StartText::Proxy), None)),
    Step::Of(
        ERROR,
        Read::Proto(Some(Which::Start(Intrinsic::Prototype(Class::Error(ErrorKind::RangeError))))),
    ),
    Step::Of(ERROR, Read::Message(StartText::Proxy)),
    Step::Of(ERROR, Read::Keys(&[Key::Name(StartText::Message)])),
    // where no object is
    Step::Of(Which::Nowhere, Read::Ordinary),
    Step::Of(Which::Nowhere, Read::Own(LENGTH, None)),
    Step::On(Which::Nowhere, Change::Define(LENGTH, PLAIN_ONE, false)),
    Step::On(Which::Nowhere, Change::Delete(LENGTH, true)),
    Step::On(Which::Nowhere, Change::Proto(Some(A))),
    Step::Of(Which::Nowhere, Read::Keys(&[])),
];

// ---- functions of the script

const CONSTRUCTS: Which = Which::New(0);

const ITS_PROTOTYPE: Which = Which::New(1);

const METHOD: Which = Which::New(2);

const FUNCTION_PARENT: Which = Which::Start(Intrinsic::Prototype(Class::Function));

const PROTOTYPE: Key = Key::Name(StartText::Prototype);

const CONSTRUCTOR: Key = Key::Name(StartText::Constructor);

const TWO_PARAMETERS: FunctionFacts = FunctionFacts {
    place: HERE,
    parameters: 2,
    this_names: 1,
    constructor: true,
    strict: true,
};

const NO_CONSTRUCTOR: FunctionFacts = FunctionFacts {
    place: HERE,
    parameters: 0,
    this_names: 0,
    constructor: false,
    strict: false,
};

pub(crate) static FUNCTIONS: [Step; 21] = [
    // one that constructs has a prototype object (10.2.5)
    Step::Beside(Beside::Make(
        Make::Function(FunctionNo(3), TWO_PARAMETERS, StartText::Print),
        None,
    )),
    Step::Of(CONSTRUCTS, Read::NewObjects(2)),
    Step::Of(CONSTRUCTS, Read::Function(FunctionNo(3), true, true)),
    Step::Of(CONSTRUCTS, Read::Proto(Some(FUNCTION_PARENT))),
    Step::Of(CONSTRUCTS, Read::Extensible(true)),
    Step::Of(CONSTRUCTS, Read::Keys(&[LENGTH, NAME, PROTOTYPE])),
    Step::Of(
        CONSTRUCTS,
        Read::Hidden(LENGTH, Hidden(Content::Number(2), false, true)),
    ),
    Step::Of(
        CONSTRUCTS,
        Read::Hidden(NAME, Hidden(Content::Text(StartText::Print), false, true)),
    ),
    Step::Of(
        CONSTRUCTS,
        Read::Hidden(
            PROTOTYPE,
            Hidden(Content::Object(ITS_PROTOTYPE), true, false),
        ),
    ),
    Step::Of(ITS_PROTOTYPE, Read::Ordinary),
    Step::Of(ITS_PROTOTYPE, Read::Proto(Some(PARENT))),
    Step::Of(ITS_PROTOTYPE, Read::Extensible(true)),
    Step::Of(ITS_PROTOTYPE, Read::Keys(&[CONSTRUCTOR])),
    Step::Of(
        ITS_PROTOTYPE,
        Read::Hidden(CONSTRUCTOR, Hidden(Content::Object(CONSTRUCTS), true, true)),
    ),
    // a method does not construct, and has none (15.4.4)
    Step::Beside(Beside::Make(
        Make::Function(FunctionNo(0), NO_CONSTRUCTOR, StartText::Empty),
        None,
    )),
    Step::Of(METHOD, Read::NewObjects(3)),
    Step::Of(METHOD, Read::Function(FunctionNo(0), false, false)),
    Step::Of(METHOD, Read::Proto(Some(FUNCTION_PARENT))),
    Step::Of(METHOD, Read::Keys(&[LENGTH, NAME])),
    Step::Of(
        METHOD,
        Read::Hidden(LENGTH, Hidden(Content::Number(0), false, true)),
    ),
    Step::Of(
        METHOD,
        Read::Hidden(NAME, Hidden(Content::Text(StartText::Empty), false, true)),
    ),
];
