//! The texts and Symbols that start objects name.

ghost use Rattle.std.specs.Prelude.{◌≡◌, slice_get};
ghost use Rattle.es_model.specs.declared.start_texts.StartText.TheVariants as text;
ghost use Rattle.es_model.specs.StartTexts.{all_start_texts, symbol_of, text_of, units_of_start};

use crate::nth::nth;
use crate::{Class, ErrorKind};
use property_keys::{SymbolId, TextId};

/// The well-known Symbols (ECMA-262, 6.1.5.1) that the profile has.
#[derive(Clone, Copy, Debug, PartialEq, Eq)]
pub enum WellKnown {
    HasInstance,
    ToPrimitive,
    ToStringTag,
}

impl WellKnown {
    /// Its number: the well-known Symbols are the first in the table of Symbols.
    pub fn symbol(self) -> SymbolId
        ensures { result ≡ symbol_of self }
    {
        match self {
            WellKnown::HasInstance => SymbolId(0),
            WellKnown::ToPrimitive => SymbolId(1),
            WellKnown::ToStringTag => SymbolId(2),
        }
    }
}

/// The texts that the start objects and the well-known Symbols name.
#[derive(Clone, Copy, Debug, PartialEq, Eq)]
pub enum StartText {
    Length,
    Name,
    Prototype,
    Constructor,
    Message,
    Empty,
    GlobalThis,
    Undefined,
    Proxy,
    Reflect,
    /// The name of a well-known Symbol on the constructor of Symbols.
    Symbol(WellKnown),
    /// The description of a well-known Symbol.
    Description(WellKnown),
    /// The name of a class.
    Class(Class),
    Print,
    Call,
    Apply,
    ToString,
    ValueOf,
    /// The key of a Symbol's description.
    SymbolDescription,
    /// The name of the getter there.
    GetDescription,
    /// The name of the method under @@hasInstance.
    HasInstanceMethod,
    /// The name of the method under @@toPrimitive.
    ToPrimitiveMethod,
}

impl StartText {
    /// Its number: these texts are the first in the table of texts.
    pub fn number(self) -> TextId
        ensures { result ≡ text_of self }
    {
        match self {
            StartText::Length => TextId(0),
            StartText::Name => TextId(1),
            StartText::Prototype => TextId(2),
            StartText::Constructor => TextId(3),
            StartText::Message => TextId(4),
            StartText::Empty => TextId(5),
            StartText::GlobalThis => TextId(6),
            StartText::Undefined => TextId(7),
            StartText::Proxy => TextId(8),
            StartText::Reflect => TextId(9),
            StartText::Symbol(symbol) => TextId(10 + symbol.symbol().0),
            StartText::Description(symbol) => TextId(13 + symbol.symbol().0),
            StartText::Class(class) => TextId(16 + class.place()),
            StartText::Print => TextId(28),
            StartText::Call => TextId(29),
            StartText::Apply => TextId(30),
            StartText::ToString => TextId(31),
            StartText::ValueOf => TextId(32),
            StartText::SymbolDescription => TextId(33),
            StartText::GetDescription => TextId(34),
            StartText::HasInstanceMethod => TextId(35),
            StartText::ToPrimitiveMethod => TextId(36),
        }
    }

    /// What it says. Every character is of one byte and one code unit.
    pub fn text(self) -> &'static str
        ensures { result.now ≡ units_of_start self }
    {
        match self {
            StartText::Length => "length",
            StartText::Name => "name",
            StartText::Prototype => "prototype",
            StartText::Constructor => "constructor",
            StartText::Message => "message",
            StartText::Empty => "",
            StartText::GlobalThis => "globalThis",
            StartText::Undefined => "undefined",
            StartText::Proxy => "Proxy",
            StartText::Reflect => "Reflect",
            StartText::Symbol(WellKnown::HasInstance) => "hasInstance",
            StartText::Symbol(WellKnown::ToPrimitive) => "toPrimitive",
            StartText::Symbol(WellKnown::ToStringTag) => "toStringTag",
            StartText::Description(WellKnown::HasInstance) => "Symbol.hasInstance",
            StartText::Description(WellKnown::ToPrimitive) => "Symbol.toPrimitive",
            StartText::Description(WellKnown::ToStringTag) => "Symbol.toStringTag",
            StartText::Class(class) => text_of_class(class),
            StartText::Print => "print",
            StartText::Call => "call",
            StartText::Apply => "apply",
            StartText::ToString => "toString",
            StartText::ValueOf => "valueOf",
            StartText::SymbolDescription => "description",
            StartText::GetDescription => "get description",
            StartText::HasInstanceMethod => "[Symbol.hasInstance]",
            StartText::ToPrimitiveMethod => "[Symbol.toPrimitive]",
        }
    }
}

fn text_of_class(class: Class) -> &'static str
    ensures { result.now ≡ units_of_start (text.Class class) }
{
    match class {
        Class::Object => "Object",
        Class::Function => "Function",
        Class::Array => "Array",
        Class::String => "String",
        Class::Number => "Number",
        Class::Boolean => "Boolean",
        Class::Symbol => "Symbol",
        Class::Error(ErrorKind::Error) => "Error",
        Class::Error(ErrorKind::TypeError) => "TypeError",
        Class::Error(ErrorKind::RangeError) => "RangeError",
        Class::Error(ErrorKind::ReferenceError) => "ReferenceError",
        Class::Error(ErrorKind::SyntaxError) => "SyntaxError",
    }
}

/// The n-th text of the table, where it is one of these.
pub fn start_text(n: usize) -> Option<StartText>
    ensures { result ≡ slice_get all_start_texts n }
{
    let all = [
        StartText::Length,
        StartText::Name,
        StartText::Prototype,
        StartText::Constructor,
        StartText::Message,
        StartText::Empty,
        StartText::GlobalThis,
        StartText::Undefined,
        StartText::Proxy,
        StartText::Reflect,
        StartText::Symbol(WellKnown::HasInstance),
        StartText::Symbol(WellKnown::ToPrimitive),
        StartText::Symbol(WellKnown::ToStringTag),
        StartText::Description(WellKnown::HasInstance),
        StartText::Description(WellKnown::ToPrimitive),
        StartText::Description(WellKnown::ToStringTag),
        StartText::Class(Class::Object),
        StartText::Class(Class::Function),
        StartText::Class(Class::Array),
        StartText::Class(Class::String),
        StartText::Class(Class::Number),
        StartText::Class(Class::Boolean),
        StartText::Class(Class::Symbol),
        StartText::Class(Class::Error(ErrorKind::Error)),
        StartText::Class(Class::Error(ErrorKind::TypeError)),
        StartText::Class(Class::Error(ErrorKind::RangeError)),
        StartText::Class(Class::Error(ErrorKind::ReferenceError)),
        StartText::Class(Class::Error(ErrorKind::SyntaxError)),
        StartText::Print,
        StartText::Call,
        StartText::Apply,
        StartText::ToString,
        StartText::ValueOf,
        StartText::SymbolDescription,
        StartText::GetDescription,
        StartText::HasInstanceMethod,
        StartText::ToPrimitiveMethod,
    ];
    nth(&all, n)
}
