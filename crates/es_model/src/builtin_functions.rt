//! The built-in functions that are no constructors: each with its place, its name and its number of parameters.

ghost use Rattle.std.specs.Prelude.{◌≡◌, pos};
ghost use Rattle.es_model.specs.BuiltinFunctions.{function_parameters, function_place, function_text};

use crate::StartText;

/// A built-in function that is a property of a start object and no constructor.
#[derive(Clone, Copy, Debug, PartialEq, Eq)]
pub enum BuiltinFunction {
    /// Function.prototype.call (20.2.3.3).
    FunctionCall,
    /// Function.prototype.apply (20.2.3.1).
    FunctionApply,
    /// Function.prototype[@@hasInstance] (20.2.3.6).
    FunctionHasInstance,
    /// Number.prototype.toString (21.1.3.6).
    NumberToString,
    /// Number.prototype.valueOf (21.1.3.7).
    NumberValueOf,
    /// Boolean.prototype.toString (20.3.3.2).
    BooleanToString,
    /// Boolean.prototype.valueOf (20.3.3.3).
    BooleanValueOf,
    /// Symbol.prototype.toString (20.4.3.3).
    SymbolToString,
    /// Symbol.prototype.valueOf (20.4.3.4).
    SymbolValueOf,
    /// The getter of Symbol.prototype.description (20.4.3.2).
    SymbolDescription,
    /// Symbol.prototype[@@toPrimitive] (20.4.3.5).
    SymbolToPrimitive,
    /// Error.prototype.toString (20.5.3.4).
    ErrorToString,
}

impl BuiltinFunction {
    /// Its place among them.
    pub(crate) fn place(self) -> u32
        ensures { result ≡ function_place self }
    {
        match self {
            BuiltinFunction::FunctionCall => 0,
            BuiltinFunction::FunctionApply => 1,
            BuiltinFunction::FunctionHasInstance => 2,
            BuiltinFunction::NumberToString => 3,
            BuiltinFunction::NumberValueOf => 4,
            BuiltinFunction::BooleanToString => 5,
            BuiltinFunction::BooleanValueOf => 6,
            BuiltinFunction::SymbolToString => 7,
            BuiltinFunction::SymbolValueOf => 8,
            BuiltinFunction::SymbolDescription => 9,
            BuiltinFunction::SymbolToPrimitive => 10,
            BuiltinFunction::ErrorToString => 11,
        }
    }

    /// What its property `name` says.
    pub(crate) fn text(self) -> StartText
        ensures { result ≡ function_text self }
    {
        match self {
            BuiltinFunction::FunctionCall => StartText::Call,
            BuiltinFunction::FunctionApply => StartText::Apply,
            BuiltinFunction::FunctionHasInstance => StartText::HasInstanceMethod,
            BuiltinFunction::NumberToString
            | BuiltinFunction::BooleanToString
            | BuiltinFunction::SymbolToString
            | BuiltinFunction::ErrorToString => StartText::ToString,
            BuiltinFunction::NumberValueOf
            | BuiltinFunction::BooleanValueOf
            | BuiltinFunction::SymbolValueOf => StartText::ValueOf,
            BuiltinFunction::SymbolDescription => StartText::GetDescription,
            BuiltinFunction::SymbolToPrimitive => StartText::ToPrimitiveMethod,
        }
    }

    /// What its property `length` says.
    pub(crate) fn parameters(self) -> i64
        ensures { result ≡ pos (function_parameters self) }
    {
        match self {
            BuiltinFunction::NumberValueOf
            | BuiltinFunction::BooleanToString
            | BuiltinFunction::BooleanValueOf
            | BuiltinFunction::SymbolToString
            | BuiltinFunction::SymbolValueOf
            | BuiltinFunction::SymbolDescription
            | BuiltinFunction::ErrorToString => 0,
            BuiltinFunction::FunctionCall
            | BuiltinFunction::FunctionHasInstance
            | BuiltinFunction::NumberToString
            | BuiltinFunction::SymbolToPrimitive => 1,
            BuiltinFunction::FunctionApply => 2,
        }
    }
}
