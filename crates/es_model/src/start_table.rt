//! The properties of the start objects.

ghost use Rattle.std.specs.Prelude.{◌≡◌, slice_get};
ghost use Rattle.property_keys.specs.declared.keys.PropKey.TheVariants.{Name};
ghost use Rattle.es_model.specs.declared.intrinsics.Class.TheVariants as class;
ghost use Rattle.es_model.specs.StartTexts.{text_of};
ghost use Rattle.es_model.specs.StartTable.{
  constructor_back,
  constructor_of,
  constructor_properties,
  fixed,
  getter,
  global_properties,
  hidden,
  is_class_of_symbols,
  is_error_itself,
  method,
  method_of_symbol,
  object,
  prototype_properties,
  readonly,
  start_properties,
  stored,
  tag,
  text_value,
  well_known,
};

use crate::nth::nth;
use crate::{BuiltinFunction, Class, ErrorKind, Intrinsic, OwnProperty, StartText, WellKnown};
use descriptors::Complete;
use property_keys::{Attributes, PropKey, Value};

impl Intrinsic {
    /// Its n-th own property at the start, in the order of creation; None past the last.
    pub fn property(self, n: usize) -> Option<OwnProperty>
        ensures { result ≡ slice_get (start_properties self) n }
    {
        match self {
            Intrinsic::Global => of_global(n),
            Intrinsic::Constructor(class) => of_constructor(class, n),
            Intrinsic::Prototype(class) => of_prototype(class, n),
            Intrinsic::Proxy => nth(
                &[
                    readonly(StartText::Length, Value::Whole(2)),
                    readonly(StartText::Name, text(StartText::Proxy)),
                ],
                n,
            ),
            Intrinsic::ThrowTypeError => nth(
                &[
                    fixed(StartText::Length, Value::Whole(0)),
                    fixed(StartText::Name, text(StartText::Empty)),
                ],
                n,
            ),
            Intrinsic::Reflect => nth(&[tag(StartText::Reflect)], n),
            Intrinsic::Print => nth(
                &[
                    readonly(StartText::Length, Value::Whole(0)),
                    readonly(StartText::Name, text(StartText::Print)),
                ],
                n,
            ),
            Intrinsic::Function(function) => nth(
                &[
                    readonly(StartText::Length, Value::Whole(function.parameters())),
                    readonly(StartText::Name, text(function.text())),
                ],
                n,
            ),
        }
    }
}

fn of_global(n: usize) -> Option<OwnProperty>
    ensures { result ≡ slice_get global_properties n }
{
    let all = [
        hidden(StartText::GlobalThis, object(Intrinsic::Global)),
        fixed(StartText::Undefined, Value::Undefined),
        hidden(StartText::Print, object(Intrinsic::Print)),
        constructor_of(Class::Function),
        constructor_of(Class::Number),
        constructor_of(Class::Boolean),
        constructor_of(Class::Symbol),
        constructor_of(Class::Error(ErrorKind::Error)),
        constructor_of(Class::Error(ErrorKind::TypeError)),
        constructor_of(Class::Error(ErrorKind::RangeError)),
        constructor_of(Class::Error(ErrorKind::ReferenceError)),
        constructor_of(Class::Error(ErrorKind::SyntaxError)),
        hidden(StartText::Reflect, object(Intrinsic::Reflect)),
    ];
    nth(&all, n)
}

fn of_constructor(class: Class, n: usize) -> Option<OwnProperty>
    ensures { result ≡ slice_get (constructor_properties class) n }
{
    let name = readonly(StartText::Name, text(StartText::Class(class)));
    let prototype = fixed(StartText::Prototype, object(Intrinsic::Prototype(class)));
    if is_class_of_symbols(class) {
        let all = [
            readonly(StartText::Length, Value::Whole(0)),
            name,
            prototype,
            well_known(WellKnown::HasInstance),
            well_known(WellKnown::ToPrimitive),
            well_known(WellKnown::ToStringTag),
        ];
        return nth(&all, n);
    }
    let length = readonly(StartText::Length, Value::Whole(1));
    nth(&[length, name, prototype], n)
}

fn is_class_of_symbols(class: Class) -> bool
    ensures { result ≡ is_class_of_symbols class }
{
    match class {
        Class::Symbol => true,
        _ => false,
    }
}

fn of_prototype(class: Class, n: usize) -> Option<OwnProperty>
    ensures { result ≡ slice_get (prototype_properties class) n }
{
    match class {
        Class::Object => nth(&[], n),
        Class::Function => of_functions(n),
        Class::Number => nth(
            &[
                constructor_back(class),
                method(StartText::ToString, BuiltinFunction::NumberToString),
                method(StartText::ValueOf, BuiltinFunction::NumberValueOf),
            ],
            n,
        ),
        Class::Boolean => nth(
            &[
                constructor_back(class),
                method(StartText::ToString, BuiltinFunction::BooleanToString),
                method(StartText::ValueOf, BuiltinFunction::BooleanValueOf),
            ],
            n,
        ),
        Class::Array => nth(
            &[stored(true, false, name(StartText::Length), Value::Whole(0))],
            n,
        ),
        Class::String => nth(&[fixed(StartText::Length, Value::Whole(0))], n),
        Class::Symbol => of_symbols(n),
        Class::Error(kind) => of_errors(kind, n),
    }
}

fn of_functions(n: usize) -> Option<OwnProperty>
    ensures { result ≡ slice_get (prototype_properties class.Function) n }
{
    let all = [
        readonly(StartText::Length, Value::Whole(0)),
        readonly(StartText::Name, text(StartText::Empty)),
        constructor_back(Class::Function),
        method(StartText::Call, BuiltinFunction::FunctionCall),
        method(StartText::Apply, BuiltinFunction::FunctionApply),
        method_of_symbol(
            false,
            WellKnown::HasInstance,
            BuiltinFunction::FunctionHasInstance,
        ),
    ];
    nth(&all, n)
}

fn of_symbols(n: usize) -> Option<OwnProperty>
    ensures { result ≡ slice_get (prototype_properties class.Symbol) n }
{
    let all = [
        constructor_back(Class::Symbol),
        method(StartText::ToString, BuiltinFunction::SymbolToString),
        method(StartText::ValueOf, BuiltinFunction::SymbolValueOf),
        getter(
            StartText::SymbolDescription,
            BuiltinFunction::SymbolDescription,
        ),
        method_of_symbol(
            true,
            WellKnown::ToPrimitive,
            BuiltinFunction::SymbolToPrimitive,
        ),
        tag(StartText::Class(Class::Symbol)),
    ];
    nth(&all, n)
}

/// Error's prototype alone has toString: those of the four kinds inherit it.
fn of_errors(kind: ErrorKind, n: usize) -> Option<OwnProperty>
    ensures { result ≡ slice_get (prototype_properties (class.Error kind)) n }
{
    let back = constructor_back(Class::Error(kind));
    let name = hidden(StartText::Name, text(StartText::Class(Class::Error(kind))));
    let message = hidden(StartText::Message, text(StartText::Empty));
    if is_error_itself(kind) {
        let own = method(StartText::ToString, BuiltinFunction::ErrorToString);
        return nth(&[back, name, message, own], n);
    }
    nth(&[back, name, message], n)
}

fn is_error_itself(kind: ErrorKind) -> bool
    ensures { result ≡ is_error_itself kind }
{
    match kind {
        ErrorKind::Error => true,
        _ => false,
    }
}

fn object(it: Intrinsic) -> Value
    ensures { result ≡ object it }
{
    Value::Object(it.object())
}

/// A constructor on the global object.
fn constructor_of(class: Class) -> OwnProperty
    ensures { result ≡ constructor_of class }
{
    hidden(
        StartText::Class(class),
        object(Intrinsic::Constructor(class)),
    )
}

/// The constructor on its prototype object.
fn constructor_back(class: Class) -> OwnProperty
    ensures { result ≡ constructor_back class }
{
    hidden(
        StartText::Constructor,
        object(Intrinsic::Constructor(class)),
    )
}

/// A method under a text, writable and configurable.
fn method(key: StartText, function: BuiltinFunction) -> OwnProperty
    ensures { result ≡ method key function }
{
    hidden(key, object(Intrinsic::Function(function)))
}

/// A method under a well-known Symbol.
fn method_of_symbol(configurable: bool, symbol: WellKnown, function: BuiltinFunction) -> OwnProperty
    ensures { result ≡ method_of_symbol configurable symbol function }
{
    stored(
        false,
        configurable,
        PropKey::Sym(symbol.symbol()),
        object(Intrinsic::Function(function)),
    )
}

/// An accessor without a setter, configurable only.
fn getter(key: StartText, function: BuiltinFunction) -> OwnProperty
    ensures { result ≡ getter key function }
{
    OwnProperty {
        key: name(key),
        complete: Complete::Accessor {
            get: Some(Intrinsic::Function(function).object()),
            set: None,
            enumerable: false,
            configurable: true,
        },
    }
}

fn stored(writable: bool, configurable: bool, key: PropKey, value: Value) -> OwnProperty
    ensures { result ≡ stored writable configurable key value }
{
    let attributes = Attributes {
        writable,
        enumerable: false,
        configurable,
    };
    OwnProperty {
        key,
        complete: Complete::Stored { value, attributes },
    }
}

fn name(key: StartText) -> PropKey
    ensures { result ≡ Name (text_of key) }
{
    PropKey::Name(key.number())
}

fn text(it: StartText) -> Value
    ensures { result ≡ text_value it }
{
    Value::Text(it.number())
}

/// Not enumerable.
fn hidden(key: StartText, value: Value) -> OwnProperty
    ensures { result ≡ hidden key value }
{
    stored(true, true, name(key), value)
}

/// With three false flags.
fn fixed(key: StartText, value: Value) -> OwnProperty
    ensures { result ≡ fixed key value }
{
    stored(false, false, name(key), value)
}

/// Configurable only.
fn readonly(key: StartText, value: Value) -> OwnProperty
    ensures { result ≡ readonly key value }
{
    stored(false, true, name(key), value)
}

/// @@toStringTag, configurable only.
fn tag(it: StartText) -> OwnProperty
    ensures { result ≡ tag it }
{
    stored(
        false,
        true,
        PropKey::Sym(WellKnown::ToStringTag.symbol()),
        text(it),
    )
}

/// A well-known Symbol on the constructor of Symbols.
fn well_known(symbol: WellKnown) -> OwnProperty
    ensures { result ≡ well_known symbol }
{
    fixed(StartText::Symbol(symbol), Value::Symbol(symbol.symbol()))
}
