//! The two calls of the crate: which function begins a request, and which goes on with an answer.

ghost use Rattle.std.specs.Prelude.{◌≡◌, slice_get};
ghost use Rattle.es_model.specs.Belongs.{Belongs, HasNames};
ghost use Rattle.es_model.specs.Completions.{answered};
ghost use Rattle.es_model.specs.Fits.{IsKnownCompletion, IsKnownRequest};
ghost use Rattle.es_model.specs.Known.{AreKnown, IsKnown, IsObject};
ghost use Rattle.es_model.specs.Program.{Of, Task};
ghost use Rattle.es_model.specs.Sound.{IsSound};
ghost use Rattle.es_model.specs.Stages.{stage_of};
ghost use Rattle.es_model.specs.StartWorld.{all_intrinsics};
ghost use Rattle.es_model.specs.World.{World};
ghost use Rattle.object_heap.specs.Retains.{Retains};
ghost use Rattle.object_heap.specs.Stands.{StandsFor};
ghost use Rattle.object_heap.specs.Stops.{Stops};
ghost use Rattle.object_heap.specs.Turns.{IsTurn, KeepsFor, KeepsNamed, StaysSound, world_after};
ghost use Rattle.core_builtins.specs.Core.{call_of, call_program, construct_of, construct_program, constructor_called, constructor_constructed, core_program, function_called, intrinsic_called, intrinsic_constructed, prototype_called, row_of, row_called, row_constructed};
ghost use Rattle.core_builtins.specs.Names.{names_of, names_of_error, names_of_error_text, names_of_function, names_of_wrapper};
ghost use Rattle.core_builtins.specs.Rests.{after_error, after_error_text, after_function, after_symbol, after_wrapper, program_after};
ghost use Rattle.core_builtins.specs.Turns.{StopsAt};

use crate::booleans::{boolean_called, boolean_constructed, boolean_to_string, boolean_value_of};
use crate::error_texts::{error_to_string, message_got, message_text_given, name_given, name_got};
use crate::errors::{cause_given, cause_had, error_constructed, error_given, message_given};
use crate::frame::{
    CoreFrame, ErrorFrame, ErrorTextFrame, FunctionFrame, SymbolFrame, WrapperFrame,
};
use crate::functions::{
    function_apply, function_call, function_has_instance, instance_given, list_given,
};
use crate::numbers::{
    number_called, number_constructed, number_given, number_to_wrap, number_value_of,
};
use crate::radices::{number_to_string, radix_given};
use crate::symbols::{
    description_given, symbol_called, symbol_description, symbol_to_string, symbol_value_of,
};
use crate::throwing::wrong_value;
use crate::wrappers::wrapper_given;
use es_model::{
    BuiltinFunction, Class, Completion, Intrinsic, ObjectKind, Reply, Request, Stop, Turn, Values,
    start_intrinsic,
};
use object_heap::Heap;
use property_keys::{Ledger, ObjectId, Steps, Value};
use std::alloc::Global;

/// The first turn of a call or of a construction of a built-in function, after its entering. Every other request is for other crates, and throws undefined here; so
/// does a row that is not written yet.
///
/// No turn is charged.
#[tactic(auto, using(object_heap::proofs::Turns::turn_of, object_heap::proofs::Turns::sound_of, object_heap::proofs::Turns::named_of, crate::proofs::KeptCore::core_kept))]
pub fn start<L: Ledger>(
    alloc: Global,
    heap: &mut Heap,
    request: &Request,
    steps: &mut Steps<L>,
) -> Result<Turn<CoreFrame>, Stop>
    ensures stops { (w : World) → StandsFor heap.old w → Stops program_after heap.old heap.new w (stage_of (core_program request.now) w) result }
    ensures turn { (w : World) → StandsFor heap.old w → IsTurn program_after heap.old heap.new (core_program request.now) w result }
    ensures sound { (w : World) → StandsFor heap.old w → IsSound w → IsKnownRequest w.lists request.now → StaysSound program_after (Of request.now) (world_after (core_program request.now) w) result }
    ensures belongs { (w : World) → StandsFor heap.old w → IsKnownRequest w.lists request.now → KeepsNamed names_of (world_after (core_program request.now) w) result }
    ensures retains { Retains heap.old heap.new }
{
    first_turn(alloc, heap, request, steps)
}

/// The next turn of a frame, with the answer to what it asked. No turn is charged.
#[tactic(auto, using(object_heap::proofs::Turns::turn_of, object_heap::proofs::Turns::sound_of))]
pub fn resume<L: Ledger>(
    alloc: Global,
    heap: &mut Heap,
    frame: CoreFrame,
    answer: Completion,
    steps: &mut Steps<L>,
) -> Result<Turn<CoreFrame>, Stop>
    ensures stops { (w : World) → StandsFor heap.old w → Stops program_after heap.old heap.new w (stage_of (program_after frame (answered answer)) w) result }
    ensures turn { (w : World) → StandsFor heap.old w → IsTurn program_after heap.old heap.new (program_after frame (answered answer)) w result }
    ensures sound { (started : Task) (w : World) → StandsFor heap.old w → KeepsFor started (program_after frame (answered answer)) w → StaysSound program_after started (world_after (program_after frame (answered answer)) w) result }
    ensures belongs { (w : World) → StandsFor heap.old w → Belongs names_of w frame → IsKnownCompletion w.lists (answered answer) → KeepsNamed names_of (world_after (program_after frame (answered answer)) w) result }
    ensures retains { Retains heap.old heap.new }
{
    next_turn(alloc, heap, frame, answer, steps)
}

fn first_turn<L: Ledger>(
    alloc: Global,
    heap: &mut Heap,
    request: &Request,
    steps: &mut Steps<L>,
) -> Result<Turn<CoreFrame>, Stop>
    ensures stops { StopsAt heap.old heap.new (core_program request.now) result }
    ensures named { (w : World) → IsKnownRequest w.lists request.now → KeepsNamed names_of w result }
    ensures retains { Retains heap.old heap.new }
{
    match request {
        Request::Call {
            function,
            this,
            arguments,
        } => call(alloc, heap, *function, *this, arguments, steps),
        Request::Construct {
            function,
            arguments,
            target,
        } => construct(alloc, heap, *function, arguments, *target, steps),
        Request::GetOwn { .. }
        | Request::Define { .. }
        | Request::Has { .. }
        | Request::Read { .. }
        | Request::Write { .. }
        | Request::Delete { .. }
        | Request::Keys { .. }
        | Request::Proto { .. }
        | Request::SetProto { .. }
        | Request::Extensible { .. }
        | Request::Prevent { .. }
        | Request::Work { .. }
        | Request::Print { .. } => Ok(Turn::Done(Completion::Throw(Value::Undefined))),
    }
}

/// A call of a built-in function.
fn call<L: Ledger>(
    alloc: Global,
    heap: &mut Heap,
    function: Value,
    this: Value,
    arguments: &Values,
    steps: &mut Steps<L>,
) -> Result<Turn<CoreFrame>, Stop>
    ensures stops { StopsAt heap.old heap.new (call_program function this arguments.now) result }
    ensures named { (w : World) → IsKnown w.lists function → IsKnown w.lists this → AreKnown w.lists arguments.now → KeepsNamed names_of w result }
    ensures retains { Retains heap.old heap.new }
{
    match function {
        Value::Object(object) => match row_of(heap.kind(object)) {
            Some(row) => row_called(alloc, heap, row, object, this, arguments, steps),
            None => Ok(Turn::Done(Completion::Throw(Value::Undefined))),
        },
        Value::Undefined
        | Value::Null
        | Value::Bool(_)
        | Value::Whole(_)
        | Value::Text(_)
        | Value::Symbol(_) => Ok(Turn::Done(Completion::Throw(Value::Undefined))),
    }
}

/// The row of a built-in function.
fn row_of(kind: &ObjectKind) -> Option<u32>
    ensures { result ≡ row_of kind.now }
{
    match kind {
        ObjectKind::Builtin { row, .. } => Some(*row),
        ObjectKind::Ordinary
        | ObjectKind::Function { .. }
        | ObjectKind::Array
        | ObjectKind::Text(_)
        | ObjectKind::Wrapper(_)
        | ObjectKind::Arguments { .. }
        | ObjectKind::Error
        | ObjectKind::Proxy { .. } => None,
    }
}

fn row_called<L: Ledger>(
    alloc: Global,
    heap: &mut Heap,
    row: u32,
    function: ObjectId,
    this: Value,
    arguments: &Values,
    steps: &mut Steps<L>,
) -> Result<Turn<CoreFrame>, Stop>
    ensures stops { StopsAt heap.old heap.new (row_called row function this arguments.now) result }
    ensures named { (w : World) → IsObject w.lists function → IsKnown w.lists this → AreKnown w.lists arguments.now → KeepsNamed names_of w result }
    ensures retains { Retains heap.old heap.new }
{
    match start_intrinsic(row as usize) {
        Some(Intrinsic::Constructor(class)) => {
            constructor_called(alloc, heap, class, function, arguments, steps)
        }
        Some(Intrinsic::Prototype(class)) => prototype_called(heap, class),
        Some(Intrinsic::ThrowTypeError) => wrong_value(heap, steps),
        Some(Intrinsic::Function(builtin)) => {
            function_called(alloc, heap, builtin, this, arguments, steps)
        }
        Some(Intrinsic::Global | Intrinsic::Proxy | Intrinsic::Reflect | Intrinsic::Print) | None =>
            Ok(Turn::Done(Completion::Throw(Value::Undefined))),
    }
}

/// A constructor that is called.
fn constructor_called<L: Ledger>(
    alloc: Global,
    heap: &mut Heap,
    class: Class,
    function: ObjectId,
    arguments: &Values,
    steps: &mut Steps<L>,
) -> Result<Turn<CoreFrame>, Stop>
    ensures stops { StopsAt heap.old heap.new (constructor_called class function arguments.now) result }
    ensures named { (w : World) → IsObject w.lists function → AreKnown w.lists arguments.now → KeepsNamed names_of w result }
    ensures retains { Retains heap.old heap.new }
{
    match class {
        Class::Function => wrong_value(heap, steps),
        Class::Number => number_called(alloc, heap, arguments),
        Class::Boolean => boolean_called(heap, arguments),
        Class::Symbol => symbol_called(alloc, heap, arguments),
        Class::Error(kind) => error_constructed(heap, kind, arguments, function),
        Class::Object | Class::Array | Class::String => {
            Ok(Turn::Done(Completion::Throw(Value::Undefined)))
        }
    }
}

/// %Function.prototype% gives undefined (20.2.3). No other prototype is a function.
fn prototype_called(heap: &mut Heap, class: Class) -> Result<Turn<CoreFrame>, Stop>
    ensures stops { StopsAt heap.old heap.new (prototype_called class) result }
    ensures named { (w : World) → KeepsNamed names_of w result }
    ensures retains { Retains heap.old heap.new }
{
    match class {
        Class::Function => Ok(Turn::Done(Completion::Normal(Reply::Value(Value::Undefined)))),
        Class::Object
        | Class::Array
        | Class::String
        | Class::Number
        | Class::Boolean
        | Class::Symbol
        | Class::Error(_) => Ok(Turn::Done(Completion::Throw(Value::Undefined))),
    }
}

/// A function that is no constructor.
fn function_called<L: Ledger>(
    alloc: Global,
    heap: &mut Heap,
    builtin: BuiltinFunction,
    this: Value,
    arguments: &Values,
    steps: &mut Steps<L>,
) -> Result<Turn<CoreFrame>, Stop>
    ensures stops { StopsAt heap.old heap.new (function_called builtin this arguments.now) result }
    ensures named { (w : World) → IsKnown w.lists this → AreKnown w.lists arguments.now → KeepsNamed names_of w result }
    ensures retains { Retains heap.old heap.new }
{
    match builtin {
        BuiltinFunction::FunctionCall => function_call(alloc, heap, this, arguments, steps),
        BuiltinFunction::FunctionApply => function_apply(alloc, heap, this, arguments, steps),
        BuiltinFunction::NumberValueOf => number_value_of(heap, this, steps),
        BuiltinFunction::BooleanToString => boolean_to_string(heap, this, steps),
        BuiltinFunction::BooleanValueOf => boolean_value_of(heap, this, steps),
        BuiltinFunction::SymbolToString => symbol_to_string(heap, this, steps),
        BuiltinFunction::SymbolValueOf | BuiltinFunction::SymbolToPrimitive => {
            symbol_value_of(heap, this, steps)
        }
        BuiltinFunction::SymbolDescription => symbol_description(heap, this, steps),
        BuiltinFunction::ErrorToString => error_to_string(heap, this, steps),
        BuiltinFunction::NumberToString => number_to_string(alloc, heap, this, arguments, steps),
        BuiltinFunction::FunctionHasInstance => function_has_instance(alloc, heap, this, arguments),
    }
}

/// A construction by a built-in function.
fn construct<L: Ledger>(
    alloc: Global,
    heap: &mut Heap,
    function: ObjectId,
    arguments: &Values,
    target: ObjectId,
    steps: &mut Steps<L>,
) -> Result<Turn<CoreFrame>, Stop>
    ensures stops { StopsAt heap.old heap.new (construct_program function arguments.now target) result }
    ensures named { (w : World) → IsObject w.lists target → AreKnown w.lists arguments.now → KeepsNamed names_of w result }
    ensures retains { Retains heap.old heap.new }
{
    match row_of(heap.kind(function)) {
        Some(row) => row_constructed(alloc, heap, row, arguments, target, steps),
        None => Ok(Turn::Done(Completion::Throw(Value::Undefined))),
    }
}

fn row_constructed<L: Ledger>(
    alloc: Global,
    heap: &mut Heap,
    row: u32,
    arguments: &Values,
    target: ObjectId,
    steps: &mut Steps<L>,
) -> Result<Turn<CoreFrame>, Stop>
    ensures stops { StopsAt heap.old heap.new (row_constructed row arguments.now target) result }
    ensures named { (w : World) → IsObject w.lists target → AreKnown w.lists arguments.now → KeepsNamed names_of w result }
    ensures retains { Retains heap.old heap.new }
{
    match start_intrinsic(row as usize) {
        Some(Intrinsic::Constructor(class)) => {
            constructor_constructed(alloc, heap, class, arguments, target, steps)
        }
        Some(
            Intrinsic::Global
            | Intrinsic::Prototype(_)
            | Intrinsic::Proxy
            | Intrinsic::ThrowTypeError
            | Intrinsic::Reflect
            | Intrinsic::Print
            | Intrinsic::Function(_),
        )
        | None => Ok(Turn::Done(Completion::Throw(Value::Undefined))),
    }
}

/// A constructor that constructs.
fn constructor_constructed<L: Ledger>(
    alloc: Global,
    heap: &mut Heap,
    class: Class,
    arguments: &Values,
    target: ObjectId,
    steps: &mut Steps<L>,
) -> Result<Turn<CoreFrame>, Stop>
    ensures stops { StopsAt heap.old heap.new (constructor_constructed class arguments.now target) result }
    ensures named { (w : World) → IsObject w.lists target → AreKnown w.lists arguments.now → KeepsNamed names_of w result }
    ensures retains { Retains heap.old heap.new }
{
    match class {
        Class::Function | Class::Symbol => wrong_value(heap, steps),
        Class::Number => number_constructed(alloc, heap, arguments, target),
        Class::Boolean => boolean_constructed(heap, arguments, target),
        Class::Error(kind) => error_constructed(heap, kind, arguments, target),
        Class::Object | Class::Array | Class::String => {
            Ok(Turn::Done(Completion::Throw(Value::Undefined)))
        }
    }
}

fn next_turn<L: Ledger>(
    alloc: Global,
    heap: &mut Heap,
    frame: CoreFrame,
    answer: Completion,
    steps: &mut Steps<L>,
) -> Result<Turn<CoreFrame>, Stop>
    ensures stops { StopsAt heap.old heap.new (program_after frame (answered answer)) result }
    ensures named { (w v : World) → StandsFor heap.old w → StandsFor heap.new v → Belongs names_of v frame → IsKnownCompletion v.lists (answered answer) → KeepsNamed names_of v result }
    ensures retains { Retains heap.old heap.new }
{
    match frame {
        CoreFrame::Function(frame) => after_function(heap, frame, answer),
        CoreFrame::Wrapper(frame) => after_wrapper(alloc, heap, frame, answer, steps),
        CoreFrame::Symbol(frame) => after_symbol(heap, frame, answer),
        CoreFrame::Error(frame) => after_error(alloc, heap, frame, answer, steps),
        CoreFrame::ErrorText(frame) => after_error_text(alloc, heap, frame, answer, steps),
    }
}

fn after_function(
    heap: &mut Heap,
    frame: FunctionFrame,
    answer: Completion,
) -> Result<Turn<CoreFrame>, Stop>
    ensures stops { StopsAt heap.old heap.new (after_function frame (answered answer)) result }
    ensures named { (w : World) → KeepsNamed names_of w result }
    ensures retains { Retains heap.old heap.new }
{
    match frame {
        FunctionFrame::ListGiven(calling) => list_given(heap, calling, answer),
        FunctionFrame::Called => Ok(Turn::Done(answer)),
        FunctionFrame::InstanceGiven => instance_given(heap, answer),
    }
}

fn after_wrapper<L: Ledger>(
    alloc: Global,
    heap: &mut Heap,
    frame: WrapperFrame,
    answer: Completion,
    steps: &mut Steps<L>,
) -> Result<Turn<CoreFrame>, Stop>
    ensures stops { StopsAt heap.old heap.new (after_wrapper frame (answered answer)) result }
    ensures named { (w : World) → HasNames w.script w.lists (names_of_wrapper frame) → IsKnownCompletion w.lists (answered answer) → KeepsNamed names_of w result }
    ensures retains { Retains heap.old heap.new }
{
    match frame {
        WrapperFrame::NumberGiven => number_given(heap, answer),
        WrapperFrame::NumberToWrap(target) => number_to_wrap(heap, target, answer),
        WrapperFrame::RadixGiven(x) => radix_given(alloc, heap, x, answer, steps),
        WrapperFrame::PrototypeGiven(wrapping) => wrapper_given(heap, wrapping, answer, steps),
    }
}

fn after_symbol(
    heap: &mut Heap,
    frame: SymbolFrame,
    answer: Completion,
) -> Result<Turn<CoreFrame>, Stop>
    ensures stops { StopsAt heap.old heap.new (after_symbol frame (answered answer)) result }
    ensures named { (w : World) → KeepsNamed names_of w result }
    ensures retains { Retains heap.old heap.new }
{
    match frame {
        SymbolFrame::DescriptionGiven => description_given(heap, answer),
    }
}

fn after_error<L: Ledger>(
    alloc: Global,
    heap: &mut Heap,
    frame: ErrorFrame,
    answer: Completion,
    steps: &mut Steps<L>,
) -> Result<Turn<CoreFrame>, Stop>
    ensures stops { StopsAt heap.old heap.new (after_error frame (answered answer)) result }
    ensures named { (w v : World) → StandsFor heap.old w → StandsFor heap.new v → HasNames v.script v.lists (names_of_error frame) → KeepsNamed names_of v result }
    ensures retains { Retains heap.old heap.new }
{
    match frame {
        ErrorFrame::PrototypeGiven(erring) => error_given(alloc, heap, erring, answer, steps),
        ErrorFrame::MessageGiven(installing) => message_given(heap, installing, answer, steps),
        ErrorFrame::CauseHad(causing) => cause_had(heap, causing, answer),
        ErrorFrame::CauseGiven(error) => cause_given(heap, error, answer, steps),
    }
}

fn after_error_text<L: Ledger>(
    alloc: Global,
    heap: &mut Heap,
    frame: ErrorTextFrame,
    answer: Completion,
    steps: &mut Steps<L>,
) -> Result<Turn<CoreFrame>, Stop>
    ensures stops { StopsAt heap.old heap.new (after_error_text frame (answered answer)) result }
    ensures named { (w v : World) → StandsFor heap.old w → StandsFor heap.new v → HasNames v.script v.lists (names_of_error_text frame) → IsKnownCompletion v.lists (answered answer) → KeepsNamed names_of v result }
    ensures retains { Retains heap.old heap.new }
{
    match frame {
        ErrorTextFrame::NameGot(object) => name_got(alloc, heap, object, answer),
        ErrorTextFrame::NameGiven(object) => name_given(heap, object, answer),
        ErrorTextFrame::MessageGot(name) => message_got(alloc, heap, name, answer, steps),
        ErrorTextFrame::MessageGiven(name) => message_text_given(heap, name, answer, steps),
    }
}
