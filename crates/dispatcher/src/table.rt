//! The table of who serves what. A crate that serves more has more rows here, and in `specs/Table.antt`.

ghost use Rattle.std.specs.Prelude.{◌≡◌};
ghost use Rattle.es_model.specs.World.{World};
ghost use Rattle.object_heap.specs.Stands.{StandsFor};
ghost use Rattle.dispatcher.specs.Table.{builtin_provider, call_service, callee_service, construct_service, define_service, method_service, served_by};

use es_model::{Intrinsic, ObjectKind, Request};
use es_tree::FunctionNo;
use object_heap::Heap;
use property_keys::Value;

/// Where an algorithm stands.
#[derive(Clone, Copy)]
pub(crate) enum Provider {
    /// `ordinary_object`
    Ordinary,
    /// `plain_builtins`
    Plain,
    /// `core_builtins`
    Core,
    /// `evaluator`, with the function whose body runs
    Running(FunctionNo),
    /// Nowhere yet: undefined is thrown.
    Unwritten,
}

/// How a request is served.
#[derive(Clone, Copy)]
pub(crate) enum Service {
    /// Its algorithm begins.
    Begins(Provider),
    /// It is entered, and then its algorithm begins.
    Enters(Provider),
    /// The dispatcher prints it.
    Prints,
}

fn method_service(kind: &ObjectKind) -> Service
    ensures { result ≡ method_service kind.now }
{
    match kind {
        ObjectKind::Ordinary
        | ObjectKind::Function { .. }
        | ObjectKind::Builtin { .. }
        | ObjectKind::Array
        | ObjectKind::Text(_)
        | ObjectKind::Wrapper(_)
        | ObjectKind::Error => Service::Begins(Provider::Ordinary),
        ObjectKind::Arguments { .. } => Service::Begins(Provider::Unwritten),
        ObjectKind::Proxy { .. } => Service::Enters(Provider::Unwritten),
    }
}

/// [[DefineOwnProperty]] of an Array object is its own (10.4.2.1).
fn define_service(kind: &ObjectKind) -> Service
    ensures { result ≡ define_service kind.now }
{
    match kind {
        ObjectKind::Array => Service::Begins(Provider::Unwritten),
        ObjectKind::Ordinary
        | ObjectKind::Function { .. }
        | ObjectKind::Builtin { .. }
        | ObjectKind::Text(_)
        | ObjectKind::Wrapper(_)
        | ObjectKind::Arguments { .. }
        | ObjectKind::Error
        | ObjectKind::Proxy { .. } => method_service(kind),
    }
}

fn builtin_provider(row: u32) -> Provider
    ensures { result ≡ builtin_provider row }
{
    if row == Intrinsic::Print.object().0 {
        Provider::Plain
    } else {
        Provider::Core
    }
}

fn call_service(kind: &ObjectKind) -> Service
    ensures { result ≡ call_service kind.now }
{
    match kind {
        ObjectKind::Function { function, .. } => Service::Enters(Provider::Running(*function)),
        ObjectKind::Builtin { row, .. } => Service::Enters(builtin_provider(*row)),
        ObjectKind::Proxy { callable, .. } => {
            if *callable {
                Service::Enters(Provider::Unwritten)
            } else {
                Service::Begins(Provider::Plain)
            }
        }
        ObjectKind::Ordinary
        | ObjectKind::Array
        | ObjectKind::Text(_)
        | ObjectKind::Wrapper(_)
        | ObjectKind::Arguments { .. }
        | ObjectKind::Error => Service::Begins(Provider::Plain),
    }
}

fn callee_service(heap: &Heap, function: Value) -> Service
    ensures { (w : World) → StandsFor heap.now w → result ≡ callee_service w.lists function }
{
    match function {
        Value::Object(object) => call_service(heap.kind(object)),
        Value::Undefined
        | Value::Null
        | Value::Bool(_)
        | Value::Whole(_)
        | Value::Text(_)
        | Value::Symbol(_) => Service::Begins(Provider::Plain),
    }
}

fn construct_service(kind: &ObjectKind) -> Service
    ensures { result ≡ construct_service kind.now }
{
    match kind {
        ObjectKind::Function {
            function,
            constructor,
            ..
        } => {
            if *constructor {
                Service::Enters(Provider::Running(*function))
            } else {
                Service::Begins(Provider::Plain)
            }
        }
        ObjectKind::Builtin { constructor, .. } => {
            if *constructor {
                Service::Enters(Provider::Core)
            } else {
                Service::Begins(Provider::Plain)
            }
        }
        ObjectKind::Proxy { constructor, .. } => {
            if *constructor {
                Service::Enters(Provider::Unwritten)
            } else {
                Service::Begins(Provider::Plain)
            }
        }
        ObjectKind::Ordinary
        | ObjectKind::Array
        | ObjectKind::Text(_)
        | ObjectKind::Wrapper(_)
        | ObjectKind::Arguments { .. }
        | ObjectKind::Error => Service::Begins(Provider::Plain),
    }
}

/// Who serves a request.
pub(crate) fn served_by(heap: &Heap, request: &Request) -> Service
    ensures { (w : World) → StandsFor heap.now w → result ≡ served_by w.lists request.now }
{
    match request {
        Request::GetOwn { object, .. }
        | Request::Has { object, .. }
        | Request::Read { object, .. }
        | Request::Write { object, .. }
        | Request::Delete { object, .. }
        | Request::Keys { object }
        | Request::Proto { object }
        | Request::SetProto { object, .. }
        | Request::Extensible { object }
        | Request::Prevent { object } => method_service(heap.kind(*object)),
        Request::Define { object, .. } => define_service(heap.kind(*object)),
        Request::Call { function, .. } => callee_service(heap, *function),
        Request::Construct { function, .. } => construct_service(heap.kind(*function)),
        Request::Work { .. } => Service::Begins(Provider::Plain),
        Request::Print { .. } => Service::Prints,
    }
}
