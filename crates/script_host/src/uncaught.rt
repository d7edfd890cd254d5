//! The text of an uncaught value. No code of the script runs for it.

ghost use Rattle.std.specs.Prelude.{◌≡◌, ◌++◌, IfOk, OnOk, ℕ};
ghost use Rattle.es_model.specs.Objects.{is_proxy};
ghost use Rattle.es_model.specs.World.{World, description, kind};
ghost use Rattle.object_heap.specs.Stands.{StandsFor};
ghost use Rattle.property_keys.specs.Decimals.{whole_units};
ghost use Rattle.script_host.specs.Uncaught.{described, error_text, is_text, look_at, looked_up, object_text, plain_look, text_stored, uncaught_text};

use crate::texts::{push, push_text, push_units};
use descriptors::Complete;
use es_model::{ObjectKind, StartText};
use object_heap::Heap;
use property_keys::{Ledger, NoMemory, ObjectId, PropKey, Steps, SymbolId, TextId, Value};
use std::alloc::Global;

// ---- a plain look

fn is_text(value: Value) -> bool
    ensures { result ≡ is_text value }
{
    match value {
        Value::Text(_) => true,
        Value::Undefined
        | Value::Null
        | Value::Bool(_)
        | Value::Whole(_)
        | Value::Symbol(_)
        | Value::Object(_) => false,
    }
}

/// The value of a property that stores a Text.
fn text_stored(found: Complete) -> Option<Value>
    ensures { result ≡ text_stored found }
{
    match found {
        Complete::Stored { value, .. } => { if is_text(value) { Some(value) } else { None } }
        Complete::Accessor { .. } => None,
    }
}

fn is_proxy(heap: &Heap, object: ObjectId) -> bool
    ensures { (w : World) → StandsFor heap.now w → result ≡ is_proxy (kind w.lists object) }
{
    match heap.kind(object) {
        ObjectKind::Proxy { .. } => true,
        ObjectKind::Ordinary
        | ObjectKind::Function { .. }
        | ObjectKind::Builtin { .. }
        | ObjectKind::Array
        | ObjectKind::Text(_)
        | ObjectKind::Wrapper(_)
        | ObjectKind::Arguments { .. }
        | ObjectKind::Error => false,
    }
}

/// The first own property along the chain of objects that are no Proxies: its value if that is a Text.
fn plain_look<L: Ledger>(
    heap: &Heap,
    object: ObjectId,
    key: PropKey,
    steps: &mut Steps<L>,
) -> Option<Value>
    ensures { (w : World) → StandsFor heap.now w → result ≡ look_at w.lists object key }
{
    let mut at = object;
    // No chain is longer than there are objects.
    let mut left = u64::from(heap.objects()) + 1;
    'links: while 0 < left {
        if is_proxy(heap, at) {
            return None;
        }
        if let Some(found) = heap.own(at, key, steps) {
            return text_stored(found);
        }
        match heap.proto(at) {
            Some(up) => at = up,
            None => return None,
        }
        left -= 1;
    }
    None
}

/// The bytes of what a plain look finds.
fn looked_up<L: Ledger>(
    alloc: Global,
    heap: &Heap,
    object: ObjectId,
    name: StartText,
    steps: &mut Steps<L>,
) -> Result<Vec<u8>, NoMemory>
    ensures { IfOk result (λ bytes. (w : World) → StandsFor heap.now w → bytes.items ≡ looked_up w.lists (plain_look w.lists object name)) }
{
    let mut bytes = Vec::new(alloc);
    match plain_look(heap, object, PropKey::Name(name.number()), steps) {
        None => {}
        Some(text) => push_text(alloc, &mut bytes, heap, text)?,
    }
    Ok(bytes)
}

// ---- objects

/// A name, and a message that is not empty behind it.
fn push_named(bytes: &mut Vec<u8>, name: &[u8], message: &[u8]) -> Result<(), NoMemory>
    ensures { OnOk result (bytes.new.items ≡ bytes.old.items ++ error_text name.now message.now) }
{
    push(bytes, name)?;
    if message.is_empty() {
        return Ok(());
    }
    push(bytes, b": ")?;
    push(bytes, message)
}

fn push_error<L: Ledger>(
    alloc: Global,
    bytes: &mut Vec<u8>,
    heap: &Heap,
    error: ObjectId,
    steps: &mut Steps<L>,
) -> Result<(), NoMemory>
    ensures { OnOk result ((w : World) → StandsFor heap.now w → bytes.new.items ≡ bytes.old.items ++ error_text (looked_up w.lists (plain_look w.lists error StartText.Name)) (looked_up w.lists (plain_look w.lists error StartText.Message))) }
{
    let name = looked_up(alloc, heap, error, StartText::Name, steps)?;
    let message = looked_up(alloc, heap, error, StartText::Message, steps)?;
    push_named(bytes, &name, &message)
}

fn push_object<L: Ledger>(
    alloc: Global,
    bytes: &mut Vec<u8>,
    heap: &Heap,
    object: ObjectId,
    steps: &mut Steps<L>,
) -> Result<(), NoMemory>
    ensures { OnOk result ((w : World) → StandsFor heap.now w → bytes.new.items ≡ bytes.old.items ++ object_text w.lists object (kind w.lists object)) }
{
    match heap.kind(object) {
        ObjectKind::Error => push_error(alloc, bytes, heap, object, steps),
        ObjectKind::Ordinary
        | ObjectKind::Function { .. }
        | ObjectKind::Builtin { .. }
        | ObjectKind::Array
        | ObjectKind::Text(_)
        | ObjectKind::Wrapper(_)
        | ObjectKind::Arguments { .. }
        | ObjectKind::Proxy { .. } => push(bytes, b"an object"),
    }
}

// ---- each value

/// The description of a Symbol, where it has one. A Symbol that is not there has none.
fn description(heap: &Heap, symbol: SymbolId) -> Option<TextId>
    ensures { (w : World) → StandsFor heap.now w → result ≡ description w.lists symbol }
{
    let symbols = heap.symbols_ref();
    if (symbol.0 as usize) < symbols.len() {
        symbols.description(symbol)
    } else {
        None
    }
}

fn push_described(
    alloc: Global,
    bytes: &mut Vec<u8>,
    heap: &Heap,
    description: Option<TextId>,
) -> Result<(), NoMemory>
    ensures { OnOk result ((w : World) → StandsFor heap.now w → bytes.new.items ≡ bytes.old.items ++ described w.lists description) }
{
    match description {
        None => Ok(()),
        Some(text) => push_units(alloc, bytes, heap.units(text)),
    }
}

fn push_symbol(
    alloc: Global,
    bytes: &mut Vec<u8>,
    heap: &Heap,
    symbol: SymbolId,
) -> Result<(), NoMemory>
    ensures { OnOk result ((w : World) → StandsFor heap.now w → bytes.new.items ≡ bytes.old.items ++ uncaught_text w.lists (Value.Symbol symbol)) }
{
    push(bytes, b"Symbol(")?;
    push_described(alloc, bytes, heap, description(heap, symbol))?;
    push(bytes, b")")
}

fn push_whole(alloc: Global, bytes: &mut Vec<u8>, whole: i64) -> Result<(), NoMemory>
    ensures { OnOk result (bytes.new.items ≡ bytes.old.items ++ whole_units whole) }
{
    match format!(in alloc; "{whole}") {
        Ok(digits) => push(bytes, digits.as_bytes()),
        Err(_) => Err(NoMemory),
    }
}

/// Puts the text of an uncaught value at the end.
pub(crate) fn push_uncaught<L: Ledger>(
    alloc: Global,
    bytes: &mut Vec<u8>,
    heap: &Heap,
    value: Value,
    steps: &mut Steps<L>,
) -> Result<(), NoMemory>
    ensures { OnOk result ((w : World) → StandsFor heap.now w → bytes.new.items ≡ bytes.old.items ++ uncaught_text w.lists value) }
{
    match value {
        Value::Undefined => push(bytes, b"undefined"),
        Value::Null => push(bytes, b"null"),
        Value::Bool(true) => push(bytes, b"true"),
        Value::Bool(false) => push(bytes, b"false"),
        Value::Whole(whole) => push_whole(alloc, bytes, whole),
        Value::Text(_) => push_text(alloc, bytes, heap, value),
        Value::Symbol(symbol) => push_symbol(alloc, bytes, heap, symbol),
        Value::Object(object) => push_object(alloc, bytes, heap, object, steps),
    }
}
