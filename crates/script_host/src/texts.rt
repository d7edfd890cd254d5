//! Bytes of texts, in UTF-8.

ghost use Rattle.std.specs.Prelude.{◌≡◌, ◌++◌, IfOk, OnOk, encode_utf8_all};
ghost use Rattle.std.specs.Char.Utf16.{utf16_lossy_chars};
ghost use Rattle.es_model.specs.World.{World};
ghost use Rattle.es_serve.specs.Lines.{text_bytes};
ghost use Rattle.object_heap.specs.Stands.{StandsFor};

use object_heap::Heap;
use property_keys::{NoMemory, Units, Value};
use std::alloc::Global;

/// Puts bytes at the end.
pub(crate) fn push(bytes: &mut Vec<u8>, more: &[u8]) -> Result<(), NoMemory>
    ensures { OnOk result (bytes.new.items ≡ bytes.old.items ++ more.now) }
{
    match bytes.extend_from_slice(more) {
        Ok(()) => Ok(()),
        Err(_) => Err(NoMemory),
    }
}

// The code units of a text in a list of their own.
fn copied(alloc: Global, text: &Units) -> Result<Vec<u16>, NoMemory>
    ensures { IfOk result (λ copy. copy.items ≡ text.now) }
{
    let mut units = Vec::new(alloc);
    for i in 0..text.len() {
        if units.push(text.unit(i)).is_err() {
            return Err(NoMemory);
        }
    }
    Ok(units)
}

/// Puts a text at the end, with U+FFFD for each surrogate that has no partner.
pub(crate) fn push_units(alloc: Global, bytes: &mut Vec<u8>, text: &Units) -> Result<(), NoMemory>
    ensures { OnOk result (bytes.new.items ≡ bytes.old.items ++ encode_utf8_all (utf16_lossy_chars text.now)) }
{
    let units = copied(alloc, text)?;
    match String::from_utf16_lossy(alloc, &units) {
        Ok(text) => push(bytes, text.as_bytes()),
        Err(_) => Err(NoMemory),
    }
}

/// Puts the text that a value is at the end. Any other value puts nothing.
pub(crate) fn push_text(
    alloc: Global,
    bytes: &mut Vec<u8>,
    heap: &Heap,
    value: Value,
) -> Result<(), NoMemory>
    ensures { OnOk result ((w : World) → StandsFor heap.now w → bytes.new.items ≡ bytes.old.items ++ text_bytes w.lists value) }
{
    match value {
        Value::Text(text) => push_units(alloc, bytes, heap.units(text)),
        Value::Undefined
        | Value::Null
        | Value::Bool(_)
        | Value::Whole(_)
        | Value::Symbol(_)
        | Value::Object(_) => Ok(()),
    }
}
