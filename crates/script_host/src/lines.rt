//! The lines that `print` writes.

ghost use Rattle.std.specs.Prelude.{◌≡◌, ◌++◌, IfOk, OnOk};
ghost use Rattle.es_model.specs.World.{World};
ghost use Rattle.es_serve.specs.Lines.{line_bytes};
ghost use Rattle.object_heap.specs.Stands.{StandsFor};
ghost use Rattle.script_host.specs.Separated.{separated};

use crate::texts::{push, push_text};
use es_model::Values;
use object_heap::Heap;
use property_keys::{NoMemory, Value};
use std::alloc::Global;

/// Puts the text with this number at the end of a line, behind a space where it is not the first.
fn push_next(
    alloc: Global,
    bytes: &mut Vec<u8>,
    heap: &Heap,
    number: usize,
    text: Value,
) -> Result<(), NoMemory>
    ensures { OnOk result ((w : World) → StandsFor heap.now w → bytes.new.items ≡ bytes.old.items ++ separated w.lists number text) }
{
    if 0 < number {
        push(bytes, b" ")?;
    }
    push_text(alloc, bytes, heap, text)
}

/// The bytes of a line: its texts with a space between two, and a line feed behind.
pub(crate) fn line_bytes(alloc: Global, heap: &Heap, line: &Values) -> Result<Vec<u8>, NoMemory>
    ensures { IfOk result (λ bytes. (w : World) → StandsFor heap.now w → bytes.items ≡ line_bytes w.lists line.now) }
{
    let mut bytes = Vec::new(alloc);
    for i in 0..line.len() {
        push_next(alloc, &mut bytes, heap, i, *line.at(i))?;
    }
    push(&mut bytes, b"\n")?;
    Ok(bytes)
}
