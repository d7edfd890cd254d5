//! The notes on the error output.

ghost use Rattle.std.specs.Prelude.{◌≡◌, ℕ, List, IfOk, OnOk, string_bytes};
ghost use Rattle.property_keys.specs.Counts.{counted};
ghost use Rattle.es_model.specs.World.{World};
ghost use Rattle.hc_outside.specs.Causes.{HasCause};
ghost use Rattle.hc_outside.specs.Sinks.{Writes};
ghost use Rattle.object_heap.specs.Stands.{StandsFor};
ghost use Rattle.script_host.specs.Answers.{note_of, CannotRead, Faults, Unbuilt};
ghost use Rattle.script_host.specs.Leaves.{memory_note};
ghost use Rattle.script_host.specs.Sinks.{change, sink_view, TookFront};
ghost use Rattle.script_host.specs.Settling.{EndsMade, EndsNoted};
ghost use Rattle.script_host.specs.Uncaught.{uncaught_note};

use crate::Status;
use crate::texts::push;
use crate::uncaught::push_uncaught;
use es_source::{Place, SourceFault};
use hc_outside::{Fault, Sink, Text};
use object_heap::Heap;
use property_keys::{Ledger, NoMemory, Steps, Value};
use std::alloc::Global;
use std::convert::AsStr;

pub const USAGE: &[u8] = b"hcjs: usage: hcjs [--budget N] [--generate N] [FILE]\n";

pub const BUDGET_ENDED: &[u8] = b"hcjs: budget ended\n";

pub const CANNOT_WRITE: &[u8] = b"hcjs: cannot write\n";

const OUT_OF_MEMORY: &[u8] = b"hcjs: out of memory\n";

/// The note on a file that cannot be read.
pub fn cannot_read(alloc: Global, name: &Text) -> Result<String, NoMemory>
    ensures { IfOk result (λ note. string_bytes note ≡ note_of (CannotRead name.now)) }
{
    let name = name.as_str();
    match format!(in alloc; "hcjs: cannot read {name}\n") {
        Ok(note) => Ok(note),
        Err(_) => Err(NoMemory),
    }
}

/// The note on the first fault of a script.
pub fn faulty(alloc: Global, fault: SourceFault) -> Result<String, NoMemory>
    ensures { IfOk result (λ note. string_bytes note ≡ note_of (Faults fault)) }
{
    let Place { line, column } = fault.place;
    let number = fault.code.number();
    let name = fault.code.name();
    match format!(in alloc; "hcjs: {line}:{column}: fault {number} {name}\n") {
        Ok(note) => Ok(note),
        Err(_) => Err(NoMemory),
    }
}

/// The note on what does not run yet.
pub fn not_built(alloc: Global, place: Place) -> Result<String, NoMemory>
    ensures { IfOk result (λ note. string_bytes note ≡ note_of (Unbuilt place)) }
{
    let Place { line, column } = place;
    match format!(in alloc; "hcjs: {line}:{column}: not built\n") {
        Ok(note) => Ok(note),
        Err(_) => Err(NoMemory),
    }
}

/// The note on a value that was not caught.
pub fn uncaught<L: Ledger>(
    alloc: Global,
    heap: &Heap,
    value: Value,
    steps: &mut Steps<L>,
) -> Result<Vec<u8>, NoMemory>
    ensures { IfOk result (λ note. (w : World) → StandsFor heap.now w → note.items ≡ uncaught_note w.lists value) }
{
    let mut note = Vec::new(alloc);
    push(&mut note, b"hcjs: uncaught ")?;
    push_uncaught(alloc, &mut note, heap, value, steps)?;
    push(&mut note, b"\n")?;
    Ok(note)
}

/// Writes a note that was made, and ends with this status where the error output takes it.
pub fn ended_with<E: Sink>(err: &mut E, note: Result<String, NoMemory>, wanted: Status) -> Status
    ensures { (text : List ℕ) → IfOk note (λ made. string_bytes made ≡ text)
        → EndsMade (change (sink_view (E.held err.old) (E.writes err.old) (E.flushes err.old) (E.faults err.old))
        (sink_view (E.held err.new) (E.writes err.new) (E.flushes err.new) (E.faults err.new))) text wanted result }
{
    match note {
        Ok(note) => ended(err, note.as_bytes(), wanted),
        Err(NoMemory) => out_of_memory(err),
    }
}

/// Writes a note, and ends with this status where the error output takes it.
pub fn ended<E: Sink>(err: &mut E, note: &[u8], wanted: Status) -> Status
    ensures { EndsNoted (change (sink_view (E.held err.old) (E.writes err.old) (E.flushes err.old) (E.faults err.old))
        (sink_view (E.held err.new) (E.writes err.new) (E.flushes err.new) (E.faults err.new))) note.now wanted result }
{
    match write_note(err, note) {
        Ok(()) => wanted,
        Err(Fault::Failed) => Status::WriteFault,
        Err(Fault::NoMemory) => Status::NoMemory,
    }
}

/// Ends for want of memory. Its note takes none.
pub fn out_of_memory<E: Sink>(err: &mut E) -> Status
    ensures status { result ≡ Status.NoMemory }
    ensures note { TookFront (change (sink_view (E.held err.old) (E.writes err.old) (E.flushes err.old) (E.faults err.old))
        (sink_view (E.held err.new) (E.writes err.new) (E.flushes err.new) (E.faults err.new))) memory_note }
{
    let _ = write_note(err, OUT_OF_MEMORY);
    Status::NoMemory
}

// Writes a note by one `write`, and flushes it.
fn write_note<E: Sink>(err: &mut E, note: &[u8]) -> Result<(), Fault>
    ensures bytes { Writes (E.held err.old) (E.held err.new) result note.now }
    ensures cause { HasCause (E.faults err.old) (E.faults err.new) result }
    ensures writes { OnOk result (E.writes err.new ≡ counted (E.writes err.old)) }
    ensures flushes { OnOk result (E.flushes err.new ≡ counted (E.flushes err.old)) }
{
    err.write(note)?;
    err.flush()
}
