//! A sink in memory.

ghost use Rattle.std.specs.Prelude.{◌≡◌, ◌≤◌, ◌-◌, ◌^◌, ◌++◌, [], List, ℕ, Some, IsTrue, IsFalse};
ghost use Rattle.std.specs.Io.KnownBytes.{Keeps};
ghost use Rattle.hc_outside.specs.Calls.{no_calls};
ghost use Rattle.hc_outside.specs.Causes.{CountsAnswer, HasCause};
ghost use Rattle.hc_outside.specs.MemorySink.{half_of, WritesBytes, Flushes};
ghost use Rattle.hc_outside.specs.Sinks.{Writes};

use crate::calls::Calls;
use crate::{CallList, Fault, Sink};
use std::alloc::Global;
use std::marker::Model;

// The first half of the bytes, rounded down, for a call that fails, else all of them.
fn part_of(bytes: &[u8], fails: bool) -> &[u8]
    ensures front { (rest : List ℕ) × (bytes.now ≡ result.now ++ rest) }
    ensures half { IsTrue fails → result.now ≡ half_of bytes.now }
    ensures whole { IsFalse fails → result.now ≡ bytes.now }
{
    if fails {
        &bytes[..bytes.len() / 2]
    } else {
        bytes
    }
}

/// A sink in memory, which tells all of its bytes.
///
/// Its calls of `write` and `flush` are numbered together from 1, but for a `write` that answers `NoMemory`, after which all is as
/// before. Those in a list fail and raise the count of faults.
#[derive(Drop)]
pub struct MemorySink {
    bytes: Vec<u8>,
    writes: u64,
    flushes: u64,
    calls: Calls,
}

impl Model for MemorySink {
    ghost use Rattle.hc_outside.specs.States.{SinkState};

    ghost Value = { SinkState };

    ghost view = { λ s. record { bytes = s.bytes.items; writes = s.writes; flushes = s.flushes; calls = s.calls } };
}

impl MemorySink {
    /// A sink that holds nothing, whose calls with a number in `failing` fail.
    pub fn new(alloc: Global, failing: CallList) -> MemorySink
        ensures { result ≡ record { bytes = []; writes = 0; flushes = 0; calls = no_calls failing } }
    {
        MemorySink {
            bytes: Vec::new(alloc),
            writes: 0,
            flushes: 0,
            calls: Calls::new(failing),
        }
    }

    /// The bytes held.
    pub fn held(&self) -> &[u8]
        ensures { result.now ≡ self.now.bytes }
    {
        &self.bytes
    }
}

impl Sink for MemorySink {
    ghost held = { λ s. Some s.bytes };

    ghost writes = { λ s. s.writes };

    ghost flushes = { λ s. s.flushes };

    ghost faults = { λ s. s.calls.faults };

    /// It answers `Failed` exactly where its call is to fail, and then appends the first half of the bytes, rounded down. At
    /// `NoMemory` nothing is appended.
    fn write(&mut self, bytes: &[u8]) -> Result<(), Fault>
        ensures state { WritesBytes self.old bytes.now result self.new }
        ensures most { self.new.calls.faults ≤ 2 ^ 64 - 1 }
        ensures bytes { Writes (Some self.old.bytes) (Some self.new.bytes) result bytes.now }
    {
        let fails = self.calls.next_fails();
        let part = part_of(bytes, fails);
        if self.bytes.extend_from_slice(part).is_err() {
            return Err(Fault::NoMemory);
        }
        if fails {
            self.calls.note_fault();
            return Err(Fault::Failed);
        }
        self.writes = self.writes.saturating_add(1);
        self.calls.note_call();
        Ok(())
    }

    /// It answers `Failed` exactly where its call is to fail, and never `NoMemory`.
    fn flush(&mut self) -> Result<(), Fault>
        ensures state { Flushes self.old result self.new }
        ensures most { self.new.calls.faults ≤ 2 ^ 64 - 1 }
    {
        if self.calls.next_fails() {
            self.calls.note_fault();
            return Err(Fault::Failed);
        }
        self.flushes = self.flushes.saturating_add(1);
        self.calls.note_call();
        Ok(())
    }
}
