//! A sink in memory that never fails.

ghost use Rattle.std.specs.Prelude.{◌≡◌, [], Some, IsOk};
ghost use Rattle.std.specs.Io.KnownBytes.{Keeps};
ghost use Rattle.property_keys.specs.Counts.{counted};
ghost use Rattle.hc_outside.specs.Causes.{CountsAnswer, HasCause};
ghost use Rattle.hc_outside.specs.MemorySink.{WritesAll};
ghost use Rattle.hc_outside.specs.Sinks.{Writes};

use crate::{Fault, Sink};
use std::alloc::Global;
use std::marker::Model;

/// A sink in memory that never answers `Failed`, and tells all of its bytes. Its count of faults is the constant 0.
#[derive(Drop)]
pub struct NeverFailingSink {
    bytes: Vec<u8>,
    writes: u64,
    flushes: u64,
}

impl Model for NeverFailingSink {
    ghost use Rattle.hc_outside.specs.States.{NeverState};

    ghost Value = { NeverState };

    ghost view = { λ s. record { bytes = s.bytes.items; writes = s.writes; flushes = s.flushes } };
}

impl NeverFailingSink {
    /// A sink that holds nothing.
    pub fn new(alloc: Global) -> NeverFailingSink
        ensures { result ≡ record { bytes = []; writes = 0; flushes = 0 } }
    {
        NeverFailingSink {
            bytes: Vec::new(alloc),
            writes: 0,
            flushes: 0,
        }
    }

    /// The bytes held.
    pub fn held(&self) -> &[u8]
        ensures { result.now ≡ self.now.bytes }
    {
        &self.bytes
    }
}

impl Sink for NeverFailingSink {
    ghost held = { λ s. Some s.bytes };

    ghost writes = { λ s. s.writes };

    ghost flushes = { λ s. s.flushes };

    ghost faults = { λ _. 0 };

    /// It appends all of the bytes. At `NoMemory` nothing is appended.
    fn write(&mut self, bytes: &[u8]) -> Result<(), Fault>
        ensures state { WritesAll self.old bytes.now result self.new }
    {
        match self.bytes.extend_from_slice(bytes) {
            Ok(()) => {
                self.writes = self.writes.saturating_add(1);
                Ok(())
            }
            Err(_) => Err(Fault::NoMemory),
        }
    }

    /// It has nothing to do, and answers `Ok`.
    fn flush(&mut self) -> Result<(), Fault>
        ensures answer { IsOk result }
        ensures state { self.new ≡ record self.old { flushes = counted self.old.flushes } }
    {
        self.flushes = self.flushes.saturating_add(1);
        Ok(())
    }
}
