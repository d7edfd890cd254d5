//! A sink over a writer of std.

ghost use Rattle.std.specs.Prelude.{◌≡◌, ◌≤◌, ◌-◌, ◌^◌};
ghost use Rattle.std.specs.Io.KnownBytes.{Keeps};
ghost use Rattle.hc_outside.specs.Causes.{CountsAnswer, HasCause};
ghost use Rattle.hc_outside.specs.Sinks.{Writes};
ghost use Rattle.hc_outside.specs.StdSink.{CountsFault};

use crate::{Fault, Sink};
use std::io::Write;
use std::marker::Model;

/// The adapter over a writer of std, as standard output. It tells the bytes that the writer tells, so none of standard output, and answers
/// `Failed` for every error of the writer.
#[derive(Drop)]
pub struct StdSink<W: Write> {
    inner: W,
    writes: u64,
    flushes: u64,
    count: u64,
}

impl<W: Write> Model for StdSink<W> {
    ghost use Rattle.std.specs.Prelude.{◌≤◌, ◌-◌, ◌^◌};
    ghost use Rattle.hc_outside.specs.States.{StdState};

    ghost Value = { StdState };

    ghost view = { λ s. record { bytes = W.contents s.inner; writes = s.writes; flushes = s.flushes; count = s.count } };

    ghost invariant = { λ s. s.count ≤ 2 ^ 64 - 1 };
}

impl<W: Write> StdSink<W> {
    /// A sink over a writer, which holds what the writer holds. Nothing failed.
    pub fn new(inner: W) -> StdSink<W>
        ensures { result ≡ record { bytes = W.contents inner; writes = 0; flushes = 0; count = 0 } }
    {
        StdSink {
            inner,
            writes: 0,
            flushes: 0,
            count: 0,
        }
    }
}

impl<W: Write> Sink for StdSink<W> {
    ghost held = { λ s. s.bytes };

    ghost writes = { λ s. s.writes };

    ghost flushes = { λ s. s.flushes };

    ghost faults = { λ s. s.count };

    /// It calls `write` of the writer until all bytes are taken. It answers `Failed` at the first error, and where the writer takes none of
    /// a piece that is not empty; it never answers `NoMemory`.
    fn write(&mut self, bytes: &[u8]) -> Result<(), Fault>
        ensures count { CountsFault self.old.count result self.new.count }
        ensures most { self.new.count ≤ 2 ^ 64 - 1 }
        ensures writes { CountsAnswer self.old.writes result self.new.writes }
        ensures flushes { self.new.flushes ≡ self.old.flushes }
        ensures bytes { Writes self.old.bytes self.new.bytes result bytes.now }
    {
        let mut rest = bytes;
        while !rest.is_empty() {
            match self.inner.write(rest) {
                Ok(0) | Err(_) => {
                    self.count = self.count.saturating_add(1);
                    return Err(Fault::Failed);
                }
                Ok(n) => rest = rest.split_at(n).1,
            }
        }
        self.writes = self.writes.saturating_add(1);
        Ok(())
    }

    /// It flushes the writer. It answers `Failed` where that fails, and never `NoMemory`.
    fn flush(&mut self) -> Result<(), Fault>
        ensures count { CountsFault self.old.count result self.new.count }
        ensures most { self.new.count ≤ 2 ^ 64 - 1 }
        ensures writes { self.new.writes ≡ self.old.writes }
        ensures flushes { CountsAnswer self.old.flushes result self.new.flushes }
        ensures bytes { Keeps self.old.bytes self.new.bytes }
    {
        match self.inner.flush() {
            Ok(()) => {
                self.flushes = self.flushes.saturating_add(1);
                Ok(())
            }
            Err(_) => {
                self.count = self.count.saturating_add(1);
                Err(Fault::Failed)
            }
        }
    }
}
