//! Sinks, with what they tell.

ghost use Rattle.std.specs.Prelude.{◌≡◌, ◌≤◌, ◌-◌, ◌^◌, List, ℕ, Option};
ghost use Rattle.std.specs.Io.KnownBytes.{Keeps};
ghost use Rattle.hc_outside.specs.Causes.{CountsAnswer, HasCause};
ghost use Rattle.hc_outside.specs.Sinks.{Writes};

use crate::Fault;

/// Where bytes are written.
///
/// `Failed` comes only where the count of faults rose in the call; at 2^64 - 1 it stands still. Every other answer leaves the count as it
/// was. Bytes that are told stay told.
pub trait Sink {
    /// The bytes held, where the sink tells them.
    ghost held: { Self → Option (List ℕ) };

    /// How many calls of `write` answered `Ok`. It stands still at 2^64 - 1.
    ghost writes: { Self → ℕ };

    /// How many calls of `flush` answered `Ok`. It stands still at 2^64 - 1.
    ghost flushes: { Self → ℕ };

    /// How often the outside failed, at most 2^64 - 1. It never falls.
    ghost faults: { Self → ℕ };

    /// Appends all of `bytes`. At `Failed` and at `NoMemory` a front of them was appended, which may be none or all.
    fn write(&mut self, bytes: &[u8]) -> Result<(), Fault>
        ensures bytes { Writes (held self.old) (held self.new) result bytes.now }
        ensures writes { CountsAnswer (writes self.old) result (writes self.new) }
        ensures flushes { flushes self.new ≡ flushes self.old }
        ensures cause { HasCause (faults self.old) (faults self.new) result }
        ensures most { faults self.new ≤ 2 ^ 64 - 1 };

    /// Sends on what was written before. Whatever it answers, the bytes held stay as they are.
    fn flush(&mut self) -> Result<(), Fault>
        ensures bytes { Keeps (held self.old) (held self.new) }
        ensures writes { writes self.new ≡ writes self.old }
        ensures flushes { CountsAnswer (flushes self.old) result (flushes self.new) }
        ensures cause { HasCause (faults self.old) (faults self.new) result }
        ensures most { faults self.new ≤ 2 ^ 64 - 1 };
}
