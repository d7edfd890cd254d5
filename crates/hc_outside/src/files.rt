//! Files, with what they tell.

ghost use Rattle.std.specs.Prelude.{◌≡◌, ◌≢◌, ◌≤◌, ◌-◌, ◌^◌, List, ℕ, Option, Contains, IfOk};
ghost use Rattle.std.specs.Io.{ReadsAtMost};
ghost use Rattle.std.specs.Io.KnownBytes.{ReadConsumes};
ghost use Rattle.property_keys.specs.Counts.{counted};
ghost use Rattle.hc_outside.specs.Causes.{HasCause};
ghost use Rattle.hc_outside.specs.Files.{ids_after, names_after, Begins};

use crate::{Fault, FileId, Text};

/// Where files are read.
///
/// `Failed` comes only where the count of faults rose in the call; at 2^64 - 1 it stands still. Every other answer leaves the count as it
/// was. Bytes that are told stay told.
pub trait Files {
    /// The names with their bytes, where they are told. A name that stands more than once has the bytes of its first place.
    ghost held: { Self → Option (List (List ℕ × List ℕ)) };

    /// What is left of a begun file, where it is told.
    ghost left: { Self → ℕ → Option (List ℕ) };

    /// The ids that `begin` gave, in order.
    ghost begun: { Self → List ℕ };

    /// The names that `begin` was asked for, in order, but for calls that answered `NoMemory`.
    ghost asked: { Self → List (List ℕ) };

    /// How often `read` was called, whatever it answered. It stands still at 2^64 - 1.
    ghost reads: { Self → ℕ };

    /// How often the outside failed, at most 2^64 - 1. It never falls.
    ghost faults: { Self → ℕ };

    /// Begins the file under a name. `Ok` comes only for a name that is there, and leaves the file's whole bytes. `Failed` notes the name
    /// alone. At `NoMemory` all is as before.
    fn begin(&mut self, name: &Text) -> Result<FileId, Fault>
        ensures ids { begun self.new ≡ ids_after (begun self.old) result }
        ensures names { asked self.new ≡ names_after (asked self.old) name.now result }
        ensures whole { IfOk result (λ id. Begins (held self.old) name.now (left self.new id.0)) }
        ensures others { (i : ℕ) → Contains (begun self.old) i → left self.new i ≡ left self.old i }
        ensures same { held self.new ≡ held self.old }
        ensures reads { reads self.new ≡ reads self.old }
        ensures cause { HasCause (faults self.old) (faults self.new) result }
        ensures most { faults self.new ≤ 2 ^ 64 - 1 };

    /// Reads the next bytes of a begun file to the front of `part`, and gives their number. For a `part` that is not empty it is 0
    /// exactly where nothing was left. At `Failed` and at `NoMemory` what is left stays, and only the call itself is counted.
    fn read(&mut self, file: FileId, part: &mut [u8]) -> Result<usize, Fault>
        requires { Contains (begun self.old) file.0 }
        ensures bound { ReadsAtMost result part.new }
        ensures bytes { ReadConsumes (left self.old file.0) (left self.new file.0) result part.new }
        ensures others { (i : ℕ) → i ≢ file.0 → left self.new i ≡ left self.old i }
        ensures same { held self.new ≡ held self.old }
        ensures ids { begun self.new ≡ begun self.old }
        ensures names { asked self.new ≡ asked self.old }
        ensures reads { reads self.new ≡ counted (reads self.old) }
        ensures cause { HasCause (faults self.old) (faults self.new) result }
        ensures most { faults self.new ≤ 2 ^ 64 - 1 };
}
