//! Files in memory.

ghost use Rattle.std.specs.Prelude.{◌≡◌, ◌≤◌, ◌-◌, ◌^◌, ◌≢◌, ℕ, Some, Contains, length, slice_get};
ghost use Rattle.std.specs.Io.{ReadsAtMost};
ghost use Rattle.std.specs.Io.KnownBytes.{ReadConsumes};
ghost use Rattle.hc_outside.specs.Files.{numbers_below};
ghost use Rattle.hc_outside.specs.MemoryFiles.{unbegun, BeginsFile, ReadsFile};

use crate::calls::Calls;
use crate::unread::Unread;
use crate::{CallList, Fault, FileId, Files, NamedFiles, Text, text};
use std::alloc::Global;
use std::convert::AsStr;
use std::marker::Model;

/// Files in memory, which tell all of their bytes.
///
/// Their calls of `begin` and `read` are numbered together from 1, but for a `begin` that answers `NoMemory`, after which all is as
/// before. Those in a list fail and raise the count of faults, and so does a `begin` of an unknown name. Ids are given from 0 on.
#[derive(Drop)]
pub struct MemoryFiles {
    alloc: Global,
    named: NamedFiles,
    calls: Calls,
    reads: u64,
    unread: Vec<Unread>,
    names: Vec<Text>,
}

impl Model for MemoryFiles {
    ghost use Rattle.hc_outside.specs.States.{FilesState};

    ghost Value = { FilesState };

    ghost view = { λ m. record { named = m.named; left = m.unread.items; asked = m.names.items; reads = m.reads; calls = m.calls } };
}

impl MemoryFiles {
    /// Files with these names and bytes, whose calls with a number in `failing` fail. Nothing is begun, asked for or read.
    pub fn new(alloc: Global, files: NamedFiles, failing: CallList) -> MemoryFiles
        ensures { result ≡ unbegun files failing }
    {
        MemoryFiles {
            alloc,
            named: files,
            calls: Calls::new(failing),
            reads: 0,
            unread: Vec::new(alloc),
            names: Vec::new(alloc),
        }
    }
}

impl Files for MemoryFiles {
    ghost held = { λ m. Some m.named };

    ghost left = { λ m i. slice_get m.left i };

    ghost begun = { λ m. numbers_below (length m.left) };

    ghost asked = { λ m. m.asked };

    ghost reads = { λ m. m.reads };

    ghost faults = { λ m. m.calls.faults };

    /// It answers `Failed` exactly where its call is to fail or the name is unknown. `NoMemory` comes also where 2^32 files were begun.
    fn begin(&mut self, name: &Text) -> Result<FileId, Fault>
        ensures state { BeginsFile self.old name.now result self.new }
        ensures most { self.new.calls.faults ≤ 2 ^ 64 - 1 }
        ensures others { (i : ℕ) → Contains (numbers_below (length self.old.left)) i → slice_get self.new.left i ≡ slice_get self.old.left i }
    {
        let fails = self.calls.next_fails();
        let Ok(asked) = text(self.alloc, name.as_str()) else {
            return Err(Fault::NoMemory);
        };
        let bytes = match self.named.bytes_of(name) {
            Some(bytes) if !fails => bytes,
            _ => {
                if self.names.push(asked).is_err() {
                    return Err(Fault::NoMemory);
                }
                self.calls.note_fault();
                return Err(Fault::Failed);
            }
        };
        let id = self.unread.len();
        if id > u32::MAX as usize {
            return Err(Fault::NoMemory);
        }
        let Ok(bytes) = bytes.to_vec(self.alloc) else {
            return Err(Fault::NoMemory);
        };
        if self.unread.reserve(1).is_err() {
            return Err(Fault::NoMemory);
        }
        if self.names.push(asked).is_err() {
            return Err(Fault::NoMemory);
        }
        self.unread.push(Unread::new(bytes)).unwrap();
        self.calls.note_call();
        Ok(FileId(id as u32))
    }

    /// It answers `Failed` exactly where its call is to fail. Every other one gives as many bytes as are left and fit into `part`.
    fn read(&mut self, file: FileId, part: &mut [u8]) -> Result<usize, Fault>
        requires { Contains (numbers_below (length self.old.left)) file.0 }
        ensures state { ReadsFile self.old file.0 result part.new self.new }
        ensures most { self.new.calls.faults ≤ 2 ^ 64 - 1 }
        ensures bound { ReadsAtMost result part.new }
        ensures bytes { ReadConsumes (slice_get self.old.left file.0) (slice_get self.new.left file.0) result part.new }
        ensures others { (i : ℕ) → i ≢ file.0 → slice_get self.new.left i ≡ slice_get self.old.left i }
    {
        self.reads = self.reads.saturating_add(1);
        if self.calls.next_fails() {
            self.calls.note_fault();
            return Err(Fault::Failed);
        }
        self.calls.note_call();
        let unread = &mut self.unread[file.0 as usize];
        Ok(unread.read(part))
    }
}
