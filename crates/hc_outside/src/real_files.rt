//! The files of a system.

ghost use Rattle.std.specs.Prelude.{◌≡◌, ◌≤◌, ◌-◌, ◌^◌, ◌≢◌, ℕ, None, Contains, IfOk};
ghost use Rattle.std.specs.Io.{ReadsAtMost};
ghost use Rattle.std.specs.Io.KnownBytes.{ReadConsumes};
ghost use Rattle.property_keys.specs.Counts.{counted};
ghost use Rattle.hc_outside.specs.Causes.{HasCause};
ghost use Rattle.hc_outside.specs.Files.{ids_after, names_after, numbers_below, Begins};
ghost use Rattle.hc_outside.specs.RealFiles.{untouched, Opens, ReadsPart};

use crate::{Fault, FileId, Files, Text, text};
use std::alloc::Global;
use std::convert::AsStr;
use std::fs;
use std::io::Read;
use std::marker::Model;
use std::rt::Files as FileSystem;

/// The adapter over the files of a system. It tells no bytes, and answers `Failed` for every error of the system. Ids are given from 0 on.
#[derive(Drop)]
pub struct RealFiles<R: FileSystem> {
    rt: R,
    alloc: Global,
    opened: Vec<R::File>,
    names: Vec<Text>,
    reads: u64,
    count: u64,
}

impl<R: FileSystem> Model for RealFiles<R> {
    ghost use Rattle.std.specs.Prelude.{length, ◌≤◌, ◌-◌, ◌^◌};
    ghost use Rattle.hc_outside.specs.States.{RealState};

    ghost Value = { RealState };

    ghost view = { λ f. record { opened = length f.opened.items; asked = f.names.items; reads = f.reads; count = f.count } };

    ghost invariant = { λ f. f.count ≤ 2 ^ 64 - 1 };
}

impl<R: FileSystem + Drop> RealFiles<R> {
    /// The files that `rt` reaches. Nothing is begun, asked for or read, and nothing failed.
    pub fn new(alloc: Global, rt: R) -> RealFiles<R>
        ensures { result ≡ untouched }
    {
        RealFiles {
            rt,
            alloc,
            opened: Vec::new(alloc),
            names: Vec::new(alloc),
            reads: 0,
            count: 0,
        }
    }
}

impl<R: FileSystem + Drop> Files for RealFiles<R> {
    ghost held = { λ _. None };

    ghost left = { λ _ _. None };

    ghost begun = { λ f. numbers_below f.opened };

    ghost asked = { λ f. f.asked };

    ghost reads = { λ f. f.reads };

    ghost faults = { λ f. f.count };

    /// It answers `Failed` where the file cannot be opened. `NoMemory` comes also where 2^32 files were begun.
    fn begin(&mut self, name: &Text) -> Result<FileId, Fault>
        ensures state { Opens self.old name.now result self.new }
        ensures most { self.new.count ≤ 2 ^ 64 - 1 }
    {
        let Ok(asked) = text(self.alloc, name.as_str()) else {
            return Err(Fault::NoMemory);
        };
        let id = self.opened.len();
        if id > u32::MAX as usize {
            return Err(Fault::NoMemory);
        }
        if self.opened.reserve(1).is_err() {
            return Err(Fault::NoMemory);
        }
        if self.names.push(asked).is_err() {
            return Err(Fault::NoMemory);
        }
        match fs::open(&self.rt, name.as_str()) {
            Ok(file) => {
                self.opened.push(file).unwrap();
                Ok(FileId(id as u32))
            }
            Err(_) => {
                self.count = self.count.saturating_add(1);
                Err(Fault::Failed)
            }
        }
    }

    /// It reads once, answers `Failed` where that fails, and never `NoMemory`.
    fn read(&mut self, file: FileId, part: &mut [u8]) -> Result<usize, Fault>
        requires { Contains (numbers_below self.old.opened) file.0 }
        ensures state { ReadsPart self.old result self.new }
        ensures most { self.new.count ≤ 2 ^ 64 - 1 }
        ensures bound { ReadsAtMost result part.new }
    {
        self.reads = self.reads.saturating_add(1);
        let opened = &mut self.opened[file.0 as usize];
        match opened.read(part) {
            Ok(count) => Ok(count),
            Err(_) => {
                self.count = self.count.saturating_add(1);
                Err(Fault::Failed)
            }
        }
    }
}
