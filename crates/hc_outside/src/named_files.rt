//! Names with bytes.

ghost use Rattle.std.specs.Prelude.{◌≡◌, ◌++◌, ◌∷◌, [], List, ℕ, OnOk, OnErr, map, option_map};
ghost use Rattle.hc_outside.specs.Files.{bytes_named};

use crate::Text;
use property_keys::NoMemory;
use std::alloc::Global;
use std::convert::AsStr;
use std::marker::Model;

/// A name with bytes.
#[derive(Drop)]
struct NamedFile {
    name: Text,
    bytes: Vec<u8>,
}

/// Names with bytes, in order. A name that stands more than once has the bytes of its first place.
#[derive(Drop)]
pub struct NamedFiles {
    alloc: Global,
    files: Vec<NamedFile>,
}

impl Model for NamedFiles {
    ghost use Rattle.std.specs.Prelude.{List, ℕ, map};

    ghost Value = { List (List ℕ × List ℕ) };

    ghost view = { λ f. map (λ file. (file.name, file.bytes.items)) f.files.items };
}

impl NamedFiles {
    /// An empty list.
    pub fn new(alloc: Global) -> NamedFiles
        ensures { result ≡ [] }
    {
        NamedFiles {
            alloc,
            files: Vec::new(alloc),
        }
    }

    /// Puts a name with a copy of the bytes at the end. At `NoMemory` the list is as before.
    pub fn push(&mut self, name: Text, bytes: &[u8]) -> Result<(), NoMemory>
        ensures ok { OnOk result (self.new ≡ self.old ++ (name, bytes.now) ∷ []) }
        ensures err { OnErr result (self.new ≡ self.old) }
    {
        let Ok(bytes) = bytes.to_vec(self.alloc) else {
            return Err(NoMemory);
        };
        match self.files.push(NamedFile { name, bytes }) {
            Ok(()) => Ok(()),
            Err(_) => Err(NoMemory),
        }
    }

    /// The bytes at the first place of a name.
    pub(crate) fn bytes_of(&self, name: &Text) -> Option<&[u8]>
        ensures { option_map (λ b. b.now) result ≡ bytes_named self.now name.now }
    {
        for file in &self.files {
            if file.name.as_str() == name.as_str() {
                return Some(&file.bytes);
            }
        }
        None
    }
}
