//! The bytes of a file.

ghost use Rattle.std.specs.Prelude.{◌+◌, IfOk};
ghost use Rattle.property_keys.specs.Counts.{TakesAtMost};
ghost use Rattle.hc_outside.specs.Causes.{HasCause};
ghost use Rattle.script_host.specs.FileBytes.{IsReadOf, AsksOnce};

use hc_outside::{Fault, Files, Text};
use script_syntax::MOST_BYTES;
use std::alloc::Global;

/// A file is read in parts of so many bytes.
const PART: usize = 4096;

/// The bytes of a file, up to its end or until there are more than a script may have. Every `read` but the last gave at least one byte.
pub fn read_file<F: Files>(alloc: Global, files: &mut F, name: &Text) -> Result<Vec<u8>, Fault>
    ensures bytes { IfOk result (λ bytes. IsReadOf (F.held files.old) name.now MOST_BYTES bytes.items) }
    ensures cause { HasCause (F.faults files.old) (F.faults files.new) result }
    ensures names { AsksOnce (F.asked files.old) name.now (F.asked files.new) }
    ensures reads { TakesAtMost (MOST_BYTES + 1) (F.reads files.old) (F.reads files.new) }
{
    let file = files.begin(name)?;
    let mut bytes = Vec::new(alloc);
    let mut part = [0u8; PART];
    'parts: while bytes.len() <= MOST_BYTES {
        let count = files.read(file, &mut part)?;
        if count == 0 {
            break;
        }
        if bytes.extend_from_slice(&part[..count]).is_err() {
            return Err(Fault::NoMemory);
        }
    }
    Ok(bytes)
}
