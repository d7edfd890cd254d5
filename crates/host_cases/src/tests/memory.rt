//! What a call of the host leaves where memory ran out in it. The sinks take no memory, so only the script and the host want some.

use hc_outside::{CallList, MemoryFiles, NamedFiles, StdSink, Text, text};
use property_keys::{Counting, Steps};
use script_host::{Status, hcjs};
use std::alloc::Global;
use std::io::{self, Write};
use std::test::Fail;

/// A writer that knows what is to be written, and takes no memory.
#[derive(Drop)]
struct Foreseen {
    left: &'static [u8],
    is_other: bool,
    flushes: u32,
}

impl Foreseen {
    fn new(wanted: &'static [u8]) -> Foreseen {
        Foreseen {
            left: wanted,
            is_other: false,
            flushes: 0,
        }
    }
}

impl Write for Foreseen {
    fn write(&mut self, buf: &[u8]) -> io::Result<usize> {
        if self.left.starts_with(buf) {
            self.left = self.left.split_at(buf.len()).1;
        } else {
            self.is_other = true;
        }
        Ok(buf.len())
    }

    fn flush(&mut self) -> io::Result<()> {
        self.flushes = self.flushes.saturating_add(1);
        Ok(())
    }
}

static PRINTED: &[u8] = b"7\nundefined\n";

static NOTE: &[u8] = b"hcjs: out of memory\n";

fn words_of(alloc: Global) -> Result<Vec<Text>, Fail> {
    let mut words = Vec::new(alloc);
    words.push(text(alloc, "x.js")?)?;
    Ok(words)
}

/// The status of a call on a script that prints two lines.
fn called(alloc: Global, out: &mut Foreseen, err: &mut Foreseen) -> Result<Status, Fail> {
    let words = words_of(alloc)?;
    let mut named = NamedFiles::new(alloc);
    named.push(
        text(alloc, "x.js")?,
        b"let o = {};\no.a = 7;\nprint(o.a);\nprint(o.b);\n",
    )?;
    let mut files = MemoryFiles::new(alloc, named, CallList::new(alloc));
    let mut steps = Steps::new(Counting::new());
    Ok(hcjs(
        alloc,
        words.as_slice(),
        &mut files,
        &mut StdSink::new(out),
        &mut StdSink::new(err),
        &mut steps,
    ))
}

/// With ample memory the script runs to its end. Where one growth of the call fails, the output is a front of the lines and was flushed, and the note is whole.
#[test]
fn want_of_memory_is_noted(rt: HostRuntime) -> Result<(), Fail> {
    let mut out = Foreseen::new(PRINTED);
    let mut err = Foreseen::new(NOTE);
    let status = called(rt.alloc(), &mut out, &mut err)?;
    assert!(rt; !out.is_other && !err.is_other);
    assert_eq!(rt; out.flushes, 1);
    if status == Status::NoMemory {
        assert!(rt; err.left.is_empty());
        assert_eq!(rt; err.flushes, 1);
    } else {
        assert_eq!(rt; status, Status::Finished);
        assert!(rt; out.left.is_empty());
        assert_eq!(rt; err.left.len(), NOTE.len());
    }
    Ok(())
}
