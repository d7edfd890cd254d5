//! Files and sinks, each call failing in turn.

use hc_outside::{
    CallList, Fault, Files, MemoryFiles, MemorySink, NamedFiles, NeverFailingSink, RealFiles, Sink,
    StdSink, text,
};
use std::alloc::Global;
use std::fs;
use std::io::{self, Write};
use std::test::Fail;

// How an answer is noted.
fn mark(answer: Result<(), Fault>) -> u8 {
    match answer {
        Ok(()) => b'.',
        Err(Fault::Failed) => b'!',
        Err(Fault::NoMemory) => b'?',
    }
}

// Begins a file and reads it five times in parts of two bytes. The bytes of each part are noted, and a bar after them.
fn parts<F: Files>(alloc: Global, files: &mut F, name: &str) -> Result<Vec<u8>, Fail> {
    let mut noted = Vec::new(alloc);
    let name = text(alloc, name)?;
    let file = match files.begin(&name) {
        Ok(file) => file,
        Err(fault) => {
            noted.push(mark(Err(fault)))?;
            return Ok(noted);
        }
    };
    for _ in 0..5 {
        let mut part = [0u8; 2];
        match files.read(file, &mut part) {
            Ok(count) => noted.extend_from_slice(&part[..count])?,
            Err(fault) => noted.push(mark(Err(fault)))?,
        }
        noted.push(b'|')?;
    }
    Ok(noted)
}

// Writes two texts and flushes.
fn marks<S: Sink>(sink: &mut S) -> [u8; 3] {
    let first = mark(sink.write(b"seven"));
    let second = mark(sink.write(b"six"));
    [first, second, mark(sink.flush())]
}

fn calls(alloc: Global, call: u64) -> Result<CallList, Fail> {
    let mut list = CallList::new(alloc);
    list.push(call)?;
    Ok(list)
}

// The number of the failing call (there is no call 0), the name, and what is noted. A failed read takes nothing.
static READS: [(u64, &str, &str); 6] = [
    (0, "a", "se|ve|n|||"),
    (1, "a", "!"),
    (2, "a", "!|se|ve|n||"),
    (3, "a", "se|!|ve|n||"),
    (6, "a", "se|ve|n||!|"),
    (0, "b", "!"),
];

#[test]
fn reads_files_in_memory(rt: HostRuntime) -> Result<(), Fail> {
    for row in READS.iter() {
        let (call, name, wanted) = *row;
        let alloc = rt.alloc();
        let mut named = NamedFiles::new(alloc);
        named.push(text(alloc, "a")?, b"seven")?;
        named.push(text(alloc, "a")?, b"six")?;
        let mut files = MemoryFiles::new(alloc, named, calls(alloc, call)?);
        let noted = parts(alloc, &mut files, name)?;
        assert_eq!(rt;
            noted.as_slice(),
            wanted.as_bytes(),
            "call {call} of {name}"
        );
    }
    Ok(())
}

// The number of the failing call, the answers, and what the sink then holds. A failing write appends the first half: two
// of five bytes, one of three.
static WRITES: [(u64, &str, &str); 4] = [
    (0, "...", "sevensix"),
    (1, "!..", "sesix"),
    (2, ".!.", "sevens"),
    (3, "..!", "sevensix"),
];

#[test]
fn writes_to_memory(rt: HostRuntime) -> Result<(), Fail> {
    let alloc = rt.alloc();
    for row in WRITES.iter() {
        let (call, answers, held) = *row;
        let mut sink = MemorySink::new(alloc, calls(alloc, call)?);
        assert_eq!(rt;
            marks(&mut sink).as_slice(),
            answers.as_bytes(),
            "call {call}"
        );
        assert_eq!(rt; sink.held(), held.as_bytes(), "call {call}");
    }
    let mut sink = NeverFailingSink::new(alloc);
    assert_eq!(rt; marks(&mut sink).as_slice(), b"...".as_slice());
    assert_eq!(rt; sink.held(), b"sevensix".as_slice());
    Ok(())
}

#[test]
fn reads_real_files(rt: HostRuntime) -> Result<(), Fail> {
    let alloc = rt.alloc();
    fs::write(&rt, "seven.txt", "seven")?;
    let mut files = RealFiles::new(alloc, rt.clone()?);
    assert_eq!(rt;
        parts(alloc, &mut files, "seven.txt")?.as_slice(),
        b"se|ve|n|||".as_slice()
    );
    assert_eq!(rt;
        parts(alloc, &mut files, "six.txt")?.as_slice(),
        b"!".as_slice()
    );
    fs::remove_file(&rt, "seven.txt")?;
    Ok(())
}

// A writer that takes two bytes at a time while it has room, and then nothing, or fails.
#[derive(Drop)]
struct Narrow {
    bytes: Vec<u8>,
    room: usize,
    fails: bool,
}

impl Write for Narrow {
    fn write(&mut self, buf: &[u8]) -> io::Result<usize> {
        let count = buf.len().min(self.room).min(2);
        if count == 0 && self.fails {
            return Err(io::Error::from(io::ErrorKind::Other));
        }
        self.bytes.extend_from_slice(&buf[..count])?;
        self.room -= count;
        Ok(count)
    }

    fn flush(&mut self) -> io::Result<()> {
        if self.fails {
            return Err(io::Error::from(io::ErrorKind::Other));
        }
        Ok(())
    }
}

// The room of the writer, whether it fails, the answers, and what it holds.
static NARROW: [(usize, bool, &str, &str); 5] = [
    (9, false, "...", "sevensix"),
    (9, true, "..!", "sevensix"),
    (3, false, "!!.", "sev"),
    (3, true, "!!!", "sev"),
    (5, false, ".!.", "seven"),
];

#[test]
fn writes_to_writers(rt: HostRuntime) -> Result<(), Fail> {
    let alloc = rt.alloc();
    for row in NARROW.iter() {
        let (room, fails, answers, held) = *row;
        let mut writer = Narrow {
            bytes: Vec::new(alloc),
            room,
            fails,
        };
        let noted = marks(&mut StdSink::new(&mut writer));
        assert_eq!(rt; noted.as_slice(), answers.as_bytes(), "room {room}");
        assert_eq!(rt; writer.bytes.as_slice(), held.as_bytes(), "room {room}");
    }
    assert_eq!(rt;
        marks(&mut StdSink::new(rt.stdout())).as_slice(),
        b"...".as_slice()
    );
    Ok(())
}
