//! Calls of the host over files and sinks in memory.

use hc_outside::{CallList, MemoryFiles, MemorySink, NamedFiles, Text, text};
use property_keys::{Counting, Steps};
use script_host::{Status, hcjs};
use std::alloc::Global;
use std::test::Fail;

/// The calls of the files, of the output and of the error output that are to fail (0: none).
pub type Failing = (u64, u64, u64);

pub const NONE_FAILS: Failing = (0, 0, 0);

/// What a call leaves: its status, and whether each sink holds what is wanted.
#[derive(Drop)]
pub struct Left {
    pub status: Status,
    pub out: bool,
    pub err: bool,
}

fn failing(alloc: Global, call: u64) -> Result<CallList, Fail> {
    let mut calls = CallList::new(alloc);
    calls.push(call)?;
    Ok(calls)
}

fn words_of(alloc: Global, words: &str) -> Result<Vec<Text>, Fail> {
    let mut all = Vec::new(alloc);
    for word in words.split(' ').filter(|word| !word.is_empty()) {
        all.push(text(alloc, word)?)?;
    }
    Ok(all)
}

/// Calls the host with words (by spaces, none of them empty) and these bytes under `x.js`.
pub fn call(
    alloc: Global,
    words: &str,
    file: &[u8],
    fails: Failing,
    out_wanted: &str,
    err_wanted: &str,
) -> Result<Left, Fail> {
    let words = words_of(alloc, words)?;
    call_with(alloc, &words, file, fails, out_wanted, err_wanted)
}

/// Calls the host with these words and these bytes under `x.js`.
pub fn call_with(
    alloc: Global,
    words: &[Text],
    file: &[u8],
    fails: Failing,
    out_wanted: &str,
    err_wanted: &str,
) -> Result<Left, Fail> {
    let mut named = NamedFiles::new(alloc);
    named.push(text(alloc, "x.js")?, file)?;
    let mut files = MemoryFiles::new(alloc, named, failing(alloc, fails.0)?);
    let mut out = MemorySink::new(alloc, failing(alloc, fails.1)?);
    let mut err = MemorySink::new(alloc, failing(alloc, fails.2)?);
    let mut steps = Steps::new(Counting::new());
    let status = hcjs(alloc, words, &mut files, &mut out, &mut err, &mut steps);
    Ok(Left {
        status,
        out: out.held() == out_wanted.as_bytes(),
        err: err.held() == err_wanted.as_bytes(),
    })
}

/// Whether this script runs to its end and prints that.
pub fn prints(alloc: Global, file: &[u8], out: &str) -> Result<bool, Fail> {
    let left = call(alloc, "x.js", file, NONE_FAILS, out, "")?;
    Ok(left.status == Status::Finished && left.out && left.err)
}

/// Whether this script is refused with that note, and prints nothing.
pub fn refuses(alloc: Global, file: &[u8], note: &str) -> Result<bool, Fail> {
    let left = call(alloc, "x.js", file, NONE_FAILS, "", note)?;
    Ok(left.status == Status::Refused && left.out && left.err)
}

/// Whether this script prints that and ends with an uncaught value of that note.
pub fn throws(alloc: Global, file: &[u8], out: &str, note: &str) -> Result<bool, Fail> {
    let left = call(alloc, "x.js", file, NONE_FAILS, out, note)?;
    Ok(left.status == Status::Thrown && left.out && left.err)
}
