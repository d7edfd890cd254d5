//! Runs the script file that the command line names.
#![tactic(auto)]

use hc_outside::{RealFiles, StdSink, Text, text};
use property_keys::{Counting, Steps};
use script_host::{Status, hcjs};
use std::alloc::Global;
use std::process::ExitCode;
use std::rt::Env;
use std::{env, io};

/// Why there are no words.
enum WordsFault {
    /// They are no text.
    NoText,
    NoMemory,
}

// The words after the program's name.
fn words_of<R: Env + AllocGlobal>(rt: &R, alloc: Global) -> Result<Vec<Text>, WordsFault> {
    let arguments = match env::args(rt) {
        Ok(arguments) => arguments,
        Err(error) if error.kind() == io::ErrorKind::OutOfMemory => {
            return Err(WordsFault::NoMemory);
        }
        Err(_) => return Err(WordsFault::NoText),
    };
    let mut words = Vec::new(alloc);
    for argument in arguments.skip(1) {
        let Ok(word) = text(alloc, argument.as_str()) else {
            return Err(WordsFault::NoMemory);
        };
        if words.push(word).is_err() {
            return Err(WordsFault::NoMemory);
        }
    }
    Ok(words)
}

fn main(rt: HostRuntime) -> ExitCode {
    let alloc = rt.alloc();
    let words = match words_of(&rt, alloc) {
        Ok(words) => words,
        // No words are wrong words too: the host writes the note on the command's form.
        Err(WordsFault::NoText) => Vec::new(alloc),
        Err(WordsFault::NoMemory) => return ExitCode::from(Status::NoMemory.code()),
    };
    let mut out = StdSink::new(rt.stdout());
    let mut err = StdSink::new(rt.stderr());
    let mut steps = Steps::new(Counting::new());
    let mut files = RealFiles::new(alloc, rt);
    let status = hcjs(
        alloc,
        words.as_slice(),
        &mut files,
        &mut out,
        &mut err,
        &mut steps,
    );
    ExitCode::from(status.code())
}
