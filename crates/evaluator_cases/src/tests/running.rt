//! A script from its source to its end.

use super::reading::read;
use super::serving::{serve, written};
use es_model::{Completion, Stop, Turn};
use es_tree::Checked;
use evaluator::{EvalFrame, resume, start_script};
use object_heap::Heap;
use property_keys::{Counting, Steps};
use std::alloc::Global;
use std::test::Fail;

/// More requests than any script of the tests has.
const REQUESTS: usize = 10000;

fn ends(heap: &mut Heap, script: &Checked, out: &mut Vec<u8>) -> Result<Completion, Stop> {
    let mut steps = Steps::new(Counting::new());
    let mut turn = start_script(heap, script, &mut steps)?;
    for _ in 0..REQUESTS {
        match turn {
            Turn::Done(end) => return Ok(end),
            Turn::Ask(request, frame) => {
                let answer = serve(heap, request, out)?;
                turn = resume(heap, script, frame, answer, &mut steps)?;
            }
        }
    }
    Err(Stop::NoMemory)
}

/// What a script prints with so many turns, and a line on its end where that is no normal one.
pub fn printed_by(alloc: Global, source: &str, turns: u64) -> Result<Vec<u8>, Fail> {
    let script = read(alloc, source.as_bytes())?;
    let mut heap = Heap::new(alloc, turns)?;
    let mut out = Vec::new(alloc);
    match ends(&mut heap, &script, &mut out) {
        Ok(Completion::Normal(_)) => {}
        Ok(Completion::Throw(thrown)) => {
            out.extend_from_slice(b"throws ")?;
            written(&mut heap, thrown, &mut out)?;
        }
        Err(Stop::Halted) => out.extend_from_slice(b"halts")?,
        Err(Stop::NoMemory) => out.extend_from_slice(b"no memory")?,
    }
    Ok(out)
}
