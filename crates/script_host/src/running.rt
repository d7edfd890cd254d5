//! The run of a script.

ghost use Rattle.std.specs.Prelude.{◌≡◌, ℕ};
ghost use Rattle.es_model.specs.Completions.{answered};
ghost use Rattle.es_model.specs.World.{World};
ghost use Rattle.es_serve.specs.Lines.{line_bytes};
ghost use Rattle.object_heap.specs.Stands.{StandsFor};
ghost use Rattle.script_host.specs.Running.{IsAtStart, RunsTo, TakesLine, answer_ending, ended};
ghost use Rattle.script_host.specs.Sinks.{change, sink_view};

use crate::lines::line_bytes;
use dispatcher::{Dispatcher, Event};
use es_model::{Completion, Stop, Values};
use es_tree::Checked;
use hc_outside::{Fault, Sink};
use object_heap::Heap;
use property_keys::{Ledger, NoMemory, RunHashing, Steps, Value};
use std::alloc::Global;

/// How a run ends.
#[derive(Clone, Copy, Debug, PartialEq, Eq)]
pub enum Ending {
    /// The script ran to its end.
    Finished,
    /// This value was not caught.
    Thrown(Value),
    /// The turns came to their end before the script.
    Halted,
}

/// What a run comes to: how it ended, and the objects, texts, Symbols, cells and turns that it leaves.
#[derive(Drop)]
pub struct Ran {
    pub ending: Ending,
    pub heap: Heap,
}

/// Why the output is not whole.
#[derive(Clone, Copy, Debug, PartialEq, Eq)]
pub enum HostStop {
    /// The output failed.
    WriteFault,
    /// Memory ran out, here or in the output.
    NoMemory,
}

/// Writes a line by one `write`.
pub(crate) fn write_line<O: Sink>(out: &mut O, line: &[u8]) -> Result<(), HostStop>
    ensures { TakesLine line.now (change (sink_view (O.held out.old) (O.writes out.old) (O.flushes out.old) (O.faults out.old))
        (sink_view (O.held out.new) (O.writes out.new) (O.flushes out.new) (O.faults out.new))) result }
{
    match out.write(line) {
        Ok(()) => Ok(()),
        Err(Fault::Failed) => Err(HostStop::WriteFault),
        Err(Fault::NoMemory) => Err(HostStop::NoMemory),
    }
}

/// Makes a line and writes it.
fn print_line<O: Sink>(
    alloc: Global,
    heap: &Heap,
    line: &Values,
    out: &mut O,
) -> Result<(), HostStop>
    ensures { (w : World) → StandsFor heap.now w → TakesLine (line_bytes w.lists line.now) (change (sink_view (O.held out.old) (O.writes out.old) (O.flushes out.old) (O.faults out.old))
        (sink_view (O.held out.new) (O.writes out.new) (O.flushes out.new) (O.faults out.new))) result }
{
    match line_bytes(alloc, heap, line) {
        Ok(bytes) => write_line(out, &bytes),
        Err(NoMemory) => Err(HostStop::NoMemory),
    }
}

fn ending_of(answer: Completion) -> Ending
    ensures { ended result ≡ answer_ending (answered answer) }
{
    match answer {
        Completion::Normal(_) => Ending::Finished,
        Completion::Throw(value) => Ending::Thrown(value),
    }
}

/// Goes on with a script, line by line, to its end.
fn print_lines<O: Sink, L: Ledger>(
    alloc: Global,
    mut heap: Heap,
    script: &Checked,
    mut dispatcher: Dispatcher,
    out: &mut O,
    steps: &mut Steps<L>,
) -> Result<Ran, HostStop>
    ensures { (budget : ℕ) → IsAtStart script.now budget heap dispatcher → RunsTo script.now budget (change (sink_view (O.held out.old) (O.writes out.old) (O.flushes out.old) (O.faults out.old))
        (sink_view (O.held out.new) (O.writes out.new) (O.flushes out.new) (O.faults out.new))) result }
{
    'lines: loop {
        match dispatcher.go_on(alloc, &mut heap, script, steps) {
            Ok(Event::Prints(line, next)) => match print_line(alloc, &heap, &line, out) {
                Ok(()) => dispatcher = next,
                Err(stop) => return Err(stop),
            },
            Ok(Event::Ends(answer)) => {
                let ending = ending_of(answer);
                return Ok(Ran { ending, heap });
            }
            Err(Stop::Halted) => {
                let ending = Ending::Halted;
                return Ok(Ran { ending, heap });
            }
            Err(Stop::NoMemory) => return Err(HostStop::NoMemory),
        }
    }
}

/// Runs a script with so many turns: to its end, to a value that is not caught, or to the end of the turns. Each line that it prints goes to `out` by one
/// `write`, at its turn.
///
/// `Ok` comes only where the count of faults of `out` did not change, with the ending, the last world and all the bytes of the run; at a halt the turns that
/// are left are not compared. `WriteFault` comes only where the count rose. After it and after `NoMemory` a front of the bytes was written.
///
/// What the run comes to does not hang on the hashing, only the time that it takes: let it be that of the bytes of the script's file.
pub fn run<O: Sink, L: Ledger>(
    alloc: Global,
    script: &Checked,
    budget: u64,
    hashing: RunHashing,
    out: &mut O,
    steps: &mut Steps<L>,
) -> Result<Ran, HostStop>
    ensures { RunsTo script.now budget (change (sink_view (O.held out.old) (O.writes out.old) (O.flushes out.old) (O.faults out.old))
        (sink_view (O.held out.new) (O.writes out.new) (O.flushes out.new) (O.faults out.new))) result }
{
    match Heap::with_hashing(alloc, budget, hashing) {
        Ok(heap) => {
            let dispatcher = Dispatcher::of_script(alloc, &heap, script);
            print_lines(alloc, heap, script, dispatcher, out, steps)
        }
        Err(NoMemory) => Err(HostStop::NoMemory),
    }
}
