//! The top call.

ghost use Rattle.std.specs.Prelude.{◌+◌};
ghost use Rattle.property_keys.specs.Counts.{TakesAtMost};
ghost use Rattle.command_words.specs.Orders.{order_of};
ghost use Rattle.script_host.specs.Answers.{file_of, files_change};
ghost use Rattle.script_host.specs.Leaves.{AsksFor, Leaves};
ghost use Rattle.script_host.specs.Sinks.{change, sink_view};
ghost use Rattle.script_host.specs.Settling.{EndsRun, EndsUncaught};

use crate::notes::{
    BUDGET_ENDED, CANNOT_WRITE, USAGE, cannot_read, ended, ended_with, faulty, not_built,
    out_of_memory, uncaught,
};
use crate::outcome::{Outcome, ScriptOutcome, settle};
use crate::running::{Ending, HostStop, Ran};
use crate::status::Status;
use hc_outside::{Files, Sink, Text};
use object_heap::Heap;
use property_keys::{Ledger, NoMemory, Steps, Value};
use script_syntax::MOST_BYTES;
use std::alloc::Global;

/// Runs the script that the words name.
///
/// `words` are the words of the command, without the program's name. A run has a budget of 1,000,000 turns. The printed lines go to `out`, one `write` for
/// each, and the note of an ending that has one goes to `err` by one `write`, after all of `out` was written and flushed. The status tells how the call ended;
/// what the sinks then hold is told status by status by the contract.
pub fn hcjs<F: Files, O: Sink, E: Sink, L: Ledger>(
    alloc: Global,
    words: &[Text],
    files: &mut F,
    out: &mut O,
    err: &mut E,
    steps: &mut Steps<L>,
) -> Status
    ensures leaves { Leaves (order_of words.now) (files_change (F.held files.old) (F.faults files.old) (F.faults files.new))
        (change (sink_view (O.held out.old) (O.writes out.old) (O.flushes out.old) (O.faults out.old))
        (sink_view (O.held out.new) (O.writes out.new) (O.flushes out.new) (O.faults out.new)))
        (change (sink_view (E.held err.old) (E.writes err.old) (E.flushes err.old) (E.faults err.old))
        (sink_view (E.held err.new) (E.writes err.new) (E.flushes err.new) (E.faults err.new))) result }
    ensures names { AsksFor (file_of (order_of words.now)) (F.asked files.old) (F.asked files.new) }
    ensures reads { TakesAtMost (MOST_BYTES + 1) (F.reads files.old) (F.reads files.new) }
{
    match settle(alloc, words, files, out, steps) {
        Ok(Outcome::Script(ScriptOutcome::Ran(ran))) => ended_run(alloc, &ran, err, steps),
        Ok(Outcome::Usage) => ended(err, USAGE, Status::Usage),
        Ok(Outcome::Script(ScriptOutcome::Faulty(fault))) => {
            ended_with(err, faulty(alloc, fault), Status::Refused)
        }
        Ok(Outcome::Script(ScriptOutcome::Unbuilt(place))) => {
            ended_with(err, not_built(alloc, place), Status::Refused)
        }
        Ok(Outcome::CannotRead(name)) => ended_with(
            err,
            cannot_read(alloc, &name),
            Status::ReadFault,
        ),
        Err(HostStop::WriteFault) => ended(err, CANNOT_WRITE, Status::WriteFault),
        Err(HostStop::NoMemory) => out_of_memory(err),
    }
}

// The note of a run, where it has one.
fn ended_run<E: Sink, L: Ledger>(
    alloc: Global,
    ran: &Ran,
    err: &mut E,
    steps: &mut Steps<L>,
) -> Status
    ensures { EndsRun ran.now (change (sink_view (E.held err.old) (E.writes err.old) (E.flushes err.old) (E.faults err.old))
        (sink_view (E.held err.new) (E.writes err.new) (E.flushes err.new) (E.faults err.new))) result }
{
    match ran.ending {
        Ending::Finished => Status::Finished,
        Ending::Thrown(value) => ended_uncaught(alloc, &ran.heap, value, err, steps),
        Ending::Halted => ended(err, BUDGET_ENDED, Status::BudgetEnded),
    }
}

fn ended_uncaught<E: Sink, L: Ledger>(
    alloc: Global,
    heap: &Heap,
    value: Value,
    err: &mut E,
    steps: &mut Steps<L>,
) -> Status
    ensures { EndsUncaught heap.now value (change (sink_view (E.held err.old) (E.writes err.old) (E.flushes err.old) (E.faults err.old))
        (sink_view (E.held err.new) (E.writes err.new) (E.flushes err.new) (E.faults err.new))) result }
{
    match uncaught(alloc, heap, value, steps) {
        Ok(note) => ended(err, &note, Status::Thrown),
        Err(NoMemory) => out_of_memory(err),
    }
}
