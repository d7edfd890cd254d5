//! What words and file lead to.

ghost use Rattle.std.specs.Prelude.{◌≡◌, ◌+◌, ℕ, List, Option, IfOk, Some, string_bytes};
ghost use Rattle.std.specs.Io.KnownBytes.{Keeps};
ghost use Rattle.property_keys.specs.Counts.{TakesAtMost};
ghost use Rattle.command_words.specs.Orders.{OfFile, Generated, order_in, order_of, ordered_from, source_in};
ghost use Rattle.hc_outside.specs.Causes.{CountsAnswer};
ghost use Rattle.script_host.specs.Answers.{file_of, files_change};
ghost use Rattle.script_host.specs.Expected.{length_line, summary_of};
ghost use Rattle.script_host.specs.FileBytes.{AsksOnce};
ghost use Rattle.script_host.specs.Leaves.{AsksFor};
ghost use Rattle.script_host.specs.Sinks.{change, sink_view};
ghost use Rattle.script_host.specs.Running.{HasWriteCause, TakesLine};
ghost use Rattle.script_host.specs.Settling.{ClosesRun, FlushesRun, Settles, SettlesRun, SettlesScript, TakesSummary};

use crate::file_bytes::read_file;
use crate::reading::read_script;
use crate::running::{HostStop, Ran, run, write_line};
use crate::unfinished::unbuilt;
use command_words::{Order, Source, WordsStop, read_order};
use es_source::{Place, ReadStop, SourceFault};
use es_tree::Checked;
use hc_outside::{Fault, Files, Sink, Text, text};
use property_keys::{Ledger, NoMemory, RunHashing, Steps};
use script_generator::generated;
use script_syntax::MOST_BYTES;
use std::alloc::Global;

/// What the bytes of a script come to.
#[derive(Drop)]
pub enum ScriptOutcome {
    /// It ran.
    Ran(Ran),
    /// It has this first fault.
    Faulty(SourceFault),
    /// It has no fault, and a construct that does not run yet.
    Unbuilt(Place),
}

/// What the words and the file come to.
#[derive(Drop)]
pub enum Outcome {
    Usage,
    CannotRead(Text),
    Script(ScriptOutcome),
}

/// Reads the words and the script that they order, runs it, and flushes the output: all but the note.
pub fn settle<F: Files, O: Sink, L: Ledger>(
    alloc: Global,
    words: &[Text],
    files: &mut F,
    out: &mut O,
    steps: &mut Steps<L>,
) -> Result<Outcome, HostStop>
    ensures settles { Settles (order_of words.now) (files_change (F.held files.old) (F.faults files.old) (F.faults files.new))
        (change (sink_view (O.held out.old) (O.writes out.old) (O.flushes out.old) (O.faults out.old))
        (sink_view (O.held out.new) (O.writes out.new) (O.flushes out.new) (O.faults out.new))) result }
    ensures names { AsksFor (file_of (order_of words.now)) (F.asked files.old) (F.asked files.new) }
    ensures reads { TakesAtMost (MOST_BYTES + 1) (F.reads files.old) (F.reads files.new) }
{
    match read_order(alloc, words) {
        Ok(order) => settle_order(alloc, order, files, out, steps),
        Err(WordsStop::Usage) => {
            flush(out)?;
            Ok(Outcome::Usage)
        }
        Err(WordsStop::NoMemory) => Err(flush_without_memory(out)),
    }
}

// Reads the script that is ordered, runs it, and flushes the output.
fn settle_order<F: Files, O: Sink, L: Ledger>(
    alloc: Global,
    order: Order<'_>,
    files: &mut F,
    out: &mut O,
    steps: &mut Steps<L>,
) -> Result<Outcome, HostStop>
    ensures settles { Settles (Some (order_in order.entry)) (files_change (F.held files.old) (F.faults files.old) (F.faults files.new))
        (change (sink_view (O.held out.old) (O.writes out.old) (O.flushes out.old) (O.faults out.old))
        (sink_view (O.held out.new) (O.writes out.new) (O.flushes out.new) (O.faults out.new))) result }
    ensures names { AsksFor (file_of (Some (order_in order.entry))) (F.asked files.old) (F.asked files.new) }
    ensures reads { TakesAtMost (MOST_BYTES + 1) (F.reads files.old) (F.reads files.new) }
{
    match order.source {
        Source::File(name) => settle_file(alloc, order.budget, name, files, out, steps),
        Source::Generated(count) => settle_generated(alloc, order.budget, count, out, steps),
    }
}

// Reads the file of this name, runs it with so many turns, and flushes the output.
fn settle_file<F: Files, O: Sink, L: Ledger>(
    alloc: Global,
    budget: u64,
    name: &str,
    files: &mut F,
    out: &mut O,
    steps: &mut Steps<L>,
) -> Result<Outcome, HostStop>
    ensures settles { Settles (Some (ordered_from budget (OfFile name.now))) (files_change (F.held files.old) (F.faults files.old) (F.faults files.new))
        (change (sink_view (O.held out.old) (O.writes out.old) (O.flushes out.old) (O.faults out.old))
        (sink_view (O.held out.new) (O.writes out.new) (O.flushes out.new) (O.faults out.new))) result }
    ensures names { AsksOnce (F.asked files.old) name.now (F.asked files.new) }
    ensures reads { TakesAtMost (MOST_BYTES + 1) (F.reads files.old) (F.reads files.new) }
{
    let Ok(file) = text(alloc, name) else {
        return Err(flush_without_memory(out));
    };
    match read_file(alloc, files, &file) {
        Ok(bytes) => {
            let order = Order {
                budget,
                source: Source::File(name),
            };
            let outcome = settle_script(alloc, order, &bytes, out, steps)?;
            Ok(Outcome::Script(outcome))
        }
        Err(Fault::Failed) => {
            flush(out)?;
            Ok(Outcome::CannotRead(file))
        }
        Err(Fault::NoMemory) => Err(flush_without_memory(out)),
    }
}

// Makes the generated script with so many constructors, runs it with so many turns, and flushes the output. No file is asked for.
fn settle_generated<O: Sink, L: Ledger>(
    alloc: Global,
    budget: u64,
    count: u32,
    out: &mut O,
    steps: &mut Steps<L>,
) -> Result<Outcome, HostStop>
    ensures { (held : Option (List (List ℕ × List ℕ))) (faults : ℕ) → Settles (Some (ordered_from budget (Generated count))) (files_change held faults faults)
        (change (sink_view (O.held out.old) (O.writes out.old) (O.flushes out.old) (O.faults out.old))
        (sink_view (O.held out.new) (O.writes out.new) (O.flushes out.new) (O.faults out.new))) result }
{
    let Ok(bytes) = generated(alloc, count) else {
        return Err(flush_without_memory(out));
    };
    let order = Order {
        budget,
        source: Source::Generated(count),
    };
    match settle_script(alloc, order, &bytes, out, steps) {
        Ok(outcome) => Ok(Outcome::Script(outcome)),
        Err(stop) => Err(stop),
    }
}

// Reads the bytes of a script, runs it, and flushes the output.
fn settle_script<O: Sink, L: Ledger>(
    alloc: Global,
    order: Order<'_>,
    bytes: &[u8],
    out: &mut O,
    steps: &mut Steps<L>,
) -> Result<ScriptOutcome, HostStop>
    ensures { SettlesScript (order_in order.entry) bytes.now (change (sink_view (O.held out.old) (O.writes out.old) (O.flushes out.old) (O.faults out.old))
        (sink_view (O.held out.new) (O.writes out.new) (O.flushes out.new) (O.faults out.new))) result }
{
    match read_script(alloc, bytes) {
        Ok(script) => match unbuilt(&script) {
            Some(place) => {
                flush(out)?;
                Ok(ScriptOutcome::Unbuilt(place))
            }
            None => {
                let ran = run_to_end(alloc, order, bytes, &script, out, steps)?;
                Ok(ScriptOutcome::Ran(ran))
            }
        },
        Err(ReadStop::Fault(fault)) => {
            flush(out)?;
            Ok(ScriptOutcome::Faulty(fault))
        }
        Err(ReadStop::NoMemory) => Err(flush_without_memory(out)),
    }
}

// Runs a script that was read of these bytes, writes the line behind it, and flushes the output.
fn run_to_end<O: Sink, L: Ledger>(
    alloc: Global,
    order: Order<'_>,
    bytes: &[u8],
    script: &Checked,
    out: &mut O,
    steps: &mut Steps<L>,
) -> Result<Ran, HostStop>
    ensures { SettlesRun (order_in order.entry) bytes.now script.now (change (sink_view (O.held out.old) (O.writes out.old) (O.flushes out.old) (O.faults out.old))
        (sink_view (O.held out.new) (O.writes out.new) (O.flushes out.new) (O.faults out.new))) result }
{
    match run(
        alloc,
        script,
        order.budget,
        RunHashing::of(bytes),
        out,
        steps,
    ) {
        Ok(ran) => close_run(alloc, ran, order.source, bytes, out),
        Err(HostStop::WriteFault) => Err(HostStop::WriteFault),
        Err(HostStop::NoMemory) => Err(flush_without_memory(out)),
    }
}

// Writes the line behind a run, where there is one, and flushes the output.
fn close_run<O: Sink>(
    alloc: Global,
    ran: Ran,
    source: Source<'_>,
    bytes: &[u8],
    out: &mut O,
) -> Result<Ran, HostStop>
    ensures { ClosesRun ran (summary_of (source_in source.entry) bytes.now) (change (sink_view (O.held out.old) (O.writes out.old) (O.flushes out.old) (O.faults out.old))
        (sink_view (O.held out.new) (O.writes out.new) (O.flushes out.new) (O.faults out.new))) result }
{
    match write_summary(alloc, source, bytes, out) {
        Ok(()) => flush_run(ran, out),
        Err(HostStop::WriteFault) => Err(HostStop::WriteFault),
        Err(HostStop::NoMemory) => Err(flush_without_memory(out)),
    }
}

// Writes the line behind the run of a generated script by one `write`. Behind that of a file there is none.
fn write_summary<O: Sink>(
    alloc: Global,
    source: Source<'_>,
    bytes: &[u8],
    out: &mut O,
) -> Result<(), HostStop>
    ensures { TakesSummary (summary_of (source_in source.entry) bytes.now) (change (sink_view (O.held out.old) (O.writes out.old) (O.flushes out.old) (O.faults out.old))
        (sink_view (O.held out.new) (O.writes out.new) (O.flushes out.new) (O.faults out.new))) result }
{
    match source {
        Source::File(_) => Ok(()),
        Source::Generated(_) => write_length(alloc, bytes.len(), out),
    }
}

// Writes the line with the length of a generated script.
fn write_length<O: Sink>(alloc: Global, length: usize, out: &mut O) -> Result<(), HostStop>
    ensures { TakesLine (length_line length) (change (sink_view (O.held out.old) (O.writes out.old) (O.flushes out.old) (O.faults out.old))
        (sink_view (O.held out.new) (O.writes out.new) (O.flushes out.new) (O.faults out.new))) result }
{
    match length_line(alloc, length) {
        Ok(line) => write_line(out, line.as_bytes()),
        Err(NoMemory) => Err(HostStop::NoMemory),
    }
}

fn length_line(alloc: Global, length: usize) -> Result<String, NoMemory>
    ensures { IfOk result (λ line. string_bytes line ≡ length_line length) }
{
    match format!(in alloc; "generated {length} bytes\n") {
        Ok(line) => Ok(line),
        Err(_) => Err(NoMemory),
    }
}

// Flushes what a run printed.
fn flush_run<O: Sink>(ran: Ran, out: &mut O) -> Result<Ran, HostStop>
    ensures { FlushesRun ran (change (sink_view (O.held out.old) (O.writes out.old) (O.flushes out.old) (O.faults out.old))
        (sink_view (O.held out.new) (O.writes out.new) (O.flushes out.new) (O.faults out.new))) result }
{
    match flush(out) {
        Ok(()) => Ok(ran),
        Err(stop) => Err(stop),
    }
}

fn flush<O: Sink>(out: &mut O) -> Result<(), HostStop>
    ensures bytes { Keeps (O.held out.old) (O.held out.new) }
    ensures cause { HasWriteCause (O.faults out.old) (O.faults out.new) result }
    ensures writes { O.writes out.new ≡ O.writes out.old }
    ensures flushes { CountsAnswer (O.flushes out.old) result (O.flushes out.new) }
{
    match out.flush() {
        Ok(()) => Ok(()),
        Err(Fault::Failed) => Err(HostStop::WriteFault),
        Err(Fault::NoMemory) => Err(HostStop::NoMemory),
    }
}

// Flushes what was printed before memory ran out. A failure changes nothing more.
fn flush_without_memory<O: Sink>(out: &mut O) -> HostStop
    ensures stop { result ≡ HostStop.NoMemory }
    ensures bytes { Keeps (O.held out.old) (O.held out.new) }
{
    let _ = out.flush();
    HostStop::NoMemory
}
