//! The function that prints a line.

ghost use Rattle.std.specs.Prelude.{◌≡◌, ◌∷◌, ◌++◌, []};
ghost use Rattle.es_model.specs.Fits.{IsKnownCompletion};
ghost use Rattle.es_model.specs.Known.{AreKnown, IsKnown};
ghost use Rattle.plain_builtins.specs.Printing.{argument_given, line_printed, print, print_left};
ghost use Rattle.es_model.specs.Completions.{answered};
ghost use Rattle.es_model.specs.World.{World};
ghost use Rattle.object_heap.specs.Retains.{Retains};
ghost use Rattle.object_heap.specs.Turns.{KeepsNamed};
ghost use Rattle.plain_builtins.specs.Names.{names_of};
ghost use Rattle.plain_builtins.specs.Turns.{StopsAt};

use crate::arguments::Arguments;
use crate::asking::{one, value_of};
use crate::frame::{Line, PlainFrame, PrintedFrame};
use es_model::{Completion, Operation, Reply, Request, Stop, Turn, Values};
use object_heap::Heap;
use property_keys::Value;
use std::alloc::Global;

/// A call of the function.
pub(crate) fn print(
    alloc: Global,
    heap: &mut Heap,
    arguments: &Values,
) -> Result<Turn<PlainFrame>, Stop>
    ensures stops { StopsAt heap.old heap.new (print arguments.now) result }
    ensures named { (w : World) → AreKnown w.lists arguments.now → KeepsNamed names_of w result }
    ensures retains { Retains heap.old heap.new }
{
    let line = Line {
        left: Arguments::of(alloc, arguments)?,
        texts: Values::new(alloc),
    };
    next_argument(alloc, heap, line)
}

/// The next argument is converted, or the line is asked for.
#[tactic(auto, using(crate::proofs::Rounds::same_arguments))]
fn next_argument(alloc: Global, heap: &mut Heap, line: Line) -> Result<Turn<PlainFrame>, Stop>
    ensures stops { StopsAt heap.old heap.new (print_left line.left line.texts) result }
    ensures named { (w : World) → AreKnown w.lists line.left → AreKnown w.lists line.texts → KeepsNamed names_of w result }
    ensures retains { Retains heap.old heap.new }
{
    let Line { mut left, texts } = line;
    match left.take() {
        None => ask_line(heap, texts),
        Some(value) => ask_text(alloc, heap, value, Line { left, texts }),
    }
}

/// A line of these texts.
fn ask_line(heap: &mut Heap, texts: Values) -> Result<Turn<PlainFrame>, Stop>
    ensures stops { StopsAt heap.old heap.new (print_left [] texts) result }
    ensures named { (w : World) → KeepsNamed names_of w result }
    ensures retains { Retains heap.old heap.new }
{
    let request = Request::Print { line: texts };
    Ok(Turn::Ask(request, PlainFrame::Printed(PrintedFrame::LinePrinted)))
}

/// The text of an argument, for a turn.
fn ask_text(
    alloc: Global,
    heap: &mut Heap,
    value: Value,
    line: Line,
) -> Result<Turn<PlainFrame>, Stop>
    ensures stops { StopsAt heap.old heap.new (print_left (value ∷ line.left) line.texts) result }
    ensures named { (w : World) → AreKnown w.lists line.left → AreKnown w.lists line.texts → KeepsNamed names_of w result }
    ensures retains { Retains heap.old heap.new }
{
    heap.charge(1)?;
    let request = Request::Work {
        operation: Operation::ToText,
        operands: one(alloc, value)?,
    };
    let frame = PrintedFrame::ArgumentGiven(line);
    Ok(Turn::Ask(request, PlainFrame::Printed(frame)))
}

/// A text more of the line.
pub(crate) fn argument_given(
    alloc: Global,
    heap: &mut Heap,
    line: Line,
    answer: Completion,
) -> Result<Turn<PlainFrame>, Stop>
    ensures stops { StopsAt heap.old heap.new (argument_given (print_left line.left) line.texts (answered answer)) result }
    ensures named { (w : World) → IsKnownCompletion w.lists (answered answer) → AreKnown w.lists line.left → AreKnown w.lists line.texts → KeepsNamed names_of w result }
    ensures retains { Retains heap.old heap.new }
{
    match value_of(answer) {
        Ok(text) => text_put(alloc, heap, line, text),
        Err(thrown) => Ok(Turn::Done(Completion::Throw(thrown))),
    }
}

#[tactic(auto, using(object_heap::proofs::Retaining::retains_none, object_heap::proofs::Turns::named_stop, crate::proofs::Rounds::same_line))]
fn text_put(
    alloc: Global,
    heap: &mut Heap,
    line: Line,
    text: Value,
) -> Result<Turn<PlainFrame>, Stop>
    ensures stops { StopsAt heap.old heap.new (print_left line.left (line.texts ++ text ∷ [])) result }
    ensures named { (w : World) → IsKnown w.lists text → AreKnown w.lists line.left → AreKnown w.lists line.texts → KeepsNamed names_of w result }
    ensures retains { Retains heap.old heap.new }
{
    let Line { left, mut texts } = line;
    texts.push(text)?;
    next_argument(alloc, heap, Line { left, texts })
}

/// The line was printed.
pub(crate) fn line_printed(heap: &mut Heap, answer: Completion) -> Result<Turn<PlainFrame>, Stop>
    ensures stops { StopsAt heap.old heap.new (line_printed (answered answer)) result }
    ensures named { (w : World) → KeepsNamed names_of w result }
    ensures retains { Retains heap.old heap.new }
{
    match answer.value() {
        Ok(_) => Ok(Turn::Done(Completion::Normal(Reply::Value(Value::Undefined)))),
        Err(thrown) => Ok(Turn::Done(Completion::Throw(thrown))),
    }
}
