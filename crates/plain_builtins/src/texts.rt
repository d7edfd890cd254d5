//! ToString and ToPropertyKey (ECMA-262, 7.1.17, 7.1.19).

ghost use Rattle.std.specs.Prelude.{◌≡◌, ◌≤◌, length, pos};
ghost use Rattle.plain_builtins.specs.Conversions.{gives_text, index_of, key_given, key_in, key_of_number, key_of_text, key_of_units, text_given, text_of, to_key, to_text, truth_text};
ghost use Rattle.es_model.specs.Completions.{answered};
ghost use Rattle.es_model.specs.World.{World};
ghost use Rattle.object_heap.specs.Retains.{Retains};
ghost use Rattle.object_heap.specs.Turns.{KeepsNamed};
ghost use Rattle.plain_builtins.specs.Names.{names_of};
ghost use Rattle.plain_builtins.specs.Turns.{StopsAt};

use crate::asking::{as_object, one};
use crate::frame::{ConvertedFrame, PlainFrame};
use crate::throwing::cannot_convert;
use es_model::{Completion, Operation, Reply, Request, Stop, Turn};
use object_heap::Heap;
use property_keys::{Ledger, PropKey, Steps, TextId, Value};
use std::alloc::Global;

fn truth_text(flag: bool) -> &'static [u8]
    ensures text { result.now ≡ truth_text flag }
    ensures short { length result.now ≤ 40 }
{
    if flag { b"true" } else { b"false" }
}

/// ToString. A text is its own, and asks nothing.
pub(crate) fn to_text<L: Ledger>(
    alloc: Global,
    heap: &mut Heap,
    value: Value,
    steps: &mut Steps<L>,
) -> Result<Turn<PlainFrame>, Stop>
    ensures stops { StopsAt heap.old heap.new (to_text value) result }
    ensures named { (w : World) → KeepsNamed names_of w result }
    ensures retains { Retains heap.old heap.new }
{
    match as_object(value) {
        None => text_of(heap, value, steps),
        Some(_) => {
            let request = Request::Work {
                operation: Operation::ToPrimitiveText,
                operands: one(alloc, value)?,
            };
            Ok(Turn::Ask(request, PlainFrame::Converted(ConvertedFrame::Text)))
        }
    }
}

/// What follows step 10.
pub(crate) fn text_given<L: Ledger>(
    heap: &mut Heap,
    answer: Completion,
    steps: &mut Steps<L>,
) -> Result<Turn<PlainFrame>, Stop>
    ensures stops { StopsAt heap.old heap.new (text_given (answered answer)) result }
    ensures named { (w : World) → KeepsNamed names_of w result }
    ensures retains { Retains heap.old heap.new }
{
    match answer.value() {
        Ok(value) => text_of(heap, value, steps),
        Err(thrown) => Ok(Turn::Done(Completion::Throw(thrown))),
    }
}

/// Steps 1 to 8, of a value that is no object.
fn text_of<L: Ledger>(
    heap: &mut Heap,
    value: Value,
    steps: &mut Steps<L>,
) -> Result<Turn<PlainFrame>, Stop>
    ensures stops { StopsAt heap.old heap.new (text_of value) result }
    ensures named { (w : World) → KeepsNamed names_of w result }
    ensures retains { Retains heap.old heap.new }
{
    match value {
        Value::Undefined => gives_text(heap, b"undefined"),
        Value::Null => gives_text(heap, b"null"),
        Value::Bool(flag) => gives_text(heap, truth_text(flag)),
        Value::Whole(n) => {
            let text = heap.whole_text(n)?;
            Ok(Turn::Done(Completion::Normal(Reply::Value(Value::Text(text)))))
        }
        Value::Text(text) => Ok(Turn::Done(Completion::Normal(Reply::Value(Value::Text(text))))),
        Value::Symbol(_) | Value::Object(_) => cannot_convert(heap, steps),
    }
}

fn gives_text(heap: &mut Heap, text: &[u8]) -> Result<Turn<PlainFrame>, Stop>
    requires { length text.now ≤ 40 }
    ensures stops { StopsAt heap.old heap.new (gives_text text.now) result }
    ensures named { (w : World) → KeepsNamed names_of w result }
    ensures retains { Retains heap.old heap.new }
{
    let text = heap.word(text)?;
    Ok(Turn::Done(Completion::Normal(Reply::Value(Value::Text(text)))))
}

/// ToPropertyKey.
pub(crate) fn to_key<L: Ledger>(
    alloc: Global,
    heap: &mut Heap,
    value: Value,
    steps: &mut Steps<L>,
) -> Result<Turn<PlainFrame>, Stop>
    ensures stops { StopsAt heap.old heap.new (to_key value) result }
    ensures named { (w : World) → KeepsNamed names_of w result }
    ensures retains { Retains heap.old heap.new }
{
    match as_object(value) {
        None => key_in(heap, value, steps),
        Some(_) => {
            let request = Request::Work {
                operation: Operation::ToPrimitiveText,
                operands: one(alloc, value)?,
            };
            Ok(Turn::Ask(request, PlainFrame::Converted(ConvertedFrame::Key)))
        }
    }
}

/// What follows step 1.
pub(crate) fn key_given<L: Ledger>(
    heap: &mut Heap,
    answer: Completion,
    steps: &mut Steps<L>,
) -> Result<Turn<PlainFrame>, Stop>
    ensures stops { StopsAt heap.old heap.new (key_given (answered answer)) result }
    ensures named { (w : World) → KeepsNamed names_of w result }
    ensures retains { Retains heap.old heap.new }
{
    match answer.value() {
        Ok(value) => key_in(heap, value, steps),
        Err(thrown) => Ok(Turn::Done(Completion::Throw(thrown))),
    }
}

/// Steps 2 to 4, of a value that is no object.
fn key_in<L: Ledger>(
    heap: &mut Heap,
    value: Value,
    steps: &mut Steps<L>,
) -> Result<Turn<PlainFrame>, Stop>
    ensures stops { StopsAt heap.old heap.new (key_in value) result }
    ensures named { (w : World) → KeepsNamed names_of w result }
    ensures retains { Retains heap.old heap.new }
{
    match value {
        Value::Undefined => key_of_word(heap, b"undefined"),
        Value::Null => key_of_word(heap, b"null"),
        Value::Bool(flag) => key_of_word(heap, truth_text(flag)),
        Value::Whole(n) => key_of_number(heap, n),
        Value::Text(text) => key_of_text(heap, text),
        Value::Symbol(symbol) => Ok(Turn::Done(Completion::Normal(Reply::Key(PropKey::Sym(
            symbol,
        ))))),
        Value::Object(_) => cannot_convert(heap, steps),
    }
}

/// The key of a text that is there.
fn key_of_text(heap: &mut Heap, text: TextId) -> Result<Turn<PlainFrame>, Stop>
    ensures stops { StopsAt heap.old heap.new (key_of_text text) result }
    ensures named { (w : World) → KeepsNamed names_of w result }
    ensures retains { Retains heap.old heap.new }
{
    let key = heap.key(text);
    Ok(Turn::Done(Completion::Normal(Reply::Key(key))))
}

#[tactic(auto, using(object_heap::specs::Stands::goes_none, object_heap::specs::Stands::goes_then, object_heap::specs::Stands::halts_at, object_heap::specs::Stops::stops_then, object_heap::proofs::Retaining::retains_none, object_heap::proofs::Retaining::retains_then, object_heap::proofs::Turns::named_ask, object_heap::proofs::Turns::named_done, object_heap::proofs::Turns::named_stop))]
fn key_of_word(heap: &mut Heap, text: &[u8]) -> Result<Turn<PlainFrame>, Stop>
    requires { length text.now ≤ 40 }
    ensures stops { StopsAt heap.old heap.new (key_of_units text.now) result }
    ensures named { (w : World) → KeepsNamed names_of w result }
    ensures retains { Retains heap.old heap.new }
{
    let text = heap.word(text)?;
    key_of_text(heap, text)
}

/// The key of a number. An array index is its own, and no text is made of it.
#[tactic(auto, using(object_heap::specs::Stands::goes_none, object_heap::specs::Stands::goes_then, object_heap::specs::Stands::halts_at, object_heap::specs::Stops::stops_then, object_heap::proofs::Retaining::retains_none, object_heap::proofs::Retaining::retains_then, object_heap::proofs::Turns::named_ask, object_heap::proofs::Turns::named_done, object_heap::proofs::Turns::named_stop))]
fn key_of_number(heap: &mut Heap, n: i64) -> Result<Turn<PlainFrame>, Stop>
    ensures stops { StopsAt heap.old heap.new (key_of_number n (index_of n)) result }
    ensures named { (w : World) → KeepsNamed names_of w result }
    ensures retains { Retains heap.old heap.new }
{
    match index_of(n) {
        Some(index) => Ok(Turn::Done(Completion::Normal(Reply::Key(PropKey::Index(index))))),
        None => {
            let text = heap.whole_text(n)?;
            key_of_text(heap, text)
        }
    }
}

/// The array index that a number is.
#[tactic(auto, using(crate::proofs::Indices::negative_index, crate::proofs::Indices::index_from_zero))]
fn index_of(n: i64) -> Option<u32>
    ensures { result ≡ index_of n }
{
    if n < 0 {
        None
    } else {
        natural_index(n.unsigned_abs())
    }
}

/// The array index that a number from 0 on is.
fn natural_index(n: u64) -> Option<u32>
    ensures { result ≡ index_of (pos n) }
{
    if n <= 4_294_967_294 {
        Some(n as u32)
    } else {
        None
    }
}
