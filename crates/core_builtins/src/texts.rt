//! Texts that the built-in functions make.

ghost use Rattle.std.specs.Prelude.{◌≡◌, ◌≤◌, ◌+◌, ◌++◌, is_some, length, nat_le, IfOk, IfSome};
ghost use Rattle.property_keys.specs.Limits.{most_units};
ghost use Rattle.es_model.specs.World.{World, number_of, units_of};
ghost use Rattle.object_heap.specs.Retains.{Retains};
ghost use Rattle.object_heap.specs.Stands.{Goes, StandsFor};
ghost use Rattle.object_heap.specs.Turns.{KeepsNamed};
ghost use Rattle.core_builtins.specs.Answers.{gives_joined, three_joined};
ghost use Rattle.core_builtins.specs.Joined.{joined_world};
ghost use Rattle.core_builtins.specs.Names.{names_of};
ghost use Rattle.core_builtins.specs.Turns.{StopsAt};

use crate::frame::CoreFrame;
use crate::throwing::text_too_long;
use es_model::{Completion, Reply, Stop, Turn};
use object_heap::Heap;
use property_keys::{KeyFault, Ledger, MOST_UNITS, NoMemory, Steps, TextId, Value};

/// How many code units a text has. A text that is not there is empty.
fn text_len(heap: &Heap, text: TextId) -> usize
    ensures len { (w : World) → StandsFor heap.now w → result ≡ length (units_of w.lists text) }
    ensures most { result ≤ most_units }
{
    let texts = heap.texts_ref();
    if (text.0 as usize) < texts.len() {
        texts.units(text).len()
    } else {
        0
    }
}

/// One text after another (6.1.4), or None where they have too many code units together, and then nothing changes.
fn join(heap: &mut Heap, a: TextId, b: TextId) -> Result<Option<TextId>, NoMemory>
    ensures fits { IfOk result (λ text. (w : World) → StandsFor heap.old w → nat_le (length (units_of w.lists a) + length (units_of w.lists b)) most_units ≡ is_some text) }
    ensures number { IfOk result (λ text. IfSome text (λ id. (w : World) → StandsFor heap.old w → id ≡ number_of w.lists (units_of w.lists a ++ units_of w.lists b))) }
    ensures goes { IfOk result (λ text. (w : World) → StandsFor heap.old w → Goes heap.old heap.new w (joined_world w a b text)) }
    ensures retains { Retains heap.old heap.new }
{
    if text_len(heap, a) + text_len(heap, b) > MOST_UNITS {
        return Ok(None);
    }
    match heap.concat(a, b) {
        Ok(id) => Ok(Some(id)),
        Err(KeyFault::TooLong) => Ok(None),
        Err(KeyFault::NoMemory) => Err(NoMemory),
    }
}

/// Two texts, one after the other, are the answer.
fn gives_joined<L: Ledger>(
    heap: &mut Heap,
    a: TextId,
    b: TextId,
    steps: &mut Steps<L>,
) -> Result<Turn<CoreFrame>, Stop>
    ensures stops { StopsAt heap.old heap.new (gives_joined a b) result }
    ensures named { (w : World) → KeepsNamed names_of w result }
    ensures retains { Retains heap.old heap.new }
{
    match join(heap, a, b)? {
        None => text_too_long(heap, steps),
        Some(text) => Ok(Turn::Done(Completion::Normal(Reply::Value(Value::Text(text))))),
    }
}

/// Three texts, one after the other, are the answer.
pub(crate) fn three_joined<L: Ledger>(
    heap: &mut Heap,
    a: TextId,
    b: TextId,
    c: TextId,
    steps: &mut Steps<L>,
) -> Result<Turn<CoreFrame>, Stop>
    ensures stops { StopsAt heap.old heap.new (three_joined a b c) result }
    ensures named { (w : World) → KeepsNamed names_of w result }
    ensures retains { Retains heap.old heap.new }
{
    match join(heap, a, b)? {
        None => text_too_long(heap, steps),
        Some(start) => gives_joined(heap, start, c, steps),
    }
}
