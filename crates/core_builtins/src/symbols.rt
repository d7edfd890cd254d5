//! Symbol and the functions of its prototype (ECMA-262, 20.4).

ghost use Rattle.std.specs.Prelude.{◌≡◌};
ghost use Rattle.es_model.specs.Completions.{answered};
ghost use Rattle.es_model.specs.World.{World, description};
ghost use Rattle.object_heap.specs.Retains.{Retains};
ghost use Rattle.object_heap.specs.Stands.{StandsFor};
ghost use Rattle.object_heap.specs.Turns.{KeepsNamed};
ghost use Rattle.core_builtins.specs.Names.{names_of};
ghost use Rattle.core_builtins.specs.Symbols.{description_given, description_value, descriptive_of, descriptive_string, symbol_called, symbol_description, symbol_made, symbol_to_string, symbol_value_of};
ghost use Rattle.core_builtins.specs.Turns.{StopsAt};

use crate::arguments::{first_of, inner_value};
use crate::asking::one;
use crate::frame::{CoreFrame, SymbolFrame};
use crate::texts::three_joined;
use crate::throwing::wrong_value;
use es_model::{Completion, Operation, Reply, Request, Stop, Turn, Values};
use object_heap::Heap;
use property_keys::{Ledger, Steps, SymbolId, TextId, Value};
use std::alloc::Global;

/// A new Symbol.
fn symbol_made(heap: &mut Heap, description: Option<TextId>) -> Result<Turn<CoreFrame>, Stop>
    ensures stops { StopsAt heap.old heap.new (symbol_made description) result }
    ensures named { (w : World) → KeepsNamed names_of w result }
    ensures retains { Retains heap.old heap.new }
{
    let symbol = heap.make_symbol(description)?;
    Ok(Turn::Done(Completion::Normal(Reply::Value(Value::Symbol(symbol)))))
}

/// Symbol, called (20.4.1.1).
pub(crate) fn symbol_called(
    alloc: Global,
    heap: &mut Heap,
    arguments: &Values,
) -> Result<Turn<CoreFrame>, Stop>
    ensures stops { StopsAt heap.old heap.new (symbol_called arguments.now) result }
    ensures named { (w : World) → KeepsNamed names_of w result }
    ensures retains { Retains heap.old heap.new }
{
    let description = first_of(arguments);
    match description {
        Value::Undefined => symbol_made(heap, None),
        Value::Text(text) => symbol_made(heap, Some(text)),
        Value::Null | Value::Bool(_) | Value::Whole(_) | Value::Symbol(_) | Value::Object(_) => {
            let request = Request::Work {
                operation: Operation::ToText,
                operands: one(alloc, description)?,
            };
            Ok(Turn::Ask(request, CoreFrame::Symbol(SymbolFrame::DescriptionGiven)))
        }
    }
}

/// What follows step 3.
pub(crate) fn description_given(
    heap: &mut Heap,
    answer: Completion,
) -> Result<Turn<CoreFrame>, Stop>
    ensures stops { StopsAt heap.old heap.new (description_given (answered answer)) result }
    ensures named { (w : World) → KeepsNamed names_of w result }
    ensures retains { Retains heap.old heap.new }
{
    match answer.value() {
        Ok(Value::Text(text)) => symbol_made(heap, Some(text)),
        Ok(_) => Ok(Turn::Done(Completion::Throw(Value::Undefined))),
        Err(thrown) => Ok(Turn::Done(Completion::Throw(thrown))),
    }
}

/// The description of a Symbol. A Symbol that is not there has none.
fn description_of(heap: &Heap, symbol: SymbolId) -> Option<TextId>
    ensures { (w : World) → StandsFor heap.now w → result ≡ description w.lists symbol }
{
    let symbols = heap.symbols_ref();
    if (symbol.0 as usize) < symbols.len() {
        symbols.description(symbol)
    } else {
        None
    }
}

fn description_value(description: Option<TextId>) -> Value
    ensures { result ≡ description_value description }
{
    match description {
        None => Value::Undefined,
        Some(text) => Value::Text(text),
    }
}

/// The getter of Symbol.prototype.description (20.4.3.2).
pub(crate) fn symbol_description<L: Ledger>(
    heap: &mut Heap,
    this: Value,
    steps: &mut Steps<L>,
) -> Result<Turn<CoreFrame>, Stop>
    ensures stops { StopsAt heap.old heap.new (symbol_description this) result }
    ensures named { (w : World) → KeepsNamed names_of w result }
    ensures retains { Retains heap.old heap.new }
{
    match inner_value(heap, this) {
        Value::Symbol(symbol) => {
            let value = description_value(description_of(heap, symbol));
            Ok(Turn::Done(Completion::Normal(Reply::Value(value))))
        }
        Value::Undefined
        | Value::Null
        | Value::Bool(_)
        | Value::Whole(_)
        | Value::Text(_)
        | Value::Object(_) => wrong_value(heap, steps),
    }
}

/// SymbolDescriptiveString (20.4.3.3.1), of a text that is the description.
#[tactic(auto, using(object_heap::specs::Stands::goes_none, object_heap::specs::Stands::goes_then, object_heap::specs::Stands::halts_at, object_heap::specs::Stops::stops_then, object_heap::proofs::Retaining::retains_none, object_heap::proofs::Retaining::retains_then, object_heap::proofs::Turns::named_ask, object_heap::proofs::Turns::named_done, object_heap::proofs::Turns::named_stop))]
fn descriptive_of<L: Ledger>(
    heap: &mut Heap,
    text: TextId,
    steps: &mut Steps<L>,
) -> Result<Turn<CoreFrame>, Stop>
    ensures stops { StopsAt heap.old heap.new (descriptive_of text) result }
    ensures named { (w : World) → KeepsNamed names_of w result }
    ensures retains { Retains heap.old heap.new }
{
    let start = heap.word(b"Symbol(")?;
    let end = heap.word(b")")?;
    three_joined(heap, start, text, end, steps)
}

/// SymbolDescriptiveString (20.4.3.3.1).
#[tactic(auto, using(object_heap::specs::Stands::goes_none, object_heap::specs::Stands::goes_then, object_heap::specs::Stands::halts_at, object_heap::specs::Stops::stops_then, object_heap::proofs::Retaining::retains_none, object_heap::proofs::Retaining::retains_then, object_heap::proofs::Turns::named_ask, object_heap::proofs::Turns::named_done, object_heap::proofs::Turns::named_stop))]
fn descriptive_string<L: Ledger>(
    heap: &mut Heap,
    symbol: SymbolId,
    steps: &mut Steps<L>,
) -> Result<Turn<CoreFrame>, Stop>
    ensures stops { StopsAt heap.old heap.new (descriptive_string symbol) result }
    ensures named { (w : World) → KeepsNamed names_of w result }
    ensures retains { Retains heap.old heap.new }
{
    match description_of(heap, symbol) {
        None => {
            let text = heap.word(b"")?;
            descriptive_of(heap, text, steps)
        }
        Some(text) => descriptive_of(heap, text, steps),
    }
}

/// Symbol.prototype.toString (20.4.3.3).
pub(crate) fn symbol_to_string<L: Ledger>(
    heap: &mut Heap,
    this: Value,
    steps: &mut Steps<L>,
) -> Result<Turn<CoreFrame>, Stop>
    ensures stops { StopsAt heap.old heap.new (symbol_to_string this) result }
    ensures named { (w : World) → KeepsNamed names_of w result }
    ensures retains { Retains heap.old heap.new }
{
    match inner_value(heap, this) {
        Value::Symbol(symbol) => descriptive_string(heap, symbol, steps),
        Value::Undefined
        | Value::Null
        | Value::Bool(_)
        | Value::Whole(_)
        | Value::Text(_)
        | Value::Object(_) => wrong_value(heap, steps),
    }
}

/// Symbol.prototype.valueOf (20.4.3.4) and Symbol.prototype[@@toPrimitive] (20.4.3.5).
pub(crate) fn symbol_value_of<L: Ledger>(
    heap: &mut Heap,
    this: Value,
    steps: &mut Steps<L>,
) -> Result<Turn<CoreFrame>, Stop>
    ensures stops { StopsAt heap.old heap.new (symbol_value_of this) result }
    ensures named { (w : World) → KeepsNamed names_of w result }
    ensures retains { Retains heap.old heap.new }
{
    match inner_value(heap, this) {
        Value::Symbol(symbol) => {
            Ok(Turn::Done(Completion::Normal(Reply::Value(Value::Symbol(symbol)))))
        }
        Value::Undefined
        | Value::Null
        | Value::Bool(_)
        | Value::Whole(_)
        | Value::Text(_)
        | Value::Object(_) => wrong_value(heap, steps),
    }
}
