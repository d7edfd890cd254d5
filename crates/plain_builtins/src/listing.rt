//! CreateListFromArrayLike (ECMA-262, 7.3.19), with LengthOfArrayLike (7.3.18).

ghost use Rattle.std.specs.Prelude.{◌≡◌, ◌∷◌, ◌++◌, ◌-◌, [], min, pos, suc};
ghost use Rattle.std.specs.List.{AllByRecursion};
ghost use Rattle.property_keys.specs.Decimals.{whole_units};
ghost use Rattle.property_keys.specs.Keys.{key_of};
ghost use Rattle.property_keys.specs.Wholes.{most_whole};
ghost use Rattle.property_keys.specs.declared.keys.PropKey.TheVariants.{Name};
ghost use Rattle.es_model.specs.Program.{intern};
ghost use Rattle.es_model.specs.Fits.{IsKnownCompletion, IsKnownReply};
ghost use Rattle.es_model.specs.Known.{AreKnown, IsKnown, IsKnownKey, IsObject, IsText};
ghost use Rattle.es_model.specs.programs.Methods.{get};
ghost use Rattle.es_model.specs.programs.Converting.{length_given, length_got, to_integer, to_length, with_whole};
ghost use Rattle.object_heap.specs.Stands.{StandsFor};
ghost use Rattle.plain_builtins.specs.ArrayLikes.{element_given, element_put, elements_left, elements_of, get_element, gives_all, key_put, list_of};
ghost use Rattle.plain_builtins.specs.Names.{collected_reply};
ghost use Rattle.plain_builtins.specs.declared.words.Collected.TheVariants as collected;
ghost use Rattle.es_model.specs.Completions.{answered};
ghost use Rattle.es_model.specs.World.{World, units_of};
ghost use Rattle.object_heap.specs.Retains.{Retains};
ghost use Rattle.object_heap.specs.Turns.{KeepsNamed};
ghost use Rattle.plain_builtins.specs.Names.{names_of};
ghost use Rattle.plain_builtins.specs.Turns.{StopsAt};

use crate::asking::{as_object, get_named, one, read_of, take_one, value_of};
use crate::frame::{ListedFrame, Listing, Measuring, PlainFrame};
use crate::throwing::{not_an_object, wrong_value};
use crate::words::Collected;
use es_model::{Completion, KeyList, Operation, Reply, Request, Stop, Turn, Values};
use object_heap::Heap;
use property_keys::{Ledger, MOST_WHOLE, ObjectId, PropKey, Steps, TextId, Value};
use std::alloc::Global;

/// CreateListFromArrayLike, behind what is collected.
pub(crate) fn list_of<L: Ledger>(
    heap: &mut Heap,
    value: Value,
    collected: Collected,
    steps: &mut Steps<L>,
) -> Result<Turn<PlainFrame>, Stop>
    ensures stops { StopsAt heap.old heap.new (list_of value collected) result }
    ensures named { (w : World) → IsKnown w.lists value → IsKnownReply w.lists (collected_reply collected) → KeepsNamed names_of w result }
    ensures retains { Retains heap.old heap.new }
{
    match as_object(value) {
        None => not_an_object(heap, steps),
        Some(object) => {
            let measuring = Measuring { object, collected };
            let frame = PlainFrame::Listed(ListedFrame::LengthGot(measuring));
            get_named(heap, object, b"length", frame)
        }
    }
}

/// What follows step 1 of LengthOfArrayLike.
pub(crate) fn length_got(
    alloc: Global,
    heap: &mut Heap,
    measuring: Measuring,
    answer: Completion,
) -> Result<Turn<PlainFrame>, Stop>
    ensures stops { StopsAt heap.old heap.new (length_got (length_given (elements_of measuring.object measuring.collected)) (answered answer)) result }
    ensures named { (w : World) → IsObject w.lists measuring.object → IsKnownReply w.lists (collected_reply measuring.collected) → KeepsNamed names_of w result }
    ensures retains { Retains heap.old heap.new }
{
    match value_of(answer) {
        Ok(value) => to_integer(alloc, heap, measuring, value),
        Err(thrown) => Ok(Turn::Done(Completion::Throw(thrown))),
    }
}

/// ToIntegerOrInfinity (7.1.5): what is a number asks nothing, and neither does undefined.
fn to_integer(
    alloc: Global,
    heap: &mut Heap,
    measuring: Measuring,
    value: Value,
) -> Result<Turn<PlainFrame>, Stop>
    ensures stops { StopsAt heap.old heap.new (to_integer value (length_given (elements_of measuring.object measuring.collected))) result }
    ensures named { (w : World) → IsObject w.lists measuring.object → IsKnownReply w.lists (collected_reply measuring.collected) → KeepsNamed names_of w result }
    ensures retains { Retains heap.old heap.new }
{
    match value {
        Value::Undefined => {
            let zero = Completion::Normal(Reply::Value(Value::Whole(0)));
            length_given(heap, measuring, zero)
        }
        Value::Whole(n) => {
            let number = Completion::Normal(Reply::Value(Value::Whole(n)));
            length_given(heap, measuring, number)
        }
        Value::Null | Value::Bool(_) | Value::Text(_) | Value::Symbol(_) | Value::Object(_) => {
            let request = Request::Work {
                operation: Operation::ToWhole,
                operands: one(alloc, value)?,
            };
            let frame = ListedFrame::LengthGiven(measuring);
            Ok(Turn::Ask(request, PlainFrame::Listed(frame)))
        }
    }
}

/// What follows the conversion of the length.
pub(crate) fn length_given(
    heap: &mut Heap,
    measuring: Measuring,
    answer: Completion,
) -> Result<Turn<PlainFrame>, Stop>
    ensures stops { StopsAt heap.old heap.new (length_given (elements_of measuring.object measuring.collected) (answered answer)) result }
    ensures named { (w : World) → IsObject w.lists measuring.object → IsKnownReply w.lists (collected_reply measuring.collected) → KeepsNamed names_of w result }
    ensures retains { Retains heap.old heap.new }
{
    match answer.value() {
        Ok(value) => with_whole(heap, measuring, value),
        Err(thrown) => Ok(Turn::Done(Completion::Throw(thrown))),
    }
}

/// All elements of so many.
fn with_whole(heap: &mut Heap, measuring: Measuring, value: Value) -> Result<Turn<PlainFrame>, Stop>
    ensures stops { StopsAt heap.old heap.new (with_whole (λ n. elements_of measuring.object measuring.collected (to_length n)) value) result }
    ensures named { (w : World) → IsObject w.lists measuring.object → IsKnownReply w.lists (collected_reply measuring.collected) → KeepsNamed names_of w result }
    ensures retains { Retains heap.old heap.new }
{
    match value {
        Value::Whole(n) => {
            let length = to_length(n);
            let listing = Listing {
                left: length,
                length,
                object: measuring.object,
                collected: measuring.collected,
            };
            next_element(heap, listing)
        }
        Value::Undefined
        | Value::Null
        | Value::Bool(_)
        | Value::Text(_)
        | Value::Symbol(_)
        | Value::Object(_) => Ok(Turn::Done(Completion::Throw(Value::Undefined))),
    }
}

/// ToLength (7.1.20).
fn to_length(n: i64) -> u64
    ensures { result ≡ to_length n }
{
    if n < 0 { 0 } else { n.unsigned_abs() }
}

/// The next round of step 6, or its end.
#[tactic(auto, using(crate::proofs::Rounds::no_element, crate::proofs::Rounds::an_element))]
fn next_element(heap: &mut Heap, listing: Listing) -> Result<Turn<PlainFrame>, Stop>
    ensures stops { StopsAt heap.old heap.new (elements_left listing.left listing.length listing.object listing.collected) result }
    ensures named { (w : World) → IsObject w.lists listing.object → IsKnownReply w.lists (collected_reply listing.collected) → KeepsNamed names_of w result }
    ensures retains { Retains heap.old heap.new }
{
    let Listing {
        left,
        length,
        object,
        collected,
    } = listing;
    match take_one(left) {
        None => gives_all(heap, collected),
        Some(left) => {
            let next = Listing {
                left,
                length,
                object,
                collected,
            };
            element_round(heap, next)
        }
    }
}

/// All that was collected.
fn gives_all(heap: &mut Heap, collected: Collected) -> Result<Turn<PlainFrame>, Stop>
    ensures stops { StopsAt heap.old heap.new (gives_all collected) result }
    ensures named { (w : World) → KeepsNamed names_of w result }
    ensures retains { Retains heap.old heap.new }
{
    match collected {
        Collected::Values(values) => Ok(Turn::Done(Completion::Normal(Reply::List(values)))),
        Collected::Keys(keys) => Ok(Turn::Done(Completion::Normal(Reply::Keys(keys)))),
    }
}

/// A round of step 6, behind which so many elements are left: its turn, and its element.
#[tactic(auto, using(object_heap::specs::Stands::goes_none, object_heap::specs::Stands::goes_then, object_heap::specs::Stands::halts_at, object_heap::specs::Stops::stops_then, object_heap::proofs::Retaining::retains_none, object_heap::proofs::Retaining::retains_then, object_heap::proofs::Turns::named_ask, object_heap::proofs::Turns::named_done, object_heap::proofs::Turns::named_stop))]
fn element_round(heap: &mut Heap, listing: Listing) -> Result<Turn<PlainFrame>, Stop>
    ensures stops { StopsAt heap.old heap.new (elements_left (suc listing.left) listing.length listing.object listing.collected) result }
    ensures named { (w : World) → IsObject w.lists listing.object → IsKnownReply w.lists (collected_reply listing.collected) → KeepsNamed names_of w result }
    ensures retains { Retains heap.old heap.new }
{
    heap.charge(1)?;
    get_next_element(heap, listing)
}

/// The element behind which so many are left.
#[tactic(auto, using(crate::proofs::Rounds::same_index))]
fn get_next_element(heap: &mut Heap, listing: Listing) -> Result<Turn<PlainFrame>, Stop>
    ensures stops { StopsAt heap.old heap.new (get_element listing.object (listing.length - suc listing.left) (element_given (elements_left listing.left listing.length listing.object) listing.collected)) result }
    ensures named { (w : World) → IsObject w.lists listing.object → IsKnownReply w.lists (collected_reply listing.collected) → KeepsNamed names_of w result }
    ensures retains { Retains heap.old heap.new }
{
    let index = index_before(listing.length, listing.left);
    get_element(heap, index, listing)
}

/// The index of the element behind which so many are left.
fn index_before(length: u64, left: u64) -> u64
    ensures { result ≡ length - suc left }
{
    length.saturating_sub(left).saturating_sub(1)
}

/// The element at an index.
fn get_element(heap: &mut Heap, index: u64, listing: Listing) -> Result<Turn<PlainFrame>, Stop>
    ensures stops { StopsAt heap.old heap.new (get_element listing.object index (element_given (elements_left listing.left listing.length listing.object) listing.collected)) result }
    ensures named { (w : World) → IsObject w.lists listing.object → IsKnownReply w.lists (collected_reply listing.collected) → KeepsNamed names_of w result }
    ensures retains { Retains heap.old heap.new }
{
    if index <= 4_294_967_294 {
        let request = read_of(listing.object, PropKey::Index(index as u32));
        let frame = ListedFrame::ElementGiven(listing);
        Ok(Turn::Ask(request, PlainFrame::Listed(frame)))
    } else {
        get_far_element(heap, index, listing)
    }
}

/// The element at an index that is past those of arrays.
fn get_far_element(heap: &mut Heap, index: u64, listing: Listing) -> Result<Turn<PlainFrame>, Stop>
    ensures stops { StopsAt heap.old heap.new (intern (whole_units (pos (min index most_whole))) (λ t. get listing.object (Name t) (element_given (elements_left listing.left listing.length listing.object) listing.collected))) result }
    ensures named { (w : World) → IsObject w.lists listing.object → IsKnownReply w.lists (collected_reply listing.collected) → KeepsNamed names_of w result }
    ensures retains { Retains heap.old heap.new }
{
    let number = index.min(MOST_WHOLE as u64);
    let name = heap.whole_text(number as i64)?;
    let request = read_of(listing.object, PropKey::Name(name));
    let frame = ListedFrame::ElementGiven(listing);
    Ok(Turn::Ask(request, PlainFrame::Listed(frame)))
}

/// What follows step 6.b.
pub(crate) fn element_given<L: Ledger>(
    heap: &mut Heap,
    listing: Listing,
    answer: Completion,
    steps: &mut Steps<L>,
) -> Result<Turn<PlainFrame>, Stop>
    ensures stops { StopsAt heap.old heap.new (element_given (elements_left listing.left listing.length listing.object) listing.collected (answered answer)) result }
    ensures named { (w : World) → StandsFor heap.old w → IsKnownCompletion w.lists (answered answer) → IsObject w.lists listing.object → IsKnownReply w.lists (collected_reply listing.collected) → KeepsNamed names_of w result }
    ensures retains { Retains heap.old heap.new }
{
    match value_of(answer) {
        Ok(value) => element_put(heap, listing, value, steps),
        Err(thrown) => Ok(Turn::Done(Completion::Throw(thrown))),
    }
}

/// Steps 6.c and 6.d.
fn element_put<L: Ledger>(
    heap: &mut Heap,
    listing: Listing,
    value: Value,
    steps: &mut Steps<L>,
) -> Result<Turn<PlainFrame>, Stop>
    ensures stops { StopsAt heap.old heap.new (element_put (elements_left listing.left listing.length listing.object) listing.collected value) result }
    ensures named { (w : World) → StandsFor heap.old w → IsKnown w.lists value → IsObject w.lists listing.object → IsKnownReply w.lists (collected_reply listing.collected) → KeepsNamed names_of w result }
    ensures retains { Retains heap.old heap.new }
{
    let Listing {
        left,
        length,
        object,
        collected,
    } = listing;
    match collected {
        Collected::Values(values) => value_put(heap, left, length, object, values, value),
        Collected::Keys(keys) => { key_element_put(heap, left, length, object, keys, value, steps) }
    }
}

/// A value more.
#[tactic(auto, using(object_heap::proofs::Retaining::retains_none, object_heap::proofs::Turns::named_stop, crate::proofs::Rounds::same_collected))]
fn value_put(
    heap: &mut Heap,
    left: u64,
    length: u64,
    object: ObjectId,
    mut values: Values,
    value: Value,
) -> Result<Turn<PlainFrame>, Stop>
    ensures stops { StopsAt heap.old heap.new (elements_left left length object (collected.Values (values ++ value ∷ []))) result }
    ensures named { (w : World) → IsObject w.lists object → AreKnown w.lists values → IsKnown w.lists value → KeepsNamed names_of w result }
    ensures retains { Retains heap.old heap.new }
{
    values.push(value)?;
    let next = Listing {
        left,
        length,
        object,
        collected: Collected::Values(values),
    };
    next_element(heap, next)
}

/// Steps 6.c and 6.d, of property keys.
fn key_element_put<L: Ledger>(
    heap: &mut Heap,
    left: u64,
    length: u64,
    object: ObjectId,
    keys: KeyList,
    value: Value,
    steps: &mut Steps<L>,
) -> Result<Turn<PlainFrame>, Stop>
    ensures stops { StopsAt heap.old heap.new (key_put (elements_left left length object) keys value) result }
    ensures named { (w : World) → StandsFor heap.old w → IsKnown w.lists value → IsObject w.lists object → AllByRecursion (IsKnownKey w.lists) keys → KeepsNamed names_of w result }
    ensures retains { Retains heap.old heap.new }
{
    match value {
        Value::Text(text) => {
            let key = key_of(heap, text);
            key_put(heap, left, length, object, keys, key)
        }
        Value::Symbol(symbol) => { key_put(heap, left, length, object, keys, PropKey::Sym(symbol)) }
        Value::Undefined | Value::Null | Value::Bool(_) | Value::Whole(_) | Value::Object(_) => {
            wrong_value(heap, steps)
        }
    }
}

/// A key more.
#[tactic(auto, using(object_heap::proofs::Retaining::retains_none, object_heap::proofs::Turns::named_stop, crate::proofs::Rounds::same_collected))]
fn key_put(
    heap: &mut Heap,
    left: u64,
    length: u64,
    object: ObjectId,
    mut keys: KeyList,
    key: PropKey,
) -> Result<Turn<PlainFrame>, Stop>
    ensures stops { StopsAt heap.old heap.new (elements_left left length object (collected.Keys (keys ++ key ∷ []))) result }
    ensures named { (w : World) → IsObject w.lists object → AllByRecursion (IsKnownKey w.lists) keys → IsKnownKey w.lists key → KeepsNamed names_of w result }
    ensures retains { Retains heap.old heap.new }
{
    keys.push(key)?;
    let next = Listing {
        left,
        length,
        object,
        collected: Collected::Keys(keys),
    };
    next_element(heap, next)
}

/// The key of a text that is there.
#[tactic(auto, using(crate::proofs::KeptConversions::key_known))]
fn key_of(heap: &Heap, text: TextId) -> PropKey
    ensures key { (w : World) → StandsFor heap.now w → result ≡ key_of (units_of w.lists text) text }
    ensures known { (w : World) → StandsFor heap.now w → IsText w.lists text → IsKnownKey w.lists result }
{
    heap.key(text)
}
