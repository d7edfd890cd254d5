//! What a receiver is bound to, strict and not (ECMA-262, 7.1.18, 10.2.1.2, 10.4.3.4).

use descriptors::Complete;
use es_model::{Class, Intrinsic, ObjectKind, StartText, WellKnown};
use function_objects::bind_this;
use object_heap::Heap;
use property_keys::{Attributes, Counting, NoMemory, ObjectId, PropKey, Steps, Value};
use std::alloc::Global;
use std::test::Fail;

/// A receiver that is given.
#[derive(Clone, Copy)]
enum Given {
    Plain(Value),
    Text(StartText),
    Symbol(WellKnown),
    Object(Intrinsic),
}

/// What is bound.
#[derive(Clone, Copy)]
enum Bound {
    /// The receiver itself.
    Same,
    /// This object, and no new one.
    Start(Intrinsic),
    /// A new Boolean, Number or Symbol object of the receiver, with the prototype of this class and no own property.
    Wrapper(Class),
    /// A new String object of the receiver, with so many code units.
    Text(u32),
}

/// Strict or not, the receiver, and what is bound.
#[derive(Clone, Copy)]
struct Row(bool, Given, Bound);

static ROWS: [Row; 19] = [
    // strict code: the value itself
    Row(true, Given::Plain(Value::Undefined), Bound::Same),
    Row(true, Given::Plain(Value::Null), Bound::Same),
    Row(true, Given::Plain(Value::Bool(true)), Bound::Same),
    Row(true, Given::Plain(Value::Whole(7)), Bound::Same),
    Row(true, Given::Text(StartText::Name), Bound::Same),
    Row(true, Given::Symbol(WellKnown::ToPrimitive), Bound::Same),
    Row(true, Given::Object(Intrinsic::Reflect), Bound::Same),
    // other code: the global object for undefined and null
    Row(
        false,
        Given::Plain(Value::Undefined),
        Bound::Start(Intrinsic::Global),
    ),
    Row(
        false,
        Given::Plain(Value::Null),
        Bound::Start(Intrinsic::Global),
    ),
    // and else ToObject
    Row(
        false,
        Given::Plain(Value::Bool(true)),
        Bound::Wrapper(Class::Boolean),
    ),
    Row(
        false,
        Given::Plain(Value::Bool(false)),
        Bound::Wrapper(Class::Boolean),
    ),
    Row(
        false,
        Given::Plain(Value::Whole(7)),
        Bound::Wrapper(Class::Number),
    ),
    Row(
        false,
        Given::Plain(Value::Whole(0)),
        Bound::Wrapper(Class::Number),
    ),
    Row(
        false,
        Given::Symbol(WellKnown::ToPrimitive),
        Bound::Wrapper(Class::Symbol),
    ),
    // "name", "", "constructor"
    Row(false, Given::Text(StartText::Name), Bound::Text(4)),
    Row(false, Given::Text(StartText::Empty), Bound::Text(0)),
    Row(false, Given::Text(StartText::Constructor), Bound::Text(11)),
    Row(
        false,
        Given::Object(Intrinsic::Reflect),
        Bound::Start(Intrinsic::Reflect),
    ),
    Row(
        false,
        Given::Object(Intrinsic::Global),
        Bound::Start(Intrinsic::Global),
    ),
];

fn value_of(given: Given) -> Value {
    match given {
        Given::Plain(value) => value,
        Given::Text(text) => Value::Text(text.number()),
        Given::Symbol(symbol) => Value::Symbol(symbol.symbol()),
        Given::Object(intrinsic) => Value::Object(intrinsic.object()),
    }
}

/// Whether the bound value is the row's, over a heap of the start objects.
fn holds(alloc: Global, row: Row) -> Result<bool, NoMemory> {
    let mut heap = Heap::new(alloc, 0)?;
    let count = heap.objects();
    let mut steps = Steps::new(Counting::new());
    let this = value_of(row.1);
    let bound = bind_this(&mut heap, row.0, this, &mut steps)?;
    let more = match row.2 {
        Bound::Same => return Ok(bound == this && heap.objects() == count),
        Bound::Start(intrinsic) => {
            return Ok(bound == Value::Object(intrinsic.object()) && heap.objects() == count);
        }
        Bound::Wrapper(class) => is_wrapper(&heap, ObjectId(count), class, this)?,
        Bound::Text(units) => is_text(&heap, ObjectId(count), this, units)?,
    };
    Ok(
        more && bound == Value::Object(ObjectId(count))
            && heap.objects() == count.saturating_add(1)
            && heap.extensible(ObjectId(count)),
    )
}

fn is_wrapper(
    heap: &Heap,
    object: ObjectId,
    class: Class,
    wrapped: Value,
) -> Result<bool, NoMemory> {
    let mut steps = Steps::new(Counting::new());
    let keys = heap.keys(object, &mut steps)?;
    let is_its_kind = match heap.kind(object) {
        ObjectKind::Wrapper(value) => *value == wrapped,
        _ => false,
    };
    let proto = Some(Intrinsic::Prototype(class).object());
    Ok(is_its_kind && heap.proto(object) == proto && keys.len() == 0)
}

/// A String object has its `length`, which is not writable, not enumerable and not configurable, and its code units before.
fn is_text(heap: &Heap, object: ObjectId, wrapped: Value, units: u32) -> Result<bool, NoMemory> {
    let mut steps = Steps::new(Counting::new());
    let keys = heap.keys(object, &mut steps)?;
    let is_its_kind = match heap.kind(object) {
        ObjectKind::Text(text) => Value::Text(*text) == wrapped,
        _ => false,
    };
    let length = Complete::Stored {
        value: Value::Whole(i64::from(units)),
        attributes: Attributes {
            writable: false,
            enumerable: false,
            configurable: false,
        },
    };
    let key = PropKey::Name(StartText::Length.number());
    let proto = Some(Intrinsic::Prototype(Class::String).object());
    Ok(
        is_its_kind
            && heap.proto(object) == proto
            && heap.own(object, key, &mut steps) == Some(length)
            && keys.len() == (units as usize).saturating_add(1),
    )
}

/// The first row that does not hold.
fn first_wrong(alloc: Global) -> Result<Option<usize>, NoMemory> {
    for (i, row) in ROWS.iter().enumerate() {
        if !holds(alloc, *row)? {
            return Ok(Some(i));
        }
    }
    Ok(None)
}

#[test]
fn each_receiver_is_bound(rt: HostRuntime) -> Result<(), Fail> {
    assert_eq!(rt; first_wrong(rt.alloc())?, None);
    Ok(())
}
