//! ToPropertyDescriptor (ECMA-262, 6.2.6.5).

ghost use Rattle.std.specs.Prelude.{◌≡◌, ◌≤◌, ◌∷◌, length};
ghost use Rattle.descriptors.specs.Kinds.{is_of_both_kinds};
ghost use Rattle.es_model.specs.Fits.{IsKnownCompletion};
ghost use Rattle.es_model.specs.Known.{IsKnown, IsObject};
ghost use Rattle.es_model.specs.programs.Methods.{get_named};
ghost use Rattle.object_heap.specs.Stands.{StandsFor};
ghost use Rattle.plain_builtins.specs.Counting.{fields_from};
ghost use Rattle.plain_builtins.specs.WantedFields.{field_given, field_had, field_name, field_put, fields_after, fields_left, is_accessor_value, to_wanted, wanted_done};
ghost use Rattle.es_model.specs.Completions.{answered};
ghost use Rattle.es_model.specs.World.{World};
ghost use Rattle.object_heap.specs.Retains.{Retains};
ghost use Rattle.object_heap.specs.Turns.{KeepsNamed};
ghost use Rattle.plain_builtins.specs.Names.{field_value, names_of};
ghost use Rattle.plain_builtins.specs.Turns.{StopsAt};

use crate::asking::{as_object, read_of, value_of};
use crate::fields::{
    with_configurable, with_enumerable, with_get, with_set, with_value, with_writable,
};
use crate::frame::{PlainFrame, Reading, WantedFrame};
use crate::throwing::{not_a_function, not_an_object, throw_error};
use crate::words::Field;
use descriptors::Descriptor;
use es_model::{Completion, ErrorKind, Reply, Request, Stop, Turn};
use object_heap::Heap;
use property_keys::{Ledger, PropKey, Steps, Value};

fn field_name(field: Field) -> &'static [u8]
    ensures text { result.now ≡ field_name field }
    ensures short { length result.now ≤ 40 }
{
    match field {
        Field::Enumerable => b"enumerable",
        Field::Configurable => b"configurable",
        Field::Value => b"value",
        Field::Writable => b"writable",
        Field::Get => b"get",
        Field::Set => b"set",
    }
}

/// The field that is asked for after one.
fn next_field(field: Field) -> Option<Field>
    ensures { fields_after field ≡ fields_from result }
{
    match field {
        Field::Enumerable => Some(Field::Configurable),
        Field::Configurable => Some(Field::Value),
        Field::Value => Some(Field::Writable),
        Field::Writable => Some(Field::Get),
        Field::Get => Some(Field::Set),
        Field::Set => None,
    }
}

/// ToPropertyDescriptor.
pub(crate) fn to_wanted<L: Ledger>(
    heap: &mut Heap,
    value: Value,
    steps: &mut Steps<L>,
) -> Result<Turn<PlainFrame>, Stop>
    ensures stops { StopsAt heap.old heap.new (to_wanted value) result }
    ensures named { (w : World) → IsKnown w.lists value → KeepsNamed names_of w result }
    ensures retains { Retains heap.old heap.new }
{
    match as_object(value) {
        None => not_an_object(heap, steps),
        Some(object) => {
            let reading = Reading {
                field: Field::Enumerable,
                object,
                descriptor: Descriptor {
                    value: None,
                    writable: None,
                    get: None,
                    set: None,
                    enumerable: None,
                    configurable: None,
                },
            };
            ask_field(heap, reading)
        }
    }
}

/// HasProperty of a field.
fn ask_field(heap: &mut Heap, reading: Reading) -> Result<Turn<PlainFrame>, Stop>
    ensures stops { StopsAt heap.old heap.new (fields_left (reading.field ∷ fields_after reading.field) reading.object reading.descriptor) result }
    ensures named { (w : World) → IsObject w.lists reading.object → IsKnown w.lists (field_value reading.descriptor.value) → IsKnown w.lists (field_value reading.descriptor.get) → IsKnown w.lists (field_value reading.descriptor.set) → KeepsNamed names_of w result }
    ensures retains { Retains heap.old heap.new }
{
    let name = heap.word(field_name(reading.field))?;
    let request = Request::Has {
        object: reading.object,
        key: PropKey::Name(name),
    };
    let frame = WantedFrame::FieldHad(reading);
    Ok(Turn::Ask(request, PlainFrame::Wanted(frame)))
}

/// What follows HasProperty of a field.
pub(crate) fn field_had<L: Ledger>(
    heap: &mut Heap,
    reading: Reading,
    answer: Completion,
    steps: &mut Steps<L>,
) -> Result<Turn<PlainFrame>, Stop>
    ensures stops { StopsAt heap.old heap.new (field_had (fields_left (fields_after reading.field) reading.object) reading.field reading.object reading.descriptor (answered answer)) result }
    ensures named { (w : World) → IsObject w.lists reading.object → IsKnown w.lists (field_value reading.descriptor.value) → IsKnown w.lists (field_value reading.descriptor.get) → IsKnown w.lists (field_value reading.descriptor.set) → KeepsNamed names_of w result }
    ensures retains { Retains heap.old heap.new }
{
    match answer.flag() {
        Ok(true) => get_field(heap, reading),
        Ok(false) => go_on(heap, reading, steps),
        Err(thrown) => Ok(Turn::Done(Completion::Throw(thrown))),
    }
}

/// Get of a field.
fn get_field(heap: &mut Heap, reading: Reading) -> Result<Turn<PlainFrame>, Stop>
    ensures stops { StopsAt heap.old heap.new (get_named reading.object (field_name reading.field) (field_given (fields_left (fields_after reading.field) reading.object) reading.field reading.descriptor)) result }
    ensures named { (w : World) → IsObject w.lists reading.object → IsKnown w.lists (field_value reading.descriptor.value) → IsKnown w.lists (field_value reading.descriptor.get) → IsKnown w.lists (field_value reading.descriptor.set) → KeepsNamed names_of w result }
    ensures retains { Retains heap.old heap.new }
{
    let name = heap.word(field_name(reading.field))?;
    let request = read_of(reading.object, PropKey::Name(name));
    let frame = WantedFrame::FieldGiven(reading);
    Ok(Turn::Ask(request, PlainFrame::Wanted(frame)))
}

/// What follows Get of a field.
pub(crate) fn field_given<L: Ledger>(
    heap: &mut Heap,
    reading: Reading,
    answer: Completion,
    steps: &mut Steps<L>,
) -> Result<Turn<PlainFrame>, Stop>
    ensures stops { StopsAt heap.old heap.new (field_given (fields_left (fields_after reading.field) reading.object) reading.field reading.descriptor (answered answer)) result }
    ensures named { (w : World) → IsKnownCompletion w.lists (answered answer) → IsObject w.lists reading.object → IsKnown w.lists (field_value reading.descriptor.value) → IsKnown w.lists (field_value reading.descriptor.get) → IsKnown w.lists (field_value reading.descriptor.set) → KeepsNamed names_of w result }
    ensures retains { Retains heap.old heap.new }
{
    match value_of(answer) {
        Ok(value) => field_put(heap, reading, value, steps),
        Err(thrown) => Ok(Turn::Done(Completion::Throw(thrown))),
    }
}

/// The descriptor with the field that was given.
fn field_put<L: Ledger>(
    heap: &mut Heap,
    reading: Reading,
    value: Value,
    steps: &mut Steps<L>,
) -> Result<Turn<PlainFrame>, Stop>
    ensures stops { StopsAt heap.old heap.new (field_put (fields_left (fields_after reading.field) reading.object) reading.field reading.descriptor value) result }
    ensures named { (w : World) → IsKnown w.lists value → IsObject w.lists reading.object → IsKnown w.lists (field_value reading.descriptor.value) → IsKnown w.lists (field_value reading.descriptor.get) → IsKnown w.lists (field_value reading.descriptor.set) → KeepsNamed names_of w result }
    ensures retains { Retains heap.old heap.new }
{
    let is_true = heap.is_truth(value);
    match reading.field {
        Field::Enumerable => go_on(heap, with_enumerable(reading, is_true), steps),
        Field::Configurable => go_on(heap, with_configurable(reading, is_true), steps),
        Field::Value => go_on(heap, with_value(reading, value), steps),
        Field::Writable => go_on(heap, with_writable(reading, is_true), steps),
        Field::Get => {
            if is_accessor_value(heap, value) {
                go_on(heap, with_get(reading, value), steps)
            } else {
                not_a_function(heap, steps)
            }
        }
        Field::Set => {
            if is_accessor_value(heap, value) {
                go_on(heap, with_set(reading, value), steps)
            } else {
                not_a_function(heap, steps)
            }
        }
    }
}

/// A getter or setter is undefined or can be called.
fn is_accessor_value(heap: &Heap, value: Value) -> bool
    ensures { (w : World) → StandsFor heap.now w → result ≡ is_accessor_value w.lists value }
{
    match value {
        Value::Undefined => true,
        Value::Object(_) => heap.is_callable(value),
        Value::Null | Value::Bool(_) | Value::Whole(_) | Value::Text(_) | Value::Symbol(_) => false,
    }
}

/// The fields that are left.
#[tactic(auto, using(crate::proofs::Rounds::same_fields))]
fn go_on<L: Ledger>(
    heap: &mut Heap,
    reading: Reading,
    steps: &mut Steps<L>,
) -> Result<Turn<PlainFrame>, Stop>
    ensures stops { StopsAt heap.old heap.new (fields_left (fields_after reading.field) reading.object reading.descriptor) result }
    ensures named { (w : World) → IsObject w.lists reading.object → IsKnown w.lists (field_value reading.descriptor.value) → IsKnown w.lists (field_value reading.descriptor.get) → IsKnown w.lists (field_value reading.descriptor.set) → KeepsNamed names_of w result }
    ensures retains { Retains heap.old heap.new }
{
    match next_field(reading.field) {
        None => wanted_done(heap, reading.descriptor, steps),
        Some(field) => {
            let next = Reading {
                field,
                object: reading.object,
                descriptor: reading.descriptor,
            };
            ask_field(heap, next)
        }
    }
}

/// Steps 15 and 16.
fn wanted_done<L: Ledger>(
    heap: &mut Heap,
    descriptor: Descriptor,
    steps: &mut Steps<L>,
) -> Result<Turn<PlainFrame>, Stop>
    ensures stops { StopsAt heap.old heap.new (wanted_done descriptor) result }
    ensures named { (w : World) → KeepsNamed names_of w result }
    ensures retains { Retains heap.old heap.new }
{
    if is_of_both_kinds(&descriptor) {
        throw_error(heap, ErrorKind::TypeError, b"bad descriptor", steps)
    } else {
        Ok(Turn::Done(Completion::Normal(Reply::Wanted(descriptor))))
    }
}

fn is_of_both_kinds(descriptor: &Descriptor) -> bool
    ensures { result ≡ is_of_both_kinds descriptor.now }
{
    (descriptor.get.is_some() || descriptor.set.is_some())
        && (descriptor.value.is_some() || descriptor.writable.is_some())
}
