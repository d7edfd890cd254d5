//! What a test does with a heap.

use super::seen::{Seen, is_property, is_turn};
use arguments_exotic::{
    ArgumentsFrame, create_mapped_arguments, create_unmapped_arguments, resume, start,
};
use descriptors::Descriptor;
use es_model::{ArgumentCells, CellNo, Request, Stop, Turn, Values};
use object_heap::Heap;
use property_keys::{Counting, NoMemory, ObjectId, PropKey, Steps, TextId, Units, Value};

#[derive(Clone, Copy)]
pub(crate) enum Key {
    Index(u32),
    Name(&'static str),
}

/// What is wanted of a property.
#[derive(Clone, Copy)]
pub(crate) enum Wanted {
    /// a value alone
    Value(Value),
    /// a value with three true flags
    Plain(Value),
    /// `writable` alone, which is false
    NotWritable,
    /// a value, and a false `writable`
    ValueNotWritable(Value),
    /// `configurable` alone, which is false
    NotConfigurable,
    /// `writable` and `configurable`, which are false
    Frozen,
    /// a value, and a false `enumerable`
    ValueHidden(Value),
    /// a getter alone
    Getter(ObjectId),
}

#[derive(Clone, Copy)]
pub(crate) enum Step {
    /// A new mapped object of a function, with these arguments, and so many parameters.
    MakeMapped(ObjectId, &'static [i64], usize),
    /// A new unmapped object with these arguments.
    MakeUnmapped(&'static [i64]),
    Define(ObjectId, Key, Wanted),
    GetOwn(ObjectId, Key),
    Has(ObjectId, Key),
    /// A read on its own receiver.
    Read(ObjectId, Key),
    /// A write of a value on its own receiver.
    Write(ObjectId, Key, Value),
    /// A write of a value on another receiver.
    WriteOn(ObjectId, Key, Value, ObjectId),
    Delete(ObjectId, Key),
    Keys(ObjectId),
    Prevent(ObjectId),
    /// A property that the list of an object has.
    Own(ObjectId, Key),
    /// The value of a cell.
    Cell(u32),
    /// A parameter gets another value.
    SetCell(u32, Value),
    /// The turns that are left.
    Turns,
}

pub(crate) fn counting() -> Steps<Counting> {
    Steps::new(Counting::new())
}

/// Whether this is seen of a step.
pub(crate) fn is_seen(heap: &mut Heap, step: Step, wanted: Seen) -> Result<bool, NoMemory> {
    match step {
        Step::MakeMapped(function, values, parameters) => {
            is_mapped_made(heap, function, values, parameters, wanted)
        }
        Step::MakeUnmapped(values) => is_unmapped_made(heap, values, wanted),
        Step::Own(object, key) => {
            let key = key_of(heap, key)?;
            Ok(is_property(heap.own(object, key, &mut counting()), wanted))
        }
        Step::Cell(cell) => Ok(is_held(heap.cell(CellNo(cell)), wanted)),
        Step::SetCell(cell, value) => {
            heap.set_cell(CellNo(cell), value);
            Ok(is_held(Some(value), wanted))
        }
        Step::Turns => {
            Ok(matches!(wanted, Seen::Turns(left) if heap.turns_ref().left() == left))
        }
        other => asked(heap, other, wanted),
    }
}

fn is_held(held: Option<Value>, wanted: Seen) -> bool {
    match (held, wanted) {
        (Some(value), Seen::Value(wanted)) => value == wanted,
        (None, Seen::Absent) => true,
        _ => false,
    }
}

fn asked(heap: &mut Heap, step: Step, wanted: Seen) -> Result<bool, NoMemory> {
    match request_of(heap, step)? {
        Some(request) => {
            let turn = served(heap, &request);
            turned(heap, turn, wanted)
        }
        None => Ok(false),
    }
}

/// A request with what its method asks of the same arguments object: a [[Set]] asks for its property and then for its definition.
fn served(heap: &mut Heap, request: &Request) -> Result<Turn<ArgumentsFrame>, Stop> {
    let mut turn = start(heap.alloc(), heap, request, &mut counting())?;
    for _ in 0..2 {
        turn = match turn {
            Turn::Ask(question, frame) => answered(heap, request, question, frame)?,
            Turn::Done(completion) => Turn::Done(completion),
        };
    }
    Ok(turn)
}

/// What another object is asked for is not answered here.
fn answered(
    heap: &mut Heap,
    request: &Request,
    question: Request,
    frame: ArgumentsFrame,
) -> Result<Turn<ArgumentsFrame>, Stop> {
    if !is_of_one_object(request, &question) {
        return Ok(Turn::Ask(question, frame));
    }
    match start(heap.alloc(), heap, &question, &mut counting())? {
        Turn::Done(completion) => resume(heap.alloc(), heap, frame, completion, &mut counting()),
        Turn::Ask(other, _) => Ok(Turn::Ask(other, frame)),
    }
}

/// Whether a write asks its own object for the property or for the definition.
fn is_of_one_object(request: &Request, question: &Request) -> bool {
    match (request, question) {
        (Request::Write { object, .. }, Request::GetOwn { object: of, .. })
        | (Request::Write { object, .. }, Request::Define { object: of, .. }) => object == of,
        _ => false,
    }
}

fn request_of(heap: &mut Heap, step: Step) -> Result<Option<Request>, NoMemory> {
    Ok(match step {
        Step::Define(object, key, wanted) => Some(Request::Define {
            object,
            key: key_of(heap, key)?,
            wanted: descriptor_of(wanted),
        }),
        Step::GetOwn(object, key) => Some(Request::GetOwn {
            object,
            key: key_of(heap, key)?,
        }),
        Step::Has(object, key) => Some(Request::Has {
            object,
            key: key_of(heap, key)?,
        }),
        Step::Read(object, key) => Some(Request::Read {
            object,
            key: key_of(heap, key)?,
            receiver: Value::Object(object),
            site: None,
        }),
        Step::Write(object, key, value) => write_of(heap, object, key, value, object)?,
        Step::WriteOn(object, key, value, receiver) => {
            write_of(heap, object, key, value, receiver)?
        }
        Step::Delete(object, key) => Some(Request::Delete {
            object,
            key: key_of(heap, key)?,
        }),
        Step::Keys(object) => Some(Request::Keys { object }),
        Step::Prevent(object) => Some(Request::Prevent { object }),
        _ => None,
    })
}

fn write_of(
    heap: &mut Heap,
    object: ObjectId,
    key: Key,
    value: Value,
    receiver: ObjectId,
) -> Result<Option<Request>, NoMemory> {
    Ok(Some(Request::Write {
        object,
        key: key_of(heap, key)?,
        value,
        receiver: Value::Object(receiver),
        site: None,
    }))
}

fn descriptor_of(wanted: Wanted) -> Descriptor {
    match wanted {
        Wanted::Value(value) => Descriptor {
            value: Some(value),
            ..Descriptor::default()
        },
        Wanted::Plain(value) => Descriptor {
            value: Some(value),
            writable: Some(true),
            enumerable: Some(true),
            configurable: Some(true),
            ..Descriptor::default()
        },
        Wanted::NotWritable => Descriptor {
            writable: Some(false),
            ..Descriptor::default()
        },
        Wanted::ValueNotWritable(value) => Descriptor {
            value: Some(value),
            writable: Some(false),
            ..Descriptor::default()
        },
        Wanted::NotConfigurable => Descriptor {
            configurable: Some(false),
            ..Descriptor::default()
        },
        Wanted::Frozen => Descriptor {
            writable: Some(false),
            configurable: Some(false),
            ..Descriptor::default()
        },
        Wanted::ValueHidden(value) => Descriptor {
            value: Some(value),
            enumerable: Some(false),
            ..Descriptor::default()
        },
        Wanted::Getter(getter) => Descriptor {
            get: Some(Value::Object(getter)),
            ..Descriptor::default()
        },
    }
}

fn key_of(heap: &mut Heap, key: Key) -> Result<PropKey, NoMemory> {
    match key {
        Key::Index(index) => Ok(PropKey::Index(index)),
        Key::Name(name) => Ok(PropKey::Name(text_of(heap, name)?)),
    }
}

fn text_of(heap: &mut Heap, text: &str) -> Result<TextId, NoMemory> {
    let mut units = Units::new(heap.alloc());
    for byte in text.as_bytes() {
        if units.push(u16::from(*byte)).is_err() {
            return Err(NoMemory);
        }
    }
    heap.intern(units)
}

fn values_of(heap: &Heap, numbers: &[i64]) -> Result<Values, NoMemory> {
    let mut values = Values::new(heap.alloc());
    for number in numbers {
        values.push(Value::Whole(*number))?;
    }
    Ok(values)
}

/// A function with so many parameters is called: they get their cells, and the arguments object shares those of the arguments that are given.
fn is_mapped_made(
    heap: &mut Heap,
    function: ObjectId,
    numbers: &[i64],
    parameters: usize,
    wanted: Seen,
) -> Result<bool, NoMemory> {
    let values = values_of(heap, numbers)?;
    let mut cells = ArgumentCells::new(heap.alloc());
    for i in 0..parameters {
        if i < numbers.len() {
            let cell = heap.new_cell(Some(Value::Whole(numbers[i])))?;
            cells.push(Some(cell))?;
        } else {
            heap.new_cell(Some(Value::Undefined))?;
        }
    }
    let object = create_mapped_arguments(heap, function, cells, &values, &mut counting())?;
    Ok(matches!(wanted, Seen::Object(made) if made == object))
}

fn is_unmapped_made(heap: &mut Heap, numbers: &[i64], wanted: Seen) -> Result<bool, NoMemory> {
    let values = values_of(heap, numbers)?;
    let object = create_unmapped_arguments(heap.alloc(), heap, &values, &mut counting())?;
    Ok(matches!(wanted, Seen::Object(made) if made == object))
}

fn turned(
    heap: &Heap,
    turn: Result<Turn<ArgumentsFrame>, Stop>,
    wanted: Seen,
) -> Result<bool, NoMemory> {
    match turn {
        Ok(turn) => Ok(is_turn(heap, &turn, wanted)),
        Err(Stop::Halted) => Ok(matches!(wanted, Seen::Halts)),
        Err(Stop::NoMemory) => Err(NoMemory),
    }
}
