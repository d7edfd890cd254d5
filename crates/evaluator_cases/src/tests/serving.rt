//! Who answers in the tests: the ordinary methods, conversions of primitive values, and `print`.

use es_model::{Completion, Intrinsic, Operation, Reply, Request, StartText, Stop, Turn, Values};
use object_heap::Heap;
use ordinary_object::{OrdinaryFrame, resume, start};
use property_keys::{Counting, NoMemory, PropKey, Steps, TextId, Units, Value, same_value};
use std::alloc::Global;

/// More requests than any method of the tests has.
const REQUESTS: usize = 1000;

fn push(out: &mut Vec<u8>, bytes: &[u8]) -> Result<(), NoMemory> {
    match out.extend_from_slice(bytes) {
        Ok(()) => Ok(()),
        Err(_) => Err(NoMemory),
    }
}

fn text_of(heap: &mut Heap, value: Value) -> Result<TextId, NoMemory> {
    match value {
        Value::Undefined => heap.word(b"undefined"),
        Value::Null => heap.word(b"null"),
        Value::Bool(true) => heap.word(b"true"),
        Value::Bool(false) => heap.word(b"false"),
        Value::Whole(n) => heap.whole_text(n),
        Value::Text(text) => Ok(text),
        Value::Symbol(_) => heap.word(b"symbol"),
        Value::Object(_) => heap.word(b"object"),
    }
}

/// A code unit of ASCII as a byte, and any other as `?`.
fn byte_of(unit: u16) -> u8 {
    if unit < 128 { unit as u8 } else { b'?' }
}

fn units_written(units: &Units, out: &mut Vec<u8>) -> Result<(), NoMemory> {
    for i in 0..units.len() {
        push(out, &[byte_of(units.unit(i))])?;
    }
    Ok(())
}

/// A value as a line of the tests has it: of an error its message.
pub fn written(heap: &mut Heap, value: Value, out: &mut Vec<u8>) -> Result<(), NoMemory> {
    let shown = match value {
        Value::Object(object) => {
            let key = PropKey::Name(StartText::Message.number());
            let own = heap.own(object, key, &mut Steps::new(Counting::new()));
            match own {
                Some(descriptors::Complete::Stored { value, .. }) => value,
                _ => value,
            }
        }
        _ => value,
    };
    let text = text_of(heap, shown)?;
    units_written(heap.units(text), out)
}

fn number_of(heap: &Heap, value: Value) -> i64 {
    match value {
        Value::Bool(true) => 1,
        Value::Whole(n) => n,
        Value::Text(text) => match heap.text_whole(text) {
            Ok(n) => n,
            Err(_) => 0,
        },
        _ => 0,
    }
}

fn is_nullish(value: Value) -> bool {
    same_value(value, Value::Undefined) || same_value(value, Value::Null)
}

/// An operand, or undefined.
fn operand(operands: &Values, i: usize) -> Value {
    if i < operands.len() {
        *operands.at(i)
    } else {
        Value::Undefined
    }
}

/// A conversion or a comparison of primitive values. Objects throw the text `object`.
fn worked(
    heap: &mut Heap,
    operation: Operation,
    operands: &Values,
) -> Result<Completion, NoMemory> {
    let first = operand(operands, 0);
    if let Value::Object(_) = first {
        let thrown = heap.word(b"object")?;
        return Ok(Completion::Throw(Value::Text(thrown)));
    }
    let reply = match operation {
        Operation::ToText => Reply::Value(Value::Text(text_of(heap, first)?)),
        Operation::ToWhole => Reply::Value(Value::Whole(number_of(heap, first))),
        Operation::ToKey => {
            let text = text_of(heap, first)?;
            Reply::Key(heap.key(text))
        }
        Operation::LessThan => {
            let second = operand(operands, 1);
            Reply::Flag(number_of(heap, first) < number_of(heap, second))
        }
        Operation::LooselyEqual => {
            let second = operand(operands, 1);
            Reply::Flag(same_value(first, second) || is_nullish(first) && is_nullish(second))
        }
        Operation::InstanceOf | Operation::OrdinaryHasInstance => Reply::Flag(false),
        _ => Reply::Value(first),
    };
    Ok(Completion::Normal(reply))
}

fn called(
    heap: &mut Heap,
    function: Value,
    arguments: &Values,
    out: &mut Vec<u8>,
) -> Result<Completion, NoMemory> {
    if !same_value(function, Value::Object(Intrinsic::Print.object())) {
        let thrown = heap.word(b"called")?;
        return Ok(Completion::Throw(Value::Text(thrown)));
    }
    for i in 0..arguments.len() {
        if 0 < i {
            push(out, b" ")?;
        }
        written(heap, *arguments.at(i), out)?;
    }
    push(out, b"\n")?;
    Ok(Completion::Normal(Reply::Value(Value::Undefined)))
}

fn first_turn(
    heap: &mut Heap,
    request: Request,
    out: &mut Vec<u8>,
) -> Result<Turn<OrdinaryFrame>, Stop> {
    match request {
        Request::Work {
            operation,
            operands,
        } => Ok(Turn::Done(worked(heap, operation, &operands)?)),
        Request::Call {
            function,
            arguments,
            ..
        } => Ok(Turn::Done(called(heap, function, &arguments, out)?)),
        other => {
            let mut steps = Steps::new(Counting::new());
            start(heap.alloc(), heap, &other, &mut steps)
        }
    }
}

pub fn serve(heap: &mut Heap, request: Request, out: &mut Vec<u8>) -> Result<Completion, Stop> {
    let mut steps = Steps::new(Counting::new());
    let mut waiting = Vec::new(heap.alloc());
    let mut turn = first_turn(heap, request, out)?;
    for _ in 0..REQUESTS {
        match turn {
            Turn::Ask(asked, frame) => {
                if waiting.push(frame).is_err() {
                    return Err(Stop::NoMemory);
                }
                turn = first_turn(heap, asked, out)?;
            }
            Turn::Done(answer) => match waiting.pop() {
                None => return Ok(answer),
                Some(frame) => turn = resume(heap.alloc(), heap, frame, answer, &mut steps)?,
            },
        }
    }
    Err(Stop::NoMemory)
}
