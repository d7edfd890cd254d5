//! Requests are served to their end by the dispatcher.

use super::rows::{Ask, End, Row};
use descriptors::Descriptor;
use dispatcher::{Dispatcher, Event};
use es_model::{Completion, Operation, Reply, Request, Stop, Values};
use es_source::ReadStop;
use es_tree::Checked;
use object_heap::Heap;
use property_keys::{Counting, NoMemory, ObjectId, Steps, Value};
use script_checker::check;
use script_parser::parse;
use script_syntax::tokens;
use std::alloc::Global;

/// More lines than any row prints.
const LINES: usize = 10;

/// A script without items.
pub(crate) fn empty_script(alloc: Global) -> Result<Checked, ReadStop> {
    let all = tokens(alloc, b"")?;
    let script = parse(alloc, &all)?;
    check(alloc, script)
}

/// Whether a row comes to what it says.
pub(crate) fn is_so(alloc: Global, script: &Checked, row: &Row) -> Result<bool, NoMemory> {
    let mut heap = Heap::new(alloc, row.0)?;
    let mut lines = Vec::new(alloc);
    let end = last_end(&mut heap, script, row.1, &mut lines)?;
    Ok(end == row.3 && heap.turns_ref().left() == row.4 && are_same(&lines, row.2))
}

/// Serves requests one after another, and gives the end of the last.
fn last_end(
    heap: &mut Heap,
    script: &Checked,
    asks: &[Ask],
    lines: &mut Vec<Values>,
) -> Result<End, NoMemory> {
    let mut end = End::Other;
    for ask in asks {
        let request = request_of(heap.alloc(), *ask)?;
        match served(heap, script, request, lines) {
            Ok(completion) => end = end_of(&completion),
            Err(Stop::Halted) => return Ok(End::Halts),
            Err(Stop::NoMemory) => return Err(NoMemory),
        }
    }
    Ok(end)
}

/// Serves a request to its end, with its lines.
fn served(
    heap: &mut Heap,
    script: &Checked,
    request: Request,
    lines: &mut Vec<Values>,
) -> Result<Completion, Stop> {
    let mut steps = Steps::new(Counting::new());
    let mut dispatcher = Dispatcher::new(heap.alloc(), heap, script, request);
    for _ in 0..LINES {
        match dispatcher.go_on(heap.alloc(), heap, script, &mut steps)? {
            Event::Prints(line, next) => {
                if lines.push(line).is_err() {
                    return Err(Stop::NoMemory);
                }
                dispatcher = next;
            }
            Event::Ends(completion) => return Ok(completion),
        }
    }
    Err(Stop::NoMemory)
}

fn end_of(completion: &Completion) -> End {
    match completion {
        Completion::Normal(Reply::Value(value)) => End::Value(*value),
        Completion::Normal(Reply::Flag(flag)) => End::Flag(*flag),
        Completion::Throw(value) => End::Throws(*value),
        Completion::Normal(_) => End::Other,
    }
}

fn request_of(alloc: Global, ask: Ask) -> Result<Request, NoMemory> {
    let object = ObjectId(0);
    match ask {
        Ask::Call(function, arguments) => Ok(Request::Call {
            function,
            this: Value::Undefined,
            arguments: values_of(alloc, arguments)?,
        }),
        Ask::Construct(function) => Ok(Request::Construct {
            function,
            arguments: Values::new(alloc),
            target: function,
        }),
        Ask::Store(key, value) => {
            let wanted = Descriptor {
                value: Some(value),
                ..nothing_wanted()
            };
            Ok(Request::Define {
                object,
                key,
                wanted,
            })
        }
        Ask::Getter(key, getter) => {
            let wanted = Descriptor {
                get: Some(getter),
                ..nothing_wanted()
            };
            Ok(Request::Define {
                object,
                key,
                wanted,
            })
        }
        Ask::Read(key) => Ok(Request::Read {
            object,
            key,
            receiver: Value::Object(object),
            site: None,
        }),
        Ask::Text(value) => Ok(Request::Work {
            operation: Operation::ToText,
            operands: values_of(alloc, &[value])?,
        }),
    }
}

fn nothing_wanted() -> Descriptor {
    Descriptor {
        value: None,
        writable: None,
        get: None,
        set: None,
        enumerable: None,
        configurable: None,
    }
}

fn values_of(alloc: Global, values: &[Value]) -> Result<Values, NoMemory> {
    let mut all = Values::new(alloc);
    for value in values {
        all.push(*value)?;
    }
    Ok(all)
}

/// The same lines, in order.
fn are_same(lines: &[Values], expected: &[&[Value]]) -> bool {
    if lines.len() != expected.len() {
        return false;
    }
    for (line, texts) in lines.iter().zip(expected) {
        if !is_same(line, texts) {
            return false;
        }
    }
    true
}

fn is_same(line: &Values, texts: &[Value]) -> bool {
    if line.len() != texts.len() {
        return false;
    }
    for (i, text) in texts.iter().enumerate() {
        if *line.at(i) != *text {
            return false;
        }
    }
    true
}
