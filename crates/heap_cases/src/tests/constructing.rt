//! The prototype of a construction, its object and its event (ECMA-262, 7.3.25, 10.1.13, 10.1.14, 10.2.2).

use descriptors::Complete;
use es_model::{Class, Completion, ErrorKind, Intrinsic, ObjectKind, Reply, Request, StartText};
use es_source::Place;
use es_tree::FunctionFacts;
use function_objects::{new_constructed, note_construction, prototype_of, prototype_request};
use map_store::OriginId;
use object_heap::Heap;
use property_keys::{Attributes, Counting, NoMemory, ObjectId, PropKey, Steps, TextId, Value};
use slack_tracking::OriginKind;
use std::alloc::Global;
use std::test::Fail;

fn counting() -> Steps<Counting> {
    Steps::new(Counting::new())
}

// ---- the prototype

/// The constructor whose prototype is asked for.
#[derive(Clone, Copy)]
enum Target {
    Start(Intrinsic),
    /// A Proxy of a start object.
    Proxy(Intrinsic),
    /// A Proxy of a Proxy of a start object.
    ProxyOfProxy(Intrinsic),
    Revoked,
    /// A Proxy of a revoked one.
    ProxyOfRevoked,
}

/// What the read of its "prototype" gave.
#[derive(Clone, Copy)]
enum Given {
    Value(Value),
    Text(StartText),
    Object(Intrinsic),
    Flag(bool),
    Thrown(Value),
}

#[derive(Clone, Copy)]
enum Found {
    Object(Intrinsic),
    Throws(Value),
    /// The TypeError of a revoked Proxy.
    ThrowsRevoked,
}

/// The default class, the constructor, what was given, and what is found.
#[derive(Clone, Copy)]
struct Row(Class, Target, Given, Found);

const PLAIN: Target = Target::Start(Intrinsic::Constructor(Class::Array));

const FROM_OBJECT: Found = Found::Object(Intrinsic::Prototype(Class::Object));

static ROWS: [Row; 17] = [
    // an Object is the prototype, whatever the constructor is
    Row(
        Class::Object,
        PLAIN,
        Given::Object(Intrinsic::Reflect),
        Found::Object(Intrinsic::Reflect),
    ),
    Row(
        Class::Object,
        Target::Revoked,
        Given::Object(Intrinsic::Reflect),
        Found::Object(Intrinsic::Reflect),
    ),
    // what is no Object gives the default of the realm
    Row(
        Class::Object,
        PLAIN,
        Given::Value(Value::Undefined),
        FROM_OBJECT,
    ),
    Row(Class::Object, PLAIN, Given::Value(Value::Null), FROM_OBJECT),
    Row(
        Class::Object,
        PLAIN,
        Given::Value(Value::Bool(true)),
        FROM_OBJECT,
    ),
    Row(
        Class::Object,
        PLAIN,
        Given::Value(Value::Whole(7)),
        FROM_OBJECT,
    ),
    Row(
        Class::Object,
        PLAIN,
        Given::Text(StartText::Name),
        FROM_OBJECT,
    ),
    Row(
        Class::Error(ErrorKind::RangeError),
        PLAIN,
        Given::Value(Value::Null),
        Found::Object(Intrinsic::Prototype(Class::Error(ErrorKind::RangeError))),
    ),
    Row(
        Class::Array,
        PLAIN,
        Given::Value(Value::Whole(7)),
        Found::Object(Intrinsic::Prototype(Class::Array)),
    ),
    // a Proxy has the realm of its target
    Row(
        Class::Object,
        Target::Proxy(Intrinsic::Constructor(Class::Array)),
        Given::Value(Value::Undefined),
        FROM_OBJECT,
    ),
    Row(
        Class::Object,
        Target::ProxyOfProxy(Intrinsic::Global),
        Given::Value(Value::Undefined),
        FROM_OBJECT,
    ),
    // and none where it is revoked
    Row(
        Class::Object,
        Target::Revoked,
        Given::Value(Value::Undefined),
        Found::ThrowsRevoked,
    ),
    Row(
        Class::Array,
        Target::ProxyOfRevoked,
        Given::Value(Value::Whole(7)),
        Found::ThrowsRevoked,
    ),
    // what was thrown is thrown on
    Row(
        Class::Object,
        PLAIN,
        Given::Thrown(Value::Whole(5)),
        Found::Throws(Value::Whole(5)),
    ),
    Row(
        Class::Object,
        Target::Revoked,
        Given::Thrown(Value::Undefined),
        Found::Throws(Value::Undefined),
    ),
    Row(
        Class::Object,
        PLAIN,
        Given::Thrown(Value::Object(ObjectId(3))),
        Found::Throws(Value::Object(ObjectId(3))),
    ),
    // a reply of another kind
    Row(
        Class::Object,
        PLAIN,
        Given::Flag(true),
        Found::Throws(Value::Undefined),
    ),
];

fn make_proxy(heap: &mut Heap, target: ObjectId) -> Result<ObjectId, NoMemory> {
    let kind = ObjectKind::Proxy {
        target: Some(target),
        handler: Some(Intrinsic::Reflect.object()),
        callable: true,
        constructor: true,
    };
    heap.make(kind, OriginId(0), None, &mut counting())
}

fn make_revoked(heap: &mut Heap) -> Result<ObjectId, NoMemory> {
    let proxy = make_proxy(heap, Intrinsic::Constructor(Class::Array).object())?;
    heap.revoke(proxy);
    Ok(proxy)
}

fn make_target(heap: &mut Heap, target: Target) -> Result<ObjectId, NoMemory> {
    match target {
        Target::Start(intrinsic) => Ok(intrinsic.object()),
        Target::Proxy(intrinsic) => make_proxy(heap, intrinsic.object()),
        Target::ProxyOfProxy(intrinsic) => {
            let inner = make_proxy(heap, intrinsic.object())?;
            make_proxy(heap, inner)
        }
        Target::Revoked => make_revoked(heap),
        Target::ProxyOfRevoked => {
            let inner = make_revoked(heap)?;
            make_proxy(heap, inner)
        }
    }
}

fn answer_of(given: Given) -> Completion {
    match given {
        Given::Value(value) => Completion::Normal(Reply::Value(value)),
        Given::Text(text) => Completion::Normal(Reply::Value(Value::Text(text.number()))),
        Given::Object(intrinsic) => {
            Completion::Normal(Reply::Value(Value::Object(intrinsic.object())))
        }
        Given::Flag(flag) => Completion::Normal(Reply::Flag(flag)),
        Given::Thrown(value) => Completion::Throw(value),
    }
}

fn holds(alloc: Global, row: Row) -> Result<bool, NoMemory> {
    let mut heap = Heap::new(alloc, 0)?;
    let target = make_target(&mut heap, row.1)?;
    let count = heap.objects();
    let texts = heap.texts_ref().len();
    let found = prototype_of(&mut heap, row.0, target, answer_of(row.2), &mut counting())?;
    match row.3 {
        Found::Object(intrinsic) => Ok(
            found == Ok(intrinsic.object())
                && heap.objects() == count
                && heap.texts_ref().len() == texts,
        ),
        Found::Throws(value) => Ok(found == Err(value) && heap.objects() == count),
        Found::ThrowsRevoked => {
            // its message is a new text
            let Ok(text) = u32::try_from(texts) else {
                return Ok(false);
            };
            Ok(
                found == Err(Value::Object(ObjectId(count)))
                    && is_type_error(&heap, ObjectId(count), TextId(text))
                    && heap.texts_ref().len() == texts.saturating_add(1),
            )
        }
    }
}

fn is_type_error(heap: &Heap, error: ObjectId, text: TextId) -> bool {
    let message = Complete::Stored {
        value: Value::Text(text),
        attributes: Attributes {
            writable: true,
            enumerable: false,
            configurable: true,
        },
    };
    let key = PropKey::Name(StartText::Message.number());
    let parent = Intrinsic::Prototype(Class::Error(ErrorKind::TypeError));
    heap.proto(error) == Some(parent.object())
        && heap.own(error, key, &mut counting()) == Some(message)
}

/// The first row that does not hold.
fn first_wrong(alloc: Global) -> Result<Option<usize>, NoMemory> {
    for (i, row) in ROWS.iter().enumerate() {
        if !holds(alloc, *row)? {
            return Ok(Some(i));
        }
    }
    Ok(None)
}

#[test]
fn each_prototype_is_found(rt: HostRuntime) -> Result<(), Fail> {
    assert_eq!(rt; first_wrong(rt.alloc())?, None);
    Ok(())
}

/// Whether the question of a constructor is the read of its "prototype", without a site.
fn is_asked(alloc: Global, target: ObjectId) -> Result<bool, NoMemory> {
    let mut heap = Heap::new(alloc, 0)?;
    let request = prototype_request(&mut heap, target)?;
    match request {
        Request::Read {
            object,
            key,
            receiver,
            site: None,
        } => Ok(
            object == target
                && key == PropKey::Name(StartText::Prototype.number())
                && receiver == Value::Object(target),
        ),
        _ => Ok(false),
    }
}

#[test]
fn the_prototype_is_read_of_the_constructor(rt: HostRuntime) -> Result<(), Fail> {
    let target = Intrinsic::Constructor(Class::Array).object();
    assert!(rt; is_asked(rt.alloc(), target)?);
    Ok(())
}

// ---- the object and the event

fn facts_at(line: u32, this_names: u32) -> FunctionFacts {
    FunctionFacts {
        place: Place { line, column: 1 },
        parameters: 2,
        this_names,
        constructor: true,
        strict: false,
    }
}

fn constructs(heap: &mut Heap, line: u32) -> Result<ObjectId, NoMemory> {
    let parent = Intrinsic::Prototype(Class::Array).object();
    new_constructed(heap, facts_at(line, 1), parent, &mut counting())
}

/// A new object that is ordinary, takes properties and has none, with the prototype that was given.
fn is_new(heap: &Heap, object: ObjectId) -> Result<bool, NoMemory> {
    let parent = Intrinsic::Prototype(Class::Array).object();
    let keys = heap.keys(object, &mut counting())?;
    Ok(
        heap.proto(object) == Some(parent)
            && matches!(heap.kind(object), ObjectKind::Ordinary)
            && heap.extensible(object)
            && keys.len() == 0,
    )
}

#[derive(Clone, Copy)]
enum Step {
    /// The function at a line constructs: the number of the new object.
    Constructs(u32, ObjectId),
    /// A construction by the function at a line has ended.
    Notes(u32),
    /// The number of the origin of what the function at a line constructs.
    Origin(u32, OriginId),
    /// How many objects there are.
    Count(u32),
}

/// How many start objects there are: the first object of the steps has this number.
const START_OBJECTS: u32 = 41;

/// The function at line 4 constructs twice, with that at line 2 between. The event of each names the same origin, and makes no object.
static STEPS: [Step; 9] = [
    Step::Constructs(4, ObjectId(START_OBJECTS)),
    Step::Constructs(2, ObjectId(START_OBJECTS + 1)),
    Step::Notes(2),
    Step::Notes(4),
    Step::Constructs(4, ObjectId(START_OBJECTS + 2)),
    Step::Origin(4, OriginId(0)),
    Step::Origin(2, OriginId(1)),
    Step::Origin(9, OriginId(2)),
    Step::Count(START_OBJECTS + 3),
];

fn step_holds(heap: &mut Heap, step: Step) -> Result<bool, NoMemory> {
    match step {
        Step::Constructs(line, object) => {
            let new = constructs(heap, line)?;
            let fits = is_new(heap, new)?;
            Ok(new == object && fits)
        }
        Step::Notes(line) => {
            note_construction(heap, facts_at(line, 1))?;
            Ok(true)
        }
        Step::Origin(line, origin) => {
            let kind = OriginKind::Constructor(Place { line, column: 1 });
            let number = heap.origin_for(kind, 9)?;
            Ok(number == origin)
        }
        Step::Count(count) => Ok(heap.objects() == count),
    }
}

/// The first step that does not hold.
fn first_wrong_step(alloc: Global) -> Result<Option<usize>, NoMemory> {
    let mut heap = Heap::new(alloc, 0)?;
    for (i, step) in STEPS.iter().enumerate() {
        if !step_holds(&mut heap, *step)? {
            return Ok(Some(i));
        }
    }
    Ok(None)
}

#[test]
fn each_object_is_new_and_of_its_function(rt: HostRuntime) -> Result<(), Fail> {
    assert_eq!(rt; first_wrong_step(rt.alloc())?, None);
    Ok(())
}
