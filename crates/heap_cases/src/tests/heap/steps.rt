//! A step of a test, and what is seen of it.

use descriptors::{Complete, Descriptor};
use es_model::{CellNo, ErrorKind, Intrinsic, KeyList, ObjectKind, StartText, WellKnown};
use es_tree::{FunctionFacts, FunctionNo, Items};
use function_objects::function_made;
use map_store::OriginId;
use object_heap::Heap;
use property_keys::{
    Attributes, Counting, KeyFault, NoMemory, ObjectId, PropKey, Steps, SymbolId, TextId, Units,
    Value,
};
use slack_tracking::OriginKind;
use std::alloc::Global;

/// A start object, one of those that the steps make, or a number where none is.
#[derive(Clone, Copy)]
pub(crate) enum Which {
    Start(Intrinsic),
    New(u32),
    Nowhere,
}

#[derive(Clone, Copy)]
pub(crate) enum Key {
    Index(u32),
    Name(StartText),
    Symbol(WellKnown),
}

/// A text, by the call that gives its number.
#[derive(Clone, Copy)]
pub(crate) enum Words {
    Start(StartText),
    Of(&'static str),
    Whole(i64),
    Key(Key),
    Joined(&'static str, &'static str),
    /// One text after another one that is not there.
    AfterNone(&'static str),
    /// A text of 2^20 code units, and an empty one after it.
    Longest,
}

#[derive(Clone, Copy)]
pub(crate) enum Make {
    Ordinary,
    /// A String object.
    Text(StartText),
    /// A Proxy of two start objects.
    Proxy(Intrinsic, Intrinsic),
    /// An arguments object that shares two cells.
    Arguments(CellNo, CellNo),
    /// An error with a message.
    Error(ErrorKind, StartText),
    /// A function of the script with its name.
    Function(FunctionNo, FunctionFacts, StartText),
}

/// A value, by what it names.
#[derive(Clone, Copy)]
pub(crate) enum Content {
    Number(i64),
    Text(StartText),
    Object(Which),
}

/// A stored property that is not enumerable: its value, whether it is writable, and whether it is configurable.
#[derive(Clone, Copy)]
pub(crate) struct Hidden(pub Content, pub bool, pub bool);

/// A call with what it gives.
#[derive(Clone, Copy)]
pub(crate) enum Step {
    Text(Texts),
    Beside(Beside),
    On(Which, Change),
    Of(Which, Read),
}

#[derive(Clone, Copy)]
pub(crate) enum Texts {
    /// Both have one number.
    Same(Words, Words),
    /// So many are new.
    New(usize),
    Finds(&'static str, Option<StartText>),
    /// After a text of 2^20 code units.
    TooLong(&'static str),
}

#[derive(Clone, Copy)]
pub(crate) enum Beside {
    /// A new Symbol goes last, and has the description.
    Symbol(Option<StartText>),
    NewCell(Option<Value>, CellNo),
    SetCell(CellNo, Value),
    Cell(CellNo, Option<Value>),
    /// Whether so many turns were left, and how many are left then.
    Charge(u64, bool, u64),
    Origin(OriginKind, u32, OriginId),
    Constructed(OriginId),
    /// A new object goes last.
    Make(Make, Option<Which>),
}

#[derive(Clone, Copy)]
pub(crate) enum Change {
    Define(Key, Descriptor, bool),
    Store(Key, Value),
    Delete(Key, bool),
    Proto(Option<Which>),
    Prevent,
    Touch,
    Revoke,
    Unmap(u32),
}

#[derive(Clone, Copy)]
pub(crate) enum Read {
    Own(Key, Option<Complete>),
    Hidden(Key, Hidden),
    Keys(&'static [Key]),
    Proto(Option<Which>),
    Extensible(bool),
    Message(StartText),
    /// The target of a Proxy.
    Target(Option<Which>),
    /// The cell that an index of an arguments object shares.
    Shared(usize, Option<CellNo>),
    Ordinary,
    /// A function of the script, whether it can construct, and whether it is strict.
    Function(FunctionNo, bool, bool),
    /// How many objects are new.
    NewObjects(u32),
}

/// How many objects and texts a heap began with.
#[derive(Clone, Copy)]
pub(crate) struct Begun {
    objects: u32,
    texts: usize,
}

impl Begun {
    pub(crate) fn of(heap: &Heap) -> Begun {
        Begun {
            objects: heap.objects(),
            texts: heap.texts_ref().len(),
        }
    }

    fn number(self, which: Which) -> ObjectId {
        match which {
            Which::Start(intrinsic) => intrinsic.object(),
            Which::New(n) => ObjectId(self.objects.saturating_add(n)),
            Which::Nowhere => ObjectId(u32::MAX),
        }
    }

    fn value(self, holds: Content) -> Value {
        match holds {
            Content::Number(n) => Value::Whole(n),
            Content::Text(text) => Value::Text(text.number()),
            Content::Object(which) => Value::Object(self.number(which)),
        }
    }

    fn property(self, hidden: Hidden) -> Complete {
        Complete::Stored {
            value: self.value(hidden.0),
            attributes: Attributes {
                writable: hidden.1,
                enumerable: false,
                configurable: hidden.2,
            },
        }
    }

    fn perhaps(self, which: Option<Which>) -> Option<ObjectId> {
        match which {
            Some(which) => Some(self.number(which)),
            None => None,
        }
    }
}

/// Whether a call gives what the step says.
pub(crate) fn holds(heap: &mut Heap, begun: Begun, step: Step) -> Result<bool, NoMemory> {
    match step {
        Step::Text(texts) => text_holds(heap, begun, texts),
        Step::Beside(beside) => beside_holds(heap, begun, beside),
        Step::On(which, change) => changes(heap, begun, begun.number(which), change),
        Step::Of(which, read) => reads(heap, begun, begun.number(which), read),
    }
}

// ---- texts

fn text_holds(heap: &mut Heap, begun: Begun, texts: Texts) -> Result<bool, NoMemory> {
    match texts {
        Texts::Same(a, b) => {
            let first = number_of(heap, a)?;
            let second = number_of(heap, b)?;
            Ok(first == second)
        }
        Texts::Finds(text, wanted) => {
            let units = units_of(heap.alloc(), text)?;
            Ok(heap.find(&units) == number_in(wanted))
        }
        Texts::TooLong(text) => {
            let more = interned(heap, text)?;
            let longest = longest(heap)?;
            Ok(matches!(heap.concat(longest, more), Err(KeyFault::TooLong)))
        }
        Texts::New(count) => Ok(heap.texts_ref().len() == begun.texts.saturating_add(count)),
    }
}

fn number_of(heap: &mut Heap, words: Words) -> Result<TextId, NoMemory> {
    match words {
        Words::Start(text) => Ok(text.number()),
        Words::Of(text) => interned(heap, text),
        Words::Whole(n) => heap.whole_text(n),
        Words::Key(key) => heap.key_text(number_of_key(key)),
        Words::Joined(a, b) => {
            let first = interned(heap, a)?;
            let second = interned(heap, b)?;
            joined(heap, first, second)
        }
        Words::AfterNone(text) => {
            let after = interned(heap, text)?;
            joined(heap, TextId(u32::MAX), after)
        }
        Words::Longest => {
            let before = longest(heap)?;
            joined(heap, before, StartText::Empty.number())
        }
    }
}

fn interned(heap: &mut Heap, text: &str) -> Result<TextId, NoMemory> {
    let units = units_of(heap.alloc(), text)?;
    heap.intern(units)
}

fn joined(heap: &mut Heap, a: TextId, b: TextId) -> Result<TextId, NoMemory> {
    match heap.concat(a, b) {
        Ok(text) => Ok(text),
        Err(_) => Err(NoMemory),
    }
}

/// A text of 2^20 code units: one of them, doubled twenty times.
fn longest(heap: &mut Heap) -> Result<TextId, NoMemory> {
    let mut text = interned(heap, "x")?;
    for _ in 0..20 {
        text = joined(heap, text, text)?;
    }
    Ok(text)
}

/// One code unit for each byte.
fn units_of(alloc: Global, text: &str) -> Result<Units, NoMemory> {
    let mut units = Units::new(alloc);
    for byte in text.as_bytes() {
        if units.push(u16::from(*byte)).is_err() {
            return Err(NoMemory);
        }
    }
    Ok(units)
}

fn number_in(text: Option<StartText>) -> Option<TextId> {
    match text {
        Some(text) => Some(text.number()),
        None => None,
    }
}

fn number_of_key(key: Key) -> PropKey {
    match key {
        Key::Index(i) => PropKey::Index(i),
        Key::Name(text) => PropKey::Name(text.number()),
        Key::Symbol(symbol) => PropKey::Sym(symbol.symbol()),
    }
}

// ---- what is beside the objects

fn beside_holds(heap: &mut Heap, begun: Begun, beside: Beside) -> Result<bool, NoMemory> {
    match beside {
        Beside::Symbol(description) => makes_symbol(heap, number_in(description)),
        Beside::NewCell(value, cell) => {
            let new = heap.new_cell(value)?;
            Ok(new == cell)
        }
        Beside::SetCell(cell, value) => {
            heap.set_cell(cell, value);
            Ok(true)
        }
        Beside::Cell(cell, value) => Ok(heap.cell(cell) == value),
        Beside::Charge(n, is_left, left) => {
            Ok(heap.charge(n).is_ok() == is_left && heap.turns_ref().left() == left)
        }
        Beside::Origin(kind, places, origin) => {
            let number = heap.origin_for(kind, places)?;
            Ok(number == origin)
        }
        Beside::Constructed(origin) => {
            heap.constructed(origin);
            Ok(true)
        }
        Beside::Make(make, proto) => makes(heap, make, begun.perhaps(proto)),
    }
}

fn makes_symbol(heap: &mut Heap, description: Option<TextId>) -> Result<bool, NoMemory> {
    let count = heap.symbols_ref().len();
    let symbol = heap.make_symbol(description)?;
    Ok(symbol.0 as usize == count && describes(heap, symbol, description))
}

fn describes(heap: &Heap, symbol: SymbolId, description: Option<TextId>) -> bool {
    let symbols = heap.symbols_ref();
    (symbol.0 as usize) < symbols.len() && symbols.description(symbol) == description
}

// ---- objects

fn counting() -> Steps<Counting> {
    Steps::new(Counting::new())
}

fn makes(heap: &mut Heap, make: Make, proto: Option<ObjectId>) -> Result<bool, NoMemory> {
    let count = heap.objects();
    let object = made(heap, make, proto)?;
    Ok(object.0 == count)
}

fn made(heap: &mut Heap, make: Make, proto: Option<ObjectId>) -> Result<ObjectId, NoMemory> {
    let mut steps = counting();
    let kind = match make {
        Make::Error(kind, text) => return heap.make_error(kind, text.number(), &mut steps),
        Make::Function(function, facts, name) => {
            return function_made(heap, function, facts, name.number(), &mut steps);
        }
        Make::Ordinary => ObjectKind::Ordinary,
        Make::Text(text) => ObjectKind::Text(text.number()),
        Make::Proxy(target, handler) => ObjectKind::Proxy {
            target: Some(target.object()),
            handler: Some(handler.object()),
            callable: true,
            constructor: false,
        },
        Make::Arguments(first, second) => {
            let mut cells = Items::new(heap.alloc());
            cells.push(Some(first))?;
            cells.push(Some(second))?;
            ObjectKind::Arguments { cells }
        }
    };
    heap.make(kind, OriginId(0), proto, &mut steps)
}

fn changes(
    heap: &mut Heap,
    begun: Begun,
    object: ObjectId,
    change: Change,
) -> Result<bool, NoMemory> {
    let mut steps = counting();
    match change {
        Change::Define(key, wanted, done) => {
            let is_done = heap.define_own(object, number_of_key(key), &wanted, &mut steps)?;
            return Ok(is_done == done);
        }
        Change::Delete(key, done) => {
            let is_done = heap.delete_own(object, number_of_key(key), &mut steps)?;
            return Ok(is_done == done);
        }
        Change::Store(key, value) => {
            heap.store_own(object, number_of_key(key), value, &mut steps)?;
        }
        Change::Prevent => heap.prevent(object, &mut steps)?,
        Change::Touch => heap.touch(object, &mut steps)?,
        Change::Revoke => heap.revoke(object),
        Change::Unmap(i) => heap.unmap(object, i),
        Change::Proto(proto) => heap.set_proto(object, begun.perhaps(proto), &mut steps)?,
    }
    Ok(true)
}

fn has_keys(heap: &Heap, object: ObjectId, wanted: &[Key]) -> Result<bool, NoMemory> {
    let mut steps = counting();
    let keys = heap.keys(object, &mut steps)?;
    Ok(are_keys(&keys, wanted))
}

fn are_keys(keys: &KeyList, wanted: &[Key]) -> bool {
    for (i, key) in wanted.iter().enumerate() {
        if i >= keys.len() || *keys.at(i) != number_of_key(*key) {
            return false;
        }
    }
    keys.len() == wanted.len()
}

fn reads(heap: &Heap, begun: Begun, object: ObjectId, read: Read) -> Result<bool, NoMemory> {
    let is_so = match read {
        Read::Keys(keys) => return has_keys(heap, object, keys),
        Read::Own(key, property) => is_own(heap, object, number_of_key(key), property),
        Read::Hidden(key, hidden) => {
            is_own(
                heap,
                object,
                number_of_key(key),
                Some(begun.property(hidden)),
            )
        }
        Read::Proto(proto) => heap.proto(object) == begun.perhaps(proto),
        Read::Extensible(is_extensible) => heap.extensible(object) == is_extensible,
        Read::Message(text) => {
            let key = PropKey::Name(StartText::Message.number());
            is_own(heap, object, key, Some(message(text)))
        }
        Read::Target(target) => target_of(heap.kind(object)) == begun.perhaps(target),
        Read::Shared(i, cell) => shared_by(heap.kind(object), i) == cell,
        Read::Ordinary => matches!(heap.kind(object), ObjectKind::Ordinary),
        Read::Function(number, constructs, is_strict) => {
            is_function(heap.kind(object), number, constructs, is_strict)
        }
        Read::NewObjects(count) => heap.objects() == begun.objects.saturating_add(count),
    };
    Ok(is_so)
}

/// The property that an error has for its message.
fn message(text: StartText) -> Complete {
    Complete::Stored {
        value: Value::Text(text.number()),
        attributes: Attributes {
            writable: true,
            enumerable: false,
            configurable: true,
        },
    }
}

fn is_own(heap: &Heap, object: ObjectId, key: PropKey, property: Option<Complete>) -> bool {
    let mut steps = counting();
    heap.own(object, key, &mut steps) == property
}

fn target_of(kind: &ObjectKind) -> Option<ObjectId> {
    match kind {
        ObjectKind::Proxy { target, .. } => *target,
        _ => None,
    }
}

fn is_function(kind: &ObjectKind, number: FunctionNo, constructs: bool, is_strict: bool) -> bool {
    match kind {
        ObjectKind::Function {
            function,
            constructor,
            strict,
        } => *function == number && *constructor == constructs && *strict == is_strict,
        _ => false,
    }
}

fn shared_by(kind: &ObjectKind, i: usize) -> Option<CellNo> {
    match kind {
        ObjectKind::Arguments { cells } => { if i < cells.len() { *cells.at(i) } else { None } }
        _ => None,
    }
}
