//! Elements beside finite maps from indices to properties.

ghost use Rattle.std.specs.Prelude.{◌≡◌};
ghost use Rattle.elements_kinds.specs.Rules.{IsGood};

mod rows;
mod times;

use descriptors::Complete;
use elements_kinds::{Elements, ElementsKind};
use property_keys::{Attributes, Counting, Ledger, NoMemory, ObjectId, Steps, Value};
use rows::{CLASSES, FLAGS, GROWTH, REMOVALS, Row, SCRIPTS};
use std::alloc::Global;
use std::test::Fail;

/// What is asked of elements.
#[derive(Clone, Copy)]
pub(crate) enum Step {
    /// Begins again with no properties.
    Anew,
    /// A whole number.
    Put(u32, i64),
    /// A value that is no number.
    PutValue(u32, Value),
    /// The number 0 with these flags: writable, enumerable, configurable.
    Flags(u32, bool, bool, bool),
    Accessor(u32),
    Remove(u32),
    Own(u32),
    Greatest,
    Indices,
}

#[derive(Clone, Copy, PartialEq)]
pub(crate) enum Seen {
    Done,
    Absent,
    Whole(i64),
    Value(Value),
    Flags(bool, bool, bool),
    Accessor,
    Greatest(Option<u32>),
    /// How many there are, and the first and the last of them, 0 where there is none.
    Indices(usize, u32, u32),
    NotMeant,
}

fn property(value: Value, writable: bool, enumerable: bool, configurable: bool) -> Complete
    ensures { result ≡ Complete.Stored value (record { writable = writable; enumerable = enumerable; configurable = configurable }) }
{
    let attributes = Attributes {
        writable,
        enumerable,
        configurable,
    };
    Complete::Stored { value, attributes }
}

const ACCESSOR: Complete = Complete::Accessor {
    get: Some(ObjectId(1)),
    set: None,
    enumerable: true,
    configurable: true,
};

fn put<L: Ledger>(
    elements: &mut Elements,
    i: u32,
    n: i64,
    steps: &mut Steps<L>,
) -> Result<Seen, NoMemory> {
    if n < -9_007_199_254_740_991 || n > 9_007_199_254_740_991 {
        return Ok(Seen::NotMeant);
    }
    elements.define(i, property(Value::Whole(n), true, true, true), steps)?;
    Ok(Seen::Done)
}

fn put_value<L: Ledger>(
    elements: &mut Elements,
    i: u32,
    value: Value,
    steps: &mut Steps<L>,
) -> Result<Seen, NoMemory> {
    if let Value::Whole(_) = value {
        return Ok(Seen::NotMeant);
    }
    elements.define(i, property(value, true, true, true), steps)?;
    Ok(Seen::Done)
}

fn define<L: Ledger>(
    elements: &mut Elements,
    i: u32,
    property: Complete,
    steps: &mut Steps<L>,
) -> Result<Seen, NoMemory>
    requires { IsGood property }
{
    elements.define(i, property, steps)?;
    Ok(Seen::Done)
}

fn seen_of_property(property: Complete) -> Seen {
    match property {
        Complete::Accessor { .. } => Seen::Accessor,
        Complete::Stored { value, attributes } => {
            if !(attributes.writable && attributes.enumerable && attributes.configurable) {
                return Seen::Flags(
                    attributes.writable,
                    attributes.enumerable,
                    attributes.configurable,
                );
            }
            match value {
                Value::Whole(n) => Seen::Whole(n),
                value => Seen::Value(value),
            }
        }
    }
}

fn own<L: Ledger>(elements: &Elements, i: u32, steps: &mut Steps<L>) -> Seen {
    match elements.own(i, steps) {
        Some(property) => seen_of_property(property),
        None => Seen::Absent,
    }
}

fn indices<L: Ledger>(elements: &Elements, steps: &mut Steps<L>) -> Result<Seen, NoMemory> {
    let list = elements.indices(steps)?;
    if list.len() == 0 {
        return Ok(Seen::Indices(0, 0, 0));
    }
    Ok(Seen::Indices(list.len(), *list.at(0), *list.at(list.len() - 1)))
}

fn seen_of<L: Ledger>(
    alloc: Global,
    elements: &mut Elements,
    step: Step,
    steps: &mut Steps<L>,
) -> Result<Seen, NoMemory> {
    match step {
        Step::Anew => {
            *elements = Elements::new(alloc);
            Ok(Seen::Done)
        }
        Step::Put(i, n) => put(elements, i, n, steps),
        Step::PutValue(i, value) => put_value(elements, i, value, steps),
        Step::Flags(i, writable, enumerable, configurable) => {
            let zero = property(Value::Whole(0), writable, enumerable, configurable);
            define(elements, i, zero, steps)
        }
        Step::Accessor(i) => define(elements, i, ACCESSOR, steps),
        Step::Remove(i) => {
            elements.remove(i, steps);
            Ok(Seen::Done)
        }
        Step::Own(i) => Ok(own(elements, i, steps)),
        Step::Greatest => Ok(Seen::Greatest(elements.greatest())),
        Step::Indices => indices(elements, steps),
    }
}

/// What is seen of elements without a growth.
#[derive(Clone, Copy, PartialEq)]
struct Shape {
    greatest: Option<u32>,
    kind: ElementsKind,
    capacity: u64,
}

fn shape_of(elements: &Elements) -> Shape {
    Shape {
        greatest: elements.greatest(),
        kind: elements.kind(),
        capacity: elements.capacity(),
    }
}

/// Whether a row's step gives what is to be seen of it.
fn is_right(alloc: Global, elements: &mut Elements, row: &Row) -> Result<bool, NoMemory> {
    let mut steps = Steps::new(Counting::new());
    let seen = seen_of(alloc, elements, row.0, &mut steps)?;
    Ok(
        seen == row.1
            && elements.kind() == row.2
            && elements.capacity() == row.3
            && steps.ledger().ticks() == row.4,
    )
}

/// Whether a row is right. `rt try --test --fail-alloc N` refuses the N-th growth: greatest index, kind and capacity are then as
/// before, and the step is had at the second try.
fn is_right_at_last(alloc: Global, elements: &mut Elements, row: &Row) -> Result<bool, NoMemory> {
    let before = shape_of(elements);
    match is_right(alloc, elements, row) {
        Ok(right) => Ok(right),
        Err(_) if shape_of(elements) != before => Ok(false),
        Err(_) => is_right(alloc, elements, row),
    }
}

/// The number of the first row of which something else is seen.
fn first_wrong(alloc: Global, rows: &[Row]) -> Result<Option<usize>, NoMemory> {
    let mut elements = Elements::new(alloc);
    for (i, row) in rows.iter().enumerate() {
        if !is_right_at_last(alloc, &mut elements, row)? {
            return Ok(Some(i));
        }
    }
    Ok(None)
}

#[test]
fn growth(rt: HostRuntime) -> Result<(), Fail> {
    assert_eq!(rt; first_wrong(rt.alloc(), &GROWTH)?, None);
    Ok(())
}

#[test]
fn classes(rt: HostRuntime) -> Result<(), Fail> {
    assert_eq!(rt; first_wrong(rt.alloc(), &CLASSES)?, None);
    Ok(())
}

#[test]
fn removals(rt: HostRuntime) -> Result<(), Fail> {
    assert_eq!(rt; first_wrong(rt.alloc(), &REMOVALS)?, None);
    Ok(())
}

#[test]
fn flags(rt: HostRuntime) -> Result<(), Fail> {
    assert_eq!(rt; first_wrong(rt.alloc(), &FLAGS)?, None);
    Ok(())
}

#[test]
fn scripts(rt: HostRuntime) -> Result<(), Fail> {
    assert_eq!(rt; first_wrong(rt.alloc(), &SCRIPTS)?, None);
    Ok(())
}

/// Puts as far past the capacity as a store takes, until the next one would be past this index.
fn grown_up_to(alloc: Global, last: u32) -> Result<Elements, NoMemory> {
    let mut steps = Steps::new(Counting::new());
    let mut elements = Elements::new(alloc);
    for _ in 0..40 {
        let next = elements.capacity().saturating_add(1_024);
        if next < u64::from(last) {
            let _seen = put(&mut elements, next as u32, 1, &mut steps)?;
        }
    }
    Ok(elements)
}

/// 2^23 - 1 is the last index of a store, whatever its capacity, and 2^23 makes a dictionary.
#[test]
fn the_last_index_of_a_store(rt: HostRuntime) -> Result<(), Fail> {
    let mut steps = Steps::new(Counting::new());
    let mut elements = grown_up_to(rt.alloc(), 8_388_607)?;
    assert!(rt; elements.capacity() >= 8_387_583);
    assert!(rt; put(&mut elements, 8_388_607, 2, &mut steps)? == Seen::Done);
    assert!(rt; elements.kind() == ElementsKind::HoleySmi);
    assert_eq!(rt; elements.greatest(), Some(8_388_607));
    assert!(rt; put(&mut elements, 8_388_608, 3, &mut steps)? == Seen::Done);
    assert!(rt; elements.kind() == ElementsKind::Dictionary);
    assert!(rt; own(&elements, 8_388_607, &mut steps) == Seen::Whole(2));
    assert!(rt; own(&elements, 8_388_608, &mut steps) == Seen::Whole(3));
    Ok(())
}

/// Puts every second index from 2^31 on.
fn filled_dictionary(alloc: Global, count: u32) -> Result<Elements, NoMemory> {
    let mut steps = Steps::new(Counting::new());
    let mut elements = Elements::new(alloc);
    for n in 0..count {
        let i = 0x8000_0000u32.saturating_add(n.saturating_mul(2));
        let _seen = put(&mut elements, i, i64::from(n), &mut steps)?;
    }
    Ok(elements)
}

fn has_all<L: Ledger>(elements: &Elements, count: u32, steps: &mut Steps<L>) -> bool {
    for n in 0..count {
        let i = 0x8000_0000u32.saturating_add(n.saturating_mul(2));
        if own(elements, i, steps) != Seen::Whole(i64::from(n)) {
            return false;
        }
    }
    true
}

/// 10,000 keys in a dictionary, each looked up in one step.
#[test]
fn ten_thousand_keys(rt: HostRuntime) -> Result<(), Fail> {
    let mut steps = Steps::new(Counting::new());
    let elements = filled_dictionary(rt.alloc(), 10_000)?;
    assert!(rt; elements.kind() == ElementsKind::Dictionary);
    assert!(rt; has_all(&elements, 10_000, &mut steps));
    assert_eq!(rt; steps.ledger().ticks(), 10_000);
    assert_eq!(rt; elements.greatest(), Some(2_147_503_646));
    assert!(rt;
        indices(&elements, &mut steps)? == Seen::Indices(10_000, 2_147_483_648, 2_147_503_646)
    );
    Ok(())
}
