//! Dictionaries beside plain lists of properties.

mod rows;
mod times;

use descriptors::Complete;
use dictionary_mode::Dictionary;
use property_keys::{Attributes, Counting, Ledger, NoMemory, PropKey, Steps, TextId, Value};
use rows::{DELETED_AND_ADDED, ORDER, Row, WRITTEN};
use std::alloc::Global;
use std::test::Fail;

/// What is asked of a dictionary. Its properties are whole numbers.
#[derive(Clone, Copy)]
pub(crate) enum Step {
    Insert(PropKey, i64),
    Replace(u32, i64),
    Remove(PropKey),
    Find(PropKey),
    At(u32),
    Len,
}

#[derive(Clone, Copy, PartialEq)]
pub(crate) enum Seen {
    Done,
    Removed(bool),
    Place(Option<u32>),
    Entry(PropKey, i64),
    Len(u32),
    NotMeant,
}

fn property(n: i64) -> Complete {
    Complete::Stored {
        value: Value::Whole(n),
        attributes: Attributes {
            writable: true,
            enumerable: true,
            configurable: true,
        },
    }
}

fn number(property: &Complete) -> i64 {
    match *property {
        Complete::Stored {
            value: Value::Whole(n),
            ..
        } => n,
        _ => -1,
    }
}

fn inserted<L: Ledger>(
    dictionary: &mut Dictionary,
    key: PropKey,
    n: i64,
    steps: &mut Steps<L>,
) -> Result<Seen, NoMemory> {
    if dictionary.find(key, steps).is_some() {
        return Ok(Seen::NotMeant);
    }
    dictionary.insert(key, property(n))?;
    Ok(Seen::Done)
}

fn seen_of<L: Ledger>(
    dictionary: &mut Dictionary,
    step: Step,
    steps: &mut Steps<L>,
) -> Result<Seen, NoMemory> {
    match step {
        Step::Insert(key, n) => inserted(dictionary, key, n, steps),
        Step::Replace(place, n) => {
            if place >= dictionary.len() {
                return Ok(Seen::NotMeant);
            }
            dictionary.replace(place, property(n));
            Ok(Seen::Done)
        }
        Step::Remove(key) => Ok(Seen::Removed(dictionary.remove(key))),
        Step::Find(key) => Ok(Seen::Place(dictionary.find(key, steps))),
        Step::At(place) => {
            if place >= dictionary.len() {
                return Ok(Seen::NotMeant);
            }
            Ok(Seen::Entry(dictionary.key_at(place), number(dictionary.at(place))))
        }
        Step::Len => Ok(Seen::Len(dictionary.len())),
    }
}

/// What is seen of a step. `rt try --test --fail-alloc N` refuses the N-th growth: there are then as many keys as before,
/// and the step is had at the second try.
fn seen_at_last<L: Ledger>(
    dictionary: &mut Dictionary,
    step: Step,
    steps: &mut Steps<L>,
) -> Result<Seen, NoMemory> {
    let before = dictionary.len();
    match seen_of(dictionary, step, steps) {
        Ok(seen) => Ok(seen),
        Err(_) if dictionary.len() != before => Ok(Seen::NotMeant),
        Err(_) => seen_of(dictionary, step, steps),
    }
}

/// The number of the first row of which something else is seen.
fn first_wrong(alloc: Global, rows: &[Row]) -> Result<Option<usize>, NoMemory> {
    let mut dictionary = Dictionary::new(alloc)?;
    let mut steps = Steps::new(Counting::new());
    for (i, row) in rows.iter().enumerate() {
        if seen_at_last(&mut dictionary, row.0, &mut steps)? != row.1 {
            return Ok(Some(i));
        }
    }
    Ok(None)
}

#[test]
fn keys_stand_in_the_order_of_their_insertion(rt: HostRuntime) -> Result<(), Fail> {
    assert_eq!(rt; first_wrong(rt.alloc(), &ORDER)?, None);
    Ok(())
}

#[test]
fn a_removed_key_goes_last_when_it_comes_again(rt: HostRuntime) -> Result<(), Fail> {
    assert_eq!(rt; first_wrong(rt.alloc(), &DELETED_AND_ADDED)?, None);
    Ok(())
}

#[test]
fn a_property_is_replaced_in_its_place(rt: HostRuntime) -> Result<(), Fail> {
    assert_eq!(rt; first_wrong(rt.alloc(), &WRITTEN)?, None);
    Ok(())
}

/// One name stays, and forty times another comes and goes, so that the slots are made anew.
fn after_coming_and_going(alloc: Global) -> Result<Dictionary, NoMemory> {
    let mut steps = Steps::new(Counting::new());
    let mut dictionary = Dictionary::new(alloc)?;
    let _seen = inserted(&mut dictionary, name(7), 70, &mut steps)?;
    for n in 0..40 {
        let _seen = inserted(&mut dictionary, name(8), n, &mut steps)?;
        let _removed = dictionary.remove(name(8));
    }
    let _seen = inserted(&mut dictionary, name(9), 90, &mut steps)?;
    Ok(dictionary)
}

#[test]
fn slots_out_of_use_are_made_anew(rt: HostRuntime) -> Result<(), Fail> {
    let mut steps = Steps::new(Counting::new());
    let dictionary = after_coming_and_going(rt.alloc())?;
    assert_eq!(rt; dictionary.find(name(7), &mut steps), Some(0));
    assert_eq!(rt; dictionary.find(name(8), &mut steps), None);
    assert_eq!(rt; dictionary.find(name(9), &mut steps), Some(1));
    assert_eq!(rt; dictionary.len(), 2);
    Ok(())
}

fn name(n: u32) -> PropKey {
    PropKey::Name(TextId(n))
}

fn filled(alloc: Global, count: u32) -> Result<Dictionary, NoMemory> {
    let mut steps = Steps::new(Counting::new());
    let mut dictionary = Dictionary::new(alloc)?;
    for n in 0..count {
        let _seen = inserted(&mut dictionary, name(n), i64::from(n), &mut steps)?;
    }
    Ok(dictionary)
}

/// Whether the names of odd numbers below `count` stand in order, in one step each.
fn has_odd_names<L: Ledger>(dictionary: &Dictionary, count: u32, steps: &mut Steps<L>) -> bool {
    for n in 0..count {
        let wanted = if n % 2 == 1 { Some(n / 2) } else { None };
        if dictionary.find(name(n), steps) != wanted {
            return false;
        }
    }
    true
}

/// Takes every second of 10,000 names out, and looks each of them up.
#[test]
fn ten_thousand_names(rt: HostRuntime) -> Result<(), Fail> {
    let mut steps = Steps::new(Counting::new());
    let mut dictionary = filled(rt.alloc(), 10_000)?;
    for n in 0..5_000u32 {
        let _removed = dictionary.remove(name(2 * n));
    }
    assert_eq!(rt; dictionary.len(), 5_000);
    assert!(rt; has_odd_names(&dictionary, 10_000, &mut steps));
    assert_eq!(rt; steps.ledger().ticks(), 10_000);
    Ok(())
}

/// 50,000 names come, and go one after the other in the order in which they came. One test has 60 seconds.
#[test]
fn fifty_thousand_names_come_and_go(rt: HostRuntime) -> Result<(), Fail> {
    let mut dictionary = filled(rt.alloc(), 50_000)?;
    let mut gone = 0u32;
    for n in 0..50_000u32 {
        if dictionary.remove(name(n)) {
            gone = gone.saturating_add(1);
        }
    }
    assert_eq!(rt; gone, 50_000);
    assert_eq!(rt; dictionary.len(), 0);
    Ok(())
}

/// 50,000 names come, and go scattered, by steps of 7,919, which has no factor in common with their number.
#[test]
fn fifty_thousand_names_go_scattered(rt: HostRuntime) -> Result<(), Fail> {
    let mut dictionary = filled(rt.alloc(), 50_000)?;
    let mut gone = 0u32;
    let mut n = 0u32;
    for _ in 0..50_000 {
        n = (n % 50_000).saturating_add(7_919) % 50_000;
        if dictionary.remove(name(n)) {
            gone = gone.saturating_add(1);
        }
    }
    assert_eq!(rt; gone, 50_000);
    assert_eq!(rt; dictionary.len(), 0);
    Ok(())
}
