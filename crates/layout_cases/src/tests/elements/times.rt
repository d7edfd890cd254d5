//! Times of puts, reads and removals of indices by their order, printed.

use super::{Seen, own, put};
use elements_kinds::{Elements, ElementsKind};
use property_keys::{Counting, NoMemory, Steps};
use std::io;
use std::test::Fail;
use std::time::Instant;

#[derive(Clone, Copy)]
enum Order {
    Ascending,
    Descending,
    Random,
}

fn name_of(order: Order) -> &'static str {
    match order {
        Order::Ascending => "ascending",
        Order::Descending => "descending",
        Order::Random => "at random",
    }
}

/// The i-th of so many indices in an order. At random one may come more than once.
fn at(order: Order, i: u32, count: u32) -> u32 {
    match order {
        Order::Ascending => i,
        Order::Descending => count.saturating_sub(i).saturating_sub(1),
        Order::Random if count > 0 => mixed(i) % count,
        Order::Random => 0,
    }
}

/// A number whose bits hang on all bits of another.
fn mixed(i: u32) -> u32 {
    let once = (i ^ (i >> 16)).wrapping_mul(0x7feb_352d);
    let twice = (once ^ (once >> 15)).wrapping_mul(0x846c_a68b);
    twice ^ (twice >> 16)
}

fn put_all(elements: &mut Elements, order: Order, count: u32) -> Result<(), NoMemory> {
    let mut steps = Steps::new(Counting::new());
    for i in 0..count {
        let _done = put(elements, at(order, i, count), i64::from(i), &mut steps)?;
    }
    Ok(())
}

fn found_of(elements: &Elements, order: Order, count: u32) -> u32 {
    let mut steps = Steps::new(Counting::new());
    let mut found = 0u32;
    for i in 0..count {
        if own(elements, at(order, i, count), &mut steps) != Seen::Absent {
            found = found.saturating_add(1);
        }
    }
    found
}

fn remove_all(elements: &mut Elements, order: Order, count: u32) {
    let mut steps = Steps::new(Counting::new());
    for i in 0..count {
        elements.remove(at(order, i, count), &mut steps);
    }
}

fn micros(rt: &HostRuntime, start: Instant) -> io::Result<u128> {
    Ok(start.elapsed(rt)?.as_micros())
}

/// Puts so many indices, reads each and removes each. Tells whether all were there, and none is at the end.
fn time(rt: &HostRuntime, order: Order, count: u32) -> Result<bool, Fail> {
    let mut elements = Elements::new(rt.alloc());
    let start = Instant::now(rt)?;
    put_all(&mut elements, order, count)?;
    let put = micros(rt, start)?;
    let is_store = elements.kind() != ElementsKind::Dictionary;
    let start = Instant::now(rt)?;
    let found = found_of(&elements, order, count);
    let read = micros(rt, start)?;
    let start = Instant::now(rt)?;
    remove_all(&mut elements, order, count);
    let removed = micros(rt, start)?;
    let name = name_of(order);
    println!(rt;
        "{count} indices, {name}, store {is_store}: put {put}, read {read}, removed {removed}"
    )?;
    Ok(found == count && elements.greatest() == None)
}

#[test]
fn times_in_microseconds(rt: HostRuntime) -> Result<(), Fail> {
    for count in [1_000u32, 10_000, 100_000] {
        assert!(rt; time(&rt, Order::Ascending, count)?);
        assert!(rt; time(&rt, Order::Descending, count)?);
        assert!(rt; time(&rt, Order::Random, count)?);
    }
    Ok(())
}
