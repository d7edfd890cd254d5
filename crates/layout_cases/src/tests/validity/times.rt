//! Times of cells made, found again and ended, printed.

use super::{Chain, list_of};
use property_keys::{NoMemory, ObjectId};
use prototype_validity::Validity;
use std::alloc::Global;
use std::io;
use std::test::Fail;
use std::time::Instant;

/// The cells of so many chains, each of three objects, of which the next chain has two.
fn ask_for(alloc: Global, validity: &mut Validity, count: u32) -> Result<(), NoMemory> {
    for i in 0..count {
        let chain = Chain::Three(i, i.saturating_add(1), i.saturating_add(2));
        let _cell = validity.cell_for(&list_of(alloc, chain)?)?;
    }
    Ok(())
}

fn micros(rt: &HostRuntime, start: Instant) -> io::Result<u128> {
    Ok(start.elapsed(rt)?.as_micros())
}

/// Makes so many cells, finds each again and changes each object. Tells whether each was made once.
fn time(rt: &HostRuntime, count: u32) -> Result<bool, Fail> {
    let mut validity = Validity::new(rt.alloc());
    let start = Instant::now(rt)?;
    ask_for(rt.alloc(), &mut validity, count)?;
    let made = micros(rt, start)?;
    let start = Instant::now(rt)?;
    ask_for(rt.alloc(), &mut validity, count)?;
    let found = micros(rt, start)?;
    let start = Instant::now(rt)?;
    for object in 0..count {
        validity.changed(ObjectId(object));
    }
    let changed = micros(rt, start)?;
    println!(rt; "{count} cells: made {made}, found {found}, changed {changed}")?;
    Ok(validity.len() == count as usize)
}

#[test]
fn times_in_microseconds(rt: HostRuntime) -> Result<(), Fail> {
    for count in [1_000u32, 10_000, 100_000] {
        assert!(rt; time(&rt, count)?);
    }
    Ok(())
}
