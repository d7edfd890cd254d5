//! Times of additions, look-ups and removals of names, printed.

use super::{filled, name};
use dictionary_mode::Dictionary;
use property_keys::{Counting, Steps};
use std::io;
use std::test::Fail;
use std::time::Instant;

/// The names as they came, or scattered by steps of 7,919, which has no factor in common with their number.
fn at(scattered: bool, i: u32, count: u32) -> u32 {
    if scattered && count > 0 {
        i.wrapping_mul(7_919) % count
    } else {
        i
    }
}

fn found_of(dictionary: &Dictionary, count: u32, scattered: bool) -> u32 {
    let mut steps = Steps::new(Counting::new());
    let mut found = 0u32;
    for i in 0..count {
        if dictionary
            .find(name(at(scattered, i, count)), &mut steps)
            .is_some()
        {
            found = found.saturating_add(1);
        }
    }
    found
}

fn removed_of(dictionary: &mut Dictionary, count: u32, scattered: bool) -> u32 {
    let mut removed = 0u32;
    for i in 0..count {
        if dictionary.remove(name(at(scattered, i, count))) {
            removed = removed.saturating_add(1);
        }
    }
    removed
}

fn micros(rt: &HostRuntime, start: Instant) -> io::Result<u128> {
    Ok(start.elapsed(rt)?.as_micros())
}

/// Adds so many names, each looked up before, looks each up and removes each. Tells whether all were there.
fn time(rt: &HostRuntime, count: u32, scattered: bool) -> Result<bool, Fail> {
    let start = Instant::now(rt)?;
    let mut dictionary = filled(rt.alloc(), count)?;
    let added = micros(rt, start)?;
    let start = Instant::now(rt)?;
    let found = found_of(&dictionary, count, scattered);
    let looked_up = micros(rt, start)?;
    let start = Instant::now(rt)?;
    let gone = removed_of(&mut dictionary, count, scattered);
    let removed = micros(rt, start)?;
    println!(rt;
        "{count} names, scattered {scattered}: added {added}, looked up {looked_up}, removed {removed}"
    )?;
    Ok(found == count && gone == count && dictionary.len() == 0)
}

#[test]
fn times_in_microseconds(rt: HostRuntime) -> Result<(), Fail> {
    for count in [1_000u32, 10_000, 100_000] {
        assert!(rt; time(&rt, count, false)?);
        assert!(rt; time(&rt, count, true)?);
    }
    Ok(())
}
