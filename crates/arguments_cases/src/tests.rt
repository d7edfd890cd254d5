//! Steps with what is seen of them, worked out by hand from 10.4.4 of the standard.

mod rows;
mod seen;
mod steps;

use object_heap::Heap;
use property_keys::NoMemory;
use rows::{PATHS, Row, TURNS, numbered};
use std::alloc::Global;
use std::test::Fail;
use steps::is_seen;

/// The first row of a path of which something else is seen. Each path has the start objects and a few turns.
fn first_wrong(alloc: Global, rows: &[Row]) -> Result<Option<usize>, NoMemory> {
    let mut heap = Heap::new(alloc, TURNS)?;
    for (i, row) in rows.iter().enumerate() {
        if !is_seen(&mut heap, row.0, row.1)? {
            return Ok(Some(i));
        }
    }
    Ok(None)
}

/// The first path with a wrong row, and the number of that row.
fn first_wrong_path(alloc: Global) -> Result<Option<(usize, usize)>, NoMemory> {
    for number in 0..PATHS {
        if let Some(row) = first_wrong(alloc, numbered(number))? {
            return Ok(Some((number, row)));
        }
    }
    Ok(None)
}

#[test]
fn each_path_is_that_of_its_steps(rt: HostRuntime) -> Result<(), Fail> {
    assert_eq!(rt; first_wrong_path(rt.alloc())?, None);
    Ok(())
}
