//! Steps with what is seen of them, worked out by hand from clauses 19 to 21 of the standard.

mod numbers;
mod rows;
mod seen;
mod steps;

use core_builtins::CoreFrame;
use object_heap::Heap;
use property_keys::NoMemory;
use rows::{PATHS, Row, numbered};
use std::alloc::Global;
use std::test::Fail;
use steps::is_seen;

/// The first row of a path of which something else is seen. Each path has the start objects, and no turn.
fn first_wrong(alloc: Global, rows: &[Row]) -> Result<Option<usize>, NoMemory> {
    let mut heap = Heap::new(alloc, 0)?;
    let mut waiting = None;
    first_wrong_of(&mut heap, &mut waiting, rows)
}

fn first_wrong_of(
    heap: &mut Heap,
    waiting: &mut Option<CoreFrame>,
    rows: &[Row],
) -> Result<Option<usize>, NoMemory> {
    for (i, row) in rows.iter().enumerate() {
        if !is_seen(heap, waiting, row.0, row.1)? {
            return Ok(Some(i));
        }
    }
    Ok(None)
}

/// The first path with a wrong row, and the number of that row.
fn first_wrong_path(alloc: Global) -> Result<Option<(usize, usize)>, NoMemory> {
    for number in 0..PATHS {
        if let Some(row) = first_wrong(alloc, numbered(number))? {
            return Ok(Some((number, row)));
        }
    }
    Ok(None)
}

#[test]
fn each_path_is_that_of_its_steps(rt: HostRuntime) -> Result<(), Fail> {
    assert_eq!(rt; first_wrong_path(rt.alloc())?, None);
    Ok(())
}
