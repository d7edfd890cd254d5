//! Calls with what they give, worked out by hand.

mod rows;
mod steps;

use object_heap::Heap;
use property_keys::NoMemory;
use rows::{BESIDE, FUNCTIONS, OBJECTS};
use std::alloc::Global;
use std::test::Fail;
use steps::{Begun, Step, holds};

/// The first step that gives something else.
fn first_wrong(alloc: Global, steps: &[Step]) -> Result<Option<usize>, NoMemory> {
    let mut heap = Heap::new(alloc, 50)?;
    let begun = Begun::of(&heap);
    for (i, step) in steps.iter().enumerate() {
        if !holds(&mut heap, begun, *step)? {
            return Ok(Some(i));
        }
    }
    Ok(None)
}

#[test]
fn what_is_beside_the_objects(rt: HostRuntime) -> Result<(), Fail> {
    assert_eq!(rt; first_wrong(rt.alloc(), &BESIDE)?, None);
    Ok(())
}

#[test]
fn objects_and_their_properties(rt: HostRuntime) -> Result<(), Fail> {
    assert_eq!(rt; first_wrong(rt.alloc(), &OBJECTS)?, None);
    Ok(())
}

#[test]
fn functions_of_the_script(rt: HostRuntime) -> Result<(), Fail> {
    assert_eq!(rt; first_wrong(rt.alloc(), &FUNCTIONS)?, None);
    Ok(())
}
