//! Steps with what is seen of them, worked out by hand from the steps of the standard.

mod rows;
mod seen;
mod steps;

use object_heap::Heap;
use ordinary_object::OrdinaryFrame;
use property_keys::NoMemory;
use rows::Row;
use std::alloc::Global;
use std::test::Fail;
use steps::seen_of;

/// A path through the methods, over the start objects and so many turns.
#[derive(Clone, Copy)]
struct Path {
    turns: u64,
    rows: &'static [Row],
}

/// The first row of a path of which something else is seen.
fn first_wrong(alloc: Global, path: Path) -> Result<Option<usize>, NoMemory> {
    let mut heap = Heap::new(alloc, path.turns)?;
    let mut waiting = None;
    first_wrong_of(&mut heap, &mut waiting, path.rows)
}

/// The first path with a wrong row, and the number of that row.
fn first_wrong_path(alloc: Global) -> Result<Option<(usize, usize)>, NoMemory> {
    for number in 0..PATHS {
        if let Some(row) = first_wrong(alloc, numbered(number))? {
            return Ok(Some((number, row)));
        }
    }
    Ok(None)
}

fn first_wrong_of(
    heap: &mut Heap,
    waiting: &mut Option<OrdinaryFrame>,
    rows: &[Row],
) -> Result<Option<usize>, NoMemory> {
    for (i, row) in rows.iter().enumerate() {
        if seen_of(heap, waiting, row.0)? != row.1 {
            return Ok(Some(i));
        }
    }
    Ok(None)
}

/// How many paths there are.
const PATHS: usize = 20;

fn numbered(number: usize) -> Path {
    match number {
        // an absent key at a null prototype
        0 => over(0, &rows::ABSENT),
        // a getter of the prototype
        1 => over(1, &rows::GETTER_OF_THE_PROTOTYPE),
        // a data property and an accessor without a getter
        2 => over(0, &rows::WITHOUT_A_GETTER),
        // a key of the prototype is had
        3 => over(1, &rows::KEY_OF_THE_PROTOTYPE_HAD),
        // the turn of a halt on a chain
        4 => over(1, &rows::HALT_ON_A_CHAIN),
        // refusals of set before a question
        5 => over(0, &rows::REFUSED_BEFORE_A_QUESTION),
        // refusals of set by the receiver
        6 => over(0, &rows::REFUSED_BY_THE_RECEIVER),
        // a property of the receiver is set
        7 => over(0, &rows::PROPERTY_OF_THE_RECEIVER),
        // a receiver that takes no property
        8 => over(0, &rows::CLOSED_RECEIVER),
        // a key of the prototype is set
        9 => over(1, &rows::KEY_OF_THE_PROTOTYPE_SET),
        // a setter that changes the receiver
        10 => over(0, &rows::SETTER_CHANGES_THE_RECEIVER),
        // a receiver that changes before the answer
        11 => over(0, &rows::RECEIVER_CHANGES),
        // the rounds up a chain
        12 => over(4, &rows::ROUNDS_UP_A_CHAIN),
        // a halt in the rounds
        13 => over(1, &rows::HALT_IN_THE_ROUNDS),
        // a cycle is refused
        14 => over(2, &rows::CYCLE),
        // the prototype of a closed object
        15 => over(0, &rows::CLOSED),
        // the prototype that never changes
        16 => over(5, &rows::NEVER_CHANGES),
        // own properties
        17 => over(0, &rows::OWN_PROPERTIES),
        // own keys
        18 => over(0, &rows::OWN_KEYS),
        // what does not fit
        _ => over(0, &rows::DOES_NOT_FIT),
    }
}

fn over(turns: u64, rows: &'static [Row]) -> Path {
    Path { turns, rows }
}

#[test]
fn each_path_is_that_of_its_steps(rt: HostRuntime) -> Result<(), Fail> {
    assert_eq!(rt; first_wrong_path(rt.alloc())?, None);
    Ok(())
}
