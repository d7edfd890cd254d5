//! Tables of chains and changes.

mod times;

use property_keys::{Counting, Ledger, NoMemory, ObjectId, Steps};
use prototype_validity::{CellId, ObjectList, Validity};
use std::alloc::Global;
use std::test::Fail;

/// A chain of at most three objects.
#[derive(Clone, Copy)]
enum Chain {
    Empty,
    One(u32),
    Three(u32, u32, u32),
}

#[derive(Clone, Copy)]
enum Step {
    CellFor(Chain),
    Changed(u32),
    Holds(u32),
}

#[derive(Clone, Copy, PartialEq)]
enum Seen {
    Done,
    Cell(u32),
    Holds(bool),
}

/// A step, and what is to be seen of it.
struct Row(Step, Seen);

fn list_of(alloc: Global, chain: Chain) -> Result<ObjectList, NoMemory> {
    let mut list = ObjectList::new(alloc);
    match chain {
        Chain::Empty => {}
        Chain::One(a) => list.push(ObjectId(a))?,
        Chain::Three(a, b, c) => {
            list.push(ObjectId(a))?;
            list.push(ObjectId(b))?;
            list.push(ObjectId(c))?;
        }
    }
    Ok(list)
}

fn cell_of(alloc: Global, validity: &mut Validity, chain: Chain) -> Result<Seen, NoMemory> {
    let list = list_of(alloc, chain)?;
    let id = validity.cell_for(&list)?;
    Ok(Seen::Cell(id.0))
}

fn seen_of<L: Ledger>(
    alloc: Global,
    validity: &mut Validity,
    step: Step,
    steps: &mut Steps<L>,
) -> Result<Seen, NoMemory> {
    match step {
        Step::CellFor(chain) => cell_of(alloc, validity, chain),
        Step::Changed(object) => {
            validity.changed(ObjectId(object));
            Ok(Seen::Done)
        }
        Step::Holds(id) => {
            if id as usize >= validity.len() {
                return Ok(Seen::Done);
            }
            Ok(Seen::Holds(validity.holds(CellId(id), steps)))
        }
    }
}

/// What is seen of a step. `rt try --test --fail-alloc N` refuses the N-th growth: there are then as many cells as before,
/// and the step is had at the second try.
fn seen_at_last<L: Ledger>(
    alloc: Global,
    validity: &mut Validity,
    step: Step,
    steps: &mut Steps<L>,
) -> Result<Seen, NoMemory> {
    let before = validity.len();
    match seen_of(alloc, validity, step, steps) {
        Ok(seen) => Ok(seen),
        Err(_) if validity.len() != before => Ok(Seen::Done),
        Err(_) => seen_of(alloc, validity, step, steps),
    }
}

/// The number of the first row of which something else is seen.
fn first_wrong(alloc: Global, rows: &[Row]) -> Result<Option<usize>, NoMemory> {
    let mut validity = Validity::new(alloc);
    let mut steps = Steps::new(Counting::new());
    for (i, row) in rows.iter().enumerate() {
        if seen_at_last(alloc, &mut validity, row.0, &mut steps)? != row.1 {
            return Ok(Some(i));
        }
    }
    Ok(None)
}

/// The chains 1, 2, 3 and 4, 2, 5 share an object in their middle.
static SHARED: [Row; 16] = [
    Row(Step::CellFor(Chain::Three(1, 2, 3)), Seen::Cell(0)),
    Row(Step::CellFor(Chain::Three(4, 2, 5)), Seen::Cell(1)),
    Row(Step::CellFor(Chain::One(5)), Seen::Cell(2)),
    Row(Step::CellFor(Chain::Three(1, 2, 3)), Seen::Cell(0)),
    Row(Step::Holds(0), Seen::Holds(true)),
    Row(Step::Changed(6), Seen::Done),
    Row(Step::Holds(0), Seen::Holds(true)),
    Row(Step::Changed(2), Seen::Done),
    Row(Step::Holds(0), Seen::Holds(false)),
    Row(Step::Holds(1), Seen::Holds(false)),
    Row(Step::Holds(2), Seen::Holds(true)),
    // The chain has a new cell, and the old one goes on holding no more.
    Row(Step::CellFor(Chain::Three(1, 2, 3)), Seen::Cell(3)),
    Row(Step::Holds(0), Seen::Holds(false)),
    Row(Step::Holds(3), Seen::Holds(true)),
    Row(Step::Changed(5), Seen::Done),
    Row(Step::Holds(2), Seen::Holds(false)),
];

/// No change ends the cell of no objects; an object that is twice on a chain ends it once.
static EDGES: [Row; 8] = [
    Row(Step::CellFor(Chain::Empty), Seen::Cell(0)),
    Row(Step::Changed(0), Seen::Done),
    Row(Step::CellFor(Chain::Empty), Seen::Cell(0)),
    Row(Step::Holds(0), Seen::Holds(true)),
    Row(Step::CellFor(Chain::Three(7, 7, 8)), Seen::Cell(1)),
    Row(Step::Changed(7), Seen::Done),
    Row(Step::Holds(1), Seen::Holds(false)),
    Row(Step::CellFor(Chain::Three(7, 7, 8)), Seen::Cell(2)),
];

#[test]
fn chains_share_objects(rt: HostRuntime) -> Result<(), Fail> {
    assert_eq!(rt; first_wrong(rt.alloc(), &SHARED)?, None);
    Ok(())
}

#[test]
fn edges_of_chains(rt: HostRuntime) -> Result<(), Fail> {
    assert_eq!(rt; first_wrong(rt.alloc(), &EDGES)?, None);
    Ok(())
}

#[test]
fn a_look_at_a_cell_is_one_step(rt: HostRuntime) -> Result<(), Fail> {
    let mut steps = Steps::new(Counting::new());
    let mut validity = Validity::new(rt.alloc());
    let seen = cell_of(rt.alloc(), &mut validity, Chain::One(3))?;
    assert!(rt; seen == Seen::Cell(0));
    assert_eq!(rt; validity.len(), 1);
    assert!(rt; validity.holds(CellId(0), &mut steps));
    assert_eq!(rt; steps.ledger().ticks(), 1);
    Ok(())
}
