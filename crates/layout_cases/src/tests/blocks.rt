//! Words at both ends of blocks.

use property_keys::{Counting, Ledger, NoMemory, Steps};
use slot_storage::Block;
use std::alloc::Global;
use std::test::Fail;

#[derive(Clone, Copy)]
enum Step {
    Set(usize, u64),
    Get(usize),
    Grow(usize),
    Len,
}

#[derive(Clone, Copy, PartialEq)]
enum Seen {
    Done,
    Word(u64),
    Len(usize),
    NotMeant,
}

/// A step, what is to be seen of it, and the count of steps after it.
struct Row(Step, Seen, u64);

fn seen_of<L: Ledger>(
    block: &mut Block,
    step: Step,
    steps: &mut Steps<L>,
) -> Result<Seen, NoMemory> {
    match step {
        Step::Set(i, word) => {
            if i >= block.len() {
                return Ok(Seen::NotMeant);
            }
            block.set(i, word, steps);
            Ok(Seen::Done)
        }
        Step::Get(i) => {
            if i >= block.len() {
                return Ok(Seen::NotMeant);
            }
            Ok(Seen::Word(block.get(i, steps)))
        }
        Step::Grow(n) => {
            if n < block.len() {
                return Ok(Seen::NotMeant);
            }
            block.grow(n, steps)?;
            Ok(Seen::Done)
        }
        Step::Len => Ok(Seen::Len(block.len())),
    }
}

/// What is seen of a step. `rt try --test --fail-alloc N` refuses the N-th growth: the length and the count are then as
/// before, and the step is had at the second try.
fn seen_at_last(
    block: &mut Block,
    step: Step,
    steps: &mut Steps<Counting>,
) -> Result<Seen, NoMemory> {
    let before = (block.len(), steps.ledger().ticks());
    match seen_of(block, step, steps) {
        Ok(seen) => Ok(seen),
        Err(_) if (block.len(), steps.ledger().ticks()) != before => Ok(Seen::NotMeant),
        Err(_) => seen_of(block, step, steps),
    }
}

/// The number of the first row of which something else is seen, of a block of two words.
fn first_wrong(alloc: Global, rows: &[Row]) -> Result<Option<usize>, NoMemory> {
    let mut block = Block::new(alloc, 2)?;
    let mut steps = Steps::new(Counting::new());
    for (i, row) in rows.iter().enumerate() {
        if seen_at_last(&mut block, row.0, &mut steps)? != row.1
            || steps.ledger().ticks() != row.2
        {
            return Ok(Some(i));
        }
    }
    Ok(None)
}

static ROWS: [Row; 15] = [
    Row(Step::Len, Seen::Len(2), 0),
    Row(Step::Get(0), Seen::Word(0), 1),
    Row(Step::Get(1), Seen::Word(0), 2),
    Row(Step::Get(2), Seen::NotMeant, 2),
    Row(Step::Set(1, u64::MAX), Seen::Done, 3),
    Row(Step::Set(0, 7), Seen::Done, 4),
    Row(Step::Get(1), Seen::Word(u64::MAX), 5),
    Row(Step::Grow(1), Seen::NotMeant, 5),
    // Two words are carried over.
    Row(Step::Grow(4), Seen::Done, 7),
    Row(Step::Len, Seen::Len(4), 7),
    Row(Step::Get(0), Seen::Word(7), 8),
    Row(Step::Get(1), Seen::Word(u64::MAX), 9),
    Row(Step::Get(3), Seen::Word(0), 10),
    // The length stays, and four words are carried over.
    Row(Step::Grow(4), Seen::Done, 14),
    Row(Step::Get(1), Seen::Word(u64::MAX), 15),
];

#[test]
fn words_are_kept(rt: HostRuntime) -> Result<(), Fail> {
    assert_eq!(rt; first_wrong(rt.alloc(), &ROWS)?, None);
    Ok(())
}

/// No memory for a block of 2^60 words: the block that is there stays, and no step is counted.
#[test]
fn refused_growth_changes_nothing(rt: HostRuntime) -> Result<(), Fail> {
    let mut steps = Steps::new(Counting::new());
    let mut block = Block::new(rt.alloc(), 1)?;
    assert_eq!(rt; block.len(), 1);
    block.set(0, 5, &mut steps);
    assert_eq!(rt; block.grow(1 << 60, &mut steps), Err(NoMemory));
    assert_eq!(rt; block.len(), 1);
    assert_eq!(rt; block.get(0, &mut steps), 5);
    assert_eq!(rt; steps.ledger().ticks(), 2);
    Ok(())
}
