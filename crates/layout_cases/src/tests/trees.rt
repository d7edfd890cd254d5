//! Steps with the maps that they make, and a tree of which a branch dies, worked out by hand.

mod forest;
mod rows;

use forest::Forest;
use map_store::Representation;
use property_keys::NoMemory;
use rows::{Call, ROWS, Seen};
use std::test::Fail;
use transition_tree::{Path, Step};

#[test]
fn paths_are_lists(rt: HostRuntime) -> Result<(), Fail> {
    let mut path = Path::new(rt.alloc());
    if path.push(Step::Close).is_err() {
        assert_eq!(rt; path.len(), 0);
        path.push(Step::Close)?;
    }
    assert_eq!(rt; path.len(), 1);
    assert_eq!(rt; *path.at(0), Step::Close);
    Ok(())
}

/// What is seen of a call. After `NoMemory` no map was made, and the call is then had at the second try:
/// `rt try --test --fail-alloc N` refuses the N-th growth.
fn seen_at_last(forest: &mut Forest, call: Call) -> Result<Seen, NoMemory> {
    let before = forest.len();
    match forest.seen(call) {
        Ok(seen) => Ok(seen),
        Err(_) if forest.len() != before => Ok(Seen::NotMeant),
        Err(_) => forest.seen(call),
    }
}

/// The number of the first row of which something else is seen.
fn first_wrong(forest: &mut Forest) -> Result<Option<usize>, NoMemory> {
    for (number, (call, seen)) in ROWS.iter().enumerate() {
        if seen_at_last(forest, *call)? != *seen {
            return Ok(Some(number));
        }
    }
    Ok(None)
}

#[test]
fn a_branch_dies_and_grows_anew(rt: HostRuntime) -> Result<(), Fail> {
    let mut forest = Forest::new(rt.alloc());
    assert_eq!(rt; first_wrong(&mut forest)?, None);
    assert_eq!(rt; forest.len(), 13);
    Ok(())
}

/// The number of the first key whose step gives another map than the next one.
fn first_not_next(forest: &mut Forest, count: u32) -> Result<Option<u32>, NoMemory> {
    for key in 0..count {
        let next = Seen::Map(Some(key.saturating_add(1)));
        if seen_at_last(forest, Call::Grow(key, key, true))? != next {
            return Ok(Some(key));
        }
    }
    Ok(None)
}

/// 256 steps that add, and one that redefines the last key: it keeps its place, on an array of its own.
#[test]
fn maps_follow_by_steps(rt: HostRuntime) -> Result<(), Fail> {
    let mut forest = Forest::new(rt.alloc());
    assert!(rt; seen_at_last(&mut forest, Call::Root(0, None))? == Seen::Map(Some(0)));
    assert_eq!(rt; first_not_next(&mut forest, 256)?, None);
    assert!(rt; seen_at_last(&mut forest, Call::Grow(256, 255, false))? == Seen::Map(Some(257)));
    assert!(rt; seen_at_last(&mut forest, Call::Shape(256))? == Seen::Shape(256, 0));
    assert!(rt; seen_at_last(&mut forest, Call::Shape(257))? == Seen::Shape(256, 1));
    let added = Seen::Entry(255, true, Representation::Smi);
    assert!(rt; seen_at_last(&mut forest, Call::Entry(256, 255))? == added);
    let redefined = Seen::Entry(255, false, Representation::Tagged);
    assert!(rt; seen_at_last(&mut forest, Call::Entry(257, 255))? == redefined);
    Ok(())
}

/// A walk along a path of 256 steps takes a counted step for each map on it, the root's and the end's too. Where map 255 is
/// dead it ends with the step that does not find it.
#[test]
fn a_path_of_256_steps(rt: HostRuntime) -> Result<(), Fail> {
    let mut forest = Forest::new(rt.alloc());
    assert!(rt; seen_at_last(&mut forest, Call::Root(0, None))? == Seen::Map(Some(0)));
    assert_eq!(rt; first_not_next(&mut forest, 256)?, None);
    assert!(rt; seen_at_last(&mut forest, Call::Path(256))? == Seen::Steps(256));
    assert!(rt; seen_at_last(&mut forest, Call::WalkTo(0, 256))? == Seen::Walked(Some(256), 257));
    assert!(rt; seen_at_last(&mut forest, Call::Drop(255))? == Seen::Done);
    assert!(rt; seen_at_last(&mut forest, Call::WalkTo(0, 256))? == Seen::Walked(None, 256));
    Ok(())
}
