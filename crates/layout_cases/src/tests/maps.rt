//! Calls that make maps, with what each map is by the rules of sharing, worked out by hand.

use map_store::{Entry, Kind, MapId, Maps, OriginId, Representation};
use property_keys::{Attributes, Counting, NoMemory, ObjectId, PropKey, Steps};
use std::process::Abort;
use std::test::Fail;

fn entry(key: u32) -> Entry {
    Entry {
        key: PropKey::Index(key),
        kind: Kind::Stored,
        attributes: Attributes {
            writable: true,
            enumerable: true,
            configurable: true,
        },
        representation: Representation::Smi,
        place: 0,
    }
}

/// A call that makes a map. Maps are given by their numbers, entries by their keys.
#[derive(Clone, Copy)]
enum Make {
    Root,
    Extend(u32, u32),
    Replace(u32, u32, u32),
    Close(u32),
}

/// The map that a call makes. None where the map or the place that it names is not there.
fn made(maps: &mut Maps, make: Make) -> Result<Option<MapId>, NoMemory> {
    match make {
        Make::Root => Ok(Some(maps.root(OriginId(3), Some(ObjectId(8)))?)),
        Make::Extend(map, key) if (map as usize) < maps.len() => {
            Ok(Some(maps.extend(MapId(map), entry(key))?))
        }
        Make::Replace(map, i, key) if (map as usize) < maps.len() && i < maps.count(MapId(map)) => {
            Ok(Some(maps.replace(MapId(map), i, entry(key))?))
        }
        Make::Close(map) if (map as usize) < maps.len() => Ok(Some(maps.closed(MapId(map))?)),
        _ => Ok(None),
    }
}

/// A call, and of the map that it makes the array, the keys, and whether it is extensible. The maps are numbered by the rows.
const ROWS: [(Make, u32, &[u32], bool); 10] = [
    (Make::Root, 0, &[], true),
    (Make::Extend(0, 5), 0, &[5], true),
    (Make::Extend(1, 6), 0, &[5, 6], true),
    // The array of map 1 has two entries now, so it is copied.
    (Make::Extend(1, 7), 1, &[5, 7], true),
    (Make::Extend(0, 5), 2, &[5], true),
    (Make::Extend(2, 8), 0, &[5, 6, 8], true),
    (Make::Replace(2, 0, 9), 3, &[9, 6], true),
    (Make::Close(5), 0, &[5, 6, 8], false),
    (Make::Root, 4, &[], true),
    (Make::Extend(5, 1), 0, &[5, 6, 8, 1], true),
];

fn has_keys(maps: &Maps, map: MapId, keys: &[u32]) -> bool {
    if map.0 as usize >= maps.len() || maps.count(map) as usize != keys.len() {
        return false;
    }
    let mut steps = Steps::new(Counting::new());
    for (i, key) in keys.iter().enumerate() {
        if maps.entry(map, i as u32, &mut steps) != entry(*key) {
            return false;
        }
    }
    true
}

/// The first row whose map is not as it says, among those that were made.
fn first_wrong(maps: &Maps) -> Option<usize> {
    for (number, (_, array, keys, extensible)) in ROWS.iter().enumerate() {
        let map = MapId(number as u32);
        if number < maps.len()
            && (maps.array(map) != *array
                || !has_keys(maps, map, keys)
                || maps.is_extensible(map) != *extensible
                || maps.origin(map) != OriginId(3)
                || maps.proto(map) != Some(ObjectId(8)))
        {
            return Some(number);
        }
    }
    None
}

#[test]
fn maps_share_their_arrays(rt: HostRuntime) -> Result<(), Fail> {
    let mut maps = Maps::new(rt.alloc());
    for (number, (make, _, _, _)) in ROWS.iter().enumerate() {
        assert_eq!(rt; made(&mut maps, *make)?, Some(MapId(number as u32)));
    }
    assert_eq!(rt; maps.len(), 10);
    assert_eq!(rt; first_wrong(&maps), None);
    Ok(())
}

/// `rt try --test --fail-alloc N` refuses the N-th growth, and the call is then had at the second try.
#[test]
fn refusals_leave_all_as_before(rt: HostRuntime) -> Result<(), Fail> {
    let mut maps = Maps::new(rt.alloc());
    for (number, (make, _, _, _)) in ROWS.iter().enumerate() {
        if made(&mut maps, *make).is_err() {
            assert!(rt; maps.len() == number && first_wrong(&maps).is_none());
            assert_eq!(rt; made(&mut maps, *make)?, Some(MapId(number as u32)));
        }
    }
    assert_eq!(rt; first_wrong(&maps), None);
    Ok(())
}

/// Makes a chain of maps, each with a key more than the one before, and gives the last.
fn chain(maps: &mut Maps, length: u32) -> Result<MapId, NoMemory> {
    let mut last = maps.root(OriginId(0), None)?;
    for key in 0..length {
        if last.0 as usize >= maps.len() {
            return Err(NoMemory);
        }
        last = maps.extend(last, entry(key))?;
    }
    Ok(last)
}

fn check_chain(rt: &impl Abort, maps: &Maps, last: MapId) {
    assert!(rt; (last.0 as usize) < maps.len());
    assert_eq!(rt; maps.count(last), 1000);
    assert_eq!(rt; maps.array(last), 0);
    let mut steps = Steps::new(Counting::new());
    assert_eq!(rt; maps.find(last, PropKey::Index(999), &mut steps), Some(999));
    assert_eq!(rt; maps.find(last, PropKey::Index(0), &mut steps), Some(0));
    assert_eq!(rt; maps.find(last, PropKey::Index(1000), &mut steps), None);
    assert_eq!(rt; steps.ledger().ticks(), 1000 + 1 + 1000);
}

#[test]
fn a_thousand_maps_share_one_array(rt: HostRuntime) -> Result<(), Fail> {
    let mut maps = Maps::new(rt.alloc());
    let last = chain(&mut maps, 1000)?;
    check_chain(&rt, &maps, last);
    Ok(())
}

#[test]
fn dead_maps_keep_their_entries(rt: HostRuntime) -> Result<(), Fail> {
    let mut maps = Maps::new(rt.alloc());
    let last = chain(&mut maps, 2)?;
    let mut steps = Steps::new(Counting::new());
    assert!(rt; (last.0 as usize) < maps.len());
    assert!(rt; maps.is_live(last, &mut steps));
    maps.mark_dead(last);
    assert!(rt; (last.0 as usize) < maps.len());
    assert!(rt; !maps.is_live(last, &mut steps) && has_keys(&maps, last, &[0, 1]));
    assert_eq!(rt; steps.ledger().ticks(), 2);
    Ok(())
}
