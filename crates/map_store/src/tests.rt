//! The fields of maps. What their calls give is tested in `layout_cases`; what stands here sees private fields.

use crate::maps::MapRecord;
use crate::{Entry, Kind, Maps, OriginId, Representation};
use property_keys::{Attributes, ObjectId, PropKey};
use std::alloc::Global;
use std::test::Fail;

fn entry(key: u32) -> Entry {
    Entry {
        key: PropKey::Index(key),
        kind: Kind::Stored,
        attributes: Attributes {
            writable: true,
            enumerable: true,
            configurable: true,
        },
        representation: Representation::Smi,
        place: 0,
    }
}

/// Each field by its name and its type, with no rest: nothing else can be kept beside them.
#[test]
fn every_field_has_its_type(rt: HostRuntime) -> Result<(), Fail> {
    let mut maps = Maps::new(rt.alloc());
    let root = maps.root(OriginId(0), None)?;
    assert!(rt; (root.0 as usize) < maps.len());
    maps.extend(root, entry(0))?;
    let Maps {
        alloc,
        arrays,
        maps: records,
    } = &maps;
    let _alloc: &Global = alloc;
    let arrays: &Vec<Vec<Entry>> = arrays;
    let records: &Vec<MapRecord> = records;
    assert!(rt; arrays.len() == 1 && records.len() == 2);
    let MapRecord {
        array,
        count,
        origin,
        proto,
        live,
        extensible,
    } = records[1];
    let fields: (u32, u32, OriginId, Option<ObjectId>, bool, bool) = (
        array, count, origin, proto, live, extensible,
    );
    assert!(rt; fields == (0, 1, OriginId(0), None, true, true));
    Ok(())
}
