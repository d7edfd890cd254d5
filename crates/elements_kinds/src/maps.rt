//! The elements that became a dictionary: a map from indices to properties.

ghost use Rattle.std.specs.Prelude.{◌≡◌, ◌++◌, ◌∷◌, [], if◌then◌else◌, IfOk, OnErr, OnOk};
ghost use Rattle.std.specs.FinMap as map_of;
ghost use Rattle.elements_kinds.specs.Maps.{properties_in, with_value};
ghost use Rattle.elements_kinds.specs.Rules.{greatest_of};

use crate::KeyIndices;
use crate::plain_properties::plain;
use descriptors::Complete;
use property_keys::{NoMemory, Value};
use std::alloc::Global;
use std::collections::BTreeMap;

/// The property at an index.
pub(crate) fn property_at(map: &BTreeMap<u32, Complete>, index: u32) -> Option<Complete>
    ensures { result ≡ map_of.get (properties_in map.now) index }
{
    map.get(&index).copied()
}

/// Puts a property at an index. After `NoMemory` the map is as before.
pub(crate) fn put(
    map: &mut BTreeMap<u32, Complete>,
    index: u32,
    property: Complete,
) -> Result<(), NoMemory>
    ensures ok { OnOk result (properties_in map.new ≡ map_of.insert (properties_in map.old) index property) }
    ensures err { OnErr result (properties_in map.new ≡ properties_in map.old) }
{
    match map.insert(index, property) {
        Ok(_) => Ok(()),
        Err(_) => Err(NoMemory),
    }
}

/// Puts the property of a value at an index, if there is a value.
pub(crate) fn put_value(
    map: &mut BTreeMap<u32, Complete>,
    index: u32,
    value: Option<Value>,
) -> Result<(), NoMemory>
    ensures { OnOk result (properties_in map.new ≡ with_value (properties_in map.old) index value) }
{
    match value {
        Some(value) => put(map, index, plain(value)),
        None => Ok(()),
    }
}

/// Takes the property at an index out.
pub(crate) fn take_out(map: &mut BTreeMap<u32, Complete>, index: u32)
    ensures { properties_in map.new ≡ map_of.remove (properties_in map.old) index }
{
    let _property = map.remove(&index);
}

/// The greatest index.
pub(crate) fn greatest_in(map: &BTreeMap<u32, Complete>) -> Option<u32>
    ensures { result ≡ greatest_of (properties_in map.now) }
{
    match map.last_key_value() {
        Some((index, _)) => Some(*index),
        None => None,
    }
}

/// The indices in their order.
pub(crate) fn indices_in(
    alloc: Global,
    map: &BTreeMap<u32, Complete>,
) -> Result<KeyIndices, NoMemory>
    ensures { IfOk result (λ list. list ≡ map_of.keys (properties_in map.now)) }
{
    let mut list = KeyIndices::new(alloc);
    for index in map.keys() {
        list.push(*index)?;
    }
    Ok(list)
}

/// Puts an index that is present at the end of a list.
pub(crate) fn push_present(
    list: &mut KeyIndices,
    index: u32,
    is_present: bool,
) -> Result<(), NoMemory>
    ensures { OnOk result (list.new ≡ list.old ++ (if is_present then index ∷ [] else [])) }
{
    if is_present { list.push(index) } else { Ok(()) }
}
