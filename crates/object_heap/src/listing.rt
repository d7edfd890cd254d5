//! OrdinaryOwnPropertyKeys (10.1.11.1).

ghost use Rattle.std.specs.Prelude.{◌≡◌, ◌++◌, ◌∷◌, [], filter, if◌then◌else◌, length, map, IfOk, OnOk};
ghost use Rattle.property_keys.specs.declared.keys.PropKey.TheVariants.{Index};
ghost use Rattle.es_model.specs.OwnKeys.{indices_in, is_name, is_symbol, keys_in, own_keys, put_index, put_key, with_indices_below};
ghost use Rattle.es_model.specs.World.{World};
ghost use Rattle.object_heap.specs.Keys.{listed_keys, units_in};
ghost use Rattle.object_heap.specs.Seen.{seen_at};
ghost use Rattle.object_heap.specs.Stands.{StandsFor};

use crate::Heap;
use es_model::{KeyList, ObjectKind, OwnProperty};
use property_keys::{Ledger, NoMemory, ObjectId, PropKey, Steps};
use std::alloc::Global;
use std::collections::BTreeSet;

impl Heap {
    /// The own keys of an object in their order (ECMA-262, 10.1.11.1): the array indices ascending, with those of a String object's code units (10.4.3.3), then
    /// the other texts, then the Symbols, each in the order of creation.
    pub fn keys<L: Ledger>(
        &self,
        object: ObjectId,
        _steps: &mut Steps<L>,
    ) -> Result<KeyList, NoMemory>
        ensures { IfOk result (λ keys. (w : World) → StandsFor self.now w → keys ≡ own_keys w.lists object) }
    {
        let count = self.code_units(object);
        self.objects.keys(self.alloc, object, count)
    }

    /// How many code units are own properties beside the list.
    fn code_units(&self, object: ObjectId) -> u32
        ensures { result ≡ units_in (self.now).texts (seen_at (self.now).objects object).kind }
    {
        match self.objects.kind(object) {
            ObjectKind::Text(text) => {
                let text = self.known(*text);
                self.texts.units(text).len() as u32
            }
            _ => 0,
        }
    }
}

/// The own keys of a list of properties, where so many code units come before.
pub(crate) fn keys_of(
    alloc: Global,
    properties: &[OwnProperty],
    count: u32,
) -> Result<KeyList, NoMemory>
    ensures { IfOk result (λ keys. keys ≡ listed_keys count properties.now) }
{
    let listed = listed_indices(alloc, properties)?;
    let indices = add_indices_below(listed, count)?;
    let mut keys = KeyList::new(alloc);
    push_indices(&mut keys, indices)?;
    push_names(&mut keys, properties)?;
    push_symbols(&mut keys, properties)?;
    Ok(keys)
}

/// The indices of a list of properties.
fn listed_indices(alloc: Global, properties: &[OwnProperty]) -> Result<BTreeSet<u32>, NoMemory>
    ensures { IfOk result (λ indices. indices.keys ≡ indices_in properties.now) }
{
    let mut indices = BTreeSet::new(alloc);
    for property in properties {
        add_key(&mut indices, property.key)?;
    }
    Ok(indices)
}

/// The index of a key comes to the others, if the key is an index.
fn add_key(indices: &mut BTreeSet<u32>, key: PropKey) -> Result<(), NoMemory>
    ensures { OnOk result (indices.new.keys ≡ put_key key indices.old.keys) }
{
    match key {
        PropKey::Index(index) => add_index(indices, index),
        PropKey::Name(_) | PropKey::Sym(_) => Ok(()),
    }
}

fn add_index(indices: &mut BTreeSet<u32>, index: u32) -> Result<(), NoMemory>
    ensures { OnOk result (indices.new.keys ≡ put_index index indices.old.keys) }
{
    match indices.insert(index) {
        Ok(_) => Ok(()),
        Err(_) => Err(NoMemory),
    }
}

/// All indices below a number come to the others.
fn add_indices_below(mut indices: BTreeSet<u32>, count: u32) -> Result<BTreeSet<u32>, NoMemory>
    ensures { IfOk result (λ all. all.keys ≡ with_indices_below count indices.keys) }
{
    for index in 0..count {
        add_index(&mut indices, index)?;
    }
    Ok(indices)
}

fn push_indices(keys: &mut KeyList, indices: BTreeSet<u32>) -> Result<(), NoMemory>
    ensures { OnOk result (keys.new ≡ keys.old ++ map Index indices.keys) }
{
    for index in indices {
        keys.push(PropKey::Index(index))?;
    }
    Ok(())
}

/// The texts among the keys, in their order.
fn push_names(keys: &mut KeyList, properties: &[OwnProperty]) -> Result<(), NoMemory>
    ensures { OnOk result (keys.new ≡ keys.old ++ filter is_name (keys_in properties.now)) }
{
    for property in properties {
        push_where(keys, property.key, is_name(property.key))?;
    }
    Ok(())
}

/// The Symbols among the keys, in their order.
fn push_symbols(keys: &mut KeyList, properties: &[OwnProperty]) -> Result<(), NoMemory>
    ensures { OnOk result (keys.new ≡ keys.old ++ filter is_symbol (keys_in properties.now)) }
{
    for property in properties {
        push_where(keys, property.key, is_symbol(property.key))?;
    }
    Ok(())
}

fn push_where(keys: &mut KeyList, key: PropKey, is_wanted: bool) -> Result<(), NoMemory>
    ensures { OnOk result (keys.new ≡ keys.old ++ (if is_wanted then key ∷ [] else [])) }
{
    if is_wanted { keys.push(key) } else { Ok(()) }
}

fn is_name(key: PropKey) -> bool
    ensures { result ≡ is_name key }
{
    matches!(key, PropKey::Name(_))
}

fn is_symbol(key: PropKey) -> bool
    ensures { result ≡ is_symbol key }
{
    matches!(key, PropKey::Sym(_))
}
