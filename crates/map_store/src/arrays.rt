//! The arrays of entries that maps share. An array is only ever longer, and its beginning stays.

ghost use Rattle.std.specs.Prelude.{◌≡◌, ◌<◌, ◌≤◌, ◌+◌, ◌++◌, ◌∷◌, [], length, take, slice_set, OnOk, OnErr, IfOk};
ghost use Rattle.map_store.specs.Records.{lists, array_at, with_array, next_array, gone_on};

use crate::Entry;
use property_keys::NoMemory;
use std::alloc::Global;

/// Makes an array that begins with the first `count` entries of an array and goes on with an entry: the array itself
/// where it has no more entries than these, else a copy. The answer is its number.
pub(crate) fn push_after(
    alloc: Global,
    arrays: &mut Vec<Vec<Entry>>,
    array: u32,
    count: u32,
    entry: Entry,
) -> Result<u32, NoMemory>
    requires there { array < length arrays.old.items }
    requires long { count ≤ length (array_at (lists arrays.old.items) array) }
    ensures number { IfOk result (λ number. number ≡ next_array (lists arrays.old.items) array count) }
    ensures ok { OnOk result (lists arrays.new.items ≡ gone_on (lists arrays.old.items) array count entry) }
    ensures err { OnErr result (lists arrays.new.items ≡ lists arrays.old.items) }
{
    if arrays[array as usize].len() <= count as usize {
        push_entry(arrays, array, entry)?;
        return Ok(array);
    }
    let number = next_number(arrays.len())?;
    push_longer(alloc, arrays, array, count, entry)?;
    Ok(number)
}

/// A number for the next of `len` things.
pub(crate) fn next_number(len: usize) -> Result<u32, NoMemory>
    ensures { IfOk result (λ number. number ≡ len) }
{
    if len > u32::MAX as usize {
        return Err(NoMemory);
    }
    Ok(len as u32)
}

/// Appends an entry to an array.
fn push_entry(arrays: &mut Vec<Vec<Entry>>, array: u32, entry: Entry) -> Result<(), NoMemory>
    requires { array < length arrays.old.items }
    ensures ok { OnOk result (lists arrays.new.items ≡ with_array (lists arrays.old.items) array (array_at (lists arrays.old.items) array ++ entry ∷ [])) }
    ensures err { OnErr result (lists arrays.new.items ≡ lists arrays.old.items) }
{
    let entries = &mut arrays[array as usize];
    match entries.push(entry) {
        Ok(()) => Ok(()),
        Err(_) => Err(NoMemory),
    }
}

/// Makes an array of the first `count` entries of an array and an entry after them.
fn push_longer(
    alloc: Global,
    arrays: &mut Vec<Vec<Entry>>,
    array: u32,
    count: u32,
    entry: Entry,
) -> Result<(), NoMemory>
    requires there { array < length arrays.old.items }
    requires long { count ≤ length (array_at (lists arrays.old.items) array) }
    ensures ok { OnOk result (lists arrays.new.items ≡ lists arrays.old.items ++ (take count (array_at (lists arrays.old.items) array) ++ entry ∷ []) ∷ []) }
    ensures err { OnErr result (lists arrays.new.items ≡ lists arrays.old.items) }
{
    let mut copy = beginning(alloc, &arrays[array as usize], count)?;
    if copy.push(entry).is_err() {
        return Err(NoMemory);
    }
    push_array(arrays, copy)
}

/// Makes an array of the first `count` entries of an array, with another entry at one place.
pub(crate) fn push_replaced(
    alloc: Global,
    arrays: &mut Vec<Vec<Entry>>,
    array: u32,
    count: u32,
    i: u32,
    entry: Entry,
) -> Result<(), NoMemory>
    requires there { array < length arrays.old.items }
    requires long { count ≤ length (array_at (lists arrays.old.items) array) }
    requires within { i < count }
    ensures ok { OnOk result (lists arrays.new.items ≡ lists arrays.old.items ++ slice_set (take count (array_at (lists arrays.old.items) array)) i entry ∷ []) }
    ensures err { OnErr result (lists arrays.new.items ≡ lists arrays.old.items) }
{
    let mut copy = beginning(alloc, &arrays[array as usize], count)?;
    copy[i as usize] = entry;
    push_array(arrays, copy)
}

/// A copy of the first `count` entries.
fn beginning(alloc: Global, entries: &[Entry], count: u32) -> Result<Vec<Entry>, NoMemory>
    requires { count ≤ length entries.now }
    ensures { IfOk result (λ copy. copy.items ≡ take count entries.now) }
{
    match Vec::from_slice(alloc, &entries[..count as usize]) {
        Ok(copy) => Ok(copy),
        Err(_) => Err(NoMemory),
    }
}

/// Appends an array.
pub(crate) fn push_array(arrays: &mut Vec<Vec<Entry>>, array: Vec<Entry>) -> Result<(), NoMemory>
    ensures ok { OnOk result (lists arrays.new.items ≡ lists arrays.old.items ++ array.items ∷ []) }
    ensures err { OnErr result (lists arrays.new.items ≡ lists arrays.old.items) }
{
    match arrays.push(array) {
        Ok(()) => Ok(()),
        Err(_) => Err(NoMemory),
    }
}
