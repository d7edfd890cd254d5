//! Texts of the tree and of messages.

ghost use Rattle.std.specs.Prelude.{◌≡◌, ◌≤◌, ◌+◌, ◌++◌, ◌∷◌, [], true, is_some, length, nat_le, slice_get, IfOk, IfSome, OnOk};
ghost use Rattle.es_model.specs.Changes.{Interning, changed};
ghost use Rattle.property_keys.specs.Limits.{most_units};
ghost use Rattle.es_model.specs.World.{World, number_of, units_of};
ghost use Rattle.evaluator.specs.Plans.{joined_world};
ghost use Rattle.evaluator.specs.Values.{key_of_text};
ghost use Rattle.object_heap.specs.Retains.{Retains};
ghost use Rattle.object_heap.specs.Stands.{Goes, StandsFor};

use object_heap::Heap;
use property_keys::{KeyFault, MOST_UNITS, NoMemory, PropKey, TextId, Units};
use std::alloc::Global;

/// One code unit for each byte of a message.
pub(crate) fn units_of(alloc: Global, bytes: &[u8]) -> Result<Units, NoMemory>
    requires { length bytes.now ≤ 100 }
    ensures { IfOk result (λ units. units ≡ bytes.now) }
{
    let mut units = Units::new(alloc);
    for byte in bytes {
        match units.push(u16::from(*byte)) {
            Ok(()) => {}
            Err(_) => return Err(NoMemory),
        }
    }
    Ok(units)
}

/// The same code units again.
fn copy_of(alloc: Global, units: &Units) -> Result<Units, NoMemory>
    ensures { IfOk result (λ copy. copy ≡ units.now) }
{
    let mut copy = Units::new(alloc);
    for i in 0..units.len() {
        match copy.push(units.unit(i)) {
            Ok(()) => {}
            Err(_) => return Err(NoMemory),
        }
    }
    Ok(copy)
}

/// The number of a text of the tree. Where the table has it, nothing is copied and no memory is taken.
pub(crate) fn intern(heap: &mut Heap, units: &Units) -> Result<TextId, NoMemory>
    ensures number { IfOk result (λ id. (w : World) → StandsFor heap.old w → id ≡ number_of w.lists units.now) }
    ensures ok { OnOk result ((w : World) → StandsFor heap.old w → Goes heap.old heap.new w (changed (Interning units.now) w)) }
    ensures short { nat_le (length units.now) most_units ≡ true }
    ensures retains { Retains heap.old heap.new }
{
    let _length = units.len();
    match heap.find(units) {
        Some(id) => Ok(id),
        None => {
            let copy = copy_of(heap.alloc(), units)?;
            heap.intern(copy)
        }
    }
}

/// The key of a text (7.1.19). A text that is not there is empty.
pub(crate) fn key_of(heap: &Heap, text: TextId) -> PropKey
    ensures { (w : World) → StandsFor heap.now w → result ≡ key_of_text w.lists text }
{
    let texts = heap.texts_ref();
    if (text.0 as usize) < texts.len() {
        texts.key(text)
    } else {
        PropKey::Name(text)
    }
}

/// How many code units a text has. A text that is not there is empty.
pub(crate) fn text_len(heap: &Heap, text: TextId) -> usize
    ensures len { (w : World) → StandsFor heap.now w → result ≡ length (units_of w.lists text) }
    ensures most { result ≤ most_units }
{
    let texts = heap.texts_ref();
    if (text.0 as usize) < texts.len() {
        texts.units(text).len()
    } else {
        0
    }
}

/// One text after another (6.1.4), or None where they have too many code units together, and then nothing changes.
pub(crate) fn join(heap: &mut Heap, a: TextId, b: TextId) -> Result<Option<TextId>, NoMemory>
    ensures fits { IfOk result (λ text. (w : World) → StandsFor heap.old w → nat_le (length (units_of w.lists a) + length (units_of w.lists b)) most_units ≡ is_some text) }
    ensures number { IfOk result (λ text. IfSome text (λ id. (w : World) → StandsFor heap.old w → id ≡ number_of w.lists (units_of w.lists a ++ units_of w.lists b))) }
    ensures goes { IfOk result (λ text. (w : World) → StandsFor heap.old w → Goes heap.old heap.new w (joined_world w a b text)) }
    ensures retains { Retains heap.old heap.new }
{
    if text_len(heap, a) + text_len(heap, b) > MOST_UNITS {
        return Ok(None);
    }
    match heap.concat(a, b) {
        Ok(id) => Ok(Some(id)),
        Err(KeyFault::TooLong) => Ok(None),
        Err(KeyFault::NoMemory) => Err(NoMemory),
    }
}

/// A code unit of a text.
pub(crate) fn text_unit(heap: &Heap, text: TextId, index: u32) -> Option<u16>
    ensures { (w : World) → StandsFor heap.now w → result ≡ slice_get (units_of w.lists text) index }
{
    let texts = heap.texts_ref();
    if (text.0 as usize) < texts.len() {
        let units = texts.units(text);
        if (index as usize) < units.len() {
            Some(units.unit(index as usize))
        } else {
            None
        }
    } else {
        None
    }
}

/// The text of one code unit.
pub(crate) fn unit_text(heap: &mut Heap, unit: u16) -> Result<TextId, NoMemory>
    ensures number { IfOk result (λ id. (w : World) → StandsFor heap.old w → id ≡ number_of w.lists (unit ∷ [])) }
    ensures ok { OnOk result ((w : World) → StandsFor heap.old w → Goes heap.old heap.new w (changed (Interning (unit ∷ [])) w)) }
    ensures retains { Retains heap.old heap.new }
{
    let mut units = Units::new(heap.alloc());
    match units.push(unit) {
        Ok(()) => heap.intern(units),
        Err(_) => Err(NoMemory),
    }
}
