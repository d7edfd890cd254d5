//! Names of functions by their keys (ECMA-262, 10.2.9).

ghost use Rattle.std.specs.Prelude.{◌≡◌, ◌≤◌, ◌++◌, ◌∷◌, [], Some, IfOk, IfSome, is_some, length, nat_le};
ghost use Rattle.std.specs.Fmt.{decimal};
ghost use Rattle.property_keys.specs.declared.keys.PropKey.TheVariants.{Sym};
ghost use Rattle.property_keys.specs.Limits.{most_units};
ghost use Rattle.es_model.specs.World.{World, description, number_of};
ghost use Rattle.evaluator.specs.Functions.{bracketed, name_units, prefix_units};
ghost use Rattle.evaluator.specs.Lists.{Appends};
ghost use Rattle.evaluator.specs.Plans.{named_world};
ghost use Rattle.object_heap.specs.Retains.{Retains};
ghost use Rattle.object_heap.specs.Stands.{Goes, StandsFor};

use crate::texts::units_of;
use es_model::NamePrefix;
use object_heap::Heap;
use property_keys::{KeyFault, MOST_UNITS, NoMemory, PropKey, SymbolId, TextId, Units};
use std::alloc::Global;

/// The decimal code units of an array index.
fn index_units(alloc: Global, n: u32) -> Result<Units, NoMemory>
    ensures { IfOk result (λ units. units ≡ decimal n) }
{
    let Ok(text) = format!(in alloc; "{n}") else {
        return Err(NoMemory);
    };
    units_of(alloc, text.as_str().as_bytes())
}

// ---- code units behind others. False where they are too many, and then no more than some were added

fn append(units: &mut Units, more: &Units) -> Result<bool, NoMemory>
    ensures { IfOk result (λ fits. Appends units.old more.now units.new fits) }
{
    for i in 0..more.len() {
        match units.push(more.unit(i)) {
            Ok(()) => {}
            Err(KeyFault::TooLong) => return Ok(false),
            Err(KeyFault::NoMemory) => return Err(NoMemory),
        }
    }
    Ok(units.len() <= MOST_UNITS)
}

fn append_unit(units: &mut Units, unit: u16) -> Result<bool, NoMemory>
    ensures { IfOk result (λ fits. Appends units.old (unit ∷ []) units.new fits) }
{
    match units.push(unit) {
        Ok(()) => Ok(units.len() <= MOST_UNITS),
        Err(KeyFault::TooLong) => Ok(false),
        Err(KeyFault::NoMemory) => Err(NoMemory),
    }
}

/// A description in brackets.
fn append_bracketed(units: &mut Units, text: &Units) -> Result<bool, NoMemory>
    ensures { IfOk result (λ fits. Appends units.old (bracketed (Some text.now)) units.new fits) }
{
    if !append_unit(units, u16::from(b'['))? {
        return Ok(false);
    }
    if !append(units, text)? {
        return Ok(false);
    }
    append_unit(units, u16::from(b']'))
}

/// A Symbol's description, if it has one. A Symbol that is not there has none.
fn description_of(heap: &Heap, symbol: SymbolId) -> Option<TextId>
    ensures { (w : World) → StandsFor heap.now w → result ≡ description w.lists symbol }
{
    let symbols = heap.symbols_ref();
    if (symbol.0 as usize) < symbols.len() {
        symbols.description(symbol)
    } else {
        None
    }
}

fn append_symbol(heap: &Heap, units: &mut Units, symbol: SymbolId) -> Result<bool, NoMemory>
    ensures { IfOk result (λ fits. (w : World) → StandsFor heap.now w → Appends units.old (name_units w.lists (Sym symbol)) units.new fits) }
{
    match description_of(heap, symbol) {
        None => Ok(units.len() <= MOST_UNITS),
        Some(text) => append_bracketed(units, heap.units(text)),
    }
}

fn append_key(heap: &Heap, units: &mut Units, key: PropKey) -> Result<bool, NoMemory>
    ensures { IfOk result (λ fits. (w : World) → StandsFor heap.now w → Appends units.old (name_units w.lists key) units.new fits) }
{
    match key {
        PropKey::Index(index) => {
            let digits = index_units(heap.alloc(), index)?;
            append(units, &digits)
        }
        PropKey::Name(text) => append(units, heap.units(text)),
        PropKey::Sym(symbol) => append_symbol(heap, units, symbol),
    }
}

/// What stands before the key (10.2.9, step 5).
fn prefix_text(prefix: NamePrefix) -> &'static [u8]
    ensures text { result.now ≡ prefix_units prefix }
    ensures short { length result.now ≤ 100 }
{
    match prefix {
        NamePrefix::Nothing => b"",
        NamePrefix::Get => b"get ",
        NamePrefix::Set => b"set ",
    }
}

/// The name that a key gives a function, behind a prefix, or None where it has too many code units, and then nothing changes.
pub(crate) fn name_of_key(
    heap: &mut Heap,
    prefix: NamePrefix,
    key: PropKey,
) -> Result<Option<TextId>, NoMemory>
    ensures fits { IfOk result (λ text. (w : World) → StandsFor heap.old w → nat_le (length (prefix_units prefix ++ name_units w.lists key)) most_units ≡ is_some text) }
    ensures number { IfOk result (λ text. IfSome text (λ id. (w : World) → StandsFor heap.old w → id ≡ number_of w.lists (prefix_units prefix ++ name_units w.lists key))) }
    ensures goes { IfOk result (λ text. (w : World) → StandsFor heap.old w → Goes heap.old heap.new w (named_world w prefix key text)) }
    ensures retains { Retains heap.old heap.new }
{
    let mut units = units_of(heap.alloc(), prefix_text(prefix))?;
    if append_key(heap, &mut units, key)? {
        Ok(Some(heap.intern(units)?))
    } else {
        Ok(None)
    }
}
