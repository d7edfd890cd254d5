//! More objects, texts, Symbols and cells than sixteen bits count, with ample memory.

use es_model::{CellNo, ObjectKind, StartText};
use map_store::OriginId;
use object_heap::Heap;
use property_keys::{Counting, NoMemory, ObjectId, Steps, SymbolId, TextId, Value};
use std::alloc::Global;
use std::test::Fail;

/// What a heap is given many of.
#[derive(Clone, Copy)]
enum Many {
    Objects,
    Texts,
    Symbols,
    Cells,
}

/// One more than sixteen bits have numbers.
const COUNT: u32 = 65_537;

/// What is made, and the number of the first one: behind 41 objects, 37 texts and 3 Symbols at the start.
static ROWS: [(Many, u32); 4] = [
    (Many::Objects, 41),
    (Many::Texts, 37),
    (Many::Symbols, 3),
    (Many::Cells, 0),
];

/// The number of a new one. A text is that of the count, an object has the prototype of that number, and a cell has that number as its value.
fn made(heap: &mut Heap, many: Many, n: u32) -> Result<u32, NoMemory> {
    match many {
        Many::Objects => {
            let mut steps = Steps::new(Counting::new());
            let object = heap.make(
                ObjectKind::Ordinary,
                OriginId(0),
                Some(ObjectId(n)),
                &mut steps,
            )?;
            Ok(object.0)
        }
        Many::Texts => {
            let text = heap.whole_text(i64::from(n))?;
            Ok(text.0)
        }
        Many::Symbols => {
            let symbol = heap.make_symbol(Some(StartText::Name.number()))?;
            Ok(symbol.0)
        }
        Many::Cells => {
            let cell = heap.new_cell(Some(Value::Whole(i64::from(n))))?;
            Ok(cell.0)
        }
    }
}

/// Whether the one of this number is still as it was made.
fn is_kept(heap: &mut Heap, many: Many, number: u32, n: u32) -> Result<bool, NoMemory> {
    match many {
        Many::Objects => Ok(heap.proto(ObjectId(number)) == Some(ObjectId(n))),
        Many::Texts => {
            let text = heap.whole_text(i64::from(n))?;
            Ok(text == TextId(number))
        }
        Many::Symbols => {
            let symbols = heap.symbols_ref();
            Ok(
                (number as usize) < symbols.len()
                    && symbols.description(SymbolId(number)) == Some(StartText::Name.number()),
            )
        }
        Many::Cells => Ok(heap.cell(CellNo(number)) == Some(Value::Whole(i64::from(n)))),
    }
}

/// Which one was made with another number than the next.
fn first_wrong(heap: &mut Heap, many: Many, first: u32) -> Result<Option<u32>, NoMemory> {
    for n in 0..COUNT {
        if made(heap, many, n)? != first.saturating_add(n) {
            return Ok(Some(n));
        }
    }
    Ok(None)
}

/// Which one is no longer as it was made.
fn first_lost(heap: &mut Heap, many: Many, first: u32) -> Result<Option<u32>, NoMemory> {
    for n in 0..COUNT {
        if !is_kept(heap, many, first.saturating_add(n), n)? {
            return Ok(Some(n));
        }
    }
    Ok(None)
}

/// The first row of which one has a wrong number or is lost.
fn wrong_row(alloc: Global) -> Result<Option<usize>, NoMemory> {
    for (i, row) in ROWS.iter().enumerate() {
        let mut heap = Heap::new(alloc, 0)?;
        if first_wrong(&mut heap, row.0, row.1)?.is_some()
            || first_lost(&mut heap, row.0, row.1)?.is_some()
        {
            return Ok(Some(i));
        }
    }
    Ok(None)
}

#[test]
fn more_than_sixteen_bits_count(rt: HostRuntime) -> Result<(), Fail> {
    assert_eq!(rt; wrong_row(rt.alloc())?, None);
    Ok(())
}
