//! The heap, and what is read of it.

ghost use Rattle.std.specs.Prelude.{◌≡◌, length, IfOk};
ghost use Rattle.es_model.specs.StartWorld.{start_world};
ghost use Rattle.es_tree.specs.Tree.{Tree};
ghost use Rattle.es_model.specs.World.{World};
ghost use Rattle.object_heap.specs.Stands.{StandsFor};

use crate::cells::Cells;
use crate::objects::Objects;
use crate::origins::Origins;
use crate::starting::{start_symbols, start_texts};
use es_model::Turns;
use property_keys::{NoMemory, RunHashing, Symbols, Texts};
use std::alloc::Global;
use std::marker::Model;

/// The objects of a run with their properties, and its texts, Symbols, cells and turns.
///
/// Each call is total: at a number where no object is stands one that is closed and has no property, a text that is not there is empty, and so is a cell.
#[derive(Drop)]
pub struct Heap {
    pub(crate) alloc: Global,
    pub(crate) texts: Texts,
    pub(crate) symbols: Symbols,
    pub(crate) turns: Turns,
    pub(crate) cells: Cells,
    pub(crate) origins: Origins,
    pub(crate) objects: Objects,
}

impl Model for Heap {
    ghost use Rattle.object_heap.specs.Codes.{heap_code};
    ghost use Rattle.object_heap.specs.Stands.{HeapView};
    ghost use Rattle.object_heap.specs.Tables.{IsTable};

    ghost Value = { HeapView };

    ghost coded = { heap_code };

    ghost view = { λ h. record { objects = h.objects; texts = h.texts; symbols = h.symbols; cells = h.cells; turns = h.turns; origins = h.origins } };

    ghost invariant = { λ h. IsTable h.texts };
}

impl Heap {
    /// The start objects with their texts and Symbols, and so many turns. It is hashed as in a run of an empty file.
    pub fn new(alloc: Global, budget: u64) -> Result<Heap, NoMemory>
        ensures { IfOk result (λ heap. (script : Tree) → StandsFor heap (start_world script budget)) }
    {
        Heap::with_hashing(alloc, budget, RunHashing::of(&[]))
    }

    /// The start objects with their texts and Symbols, and so many turns. What the heap comes to does not hang on the hashing, only the time that it takes.
    pub fn with_hashing(alloc: Global, budget: u64, hashing: RunHashing) -> Result<Heap, NoMemory>
        ensures { IfOk result (λ heap. (script : Tree) → StandsFor heap (start_world script budget)) }
    {
        let texts = start_texts(alloc, hashing)?;
        let symbols = start_symbols(alloc)?;
        let objects = Objects::at_start(alloc)?;
        Ok(Heap {
            alloc,
            texts,
            symbols,
            turns: Turns::new(budget),
            cells: Cells::new(alloc),
            origins: Origins::new(alloc, hashing),
            objects,
        })
    }

    /// Where memory is taken from.
    pub fn alloc(&self) -> Global {
        self.alloc
    }

    /// How many objects there are.
    pub fn objects(&self) -> u32
        ensures { (w : World) → StandsFor self.now w → result ≡ length w.lists.objects }
    {
        self.objects.count()
    }

    /// The table of texts.
    pub fn texts_ref(&self) -> &Texts
        ensures { (w : World) → StandsFor self.now w → result.now ≡ w.lists.texts }
    {
        &self.texts
    }

    /// The Symbols.
    pub fn symbols_ref(&self) -> &Symbols
        ensures { (w : World) → StandsFor self.now w → result.now ≡ w.lists.symbols }
    {
        &self.symbols
    }

    /// The turns that are left.
    pub fn turns_ref(&self) -> &Turns
        ensures { (w : World) → StandsFor self.now w → result.now ≡ w.turns }
    {
        &self.turns
    }
}
