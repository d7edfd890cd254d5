//! The cells of the names that are in force where a body is evaluated.

ghost use Rattle.std.specs.Prelude.{◌≡◌, ◌++◌, ◌∷◌, [], OnOk, length, take};
ghost use Rattle.es_model.specs.World.{World};
ghost use Rattle.object_heap.specs.Retains.{Retains};
ghost use Rattle.object_heap.specs.Stands.{Goes, StandsFor};
ghost use Rattle.evaluator.specs.References.{cell_in_force};
ghost use Rattle.evaluator.specs.Scopes.{fresh_cells, world_with};
ghost use Rattle.es_model.specs.Kept.{AreCells};

use es_model::CellNo;
use object_heap::Heap;
use property_keys::NoMemory;
use std::alloc::Global;
use std::marker::Model;

/// The cells of the names that are in force.
#[derive(Drop)]
pub(crate) struct Cells {
    all: Vec<CellNo>,
}

impl Model for Cells {
    ghost use Rattle.std.specs.Prelude.{List};
    ghost use Rattle.es_model.specs.declared.kinds.CellNo.{CellNo as Place};

    ghost Value = { List Place };

    ghost view = { λ c. c.all.items };
}

impl Cells {
    pub(crate) fn new(alloc: Global) -> Cells
        ensures { result ≡ [] }
    {
        Cells {
            all: Vec::new(alloc),
        }
    }

    pub(crate) fn push(&mut self, cell: CellNo) -> Result<(), NoMemory>
        ensures ok { OnOk result (self.new ≡ self.old ++ cell ∷ []) }
    {
        match self.all.push(cell) {
            Ok(()) => Ok(()),
            Err(_) => Err(NoMemory),
        }
    }

    pub(crate) fn truncate(&mut self, n: usize)
        ensures { self.new ≡ take n self.old }
    {
        self.all.truncate(n);
    }

    pub(crate) fn len(&self) -> usize
        ensures { result ≡ length self.now }
    {
        self.all.len()
    }

    /// The cell at a place.
    pub(crate) fn at(&self, place: u32) -> CellNo
        ensures { result ≡ cell_in_force self.now place }
    {
        match self.all.get(place as usize) {
            Some(cell) => *cell,
            None => CellNo(0),
        }
    }
}

/// So many cells without a value.
pub(crate) fn make_cells(heap: &mut Heap, cells: &mut Cells, n: u32) -> Result<(), NoMemory>
    ensures goes { OnOk result ((w : World) → StandsFor heap.old w → Goes heap.old heap.new w (world_with n w)) }
    ensures front { OnOk result (take (length cells.old) cells.new ≡ cells.old) }
    ensures cells { OnOk result ((w : World) → StandsFor heap.old w → cells.new ≡ cells.old ++ fresh_cells n w) }
    ensures known { (w v : World) → StandsFor heap.old w → StandsFor heap.new v → AreCells v.lists cells.old → OnOk result (AreCells v.lists cells.new) }
    ensures retains { Retains heap.old heap.new }
{
    let mut left = n;
    'cells: while left > 0 {
        let cell = heap.new_cell(None)?;
        cells.push(cell)?;
        left -= 1;
    }
    Ok(())
}
