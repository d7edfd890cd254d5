//! Cells: bindings with a value or none yet.

ghost use Rattle.std.specs.Prelude.{◌≡◌, ◌++◌, ◌∷◌, [], length, slice_get, slice_set, IfOk, OnErr, OnOk, Some};
ghost use Rattle.es_model.specs.World.{cell_in};

use es_model::CellNo;
use property_keys::{NoMemory, Value};
use std::alloc::Global;
use std::marker::Model;

/// The cells: bindings with their values, empty before their initialisation (ECMA-262, 9.1.1.1).
#[derive(Drop)]
pub(crate) struct Cells {
    all: Vec<Option<Value>>,
}

impl Model for Cells {
    ghost use Rattle.std.specs.Prelude.{List, Option};
    ghost use Rattle.property_keys.specs.declared.values.Value.{Value as Datum};

    ghost Value = { List (Option Datum) };

    ghost view = { λ c. c.all.items };
}

impl Cells {
    pub(crate) fn new(alloc: Global) -> Cells
        ensures { result ≡ [] }
    {
        Cells {
            all: Vec::new(alloc),
        }
    }

    /// A new cell. There is room for 2^32 - 1.
    pub(crate) fn make(&mut self, value: Option<Value>) -> Result<CellNo, NoMemory>
        ensures cell { IfOk result (λ cell. cell ≡ record { 0 = length self.old }) }
        ensures ok { OnOk result (self.new ≡ self.old ++ value ∷ []) }
        ensures err { OnErr result (self.new ≡ self.old) }
    {
        let count = self.all.len();
        if count >= u32::MAX as usize {
            return Err(NoMemory);
        }
        match self.all.push(value) {
            Ok(()) => Ok(CellNo(count as u32)),
            Err(_) => Err(NoMemory),
        }
    }

    /// What a cell holds. A cell that is not there is empty.
    pub(crate) fn get(&self, cell: CellNo) -> Option<Value>
        ensures { result ≡ cell_in (slice_get self.now cell.0) }
    {
        match self.all.get(cell.0 as usize) {
            Some(value) => *value,
            None => None,
        }
    }

    /// Puts a value into a cell that is there.
    pub(crate) fn set(&mut self, cell: CellNo, value: Value)
        ensures { self.new ≡ slice_set self.old cell.0 (Some value) }
    {
        if (cell.0 as usize) < self.all.len() {
            self.all[cell.0 as usize] = Some(value);
        }
    }
}
