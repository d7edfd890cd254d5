//! All cells.

ghost use Rattle.std.specs.Prelude.{◌≡◌, ◌<◌, ◌++◌, ◌∷◌, [], ℕ, true, length, IfOk, IfSome, IsNone, OnErr, OnOk};
ghost use Rattle.property_keys.specs.Counts.{counted};
ghost use Rattle.prototype_validity.specs.Cells.{Drops, GivesCell, HasNoCell, IsCellOf, after_change, cell_of, includes, new_cell};
ghost use Rattle.prototype_validity.specs.Registered.{IsListed};
ghost use Rattle.property_keys.specs.declared.identifiers.ObjectId.{ObjectId};

use crate::cell::Cell;
use crate::registry::Registry;
use crate::{CellId, ObjectList};
use property_keys::{Ledger, NoMemory, ObjectId, Steps};
use std::alloc::Global;
use std::collections::HashMap;
use std::marker::Model;

/// Validity cells, each with a chain of objects. A cell holds until one of the objects is changed.
#[derive(Drop)]
pub struct Validity {
    alloc: Global,
    cells: Vec<Cell>,
    /// The cell that was last made with a chain.
    newest: HashMap<ObjectList, u32>,
    registry: Registry,
}

impl Model for Validity {
    ghost use Rattle.std.specs.Prelude.{List};
    ghost use Rattle.std.specs.HashMap.{get};
    ghost use Rattle.std.specs.Str.{bytes_eq};
    ghost use Rattle.prototype_validity.specs.declared.cell.Cell.{Cell};
    ghost use Rattle.prototype_validity.specs.Sound.{IsSoundRegistry};

    ghost Value = { List Cell };

    ghost view = { λ v. v.cells.items };

    ghost invariant = { λ v. IsSoundRegistry (λ chain. get bytes_eq v.newest chain) v.registry v.cells.items };
}

impl Validity {
    /// No cells. It takes no memory.
    pub fn new(alloc: Global) -> Validity
        ensures { result ≡ [] }
    {
        Validity {
            alloc,
            cells: Vec::new(alloc),
            newest: HashMap::new(alloc),
            registry: Registry::new(alloc),
        }
    }

    /// How many cells there are.
    pub fn len(&self) -> usize
        ensures { result ≡ length self.now }
    {
        self.cells.len()
    }

    /// The cell with this chain that holds, or else a new one. There is room for 2^32 - 1 cells, and after `NoMemory` the cells are as before.
    pub fn cell_for(&mut self, chain: &ObjectList) -> Result<CellId, NoMemory>
        ensures { GivesCell self.old self.new chain.now result }
    {
        match self.known(chain) {
            Some(id) => Ok(id),
            None => self.made(chain),
        }
    }

    /// The cell with this chain that holds.
    fn known(&self, chain: &ObjectList) -> Option<CellId>
        ensures found { IfSome result (λ id. IsCellOf self.now chain.now id.0) }
        ensures none { IsNone result → HasNoCell self.now chain.now }
    {
        match self.newest.get(chain) {
            Some(number) => self.standing(*number, chain),
            None => None,
        }
    }

    fn standing(&self, number: u32, chain: &ObjectList) -> Option<CellId>
        ensures found { IfSome result (λ id. IsCellOf self.now chain.now id.0) }
        ensures none { IsNone result → IsCellOf self.now chain.now number → ⊥ }
    {
        if number as usize >= self.cells.len() {
            return None;
        }
        let cell = &self.cells[number as usize];
        if cell.holds && cell.chain == *chain {
            Some(CellId(number))
        } else {
            None
        }
    }

    fn made(&mut self, chain: &ObjectList) -> Result<CellId, NoMemory>
        requires { HasNoCell self.old chain.now }
        ensures id { IfOk result (λ id. id.0 ≡ length self.old) }
        ensures ok { OnOk result (self.new ≡ self.old ++ new_cell chain.now ∷ []) }
        ensures err { OnErr result (self.new ≡ self.old) }
    {
        let number = self.cells.len();
        if number >= u32::MAX as usize {
            return Err(NoMemory);
        }
        let own = chain.copied(self.alloc)?;
        let key = chain.copied(self.alloc)?;
        add_to_each(&mut self.registry, chain, number as u32)?;
        let Ok(_) = self.newest.insert(key, number as u32) else {
            return Err(NoMemory);
        };
        let cell = Cell {
            chain: own,
            holds: true,
        };
        let Ok(()) = self.cells.push(cell) else {
            return Err(NoMemory);
        };
        Ok(CellId(number as u32))
    }

    /// Whether a known cell holds, in one step: false exactly where `changed` was called on an object of its chain since the cell was made.
    pub fn holds<L: Ledger>(&self, cell: CellId, steps: &mut Steps<L>) -> bool
        requires { cell.0 < length self.now }
        ensures holds { result ≡ (cell_of self.now cell.0).holds }
        ensures steps { L.ticks steps.new ≡ counted (L.ticks steps.old) }
    {
        steps.tick();
        self.cells[cell.0 as usize].holds
    }

    /// From now on no cell holds that has this object on its chain. It goes over the cells that were made with the object since it was last changed. It takes no memory.
    pub fn changed(&mut self, object: ObjectId)
        ensures { self.new ≡ after_change self.old object.0 }
    {
        let count = self.registry.forget(object);
        for place in 0..count {
            if let Some(cell) = self.registry.cell(object, place) {
                drop_hold(&mut self.cells, cell, object);
            }
        }
    }
}

/// Puts a cell into the list of each object of a chain. What is listed stays so, after `NoMemory` too.
fn add_to_each(registry: &mut Registry, chain: &ObjectList, number: u32) -> Result<(), NoMemory>
    ensures listed { OnOk result ((o : ObjectId) → includes o.0 chain.now ≡ true → IsListed registry.new o number) }
    ensures kept { (o : ObjectId) (i : ℕ) → IsListed registry.old o i → IsListed registry.new o i }
{
    for i in 0..chain.len() {
        registry.add(chain.at(i), number)?;
    }
    Ok(())
}

/// Where there is a cell of this number with the object on its chain, it holds no more.
fn drop_hold(cells: &mut Vec<Cell>, number: u32, object: ObjectId)
    ensures { Drops cells.old.items cells.new.items object.0 number }
{
    if number as usize >= cells.len() {
        return;
    }
    if cells[number as usize].chain.includes(object) {
        cells[number as usize].holds = false;
    }
}
