//! Calls on texts, Symbols, cells and turns.

ghost use Rattle.std.specs.Prelude.{◌≡◌, ◌+◌, ◌++◌, ◌<◌, ◌^◌, ◌↔◌, false, length, nat_le, true, IfOk, IfSome, IsErrOf, IsNone, OnErr, OnOk};
ghost use Rattle.property_keys.specs.Limits.{most_units};
ghost use Rattle.property_keys.specs.Decimals.{whole_units};
ghost use Rattle.property_keys.specs.Keys.{text_of_key};
ghost use Rattle.property_keys.specs.Texts.{text_at, IsUnknown};
ghost use Rattle.es_model.specs.Changes.{Interning, MakingCell, MakingSymbol, SettingCell, changed, charged};
ghost use Rattle.es_model.specs.World.{World, cell as cell_of, new_cell, new_symbol, number_of, units_of};
ghost use Rattle.object_heap.specs.Retains.{Retains};
ghost use Rattle.object_heap.specs.Stands.{Goes, Keeps, StandsFor};
ghost use Rattle.object_heap.specs.Tables.{IsTable};

use crate::Heap;
use es_model::{CellNo, Halted, StartText};
use property_keys::{KeyFault, NoMemory, PropKey, SymbolId, TextId, Units, Value};

impl Heap {
    /// The number of these code units, new or known.
    pub fn intern(&mut self, units: Units) -> Result<TextId, NoMemory>
        ensures number { IfOk result (λ id. (w : World) → StandsFor self.old w → id ≡ number_of w.lists units) }
        ensures ok { OnOk result ((w : World) → StandsFor self.old w → Goes self.old self.new w (changed (Interning units) w)) }
        ensures err { OnErr result (Keeps self.old self.new) }
        ensures retains { Retains self.old self.new }
    {
        let id = self.texts.intern(units)?;
        Ok(id)
    }

    /// The number of these code units, if a text has them. None exactly where none has; where one has, `intern` would change nothing.
    pub fn find(&self, units: &Units) -> Option<TextId>
        ensures number { IfSome result (λ id. (w : World) → StandsFor self.now w → id ≡ number_of w.lists units.now) }
        ensures known { IfSome result (λ id. (w : World) → StandsFor self.now w → Goes self.now self.now w (changed (Interning units.now) w)) }
        ensures none { (w : World) → StandsFor self.now w → IsNone result ↔ IsUnknown w.lists.texts units.now }
    {
        self.texts.find(units)
    }

    /// The number of the canonical decimal text of a whole number (ECMA-262, 6.1.6.1.20).
    pub fn whole_text(&mut self, n: i64) -> Result<TextId, NoMemory>
        ensures number { IfOk result (λ id. (w : World) → StandsFor self.old w → id ≡ number_of w.lists (whole_units n)) }
        ensures ok { OnOk result ((w : World) → StandsFor self.old w → Goes self.old self.new w (changed (Interning (whole_units n)) w)) }
        ensures err { OnErr result (Keeps self.old self.new) }
        ensures retains { Retains self.old self.new }
    {
        let id = self.texts.whole_text(n)?;
        Ok(id)
    }

    /// The number of a text that is there: a text that is not there is empty.
    pub(crate) fn known(&self, text: TextId) -> TextId
        ensures table { IsTable (self.now).texts }
        ensures known { result.0 < length (self.now).texts }
        ensures same { text_at (self.now).texts result.0 ≡ text_at (self.now).texts text.0 }
    {
        if (text.0 as usize) < self.texts.len() {
            text
        } else {
            StartText::Empty.number()
        }
    }

    /// The number of one text after another (6.1.4). TooLong exactly past 2^20 code units.
    pub fn concat(&mut self, a: TextId, b: TextId) -> Result<TextId, KeyFault>
        ensures number { IfOk result (λ id. (w : World) → StandsFor self.old w → id ≡ number_of w.lists (units_of w.lists a ++ units_of w.lists b)) }
        ensures ok { OnOk result ((w : World) → StandsFor self.old w → Goes self.old self.new w (changed (Interning (units_of w.lists a ++ units_of w.lists b)) w)) }
        ensures too_long { (w : World) → StandsFor self.old w → IsErrOf result KeyFault.TooLong ↔ (most_units < length (units_of w.lists a) + length (units_of w.lists b)) }
        ensures err { OnErr result (Keeps self.old self.new) }
        ensures retains { Retains self.old self.new }
    {
        let first = self.known(a);
        let second = self.known(b);
        let id = self.texts.concat(first, second)?;
        Ok(id)
    }

    /// The number of the text that a key stands for. A Symbol stands for none, and gets the empty text.
    pub fn key_text(&mut self, key: PropKey) -> Result<TextId, NoMemory>
        ensures number { IfOk result (λ id. (w : World) → StandsFor self.old w → id ≡ number_of w.lists (text_of_key w.lists.texts key)) }
        ensures ok { OnOk result ((w : World) → StandsFor self.old w → Goes self.old self.new w (changed (Interning (text_of_key w.lists.texts key)) w)) }
        ensures err { OnErr result (Keeps self.old self.new) }
        ensures retains { Retains self.old self.new }
    {
        match key {
            PropKey::Index(index) => self.whole_text(i64::from(index)),
            PropKey::Name(text) => Ok(self.known(text)),
            PropKey::Sym(_) => Ok(self.known(StartText::Empty.number())),
        }
    }

    /// A new Symbol.
    pub fn make_symbol(&mut self, description: Option<TextId>) -> Result<SymbolId, NoMemory>
        ensures symbol { IfOk result (λ symbol. (w : World) → StandsFor self.old w → symbol ≡ new_symbol w.lists) }
        ensures ok { OnOk result ((w : World) → StandsFor self.old w → Goes self.old self.new w (changed (MakingSymbol description) w)) }
        ensures err { OnErr result (Keeps self.old self.new) }
        ensures retains { Retains self.old self.new }
    {
        let symbol = self.symbols.make(description)?;
        Ok(symbol)
    }

    /// A new cell, with a value or empty.
    pub fn new_cell(&mut self, value: Option<Value>) -> Result<CellNo, NoMemory>
        ensures cell { IfOk result (λ cell. (w : World) → StandsFor self.old w → cell ≡ new_cell w.lists) }
        ensures ok { OnOk result ((w : World) → StandsFor self.old w → Goes self.old self.new w (changed (MakingCell value) w)) }
        ensures err { OnErr result (Keeps self.old self.new) }
        ensures retains { Retains self.old self.new }
    {
        let cell = self.cells.make(value)?;
        Ok(cell)
    }

    /// What a cell holds.
    pub fn cell(&self, cell: CellNo) -> Option<Value>
        ensures { (w : World) → StandsFor self.now w → result ≡ cell_of w.lists cell }
    {
        self.cells.get(cell)
    }

    /// Puts a value into a cell.
    pub fn set_cell(&mut self, cell: CellNo, value: Value)
        ensures goes { (w : World) → StandsFor self.old w → Goes self.old self.new w (changed (SettingCell cell value) w) }
        ensures retains { Retains self.old self.new }
    {
        self.cells.set(cell, value);
    }

    /// Takes turns. Halted exactly where fewer are left, and then nothing changes.
    pub fn charge(&mut self, n: u64) -> Result<(), Halted>
        ensures ok { OnOk result ((w : World) → StandsFor self.old w → (nat_le n w.turns ≡ true) × Goes self.old self.new w (charged w n)) }
        ensures halted { OnErr result ((w : World) → StandsFor self.old w → (nat_le n w.turns ≡ false) × Goes self.old self.new w w) }
        ensures retains { Retains self.old self.new }
    {
        self.turns.charge(n)?;
        Ok(())
    }
}
