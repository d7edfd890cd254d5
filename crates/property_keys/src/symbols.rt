//! Symbols with their descriptions.

ghost use Rattle.std.specs.Prelude.{◌≡◌, ◌<◌, [], length, Some, slice_get};
ghost use Rattle.property_keys.specs.Symbols.{MakesSymbol};

use crate::{NoMemory, SymbolId, TextId};
use std::alloc::Global;
use std::marker::Model;

/// The Symbols, each with its description if it has one (ECMA-262, 6.1.5).
#[derive(Drop)]
pub struct Symbols {
    descriptions: Vec<Option<TextId>>,
}

impl Model for Symbols {
    ghost use Rattle.std.specs.Prelude.{List, Option, length, ◌<◌, ◌^◌};
    ghost use Rattle.property_keys.specs.declared.identifiers.TextId.{TextId};

    ghost Value = { List (Option TextId) };

    ghost view = { λ s. s.descriptions.items };

    ghost invariant = { λ s. length s.descriptions.items < 2 ^ 32 };
}

impl Symbols {
    /// A table without Symbols.
    pub fn new(alloc: Global) -> Symbols
        ensures { result ≡ [] }
    {
        Symbols {
            descriptions: Vec::new(alloc),
        }
    }

    /// How many Symbols there are.
    pub fn len(&self) -> usize
        ensures { result ≡ length self.now }
    {
        self.descriptions.len()
    }

    /// A new Symbol. There is room for 2^32 - 1, and past them the answer is `NoMemory`.
    pub fn make(&mut self, description: Option<TextId>) -> Result<SymbolId, NoMemory>
        ensures { MakesSymbol self.old self.new description result }
    {
        let count = self.descriptions.len();
        if count >= u32::MAX as usize {
            return Err(NoMemory);
        }
        match self.descriptions.push(description) {
            Ok(()) => Ok(SymbolId(count as u32)),
            Err(_) => Err(NoMemory),
        }
    }

    /// None exactly where the Symbol was made without a description.
    pub fn description(&self, symbol: SymbolId) -> Option<TextId>
        requires { symbol.0 < length self.now }
        ensures { slice_get self.now symbol.0 ≡ Some result }
    {
        self.descriptions[symbol.0 as usize]
    }
}
