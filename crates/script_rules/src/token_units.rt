//! Code units of tokens.

ghost use Rattle.std.specs.Prelude.{◌≡◌, IfOk};
ghost use Rattle.script_rules.specs.Names.{units_at};

use crate::units_at;
use property_keys::{NoMemory, Units};
use script_grammar::Script;
use std::alloc::Global;

/// A copy of the code units of a name, a word or a text. Any other token has none.
pub fn own_units_at(alloc: Global, script: &Script, token: u32) -> Result<Units, NoMemory>
    ensures { IfOk result (λ u. u ≡ units_at script.now.leaves token) }
{
    match units_at(script, token) {
        Some(units) => units.copied(alloc),
        None => Ok(Units::new(alloc)),
    }
}
