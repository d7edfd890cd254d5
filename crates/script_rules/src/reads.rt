//! What stands at a number of a script.

ghost use Rattle.std.specs.Prelude.{◌≡◌, slice_get, option_map};
ghost use Rattle.script_rules.specs.Arena.{IsPart, HasParts};
ghost use Rattle.script_rules.specs.Names.{units_at, units_of};

use property_keys::Units;
use script_grammar::{Leaf, LeafKind, ParseNode, Script};

/// The node of a part, whose own parts are parts too, with numbers below its own.
pub fn part(script: &Script, n: u32) -> ParseNode
    requires { IsPart script.now.nodes n }
    ensures { HasParts script.now.nodes n result }
{
    script.node(n)
}

/// The leaf of a token. None exactly where there is no token of that number.
pub fn leaf_at(script: &Script, token: u32) -> Option<&Leaf>
    ensures { option_map (λ x. x.now) result ≡ slice_get script.now.leaves token }
{
    if (token as usize) < script.leaves() {
        Some(script.leaf(token))
    } else {
        None
    }
}

/// The code units of a name, a word or a text. Any other token has none.
pub fn units_at(script: &Script, token: u32) -> Option<&Units>
    ensures { units_of (option_map (λ x. x.now) result) ≡ units_at script.now.leaves token }
{
    match &leaf_at(script, token)?.kind {
        LeafKind::Name(units) => Some(units),
        LeafKind::Text { units, .. } => Some(units),
        LeafKind::Number(_) => None,
        LeafKind::Punctuator => None,
    }
}
