//! The leaves of a script: what its tokens say, and where they stand.

ghost use Rattle.std.specs.Prelude.{◌≡◌, ◌++◌, ◌∷◌, [], IfOk, OnOk, map};
ghost use Rattle.script_grammar.specs.Scripts.{leaf_of, leaf_kind};

use es_source::{Token, TokenKind};
use property_keys::NoMemory;
use script_grammar::{Leaf, LeafKind};
use script_syntax::Tokens;
use std::alloc::Global;

fn leaf_kind(alloc: Global, kind: &TokenKind) -> Result<LeafKind, NoMemory>
    ensures { IfOk result (λ leaf. leaf ≡ leaf_kind kind.now) }
{
    match kind {
        TokenKind::Name(units) => Ok(LeafKind::Name(units.copied(alloc)?)),
        TokenKind::Number(value) => Ok(LeafKind::Number(*value)),
        TokenKind::Text { units, strict } => Ok(LeafKind::Text {
            units: units.copied(alloc)?,
            strict: *strict,
        }),
        TokenKind::Punctuator(_) => Ok(LeafKind::Punctuator),
    }
}

fn leaf_of(alloc: Global, token: &Token) -> Result<Leaf, NoMemory>
    ensures { IfOk result (λ leaf. leaf ≡ leaf_of token.now) }
{
    Ok(Leaf {
        kind: leaf_kind(alloc, &token.kind)?,
        place: token.place,
    })
}

fn push_leaf(leaves: &mut Vec<Leaf>, leaf: Leaf) -> Result<(), NoMemory>
    ensures { OnOk result (leaves.new.items ≡ leaves.old.items ++ leaf ∷ []) }
{
    match leaves.push(leaf) {
        Ok(()) => Ok(()),
        Err(_) => Err(NoMemory),
    }
}

/// One leaf for each token.
pub fn leaves_of(alloc: Global, tokens: &Tokens) -> Result<Vec<Leaf>, NoMemory>
    ensures { IfOk result (λ leaves. leaves.items ≡ map leaf_of tokens.now.tokens) }
{
    let mut leaves = Vec::new(alloc);
    for i in 0..tokens.len() {
        push_leaf(&mut leaves, leaf_of(alloc, tokens.at(i))?)?;
    }
    Ok(leaves)
}
