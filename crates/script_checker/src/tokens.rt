//! What the tokens of a script say.

ghost use Rattle.std.specs.Prelude.{◌≡◌, ◌<◌, bytes_eq, length, IfOk};
ghost use Rattle.property_keys.specs.Decimals.{whole_units};
ghost use Rattle.script_rules.specs.Chains.{chain_at};
ghost use Rattle.script_rules.specs.Names.{units_at};
ghost use Rattle.script_checker.specs.Made.{binding_in, key_at, named, number_at, place_of};

use es_source::Place;
use es_tree::{Binding, Named};
use property_keys::{NoMemory, Units};
use script_grammar::{LeafKind, Script};
use script_rules::{Resolved, ScopeId, Scopes, leaf_at, own_units_at, units_at};
use std::alloc::Global;

/// The place of a token.
pub fn place_of(script: &Script, token: Option<u32>) -> Place
    ensures { result ≡ place_of script.now.leaves token }
{
    let Some(number) = token else {
        return Place { line: 0, column: 0 };
    };
    match leaf_at(script, number) {
        Some(leaf) => leaf.place,
        None => Place { line: 0, column: 0 },
    }
}

/// The number that a token says.
pub fn number_at(script: &Script, token: u32) -> i64
    ensures { result ≡ number_at script.now.leaves token }
{
    match leaf_at(script, token) {
        Some(leaf) => match leaf.kind {
            LeafKind::Number(n) => n,
            _ => 0,
        },
        None => 0,
    }
}

/// The decimal of a number.
fn decimal(alloc: Global, n: i64) -> Result<Units, NoMemory>
    ensures { IfOk result (λ u. u ≡ whole_units n) }
{
    let Ok(text) = format!(in alloc; "{n}") else {
        return Err(NoMemory);
    };
    text_units(alloc, text.as_str().as_bytes())
}

/// A text, one code unit for each byte.
pub fn text_units(alloc: Global, bytes: &[u8]) -> Result<Units, NoMemory>
    ensures { IfOk result (λ u. u ≡ bytes.now) }
{
    let mut units = Units::new(alloc);
    for byte in bytes {
        if units.push(u16::from(*byte)).is_err() {
            return Err(NoMemory);
        }
    }
    Ok(units)
}

/// Whether a token has these code units, of which there are some.
pub fn is_spelled(script: &Script, token: u32, text: &Units) -> bool
    requires { 0 < length text.now }
    ensures { result ≡ bytes_eq (units_at script.now.leaves token) text.now }
{
    match units_at(script, token) {
        Some(units) => *units == *text,
        None => false,
    }
}

/// The property name that a token is. That of a number is its decimal.
pub fn key_at(alloc: Global, script: &Script, token: u32) -> Result<Units, NoMemory>
    ensures { IfOk result (λ u. u ≡ key_at script.now.leaves token) }
{
    if let Some(leaf) = leaf_at(script, token) {
        if let LeafKind::Number(n) = leaf.kind {
            return decimal(alloc, n);
        }
    }
    own_units_at(alloc, script, token)
}

/// What a name is bound to. Of a name that a body may not use it is the global one.
fn binding_in(resolved: Resolved) -> Binding
    ensures { result ≡ binding_in resolved }
{
    match resolved {
        Resolved::Finds(binding) => binding,
        Resolved::Captures => Binding::Global,
    }
}

/// A name with what it is bound to within a known scope.
pub fn named(
    alloc: Global,
    script: &Script,
    scopes: &Scopes,
    scope: ScopeId,
    token: u32,
) -> Result<Named, NoMemory>
    requires { scope.0 < length scopes.now }
    ensures { IfOk result (λ n. n ≡ named script.now.leaves (chain_at scopes.now scope.0) token) }
{
    let name = own_units_at(alloc, script, token)?;
    let binding = binding_in(scopes.resolved(scope, &name));
    Ok(Named { name, binding })
}
