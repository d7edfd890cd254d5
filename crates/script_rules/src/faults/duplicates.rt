//! Duplicate: names that are bound twice in one scope, and prototypes that are set twice by one literal.

ghost use Rattle.std.specs.Prelude.{◌≡◌, ◌++◌, drop, flat_map, IfOk, OnOk, true};
ghost use Rattle.std.specs.Option.{option_to_list};
ghost use Rattle.es_source.specs.declared.faults.FaultCode.TheVariants as code;
ghost use Rattle.script_rules.specs.Arena.{IsPart, tree_at};
ghost use Rattle.script_rules.specs.Faults.{clashes, duplicates, fault_where, least, prototype_key, second_prototypes};
ghost use Rattle.script_rules.specs.Names.{members};
ghost use Rattle.script_rules.specs.Seen.{clash_with, stronger};

use super::order::earlier;
use super::rules::{fault_where, has_text};
use crate::{Declared, Manner, members, own_units_at, part};
use es_source::{FaultCode, SourceFault};
use indexmap::IndexMap;
use property_keys::{NoMemory, Units};
use script_grammar::{Atom, NameHashing, Pair, ParseNode, Script};
use std::alloc::Global;

/// Whether a name may not be declared in the later manner where it was declared in the earlier.
fn clashes(earlier: Manner, later: Manner) -> bool
    ensures { result ≡ clashes earlier later }
{
    match earlier {
        Manner::Function => !matches!(later, Manner::Function | Manner::Parameter),
        Manner::Parameter => !matches!(later, Manner::Function),
        _ => true,
    }
}

/// Whether a name clashes with those of its kind before it, of which this manner tells most.
fn clash_with(before: Option<Manner>, later: Manner) -> bool
    ensures { result ≡ clash_with before later }
{
    match before {
        Some(earlier) => clashes(earlier, later),
        None => false,
    }
}

/// Of two manners the one with which more manners clash.
fn stronger(before: Option<Manner>, later: Manner) -> Manner
    ensures { result ≡ stronger before later }
{
    match before {
        None => later,
        Some(Manner::Function) => later,
        Some(Manner::Parameter) => {
            if matches!(later, Manner::Function) {
                Manner::Parameter
            } else {
                later
            }
        }
        Some(other) => other,
    }
}

/// The least Duplicate of the names of one scope, in the order of the source.
pub fn duplicates(
    alloc: Global,
    script: &Script,
    declared: &[Declared],
) -> Result<Option<SourceFault>, NoMemory>
    ensures { IfOk result (λ f. f ≡ least (duplicates script.now.leaves declared.now)) }
{
    let mut seen: IndexMap<Units, Manner, NameHashing> = IndexMap::with_hasher(
        alloc,
        script.hashing(),
    );
    let mut found = None;
    for d in declared {
        let units = own_units_at(alloc, script, d.name)?;
        let before = seen.get(&units).copied();
        let is_fault = clash_with(before, d.manner);
        found = earlier(
            found,
            fault_where(script, is_fault, FaultCode::Duplicate, d.name),
        );
        let Ok(_) = seen.insert(units, stronger(before, d.manner)) else {
            return Err(NoMemory);
        };
    }
    Ok(found)
}

/// The name of a property definition that sets the prototype.
fn prototype_key(script: &Script, property: u32) -> Option<u32>
    requires { IsPart script.now.nodes property }
    ensures { option_to_list result ≡ prototype_key script.now.leaves (tree_at script.now.nodes property) }
{
    let ParseNode::Pair(Pair::Property, name, _) = part(script, property) else {
        return None;
    };
    match part(script, name) {
        ParseNode::Atom(Atom::Key(token)) => {
            if has_text(script, token, b"__proto__") {
                Some(token)
            } else {
                None
            }
        }
        _ => None,
    }
}

/// The names of the property definitions of a literal that set the prototype.
fn prototype_keys(alloc: Global, script: &Script, properties: u32) -> Result<Vec<u32>, NoMemory>
    requires { IsPart script.now.nodes properties }
    ensures { IfOk result (λ v. v.items ≡ flat_map (prototype_key script.now.leaves) (members (tree_at script.now.nodes properties))) }
{
    let all = members(alloc, script, properties)?;
    let mut keys = Vec::new(alloc);
    for n in &all {
        if let Some(key) = prototype_key(script, *n) {
            if keys.push(key).is_err() {
                return Err(NoMemory);
            }
        }
    }
    Ok(keys)
}

/// The least Duplicate at one of these tokens.
fn least_at(script: &Script, tokens: &[u32]) -> Option<SourceFault>
    ensures { result ≡ least (flat_map (fault_where true script.now.leaves code.Duplicate) tokens.now) }
{
    let mut found = None;
    for token in tokens {
        found = earlier(
            found,
            fault_where(script, true, FaultCode::Duplicate, *token),
        );
    }
    found
}

/// The least Duplicate of the prototypes that one literal sets.
pub fn second_prototypes(
    alloc: Global,
    script: &Script,
    properties: u32,
) -> Result<Option<SourceFault>, NoMemory>
    requires { IsPart script.now.nodes properties }
    ensures { IfOk result (λ f. f ≡ least (second_prototypes script.now.leaves (tree_at script.now.nodes properties))) }
{
    let keys = prototype_keys(alloc, script, properties)?;
    match keys.split_first() {
        Some((_, later)) => Ok(least_at(script, later)),
        None => Ok(None),
    }
}
