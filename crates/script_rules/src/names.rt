//! The names that the parts of a script declare.

ghost use Rattle.std.specs.Prelude.{◌≡◌, ◌++◌, map, flat_map, IfOk, OnOk};
ghost use Rattle.std.specs.Option.{option_to_list};
ghost use Rattle.script_rules.specs.Arena.{IsPart, ArePart, tree_at, trees_at};
ghost use Rattle.script_rules.specs.Names.{members, bound_by, declared_as, declared_by, declared_in, declared_in_block, lexical_manner, parameters_in};
ghost use Rattle.script_rules.specs.Splits.{Splits};

use crate::{Declared, Manner, part};
use property_keys::NoMemory;
use script_grammar::{Atom, Pair, ParseNode, Script, Wrap};
use std::alloc::Global;

/// The front and the last member of a list that has members.
fn split_last(script: &Script, list: u32) -> Option<(u32, u32)>
    requires { IsPart script.now.nodes list }
    ensures { Splits script.now.nodes list result }
{
    match part(script, list) {
        ParseNode::Pair(Pair::And, front, last) => Some((front, last)),
        _ => None,
    }
}

/// The numbers of a list's members, in order. Any other part has none.
pub fn members(alloc: Global, script: &Script, list: u32) -> Result<Vec<u32>, NoMemory>
    requires { IsPart script.now.nodes list }
    ensures trees { IfOk result (λ v. trees_at script.now.nodes v.items ≡ members (tree_at script.now.nodes list)) }
    ensures parts { IfOk result (λ v. ArePart script.now.nodes v.items) }
{
    let mut found = Vec::new(alloc);
    let mut rest = list;
    'spine: while let Some((front, last)) = split_last(script, rest) {
        if found.push(last).is_err() {
            return Err(NoMemory);
        }
        rest = front;
    }
    found.reverse();
    Ok(found)
}

/// The name of a parameter or of a lexical name.
fn bound_by(script: &Script, n: u32) -> Option<u32>
    requires { IsPart script.now.nodes n }
    ensures { option_to_list result ≡ bound_by (tree_at script.now.nodes n) }
{
    match part(script, n) {
        ParseNode::Atom(Atom::Binding(name)) => Some(name),
        ParseNode::Wrap(Wrap::Binding(name), _) => Some(name),
        _ => None,
    }
}

/// Adds the names of a list of lexical names or parameters.
fn add_names(
    alloc: Global,
    script: &Script,
    list: u32,
    manner: Manner,
    declared: &mut Vec<Declared>,
) -> Result<(), NoMemory>
    requires { IsPart script.now.nodes list }
    ensures { OnOk result (declared.new.items ≡ declared.old.items ++ map (declared_as manner) (flat_map bound_by (members (tree_at script.now.nodes list)))) }
{
    let all = members(alloc, script, list)?;
    for n in &all {
        if let Some(name) = bound_by(script, *n) {
            if declared.push(Declared { name, manner }).is_err() {
                return Err(NoMemory);
            }
        }
    }
    Ok(())
}

/// `let` or `const`.
fn lexical_manner(constant: bool) -> Manner
    ensures { result ≡ lexical_manner constant }
{
    if constant { Manner::Const } else { Manner::Let }
}

/// Adds the names that one item declares (8.2.4, 8.2.10).
fn add_declared(
    alloc: Global,
    script: &Script,
    item: u32,
    declared: &mut Vec<Declared>,
) -> Result<(), NoMemory>
    requires { IsPart script.now.nodes item }
    ensures { OnOk result (declared.new.items ≡ declared.old.items ++ declared_by (tree_at script.now.nodes item)) }
{
    match part(script, item) {
        ParseNode::Wrap(Wrap::Lexical { constant, .. }, binds) => {
            add_names(alloc, script, binds, lexical_manner(constant), declared)
        }
        ParseNode::Pair(Pair::DeclaredFunction { name, .. }, _, _) => {
            let function = Declared {
                name,
                manner: Manner::Function,
            };
            declared.push(function).map_err(|_| NoMemory)
        }
        _ => Ok(()),
    }
}

/// The names that one item declares, in the order of the source (8.2.4, 8.2.10).
pub fn declared_by(alloc: Global, script: &Script, item: u32) -> Result<Vec<Declared>, NoMemory>
    requires { IsPart script.now.nodes item }
    ensures { IfOk result (λ v. v.items ≡ declared_by (tree_at script.now.nodes item)) }
{
    let mut declared = Vec::new(alloc);
    add_declared(alloc, script, item, &mut declared)?;
    Ok(declared)
}

/// The names that a list of items declares, in the order of the source.
pub fn declared_in(alloc: Global, script: &Script, items: u32) -> Result<Vec<Declared>, NoMemory>
    requires { IsPart script.now.nodes items }
    ensures { IfOk result (λ v. v.items ≡ declared_in (tree_at script.now.nodes items)) }
{
    let all = members(alloc, script, items)?;
    let mut declared = Vec::new(alloc);
    for item in &all {
        add_declared(alloc, script, *item, &mut declared)?;
    }
    Ok(declared)
}

/// The names of a parameter list.
pub fn parameters_in(
    alloc: Global,
    script: &Script,
    parameters: u32,
) -> Result<Vec<Declared>, NoMemory>
    requires { IsPart script.now.nodes parameters }
    ensures { IfOk result (λ v. v.items ≡ parameters_in (tree_at script.now.nodes parameters)) }
{
    let mut declared = Vec::new(alloc);
    add_names(alloc, script, parameters, Manner::Parameter, &mut declared)?;
    Ok(declared)
}

/// The names that the items of a block declare.
pub fn declared_in_block(
    alloc: Global,
    script: &Script,
    block: u32,
) -> Result<Vec<Declared>, NoMemory>
    requires { IsPart script.now.nodes block }
    ensures { IfOk result (λ v. v.items ≡ declared_in_block (tree_at script.now.nodes block)) }
{
    match part(script, block) {
        ParseNode::Wrap(Wrap::Block(_), items) => declared_in(alloc, script, items),
        _ => Ok(Vec::new(alloc)),
    }
}
