//! Functions after their bodies.

ghost use Rattle.std.specs.Prelude.{◌≡◌, IfOk};
ghost use Rattle.script_rules.specs.Arena.{IsPart, tree_at};
ghost use Rattle.script_rules.specs.Faults.{own_units};
ghost use Rattle.script_checker.specs.Made.{declaration_made, expression_made, function_made, method_added, method_function, next_function, next_node};
ghost use Rattle.script_checker.specs.Machine.{around_of};
ghost use Rattle.script_checker.specs.Making.{Adds, Makes};
ghost use Rattle.script_checker.specs.Spots.{IsKnown, IsSpot};
ghost use Rattle.script_checker.specs.Values.{function_of, functions_in};

use crate::lists::nodes_in;
use crate::own::own_facts;
use crate::tokens::named;
use crate::{MadePart, MadePartList, MadeParts, Maker, Setting, Spot, Stack, TextSet};
use es_source::Place;
use es_tree::{
    Body, DeclaredFunction, FunctionFacts, FunctionNo, Items, Named, Node, NodeId, Primary,
};
use property_keys::{NoMemory, Units};
use script_grammar::{NameHashing, Script};
use script_rules::{Scopes, own_units_at};
use std::alloc::Global;

/// What is written of a function before its body: its first token, its name, how many parameters it has, and whether it can construct.
#[derive(Clone, Copy)]
pub struct Header {
    pub place: Place,
    pub name: Option<u32>,
    pub parameters: usize,
    pub constructor: bool,
}

/// A member that is a declared function.
fn function_of(item: MadePart) -> Option<(FunctionNo, Named)>
    ensures { result ≡ function_of item }
{
    match item {
        MadePart::Function(function, named) => Some((function, named)),
        _ => None,
    }
}

/// The declared functions among the members from the last on, each with whether it is the last one of its name.
fn functions_back(
    alloc: Global,
    hashing: NameHashing,
    items: MadePartList,
) -> Result<Stack<DeclaredFunction>, NoMemory>
    ensures { IfOk result (λ functions. functions ≡ functions_in items) }
{
    let mut names = TextSet::new(alloc, hashing);
    let mut functions = Stack::new(alloc);
    let mut rest = items.into_vec();
    'back: while let Some(item) = rest.pop() {
        if let Some((function, named)) = function_of(item) {
            let is_last = !names.contains(&named.name);
            names.add(named.name.copied(alloc)?)?;
            functions.push(DeclaredFunction {
                function,
                named,
                is_last,
            })?;
        }
    }
    Ok(functions)
}

/// The declared functions among the members, each with whether it is the last one of its name.
pub fn functions_in(
    alloc: Global,
    hashing: NameHashing,
    items: MadePartList,
) -> Result<Items<DeclaredFunction>, NoMemory>
    ensures { IfOk result (λ functions. functions ≡ functions_in items) }
{
    let mut back = functions_back(alloc, hashing, items)?;
    let mut functions = Items::new(alloc);
    'forth: while let Some(function) = back.pop() {
        functions.push(function)?;
    }
    Ok(functions)
}

/// The name that is written at a function.
fn own_units(alloc: Global, script: &Script, name: Option<u32>) -> Result<Option<Units>, NoMemory>
    ensures { IfOk result (λ u. u ≡ own_units script.now.leaves name) }
{
    match name {
        Some(token) => Ok(Some(own_units_at(alloc, script, token)?)),
        None => Ok(None),
    }
}

/// A number of parameters. There is room for 2^32 - 1.
fn number(count: usize) -> Result<u32, NoMemory>
    ensures { IfOk result (λ n. n ≡ count) }
{
    u32::try_from(count).map_err(|_| NoMemory)
}

/// A function after its body, within what stands around that body.
pub fn function_made(
    maker: &mut Maker,
    script: &Script,
    scopes: &Scopes,
    inner: Setting,
    header: Header,
    code: u32,
    items: MadePartList,
) -> Result<FunctionNo, NoMemory>
    requires known { IsKnown scopes.now inner }
    requires code { IsPart script.now.nodes code }
    ensures { Adds (function_made script.now.leaves (around_of scopes.now inner) header.place header.constructor header.name header.parameters (tree_at script.now.nodes code) items maker.old) (next_function maker.old) maker.new result }
{
    let alloc = maker.alloc();
    let own = own_facts(alloc, script, code)?;
    let facts = FunctionFacts {
        place: header.place,
        parameters: number(header.parameters)?,
        this_names: own.this_names,
        constructor: header.constructor,
        strict: inner.strict,
    };
    let body = Body {
        name: own_units(alloc, script, header.name)?,
        names: scopes.names(inner.scope),
        arguments: own.arguments,
        items: nodes_in(alloc, items.as_slice())?,
        declared: functions_in(alloc, script.hashing(), items)?,
    };
    maker.function(facts, body)
}

/// A function expression.
pub fn expression_made(
    maker: &mut Maker,
    script: &Script,
    scopes: &Scopes,
    spot: Spot,
    name: Option<u32>,
    parameters: usize,
    items: MadePartList,
) -> Result<MadeParts, NoMemory>
    requires { IsSpot script.now.nodes scopes.now spot }
    ensures { Makes (expression_made script.now.leaves (around_of scopes.now spot.inner) spot.place name parameters (tree_at script.now.nodes spot.last) items maker.old) maker.new result }
{
    let header = Header {
        place: spot.place,
        name,
        parameters,
        constructor: true,
    };
    let function = function_made(maker, script, scopes, spot.inner, header, spot.last, items)?;
    maker.primary(spot.place, Primary::Function(function))
}

/// A declared function, which is no node.
pub fn declaration_made(
    maker: &mut Maker,
    script: &Script,
    scopes: &Scopes,
    spot: Spot,
    name: u32,
    parameters: usize,
    items: MadePartList,
) -> Result<MadeParts, NoMemory>
    requires { IsSpot script.now.nodes scopes.now spot }
    ensures { Makes (declaration_made script.now.leaves (around_of scopes.now spot.around) (around_of scopes.now spot.inner) spot.place name parameters (tree_at script.now.nodes spot.last) items maker.old) maker.new result }
{
    let header = Header {
        place: spot.place,
        name: Some(name),
        parameters,
        constructor: true,
    };
    let own = named(maker.alloc(), script, scopes, spot.around.scope, name)?;
    let function = function_made(maker, script, scopes, spot.inner, header, spot.last, items)?;
    Ok(MadeParts::One(MadePart::Function(function, own)))
}

/// The function of a method or of an accessor, and the node at which it is made.
pub fn method_node(
    maker: &mut Maker,
    script: &Script,
    scopes: &Scopes,
    spot: Spot,
    parameters: usize,
    items: MadePartList,
) -> Result<NodeId, NoMemory>
    requires { IsSpot script.now.nodes scopes.now spot }
    ensures { Adds (method_added script.now.leaves (around_of scopes.now spot.inner) spot.place parameters (tree_at script.now.nodes spot.last) items maker.old) (next_node (method_function script.now.leaves (around_of scopes.now spot.inner) spot.place parameters (tree_at script.now.nodes spot.last) items maker.old)) maker.new result }
{
    let header = Header {
        place: spot.place,
        name: None,
        parameters,
        constructor: false,
    };
    let function = function_made(maker, script, scopes, spot.inner, header, spot.last, items)?;
    maker.add_node(spot.place, Node::Primary(Primary::Method(function)))
}
