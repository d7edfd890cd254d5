//! The names that the parts of a script declare, and what names are bound to within scopes. Tokens are numbered from 0.

ghost use Rattle.std.specs.Prelude.{◌<◌, IfOk, length};
ghost use Rattle.script_rules.specs.Arena.{IsPart};
ghost use Rattle.script_rules.specs.Splits.{Splits};

use super::reading::parsed;
use es_tree::Binding;
use script_grammar::{Pair, ParseNode, Script};
use script_rules::{
    Declared, Manner, Resolved, ScopeId, Scopes, declared_by, declared_in, declared_in_block,
    function_scope, members, own_units_at, parameters_in, part, part_scope, script_scope,
};
use std::alloc::Global;
use std::process::Abort;
use std::test::Fail;

static FUNCTION: &str =
    "function f(a, b) { let c, d = e; const g = h; function i() {} { let j; } }";

const fn declared(name: u32, manner: Manner) -> Declared {
    Declared { name, manner }
}

fn are_names(rt: &impl Abort, found: &[Declared], wanted: &[Declared]) {
    assert!(rt; found == wanted);
}

/// The front and the last member of a list that has members.
fn split(script: &Script, list: u32) -> Option<(u32, u32)>
    requires { IsPart script.now.nodes list }
    ensures { Splits script.now.nodes list result }
{
    match part(script, list) {
        ParseNode::Pair(Pair::And, front, last) => Some((front, last)),
        _ => None,
    }
}

/// The names of the items of the function's body, of the last one, a block, and of the second.
fn check_body(rt: &impl Abort, alloc: Global, script: &Script, body: u32) -> Result<(), Fail>
    requires { IsPart script.now.nodes body }
{
    let wanted = [
        declared(9, Manner::Let),
        declared(11, Manner::Let),
        declared(16, Manner::Const),
        declared(21, Manner::Function),
    ];
    are_names(rt, &declared_in(alloc, script, body)?, &wanted);
    let Some((front, block)) = split(script, body) else {
        panic!(rt; "no items");
    };
    let wanted = [declared(28, Manner::Let)];
    are_names(rt, &declared_in_block(alloc, script, block)?, &wanted);
    let Some((front, _)) = split(script, front) else {
        panic!(rt; "one item");
    };
    let Some((_, constant)) = split(script, front) else {
        panic!(rt; "two items");
    };
    let wanted = [declared(16, Manner::Const)];
    are_names(rt, &declared_by(alloc, script, constant)?, &wanted);
    let items = members(alloc, script, body)?;
    assert!(rt; items.len() == 4 && items[1] == constant && items[3] == block);
    Ok(())
}

/// The names of the function's parameters and of its body.
fn check_function(
    rt: &impl Abort,
    alloc: Global,
    script: &Script,
    function: u32,
) -> Result<(), Fail>
    requires { IsPart script.now.nodes function }
{
    let ParseNode::Pair(Pair::DeclaredFunction { .. }, parameters, body) = part(script, function)
    else {
        panic!(rt; "no function");
    };
    let wanted = [
        declared(3, Manner::Parameter),
        declared(5, Manner::Parameter),
    ];
    are_names(rt, &parameters_in(alloc, script, parameters)?, &wanted);
    check_body(rt, alloc, script, body)
}

#[test]
fn names_are_read_off(rt: HostRuntime) -> Result<(), Fail> {
    let script = parsed(rt.alloc(), FUNCTION.as_bytes())?;
    let root = script.root();
    let wanted = [declared(1, Manner::Function)];
    are_names(&rt, &declared_in(rt.alloc(), &script, root)?, &wanted);
    let Some((_, function)) = split(&script, root) else {
        panic!(rt; "no items");
    };
    check_function(&rt, rt.alloc(), &script, function)
}

// its tokens are the names
static NAMES: &str = "a\nb\nc\nd\ne\narguments\ng\nh";

/// Whether a name is bound to that within a scope.
fn binds(
    rt: &impl Abort,
    alloc: Global,
    script: &Script,
    scopes: &Scopes,
    at: (ScopeId, u32),
    wanted: Resolved,
) -> Result<(), Fail>
    requires { at.0.0 < length scopes.now }
{
    let units = own_units_at(alloc, script, at.1)?;
    assert_eq!(rt; scopes.resolved(at.0, &units), wanted);
    Ok(())
}

/// A function within the script: `a` and `b` are the script's names; `d`, `e` and `c` the function's, whose own name is `g`.
fn two_scopes(alloc: Global, script: &Script) -> Result<(Scopes, ScopeId, ScopeId), Fail>
    ensures { IfOk result (λ r. (r.1.0 < length r.0) × (r.2.0 < length r.0)) }
{
    let mut scopes = Scopes::new(alloc);
    let names = [
        declared(0, Manner::Let),
        declared(1, Manner::Const),
        declared(2, Manner::Function),
    ];
    let top = scopes.enter(None, script_scope(alloc, script, &names)?)?;
    let inner = [declared(4, Manner::Function), declared(2, Manner::Const)];
    let scope = function_scope(
        alloc,
        script,
        Some(6),
        &[declared(3, Manner::Parameter)],
        &inner,
    )?;
    let outer = scopes.enter(Some(top), scope)?;
    Ok((scopes, top, outer))
}

#[test]
fn names_are_bound(rt: HostRuntime) -> Result<(), Fail> {
    let alloc = rt.alloc();
    let script = parsed(alloc, NAMES.as_bytes())?;
    let (scopes, top, outer) = two_scopes(alloc, &script)?;
    assert_eq!(rt; scopes.names(top), 2);
    assert_eq!(rt; scopes.names(outer), 3);
    assert!(rt; !scopes.is_in_function(top) && scopes.is_in_function(outer));
    let cell = |cell, constant| Resolved::Finds(Binding::Top { cell, constant });
    let own = |place, constant| Resolved::Finds(Binding::Own { place, constant });
    binds(&rt, alloc, &script, &scopes, (top, 1), cell(1, true))?;
    binds(&rt, alloc, &script, &scopes, (outer, 0), cell(0, false))?;
    binds(&rt, alloc, &script, &scopes, (outer, 4), own(1, false))?;
    binds(&rt, alloc, &script, &scopes, (outer, 2), own(2, true))?;
    binds(
        &rt,
        alloc,
        &script,
        &scopes,
        (outer, 5),
        Resolved::Finds(Binding::Arguments),
    )?;
    binds(
        &rt,
        alloc,
        &script,
        &scopes,
        (outer, 6),
        Resolved::Finds(Binding::Callee),
    )?;
    binds(
        &rt,
        alloc,
        &script,
        &scopes,
        (top, 5),
        Resolved::Finds(Binding::Global),
    )?;
    Ok(())
}

#[test]
fn names_of_a_block_and_of_functions_around(rt: HostRuntime) -> Result<(), Fail> {
    let alloc = rt.alloc();
    let script = parsed(alloc, NAMES.as_bytes())?;
    let (mut scopes, _, outer) = two_scopes(alloc, &script)?;
    let names = [declared(1, Manner::Let)];
    let block = scopes.enter(Some(outer), part_scope(alloc, &script, &names)?)?;
    let own = Resolved::Finds(Binding::Own {
        place: 3,
        constant: false,
    });
    binds(&rt, alloc, &script, &scopes, (block, 1), own)?;
    let scope = function_scope(alloc, &script, None, &[], &[])?;
    let inner = scopes.enter(Some(block), scope)?;
    binds(&rt, alloc, &script, &scopes, (inner, 1), Resolved::Captures)?;
    binds(&rt, alloc, &script, &scopes, (inner, 3), Resolved::Captures)?;
    binds(&rt, alloc, &script, &scopes, (inner, 6), Resolved::Captures)?;
    binds(
        &rt,
        alloc,
        &script,
        &scopes,
        (inner, 5),
        Resolved::Finds(Binding::Arguments),
    )?;
    Ok(())
}
