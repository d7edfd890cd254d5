//! The visit to one part: its own faults are noted, and its parts are put off with what stands around them.

ghost use Rattle.std.specs.Prelude.{◌≡◌, ◌<◌, ◌+◌, ◌++◌, List, length, IfOk, OnOk};
ghost use Rattle.es_source.specs.declared.faults.SourceFault.{SourceFault};
ghost use Rattle.script_grammar.specs.Tree.{ParseTree as tree};
ghost use Rattle.script_grammar.specs.declared.labels.Wrap.TheVariants as wrap;
ghost use Rattle.script_grammar.specs.declared.labels.Quad.TheVariants as quad;
ghost use Rattle.script_rules.specs.declared.manner.Manner.TheVariants as manner;
ghost use Rattle.script_rules.specs.Arena.{IsPart, tree_at};
ghost use Rattle.script_rules.specs.Faults.{duplicates, faults, least};
ghost use Rattle.script_rules.specs.Visits.{IsCode, IsOptionalPart, OpensScope, around_in, code_faults, code_of_pair, code_size, list_of, loops, optional_binding, own_of_catch, own_of_code, own_of_pair, own_of_wrap, parameters_of, scope_of_code};
ghost use Rattle.script_rules.specs.Walks.{IsReady, Visits, around_task, size_at, size_of_parts};

use super::code::{Code, Parameters};
use super::duplicates::{duplicates, second_prototypes};
use super::order::earlier;
use super::rules::{
    binding_fault, delete_fault, loop_fault, return_fault, target_fault, use_fault,
};
use super::steps::{note, open, put_off, put_off_optional};
use super::walk::{Task, Walk};
use crate::{
    Declared, Manner, ScopeId, Scopes, declared_by, declared_in, declared_in_block, function_scope,
    parameters_in, part, part_scope,
};
use es_source::SourceFault;
use property_keys::NoMemory;
use script_grammar::{Atom, Pair, ParseNode, Quad, Script, Triple, Wrap};
use std::alloc::Global;

/// The fault of a label without parts.
fn own_of_atom(
    alloc: Global,
    script: &Script,
    scopes: &Scopes,
    task: Task,
    label: Atom,
) -> Option<SourceFault>
    requires { task.scope.0 < length scopes.now }
    ensures { result ≡ least (faults script.now.leaves (around_task scopes.now task) (tree.Atom label)) }
{
    match label {
        Atom::Name(token) => use_fault(alloc, script, scopes, task, token),
        Atom::Shorthand(token) => use_fault(alloc, script, scopes, task, token),
        Atom::Binding(token) => binding_fault(script, token),
        Atom::Break(token) => loop_fault(script, scopes, task, token),
        Atom::Continue(token) => loop_fault(script, scopes, task, token),
        Atom::Return(token) => return_fault(script, scopes, task, token),
        _ => None,
    }
}

/// The fault of a label with one part that makes no scope.
fn own_of_wrap(
    alloc: Global,
    script: &Script,
    scopes: &Scopes,
    task: Task,
    label: Wrap,
    inner: u32,
) -> Result<Option<SourceFault>, NoMemory>
    requires known { task.scope.0 < length scopes.now }
    requires part { IsPart script.now.nodes inner }
    ensures { IfOk result (λ f. f ≡ least (own_of_wrap script.now.leaves (around_task scopes.now task) label (tree_at script.now.nodes inner))) }
{
    match label {
        Wrap::Unary(op, token) => Ok(delete_fault(script, op, token, inner)),
        Wrap::Update { .. } => Ok(target_fault(script, inner)),
        Wrap::Object(_) => second_prototypes(alloc, script, inner),
        Wrap::Binding(token) => Ok(binding_fault(script, token)),
        Wrap::Return(token) => Ok(return_fault(script, scopes, task, token)),
        _ => Ok(None),
    }
}

/// The fault of a label with two parts that is no function.
fn own_of_pair(script: &Script, label: Pair, first: u32) -> Option<SourceFault>
    requires { IsPart script.now.nodes first }
    ensures { result ≡ least (own_of_pair script.now.leaves label (tree_at script.now.nodes first)) }
{
    match label {
        Pair::Assign(_) => target_fault(script, first),
        _ => None,
    }
}

/// Visits a block.
fn visit_block(
    alloc: Global,
    script: &Script,
    walk: &mut Walk,
    task: Task,
    items: u32,
) -> Result<(), NoMemory>
    requires ready { IsReady script.now.nodes walk.old }
    requires known { task.scope.0 < length walk.old.scopes }
    requires part { IsPart script.now.nodes items }
    ensures { OnOk result (Visits script.now.leaves script.now.nodes walk.old walk.new
        (faults script.now.leaves (around_task walk.old.scopes task) (tree.Wrap (wrap.Block 0) (tree_at script.now.nodes items))) (size_at script.now.nodes items)) }
{
    let names = declared_in(alloc, script, items)?;
    let fault = duplicates(alloc, script, &names)?;
    let scope = part_scope(alloc, script, &names)?;
    let inner = open(script, walk, fault, task.scope, scope)?;
    put_off(script, walk, items, inner, task.in_loop)
}

/// Some names, and then others.
fn joined(alloc: Global, first: &[Declared], second: &[Declared]) -> Result<Vec<Declared>, NoMemory>
    ensures { IfOk result (λ v. v.items ≡ first.now ++ second.now) }
{
    let mut names = Vec::new(alloc);
    if names.extend_from_slice(first).is_err() || names.extend_from_slice(second).is_err() {
        return Err(NoMemory);
    }
    Ok(names)
}

/// The fault of a catch with a parameter.
fn own_of_catch(
    alloc: Global,
    script: &Script,
    parameter: Declared,
    block: u32,
) -> Result<Option<SourceFault>, NoMemory>
    requires part { IsPart script.now.nodes block }
    requires manner { parameter.manner ≡ manner.Catch }
    ensures { IfOk result (λ f. f ≡ least (own_of_catch script.now.leaves parameter.name (tree_at script.now.nodes block))) }
{
    let declared = declared_in_block(alloc, script, block)?;
    let names = joined(alloc, &[parameter], &declared)?;
    let twice = duplicates(alloc, script, &names)?;
    Ok(earlier(binding_fault(script, parameter.name), twice))
}

/// Visits a catch with a parameter.
fn visit_catch(
    alloc: Global,
    script: &Script,
    walk: &mut Walk,
    task: Task,
    name: u32,
    block: u32,
) -> Result<(), NoMemory>
    requires ready { IsReady script.now.nodes walk.old }
    requires known { task.scope.0 < length walk.old.scopes }
    requires part { IsPart script.now.nodes block }
    ensures { OnOk result (Visits script.now.leaves script.now.nodes walk.old walk.new
        (faults script.now.leaves (around_task walk.old.scopes task) (tree.Wrap (wrap.CatchName name) (tree_at script.now.nodes block))) (size_at script.now.nodes block)) }
{
    let parameter = Declared {
        name,
        manner: Manner::Catch,
    };
    let fault = own_of_catch(alloc, script, parameter, block)?;
    let scope = part_scope(alloc, script, &[parameter])?;
    let inner = open(script, walk, fault, task.scope, scope)?;
    put_off(script, walk, block, inner, task.in_loop)
}

/// Visits a label with one part.
fn visit_wrap(
    alloc: Global,
    script: &Script,
    walk: &mut Walk,
    task: Task,
    label: Wrap,
    inner: u32,
) -> Result<(), NoMemory>
    requires ready { IsReady script.now.nodes walk.old }
    requires known { task.scope.0 < length walk.old.scopes }
    requires part { IsPart script.now.nodes inner }
    ensures { OnOk result (Visits script.now.leaves script.now.nodes walk.old walk.new
        (faults script.now.leaves (around_task walk.old.scopes task) (tree.Wrap label (tree_at script.now.nodes inner))) (size_at script.now.nodes inner)) }
{
    match label {
        Wrap::Block(_) => visit_block(alloc, script, walk, task, inner),
        Wrap::CatchName(name) => visit_catch(alloc, script, walk, task, name, inner),
        _ => {
            let fault = own_of_wrap(alloc, script, &walk.scopes, task, label, inner)?;
            note(script, walk, fault);
            put_off(script, walk, inner, task.scope, task.in_loop)
        }
    }
}

/// The names of a function's parameters.
fn parameters_of(
    alloc: Global,
    script: &Script,
    parameters: Parameters,
) -> Result<Vec<Declared>, NoMemory>
    requires { IsOptionalPart script.now.nodes (list_of parameters) }
    ensures { IfOk result (λ v. v.items ≡ parameters_of script.now.nodes parameters) }
{
    match parameters {
        Parameters::Nothing => Ok(Vec::new(alloc)),
        Parameters::One(name) => {
            let parameter = Declared {
                name,
                manner: Manner::Parameter,
            };
            joined(alloc, &[parameter], &[])
        }
        Parameters::Listed(list) => parameters_in(alloc, script, list),
    }
}

/// The parameter list of a function that has one.
fn list_of(parameters: Parameters) -> Option<u32>
    ensures { result ≡ list_of parameters }
{
    match parameters {
        Parameters::Listed(list) => Some(list),
        _ => None,
    }
}

/// The fault of a function's name and of its names.
fn own_of_code(
    alloc: Global,
    script: &Script,
    bound: Option<u32>,
    parameters: &[Declared],
    declared: &[Declared],
) -> Result<Option<SourceFault>, NoMemory>
    ensures { IfOk result (λ f. f ≡ least (optional_binding script.now.leaves bound ++ duplicates script.now.leaves (parameters.now ++ declared.now))) }
{
    let names = joined(alloc, parameters, declared)?;
    let twice = duplicates(alloc, script, &names)?;
    match bound {
        Some(name) => Ok(earlier(binding_fault(script, name), twice)),
        None => Ok(twice),
    }
}

/// Notes the fault of a function's names, and enters its scope.
fn open_code(
    alloc: Global,
    script: &Script,
    walk: &mut Walk,
    outer: ScopeId,
    code: Code,
) -> Result<ScopeId, NoMemory>
    requires ready { IsReady script.now.nodes walk.old }
    requires known { outer.0 < length walk.old.scopes }
    requires code { IsCode script.now.nodes code }
    ensures { IfOk result (λ id. OpensScope script.now.leaves script.now.nodes walk.old walk.new
        (own_of_code script.now.leaves script.now.nodes code) outer (scope_of_code script.now.leaves script.now.nodes code) id) }
{
    let parameters = parameters_of(alloc, script, code.parameters)?;
    let declared = declared_in(alloc, script, code.body)?;
    let fault = own_of_code(alloc, script, code.bound, &parameters, &declared)?;
    let scope = function_scope(alloc, script, code.callee, &parameters, &declared)?;
    open(script, walk, fault, outer, scope)
}

/// Visits a function of any kind.
fn visit_code(
    alloc: Global,
    script: &Script,
    walk: &mut Walk,
    task: Task,
    code: Code,
) -> Result<(), NoMemory>
    requires ready { IsReady script.now.nodes walk.old }
    requires known { task.scope.0 < length walk.old.scopes }
    requires code { IsCode script.now.nodes code }
    ensures { OnOk result (Visits script.now.leaves script.now.nodes walk.old walk.new
        (code_faults script.now.leaves script.now.nodes (around_task walk.old.scopes task) code) (code_size script.now.nodes code)) }
{
    put_off_optional(script, walk, code.key, task.scope, task.in_loop)?;
    let inner = open_code(alloc, script, walk, task.scope, code)?;
    put_off_optional(script, walk, list_of(code.parameters), inner, false)?;
    put_off(script, walk, code.body, inner, false)
}

/// Notes a fault, and puts two parts off in the scope of a task.
fn visit_both(
    script: &Script,
    walk: &mut Walk,
    task: Task,
    fault: Option<SourceFault>,
    parts: (u32, u32),
    in_loop: bool,
) -> Result<(), NoMemory>
    requires ready { IsReady script.now.nodes walk.old }
    requires known { task.scope.0 < length walk.old.scopes }
    requires first { IsPart script.now.nodes parts.0 }
    requires second { IsPart script.now.nodes parts.1 }
    ensures { OnOk result ((own : List SourceFault) → fault ≡ least own → Visits script.now.leaves script.now.nodes walk.old walk.new
        (own ++ faults script.now.leaves (around_task walk.old.scopes task) (tree_at script.now.nodes parts.0)
        ++ faults script.now.leaves (around_in walk.old.scopes task.scope in_loop) (tree_at script.now.nodes parts.1))
        (size_at script.now.nodes parts.0 + size_at script.now.nodes parts.1)) }
{
    note(script, walk, fault);
    put_off(script, walk, parts.0, task.scope, task.in_loop)?;
    put_off(script, walk, parts.1, task.scope, in_loop)
}

/// Visits a label with two parts.
fn visit_pair(
    alloc: Global,
    script: &Script,
    walk: &mut Walk,
    task: Task,
    label: Pair,
    parts: (u32, u32),
) -> Result<(), NoMemory>
    requires ready { IsReady script.now.nodes walk.old }
    requires known { task.scope.0 < length walk.old.scopes }
    requires first { IsPart script.now.nodes parts.0 }
    requires second { IsPart script.now.nodes parts.1 }
    ensures { OnOk result (Visits script.now.leaves script.now.nodes walk.old walk.new
        (faults script.now.leaves (around_task walk.old.scopes task) (tree.Pair label (tree_at script.now.nodes parts.0) (tree_at script.now.nodes parts.1)))
        (size_at script.now.nodes parts.0 + size_at script.now.nodes parts.1)) }
{
    match code_of_pair(label, parts) {
        Some(code) => visit_code(alloc, script, walk, task, code),
        None => {
            let fault = own_of_pair(script, label, parts.0);
            visit_both(script, walk, task, fault, parts, loops(label, task.in_loop))
        }
    }
}

/// The function that a label with two parts stands for.
fn code_of_pair(label: Pair, parts: (u32, u32)) -> Option<Code>
    ensures { result ≡ code_of_pair label parts.0 parts.1 }
{
    let plain = Code {
        key: None,
        bound: None,
        callee: None,
        parameters: Parameters::Listed(parts.0),
        body: parts.1,
    };
    let accessor = Code {
        key: Some(parts.0),
        parameters: Parameters::Nothing,
        ..plain
    };
    match label {
        Pair::Function(_) => Some(plain),
        Pair::NamedFunction { name, .. } => Some(Code {
            bound: Some(name),
            callee: Some(name),
            ..plain
        }),
        Pair::DeclaredFunction { name, .. } => Some(Code {
            bound: Some(name),
            ..plain
        }),
        Pair::Getter(_) => Some(accessor),
        Pair::Setter { parameter, .. } => Some(Code {
            bound: Some(parameter),
            parameters: Parameters::One(parameter),
            ..accessor
        }),
        _ => None,
    }
}

/// Whether the second part stands in a loop.
fn loops(label: Pair, in_loop: bool) -> bool
    ensures { result ≡ loops label in_loop }
{
    match label {
        Pair::While(_) => true,
        _ => in_loop,
    }
}

/// Visits a label with three parts.
fn visit_triple(
    alloc: Global,
    script: &Script,
    walk: &mut Walk,
    task: Task,
    label: Triple,
    parts: (u32, u32, u32),
) -> Result<(), NoMemory>
    requires ready { IsReady script.now.nodes walk.old }
    requires known { task.scope.0 < length walk.old.scopes }
    requires first { IsPart script.now.nodes parts.0 }
    requires second { IsPart script.now.nodes parts.1 }
    requires third { IsPart script.now.nodes parts.2 }
    ensures { OnOk result (Visits script.now.leaves script.now.nodes walk.old walk.new
        (faults script.now.leaves (around_task walk.old.scopes task) (tree.Triple label (tree_at script.now.nodes parts.0) (tree_at script.now.nodes parts.1) (tree_at script.now.nodes parts.2)))
        (size_at script.now.nodes parts.0 + size_at script.now.nodes parts.1 + size_at script.now.nodes parts.2)) }
{
    match label {
        Triple::Method => {
            let code = Code {
                key: Some(parts.0),
                bound: None,
                callee: None,
                parameters: Parameters::Listed(parts.1),
                body: parts.2,
            };
            visit_code(alloc, script, walk, task, code)
        }
        _ => {
            visit_both(script, walk, task, None, (parts.0, parts.1), task.in_loop)?;
            put_off(script, walk, parts.2, task.scope, task.in_loop)
        }
    }
}

/// Visits a `for` with its head and its statement.
fn visit_for(
    alloc: Global,
    script: &Script,
    walk: &mut Walk,
    task: Task,
    parts: (u32, u32, u32, u32),
) -> Result<(), NoMemory>
    requires ready { IsReady script.now.nodes walk.old }
    requires known { task.scope.0 < length walk.old.scopes }
    requires first { IsPart script.now.nodes parts.0 }
    requires second { IsPart script.now.nodes parts.1 }
    requires third { IsPart script.now.nodes parts.2 }
    requires fourth { IsPart script.now.nodes parts.3 }
    ensures { OnOk result (Visits script.now.leaves script.now.nodes walk.old walk.new
        (faults script.now.leaves (around_task walk.old.scopes task)
        (tree.Quad (quad.For 0) (tree_at script.now.nodes parts.0) (tree_at script.now.nodes parts.1) (tree_at script.now.nodes parts.2) (tree_at script.now.nodes parts.3)))
        (size_at script.now.nodes parts.0 + size_at script.now.nodes parts.1 + size_at script.now.nodes parts.2 + size_at script.now.nodes parts.3)) }
{
    let names = declared_by(alloc, script, parts.0)?;
    let fault = duplicates(alloc, script, &names)?;
    let scope = part_scope(alloc, script, &names)?;
    let inner = open(script, walk, fault, task.scope, scope)?;
    put_off(script, walk, parts.0, inner, task.in_loop)?;
    put_off(script, walk, parts.1, inner, task.in_loop)?;
    put_off(script, walk, parts.2, inner, task.in_loop)?;
    put_off(script, walk, parts.3, inner, true)
}

/// Visits a label with four parts.
fn visit_quad(
    alloc: Global,
    script: &Script,
    walk: &mut Walk,
    task: Task,
    label: Quad,
    parts: (u32, u32, u32, u32),
) -> Result<(), NoMemory>
    requires ready { IsReady script.now.nodes walk.old }
    requires known { task.scope.0 < length walk.old.scopes }
    requires first { IsPart script.now.nodes parts.0 }
    requires second { IsPart script.now.nodes parts.1 }
    requires third { IsPart script.now.nodes parts.2 }
    requires fourth { IsPart script.now.nodes parts.3 }
    ensures { OnOk result (Visits script.now.leaves script.now.nodes walk.old walk.new
        (faults script.now.leaves (around_task walk.old.scopes task)
        (tree.Quad label (tree_at script.now.nodes parts.0) (tree_at script.now.nodes parts.1) (tree_at script.now.nodes parts.2) (tree_at script.now.nodes parts.3)))
        (size_at script.now.nodes parts.0 + size_at script.now.nodes parts.1 + size_at script.now.nodes parts.2 + size_at script.now.nodes parts.3)) }
{
    match label {
        Quad::For(_) => visit_for(alloc, script, walk, task, parts),
    }
}

/// Visits a part.
pub fn visit(alloc: Global, script: &Script, walk: &mut Walk, task: Task) -> Result<(), NoMemory>
    requires ready { IsReady script.now.nodes walk.old }
    requires known { task.scope.0 < length walk.old.scopes }
    requires part { IsPart script.now.nodes task.node }
    ensures { OnOk result (Visits script.now.leaves script.now.nodes walk.old walk.new
        (faults script.now.leaves (around_task walk.old.scopes task) (tree_at script.now.nodes task.node)) (size_of_parts (tree_at script.now.nodes task.node))) }
{
    match part(script, task.node) {
        ParseNode::Atom(label) => {
            let fault = own_of_atom(alloc, script, &walk.scopes, task, label);
            note(script, walk, fault);
            Ok(())
        }
        ParseNode::Wrap(label, inner) => visit_wrap(alloc, script, walk, task, label, inner),
        ParseNode::Pair(label, x, y) => visit_pair(alloc, script, walk, task, label, (x, y)),
        ParseNode::Triple(label, x, y, z) => {
            visit_triple(alloc, script, walk, task, label, (x, y, z))
        }
        ParseNode::Quad(label, x, y, z, w) => {
            visit_quad(alloc, script, walk, task, label, (x, y, z, w))
        }
    }
}
