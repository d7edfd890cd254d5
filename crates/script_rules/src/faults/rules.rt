//! One static rule each: the least fault that a label has by it.

ghost use Rattle.std.specs.Prelude.{◌≡◌, ◌<◌, true, bytes_eq, length};
ghost use Rattle.script_rules.specs.Arena.{IsPart, tree_at};
ghost use Rattle.script_rules.specs.Faults.{binding_faults, delete_faults, fault_where, is_delete, is_fixed_name, is_name, least, loop_faults, return_faults, target_faults, use_faults};
ghost use Rattle.script_rules.specs.Names.{units_at};
ghost use Rattle.script_rules.specs.Scopes.{is_captured};
ghost use Rattle.script_rules.specs.Walks.{around_task, Parenthesised};

use super::walk::Task;
use crate::{Resolved, Scopes, leaf_at, part, units_at};
use es_source::{FaultCode, SourceFault};
use es_tree::UnaryOperator;
use property_keys::Units;
use script_grammar::{Atom, ParseNode, Script, Wrap};
use std::alloc::Global;

/// A fault at a token.
fn fault_at(script: &Script, code: FaultCode, token: u32) -> Option<SourceFault>
    ensures { result ≡ least (fault_where true script.now.leaves code token) }
{
    let leaf = leaf_at(script, token)?;
    Some(SourceFault {
        code,
        place: leaf.place,
    })
}

/// A fault at a token, where there is one.
pub fn fault_where(
    script: &Script,
    is_fault: bool,
    code: FaultCode,
    token: u32,
) -> Option<SourceFault>
    ensures { result ≡ least (fault_where is_fault script.now.leaves code token) }
{
    if is_fault {
        fault_at(script, code, token)
    } else {
        None
    }
}

/// Whether a token is a name, a word or a text with this value.
pub fn has_text(script: &Script, token: u32, text: &[u8]) -> bool
    ensures { result ≡ bytes_eq (units_at script.now.leaves token) text.now }
{
    match units_at(script, token) {
        Some(units) => units.is_ascii(text),
        None => text.is_empty(),
    }
}

/// Whether a name is `eval` or `arguments`.
fn is_fixed_name(script: &Script, token: u32) -> bool
    ensures { result ≡ is_fixed_name (units_at script.now.leaves token) }
{
    has_text(script, token, b"eval") || has_text(script, token, b"arguments")
}

/// BadBinding of a name that is bound.
pub fn binding_fault(script: &Script, name: u32) -> Option<SourceFault>
    ensures { result ≡ least (binding_faults script.now.leaves name) }
{
    let is_fault = is_fixed_name(script, name) || has_text(script, name, b"undefined");
    fault_where(script, is_fault, FaultCode::BadBinding, name)
}

/// BadBinding of what is assigned to or updated.
pub fn target_fault(script: &Script, target: u32) -> Option<SourceFault>
    requires { IsPart script.now.nodes target }
    ensures { result ≡ least (target_faults script.now.leaves (tree_at script.now.nodes target)) }
{
    match part(script, target) {
        ParseNode::Atom(Atom::Name(name)) => {
            fault_where(
                script,
                is_fixed_name(script, name),
                FaultCode::BadBinding,
                name,
            )
        }
        _ => None,
    }
}

/// Whether a name is bound to what its function may not use.
fn is_captured(resolved: Resolved) -> bool
    ensures { result ≡ is_captured resolved }
{
    matches!(resolved, Resolved::Captures)
}

/// Capture of a name that is used.
pub fn use_fault(
    alloc: Global,
    script: &Script,
    scopes: &Scopes,
    task: Task,
    name: u32,
) -> Option<SourceFault>
    requires { task.scope.0 < length scopes.now }
    ensures { result ≡ least (use_faults script.now.leaves (around_task scopes.now task) name) }
{
    let resolved = match units_at(script, name) {
        Some(units) => scopes.resolved(task.scope, units),
        None => scopes.resolved(task.scope, &Units::new(alloc)),
    };
    fault_where(script, is_captured(resolved), FaultCode::Capture, name)
}

/// Misplaced of a `return`.
pub fn return_fault(script: &Script, scopes: &Scopes, task: Task, word: u32) -> Option<SourceFault>
    requires { task.scope.0 < length scopes.now }
    ensures { result ≡ least (return_faults script.now.leaves (around_task scopes.now task) word) }
{
    let is_fault = !scopes.is_in_function(task.scope);
    fault_where(script, is_fault, FaultCode::Misplaced, word)
}

/// Misplaced of a `break` or a `continue`.
pub fn loop_fault(script: &Script, scopes: &Scopes, task: Task, word: u32) -> Option<SourceFault>
    ensures { result ≡ least (loop_faults script.now.leaves (around_task scopes.now task) word) }
{
    fault_where(script, !task.in_loop, FaultCode::Misplaced, word)
}

/// What stands in a parenthesis.
fn parenthesised(script: &Script, n: u32) -> Option<u32>
    requires { IsPart script.now.nodes n }
    ensures { Parenthesised script.now.nodes n result }
{
    match part(script, n) {
        ParseNode::Wrap(Wrap::Parenthesis(_), inner) => Some(inner),
        _ => None,
    }
}

/// Whether a part is a name, also in parentheses.
fn is_name(script: &Script, n: u32) -> bool
    requires { IsPart script.now.nodes n }
    ensures { result ≡ is_name (tree_at script.now.nodes n) }
{
    let mut inner = n;
    'inwards: while let Some(next) = parenthesised(script, inner) {
        inner = next;
    }
    matches!(part(script, inner), ParseNode::Atom(Atom::Name(_)))
}

/// Whether an operator is `delete`.
fn is_delete(op: UnaryOperator) -> bool
    ensures { result ≡ is_delete op }
{
    matches!(op, UnaryOperator::Delete)
}

/// Misplaced of a `delete`.
pub fn delete_fault(
    script: &Script,
    op: UnaryOperator,
    word: u32,
    operand: u32,
) -> Option<SourceFault>
    requires { IsPart script.now.nodes operand }
    ensures { result ≡ least (delete_faults script.now.leaves op word (tree_at script.now.nodes operand)) }
{
    let is_fault = is_delete(op) && is_name(script, operand);
    fault_where(script, is_fault, FaultCode::Misplaced, word)
}
