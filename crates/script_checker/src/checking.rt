//! The third pass: the static rules, and the tree of a script that keeps them.

ghost use Rattle.std.specs.Prelude.{◌≡◌, IfOk};
ghost use Rattle.script_grammar.specs.Scripts.{HasTree};
ghost use Rattle.script_grammar.specs.Tree.{ParseTree};
ghost use Rattle.script_rules.specs.Arena.{IsPart, tree_at};
ghost use Rattle.script_checker.specs.Contract.{Checks};
ghost use Rattle.script_checker.specs.Made.{checked_tree};

use crate::functions::functions_in;
use crate::lists::nodes_in;
use crate::own::is_strict;
use crate::parts::parts_of;
use crate::{Machine, Setting, Task};
use es_source::ReadStop;
use es_tree::{Body, Checked};
use property_keys::NoMemory;
use script_grammar::Script;
use script_rules::{Role, declared_in, script_scope, static_fault};
use std::alloc::Global;

/// The tree of a script: its items, its nodes with their places, its functions, literals and sites, and what its names are bound to.
fn checked_tree(alloc: Global, script: &Script) -> Result<Checked, NoMemory>
    requires { IsPart script.now.nodes script.now.root }
    ensures { IfOk result (λ c. c ≡ checked_tree script.now.leaves (tree_at script.now.nodes script.now.root)) }
{
    let root = script.root();
    let declared = declared_in(alloc, script, root)?;
    let scope = script_scope(alloc, script, &declared)?;
    let strict = is_strict(alloc, script, root)?;
    let mut machine = Machine::new(alloc);
    let setting = Setting {
        scope: machine.scopes.enter(None, scope)?,
        strict,
        role: Role::Plain,
    };
    let names = machine.scopes.names(setting.scope);
    machine.tasks.push(Task::Visit(root, setting))?;
    machine.run(alloc, script)?;
    machine.finished(alloc, script.hashing(), names, strict)
}

/// The tree of a script: its items, its nodes with their places, its functions, literals and sites, and what its names are bound to. Where the script breaks
/// static rules it is the first fault: the one with the least place and, at one place, the lowest code. It answers `NoMemory` where memory runs out.
pub fn check(alloc: Global, script: Script) -> Result<Checked, ReadStop>
    requires { (x : ParseTree) × HasTree script.nodes script.root x }
    ensures { Checks script result }
{
    match static_fault(alloc, &script)? {
        Some(fault) => Err(ReadStop::Fault(fault)),
        None => Ok(checked_tree(alloc, &script)?),
    }
}
