//! The least fault of a script by the static rules.

ghost use Rattle.std.specs.Prelude.{◌≡◌, IfOk};
ghost use Rattle.script_rules.specs.Arena.{IsPart, tree_at};
ghost use Rattle.script_rules.specs.Faults.{static_fault};
ghost use Rattle.script_rules.specs.Walks.{StartsAt};

use super::duplicates::duplicates;
use super::visits::visit;
use super::walk::{Task, Walk};
use crate::{declared_in, script_scope};
use es_source::SourceFault;
use property_keys::NoMemory;
use script_grammar::Script;
use std::alloc::Global;

/// A walk that has the script's own names behind it, and its items before it.
fn start(alloc: Global, script: &Script) -> Result<Walk, NoMemory>
    requires { IsPart script.now.nodes script.now.root }
    ensures { IfOk result (λ w. StartsAt script.now.leaves script.now.nodes script.now.root w) }
{
    let items = script.root();
    let names = declared_in(alloc, script, items)?;
    let mut walk = Walk::new(alloc);
    walk.report(duplicates(alloc, script, &names)?);
    let scope = walk.enter(None, script_scope(alloc, script, &names)?)?;
    walk.push(Task {
        node: items,
        scope,
        in_loop: false,
    })?;
    Ok(walk)
}

/// The fault of a script by the static rules: of all its faults the one with the least place and, at one place, the lowest code.
pub fn static_fault(alloc: Global, script: &Script) -> Result<Option<SourceFault>, NoMemory>
    requires { IsPart script.now.nodes script.now.root }
    ensures { IfOk result (λ f. f ≡ static_fault script.now.leaves (tree_at script.now.nodes script.now.root)) }
{
    let mut walk = start(alloc, script)?;
    'parts: while let Some(task) = walk.pop() {
        visit(alloc, script, &mut walk, task)?;
    }
    Ok(walk.fault)
}
