//! The steps of a visit to a part.

ghost use Rattle.std.specs.Prelude.{◌≡◌, ◌<◌, List, length, IfOk, OnOk};
ghost use Rattle.es_source.specs.declared.faults.SourceFault.{SourceFault};
ghost use Rattle.script_rules.specs.Arena.{IsPart, tree_at};
ghost use Rattle.script_rules.specs.Faults.{faults, least};
ghost use Rattle.script_rules.specs.Visits.{IsOptionalPart, OpensScope, around_in, optional_faults, optional_size};
ghost use Rattle.script_rules.specs.Walks.{IsReady, Visits, size_at};

use super::walk::{Task, Walk};
use crate::{Scope, ScopeId};
use es_source::SourceFault;
use property_keys::NoMemory;
use script_grammar::Script;

/// Notes the least of some faults, where there is one.
pub fn note(_script: &Script, walk: &mut Walk, fault: Option<SourceFault>)
    requires { IsReady _script.now.nodes walk.old }
    ensures found { (found : List SourceFault) → fault ≡ least found → Visits _script.now.leaves _script.now.nodes walk.old walk.new found 0 }
    ensures ready { IsReady _script.now.nodes walk.new }
    ensures scopes { walk.new.scopes ≡ walk.old.scopes }
{
    walk.report(fault);
}

/// Notes the least of some faults, where there is one, and enters a scope within another.
pub fn open(
    _script: &Script,
    walk: &mut Walk,
    fault: Option<SourceFault>,
    outer: ScopeId,
    scope: Scope,
) -> Result<ScopeId, NoMemory>
    requires ready { IsReady _script.now.nodes walk.old }
    requires known { outer.0 < length walk.old.scopes }
    ensures { IfOk result (λ id. (found : List SourceFault) → fault ≡ least found → OpensScope _script.now.leaves _script.now.nodes walk.old walk.new found outer scope id) }
{
    walk.report(fault);
    walk.enter(Some(outer), scope)
}

/// Puts a part off.
pub fn put_off(
    _script: &Script,
    walk: &mut Walk,
    node: u32,
    scope: ScopeId,
    in_loop: bool,
) -> Result<(), NoMemory>
    requires ready { IsReady _script.now.nodes walk.old }
    requires part { IsPart _script.now.nodes node }
    requires known { scope.0 < length walk.old.scopes }
    ensures { OnOk result (Visits _script.now.leaves _script.now.nodes walk.old walk.new
        (faults _script.now.leaves (around_in walk.old.scopes scope in_loop) (tree_at _script.now.nodes node)) (size_at _script.now.nodes node)) }
{
    walk.push(Task {
        node,
        scope,
        in_loop,
    })
}

/// Puts a part off that may be left out.
pub fn put_off_optional(
    script: &Script,
    walk: &mut Walk,
    node: Option<u32>,
    scope: ScopeId,
    in_loop: bool,
) -> Result<(), NoMemory>
    requires ready { IsReady script.now.nodes walk.old }
    requires part { IsOptionalPart script.now.nodes node }
    requires known { scope.0 < length walk.old.scopes }
    ensures { OnOk result (Visits script.now.leaves script.now.nodes walk.old walk.new
        (optional_faults script.now.leaves script.now.nodes (around_in walk.old.scopes scope in_loop) node) (optional_size script.now.nodes node)) }
{
    match node {
        Some(n) => put_off(script, walk, n, scope, in_loop),
        None => Ok(()),
    }
}
