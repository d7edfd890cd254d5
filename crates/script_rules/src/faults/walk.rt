//! What is still to be done in a walk over the parts of a script.

ghost use Rattle.std.specs.Prelude.{◌≡◌, OnOk, IfOk};
ghost use Rattle.script_rules.specs.Chains.{IsKnown};
ghost use Rattle.script_rules.specs.Walks.{Opens, Pushes, Reports, Starts, Takes};

use super::order::earlier;
use crate::{Scope, ScopeId, Scopes};
use es_source::SourceFault;
use property_keys::NoMemory;
use std::alloc::Global;

/// A part that is to be visited, with its scope and whether a loop of the same function is around it.
#[derive(Clone, Copy)]
pub struct Task {
    pub node: u32,
    pub scope: ScopeId,
    pub in_loop: bool,
}

/// A walk: the scopes so far, the parts that are to be visited, and the least fault so far.
#[derive(Drop)]
pub struct Walk {
    pub scopes: Scopes,
    pub tasks: Vec<Task>,
    pub fault: Option<SourceFault>,
}

impl Walk {
    /// A walk that has nothing to do.
    pub fn new(alloc: Global) -> Walk
        ensures { Starts result }
    {
        Walk {
            scopes: Scopes::new(alloc),
            tasks: Vec::new(alloc),
            fault: None,
        }
    }

    /// Puts a part off.
    pub fn push(&mut self, task: Task) -> Result<(), NoMemory>
        ensures { OnOk result (Pushes self.old self.new task) }
    {
        let Ok(()) = self.tasks.push(task) else {
            return Err(NoMemory);
        };
        Ok(())
    }

    /// The next part.
    pub fn pop(&mut self) -> Option<Task>
        ensures { Takes self.old self.new result }
    {
        self.tasks.pop()
    }

    /// Notes a fault, where there is one.
    pub fn report(&mut self, fault: Option<SourceFault>)
        ensures { Reports self.old self.new fault }
    {
        self.fault = earlier(self.fault, fault);
    }

    /// Enters a scope.
    pub fn enter(&mut self, outer: Option<ScopeId>, scope: Scope) -> Result<ScopeId, NoMemory>
        requires { IsKnown self.old.scopes outer }
        ensures { IfOk result (λ id. Opens self.old self.new outer scope id) }
    {
        self.scopes.enter(outer, scope)
    }
}
