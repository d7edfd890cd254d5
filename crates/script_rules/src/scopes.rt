//! The table of scopes.

ghost use Rattle.std.specs.Prelude.{◌≡◌, ◌<◌, [], length};
ghost use Rattle.script_rules.specs.Chains.{Entered, IsEntry, IsKnown, IsOutside, chain_at, names_in};
ghost use Rattle.script_rules.specs.Scopes.{is_in_function, resolved};

use crate::scope_entry::{Outside, ScopeEntry, entry_of, is_away, is_silent, says};
use crate::{Resolved, Scope, ScopeId};
use es_tree::Binding;
use property_keys::{NoMemory, Units};
use std::alloc::Global;
use std::marker::Model;

/// A table of scopes, which keep their numbers. Of each it has the scopes around it. There is room for 2^32 - 1 scopes and for as many names in force.
#[derive(Drop)]
pub struct Scopes {
    all: Vec<ScopeEntry>,
}

impl Model for Scopes {
    ghost use Rattle.std.specs.Prelude.{List, [], length, ◌<◌, ◌^◌};
    ghost use Rattle.script_rules.specs.declared.scope.Scope.{Scope};

    ghost Value = { List (List Scope) };

    ghost use Rattle.script_rules.specs.Chains.{AllFit, chains_after};

    ghost view = { λ s. chains_after [] s.all.items };

    ghost invariant = { λ s. AllFit [] s.all.items × (length s.all.items < 2 ^ 32) };
}

impl Scopes {
    /// No scopes. It takes no memory.
    pub fn new(alloc: Global) -> Scopes
        ensures { result ≡ [] }
    {
        Scopes {
            all: Vec::new(alloc),
        }
    }

    /// The entry of a known scope.
    fn entry(&self, scope: ScopeId) -> &ScopeEntry
        requires { scope.0 < length self.now }
        ensures { IsEntry self.now scope.0 result.now }
    {
        &self.all[scope.0 as usize]
    }

    /// What is known of the scopes around a scope that is entered within another, or within none.
    fn outside(&self, outer: Option<ScopeId>) -> Outside
        requires { IsKnown self.now outer }
        ensures { IsOutside self.now outer result }
    {
        let Some(id) = outer else {
            return Outside {
                outer,
                speaker: None,
                in_force: 0,
                in_function: false,
            };
        };
        let entry = self.entry(id);
        let speaker = if is_silent(&entry.scope) {
            entry.speaker
        } else {
            outer
        };
        Outside {
            outer,
            speaker,
            in_force: entry.in_force,
            in_function: entry.in_function,
        }
    }

    /// Enters a scope within another, or within none. After `NoMemory`, also where there is no room, the scopes are as before.
    pub fn enter(&mut self, outer: Option<ScopeId>, scope: Scope) -> Result<ScopeId, NoMemory>
        requires { IsKnown self.old outer }
        ensures { Entered self.old self.new outer scope result }
    {
        let outside = self.outside(outer);
        let id = self.all.len();
        if id >= u32::MAX as usize {
            return Err(NoMemory);
        }
        let entry = entry_of(outside, scope)?;
        let Ok(()) = self.all.push(entry) else {
            return Err(NoMemory);
        };
        Ok(ScopeId(id as u32))
    }

    /// What a name is bound to that is used within a known scope. Scopes that say nothing of any name are not looked at.
    pub fn resolved(&self, scope: ScopeId, units: &Units) -> Resolved
        requires { scope.0 < length self.now }
        ensures { result ≡ resolved (chain_at self.now scope.0) units.now }
    {
        let mut away = false;
        let mut next = Some(scope);
        'outwards: while let Some(id) = next {
            let entry = self.entry(id);
            if let Some(said) = says(entry, away, units) {
                return said;
            }
            away = is_away(away, entry.scope.owner);
            next = entry.speaker;
        }
        Resolved::Finds(Binding::Global)
    }

    /// Whether what stands in a known scope stands in a function.
    pub fn is_in_function(&self, scope: ScopeId) -> bool
        requires { scope.0 < length self.now }
        ensures { result ≡ is_in_function (chain_at self.now scope.0) }
    {
        self.entry(scope).in_function
    }

    /// How many names a known scope has.
    pub fn names(&self, scope: ScopeId) -> u32
        requires { scope.0 < length self.now }
        ensures { result ≡ names_in (chain_at self.now scope.0) }
    {
        self.entry(scope).scope.names.len()
    }
}
