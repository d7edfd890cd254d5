//! A scope in the table of scopes, and what it says of a name.

ghost use Rattle.std.specs.Prelude.{◌≡◌, ◌||◌, ℕ, ◌+◌, ◌<◌, ◌^◌, length, IfOk};
ghost use Rattle.script_rules.specs.Bounds.{place_from};
ghost use Rattle.script_rules.specs.Chains.{HoldsScope, Says, is_silent};
ghost use Rattle.script_rules.specs.Scopes.{first_place, found_in, in_force_after, is_callee, is_of_function, own_or_captured, passed_at, resolved_by};

use crate::{Owner, Resolved, Scope};
use es_tree::Binding;
use property_keys::{NoMemory, Units};

/// The number of a scope in its table.
#[derive(Clone, Copy)]
pub struct ScopeId(pub u32);

/// What is known of the scopes around a scope: the nearest of them, the nearest that may say something of a name, how many names of the running body are in
/// force, and whether one of them is that of a function.
#[derive(Clone, Copy)]
pub struct Outside {
    pub outer: Option<ScopeId>,
    pub speaker: Option<ScopeId>,
    pub in_force: u32,
    pub in_function: bool,
}

/// A scope, the one around it, the nearest around it that may say something of a name, the place of its first name, how many names of the running body are in
/// force after it, and whether what stands in it stands in a function.
#[derive(Drop)]
pub struct ScopeEntry {
    pub scope: Scope,
    pub outer: Option<ScopeId>,
    pub speaker: Option<ScopeId>,
    pub first: u32,
    pub in_force: u32,
    pub in_function: bool,
}

/// A name of the running body, unless the use stands in a function inside it.
fn own_or_captured(away: bool, binding: Binding) -> Resolved
    ensures { result ≡ own_or_captured away binding }
{
    if away {
        Resolved::Captures
    } else {
        Resolved::Finds(binding)
    }
}

/// What a name at a place of a scope is.
fn found_in(owner: Owner, away: bool, place: u32, constant: bool) -> Resolved
    ensures { result ≡ found_in owner away place constant }
{
    match owner {
        Owner::Script => Resolved::Finds(Binding::Top {
            cell: place,
            constant,
        }),
        Owner::Function => own_or_captured(away, Binding::Own { place, constant }),
        Owner::Part => own_or_captured(away, Binding::Own { place, constant }),
    }
}

/// Whether code units are the own name of a function expression.
fn is_callee(units: &Units, callee: &Option<Units>) -> bool
    ensures { result ≡ is_callee units.now callee.now }
{
    match callee {
        Some(name) => units == name,
        None => false,
    }
}

/// What a scope says of a name that it does not have.
fn passed_at(scope: &Scope, away: bool, units: &Units) -> Option<Resolved>
    ensures { Says (passed_at scope.now.owner scope.now away units.now) result }
{
    match scope.owner {
        Owner::Script => None,
        Owner::Part => None,
        Owner::Function => {
            if units.is_ascii(b"arguments") {
                Some(Resolved::Finds(Binding::Arguments))
            } else if is_callee(units, &scope.callee) {
                Some(own_or_captured(away, Binding::Callee))
            } else {
                None
            }
        }
    }
}

/// What a scope says of a name. None exactly where the scopes outside say it.
pub fn says(entry: &ScopeEntry, away: bool, units: &Units) -> Option<Resolved>
    requires { entry.now.first + length entry.now.scope.names < 2 ^ 32 }
    ensures { Says (resolved_by entry.now.scope away units.now (place_from entry.now.first entry.now.scope.names units.now)) result }
{
    match entry.scope.names.find(units) {
        Some((place, constant)) => {
            Some(found_in(entry.scope.owner, away, entry.first + place, constant))
        }
        None => passed_at(&entry.scope, away, units),
    }
}

/// Whether a scope is that of a function.
pub fn is_of_function(owner: Owner) -> bool
    ensures { result ≡ is_of_function owner }
{
    matches!(owner, Owner::Function)
}

/// Whether a function stands between a use and the scopes outside of a scope.
pub fn is_away(away: bool, owner: Owner) -> bool
    ensures { result ≡ (away || is_of_function owner) }
{
    away || is_of_function(owner)
}

/// Whether a scope says nothing of any name: it has none, and is not that of a function.
pub fn is_silent(scope: &Scope) -> bool
    ensures { result ≡ is_silent scope.now }
{
    !is_of_function(scope.owner) && scope.names.len() == 0
}

/// The entry of a scope, where this is known of those outside of it. `NoMemory` exactly where there is no room for its names.
pub fn entry_of(outside: Outside, scope: Scope) -> Result<ScopeEntry, NoMemory>
    ensures { IfOk result (λ e. HoldsScope outside scope e) }
{
    let first = first_place(scope.owner, outside.in_force);
    let Some(after) = first.checked_add(scope.names.len()) else {
        return Err(NoMemory);
    };
    let in_force = in_force_after(scope.owner, after);
    let in_function = is_of_function(scope.owner) || outside.in_function;
    Ok(ScopeEntry {
        scope,
        outer: outside.outer,
        speaker: outside.speaker,
        first,
        in_force,
        in_function,
    })
}

/// The place of the first name of a scope.
fn first_place(owner: Owner, outside: u32) -> u32
    ensures { result ≡ first_place owner outside }
{
    match owner {
        Owner::Script => 0,
        Owner::Function => 0,
        Owner::Part => outside,
    }
}

/// How many names are in force after a scope, whose names end before this place.
fn in_force_after(owner: Owner, end: u32) -> u32
    ensures { (outside names : ℕ) → end ≡ first_place owner outside + names → result ≡ in_force_after owner outside names }
{
    match owner {
        Owner::Script => 0,
        Owner::Function => end,
        Owner::Part => end,
    }
}
