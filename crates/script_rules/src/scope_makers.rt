//! The scopes that the parts of a script make.

ghost use Rattle.std.specs.Prelude.{◌≡◌, IfOk, OnOk, map};
ghost use Rattle.script_rules.specs.Bounds.{with_names};
ghost use Rattle.script_rules.specs.Names.{units_at};
ghost use Rattle.script_rules.specs.Scopes.{bound_of, bounds_where, function_scope, is_constant, is_function, is_lexical, part_scope, script_scope};
ghost use Rattle.script_rules.specs.Faults.{own_units};
ghost use Rattle.script_rules.specs.Wanted.{takes};

use crate::{Declared, Manner, Owner, Scope, ScopeNames, own_units_at};
use property_keys::{NoMemory, Units};
use script_grammar::Script;
use std::alloc::Global;

/// Which names are added to a scope.
#[derive(Clone, Copy)]
enum Wanted {
    All,
    Lexical,
    Functions,
}

/// Whether a manner is wanted.
fn takes(wanted: Wanted, manner: Manner) -> bool
    ensures { result ≡ takes wanted manner }
{
    match wanted {
        Wanted::All => true,
        Wanted::Lexical => matches!(manner, Manner::Let | Manner::Const),
        Wanted::Functions => matches!(manner, Manner::Function),
    }
}

/// Whether a name of this manner is constant.
fn is_constant(manner: Manner) -> bool
    ensures { result ≡ is_constant manner }
{
    matches!(manner, Manner::Const)
}

/// Adds the wanted names.
fn add_wanted(
    alloc: Global,
    script: &Script,
    declared: &[Declared],
    wanted: Wanted,
    names: &mut ScopeNames,
) -> Result<(), NoMemory>
    ensures { OnOk result (names.new ≡ with_names names.old (bounds_where (takes wanted) script.now.leaves declared.now)) }
{
    for d in declared {
        if takes(wanted, d.manner) {
            names.add(own_units_at(alloc, script, d.name)?, is_constant(d.manner))?;
        }
    }
    Ok(())
}

/// The scope of a script with these names: its lexical names (16.1.7).
pub fn script_scope(
    alloc: Global,
    script: &Script,
    declared: &[Declared],
) -> Result<Scope, NoMemory>
    ensures { IfOk result (λ s. s ≡ script_scope script.now.leaves declared.now) }
{
    let mut names = ScopeNames::new(alloc, script.hashing());
    add_wanted(alloc, script, declared, Wanted::Lexical, &mut names)?;
    Ok(Scope {
        owner: Owner::Script,
        names,
        callee: None,
    })
}

/// The own name of a function, where it has one.
fn callee(alloc: Global, script: &Script, name: Option<u32>) -> Result<Option<Units>, NoMemory>
    ensures { IfOk result (λ u. u ≡ own_units script.now.leaves name) }
{
    match name {
        Some(token) => Ok(Some(own_units_at(alloc, script, token)?)),
        None => Ok(None),
    }
}

/// The scope of a function with its parameters, the names of its body and, of a function expression, its own name (10.2.11).
pub fn function_scope(
    alloc: Global,
    script: &Script,
    own_name: Option<u32>,
    parameters: &[Declared],
    declared: &[Declared],
) -> Result<Scope, NoMemory>
    ensures { IfOk result (λ s. s ≡ function_scope script.now.leaves (own_units script.now.leaves own_name) parameters.now declared.now) }
{
    let mut names = ScopeNames::new(alloc, script.hashing());
    add_wanted(alloc, script, parameters, Wanted::All, &mut names)?;
    add_wanted(alloc, script, declared, Wanted::Functions, &mut names)?;
    add_wanted(alloc, script, declared, Wanted::Lexical, &mut names)?;
    Ok(Scope {
        owner: Owner::Function,
        names,
        callee: callee(alloc, script, own_name)?,
    })
}

/// The scope of a block, of the head of a `for` or of a catch, with these names.
pub fn part_scope(alloc: Global, script: &Script, declared: &[Declared]) -> Result<Scope, NoMemory>
    ensures { IfOk result (λ s. s ≡ part_scope script.now.leaves declared.now) }
{
    let mut names = ScopeNames::new(alloc, script.hashing());
    add_wanted(alloc, script, declared, Wanted::All, &mut names)?;
    Ok(Scope {
        owner: Owner::Part,
        names,
        callee: None,
    })
}
