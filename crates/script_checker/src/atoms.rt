//! Labels without parts.

ghost use Rattle.std.specs.Prelude.{◌≡◌, IfOk};
ghost use Rattle.es_tree.specs.declared.primaries.Key.TheVariants as key;
ghost use Rattle.es_tree.specs.declared.primaries.Primary.TheVariants as primary;
ghost use Rattle.es_tree.specs.declared.primaries.Property.TheVariants as property;
ghost use Rattle.script_grammar.specs.Tree.{first_token};
ghost use Rattle.script_grammar.specs.Tree.{ParseTree as parse_tree};
ghost use Rattle.script_rules.specs.Chains.{chain_at};
ghost use Rattle.script_rules.specs.Names.{units_at};
ghost use Rattle.script_checker.specs.Made.{atom_made, is_target_role, key_at, name_made, named, with_primary};
ghost use Rattle.script_checker.specs.Machine.{around_of};
ghost use Rattle.script_checker.specs.Making.{Makes};
ghost use Rattle.script_checker.specs.Spots.{IsKnown};
ghost use Rattle.script_checker.specs.declared.made_parts.MadePart.TheVariants as made_part;
ghost use Rattle.script_checker.specs.declared.made_parts.MadeParts.TheVariants as made_parts;

use crate::tokens::{key_at, named, number_at};
use crate::{MadePart, MadeParts, Maker, Setting};
use es_source::Place;
use es_tree::{Declared, Key, Primary, Property, Statement};
use property_keys::NoMemory;
use script_grammar::{Atom, Script};
use script_rules::{Role, Scopes, own_units_at};
use std::alloc::Global;

/// The first token of a label without parts.
pub fn atom_first(label: Atom) -> Option<u32>
    ensures { result ≡ first_token (parse_tree.Atom label) }
{
    match label {
        Atom::Nothing | Atom::Hole => None,
        Atom::This(i)
        | Atom::Null(i)
        | Atom::Bool { word: i, .. }
        | Atom::Name(i)
        | Atom::Number(i)
        | Atom::Text(i)
        | Atom::Shorthand(i)
        | Atom::Key(i)
        | Atom::Binding(i)
        | Atom::Empty(i)
        | Atom::Break(i)
        | Atom::Continue(i)
        | Atom::Return(i) => Some(i),
    }
}

/// Whether a part in this role is the target of an assignment or of an update.
fn is_target_role(role: Role) -> bool
    ensures { result ≡ is_target_role role }
{
    matches!(role, Role::Written | Role::Updated)
}

/// A name: a target, or a primary expression.
fn name_made(
    maker: &mut Maker,
    script: &Script,
    scopes: &Scopes,
    around: Setting,
    place: Place,
    token: u32,
) -> Result<MadeParts, NoMemory>
    requires { IsKnown scopes.now around }
    ensures { Makes (name_made script.now.leaves (around_of scopes.now around) place token maker.old) maker.new result }
{
    let own = named(maker.alloc(), script, scopes, around.scope, token)?;
    if is_target_role(around.role) {
        Ok(MadeParts::One(MadePart::Name(own)))
    } else {
        maker.primary(place, Primary::Name(own))
    }
}

/// A property definition of a name alone.
fn shorthand(
    alloc: Global,
    script: &Script,
    scopes: &Scopes,
    around: Setting,
    token: u32,
) -> Result<MadeParts, NoMemory>
    requires { IsKnown scopes.now around }
    ensures { IfOk result (λ v. v ≡ made_parts.One (made_part.Property (property.Shorthand (named script.now.leaves (chain_at scopes.now around.scope.0) token)))) }
{
    let own = named(alloc, script, scopes, around.scope, token)?;
    Ok(MadeParts::One(MadePart::Property(Property::Shorthand(own))))
}

/// A parameter, or a lexical name without a value.
fn binding(
    alloc: Global,
    script: &Script,
    scopes: &Scopes,
    around: Setting,
    token: u32,
) -> Result<MadeParts, NoMemory>
    requires { IsKnown scopes.now around }
    ensures { IfOk result (λ v. v ≡ made_parts.One (made_part.Bind (record { named = named script.now.leaves (chain_at scopes.now around.scope.0) token; value = None }))) }
{
    let own = named(alloc, script, scopes, around.scope, token)?;
    Ok(MadeParts::One(MadePart::Bind(Declared {
        named: own,
        value: None,
    })))
}

/// A property name.
fn key(alloc: Global, script: &Script, token: u32) -> Result<MadeParts, NoMemory>
    ensures { IfOk result (λ v. v ≡ made_parts.One (made_part.Key (key.Fixed (key_at script.now.leaves token)))) }
{
    let units = key_at(alloc, script, token)?;
    Ok(MadeParts::One(MadePart::Key(Key::Fixed(units))))
}

/// A text.
fn text(maker: &mut Maker, script: &Script, place: Place, token: u32) -> Result<MadeParts, NoMemory>
    ensures { Makes (with_primary place (primary.Text (units_at script.now.leaves token)) maker.old) maker.new result }
{
    let units = own_units_at(maker.alloc(), script, token)?;
    maker.primary(place, Primary::Text(units))
}

/// What a label without parts becomes.
pub fn atom_made(
    maker: &mut Maker,
    script: &Script,
    scopes: &Scopes,
    around: Setting,
    place: Place,
    label: Atom,
) -> Result<MadeParts, NoMemory>
    requires { IsKnown scopes.now around }
    ensures { Makes (atom_made script.now.leaves (around_of scopes.now around) place label maker.old) maker.new result }
{
    let alloc = maker.alloc();
    match label {
        Atom::Nothing => Ok(MadeParts::One(MadePart::Nothing)),
        Atom::This(_) => maker.primary(place, Primary::This),
        Atom::Null(_) => maker.primary(place, Primary::Null),
        Atom::Bool { value, .. } => maker.primary(place, Primary::Bool(value)),
        Atom::Name(token) => name_made(maker, script, scopes, around, place, token),
        Atom::Number(token) => maker.primary(place, Primary::Number(number_at(script, token))),
        Atom::Text(token) => text(maker, script, place, token),
        Atom::Hole => Ok(MadeParts::One(MadePart::Hole)),
        Atom::Shorthand(token) => shorthand(alloc, script, scopes, around, token),
        Atom::Key(token) => key(alloc, script, token),
        Atom::Binding(token) => binding(alloc, script, scopes, around, token),
        Atom::Empty(_) => maker.statement(place, Statement::Empty),
        Atom::Break(_) => maker.statement(place, Statement::Break),
        Atom::Continue(_) => maker.statement(place, Statement::Continue),
        Atom::Return(_) => maker.statement(place, Statement::Return(None)),
    }
}
