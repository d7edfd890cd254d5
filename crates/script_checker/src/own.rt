//! What is said of a function's own code: all of its body outside of the functions in it.

ghost use Rattle.std.specs.Prelude.{◌≡◌, ◌<◌, ◌++◌, ◌∷◌, [], bytes_eq, length, slice_get, IfOk, OnOk};
ghost use Rattle.script_rules.specs.Arena.{IsPart, tree_at};
ghost use Rattle.script_rules.specs.Names.{units_at};
ghost use Rattle.script_rules.specs.Scopes.{arguments_name};
ghost use Rattle.script_checker.specs.Own.{directive, is_strict, is_strict_by, is_this, name_of_this, names_arguments, this_names, with_each};
ghost use Rattle.script_checker.specs.OwnWalk.{AddsOwn, InParentheses, assigned_here, is_this_word, own_in_pair, own_in_triple, units_listed, uses_here};

use crate::tokens::{is_spelled, text_units};
use crate::{Stack, TextSet};
use es_tree::AssignOperator;
use property_keys::{NoMemory, Units};
use script_grammar::{Atom, LeafKind, Pair, ParseNode, Script, Triple, Wrap};
use script_rules::{leaf_at, members, own_units_at, part};
use std::alloc::Global;

/// At how many names a function's own code assigns to `this.N`, and whether it uses the name `arguments`.
#[derive(Clone, Copy)]
pub struct OwnFacts {
    pub this_names: u32,
    pub arguments: bool,
}

/// Whether a part is itself a use of the name `arguments`.
fn uses_here(script: &Script, n: u32, arguments: &Units) -> bool
    requires part { IsPart script.now.nodes n }
    requires text { arguments.now ≡ arguments_name }
    ensures { result ≡ uses_here script.now.leaves (tree_at script.now.nodes n) }
{
    match part(script, n) {
        ParseNode::Atom(Atom::Name(token)) => is_spelled(script, token, arguments),
        ParseNode::Atom(Atom::Shorthand(token)) => is_spelled(script, token, arguments),
        _ => false,
    }
}

/// What stands in parentheses.
fn in_parentheses(script: &Script, n: u32) -> Option<u32>
    requires { IsPart script.now.nodes n }
    ensures { InParentheses script.now.nodes n result }
{
    match part(script, n) {
        ParseNode::Wrap(Wrap::Parenthesis(_), inner) => Some(inner),
        _ => None,
    }
}

/// Whether a part is the word `this`.
fn is_this_word(script: &Script, n: u32) -> bool
    requires { IsPart script.now.nodes n }
    ensures { result ≡ is_this_word (tree_at script.now.nodes n) }
{
    matches!(part(script, n), ParseNode::Atom(Atom::This(_)))
}

/// Whether a part is `this`, in parentheses or not.
fn is_this(script: &Script, n: u32) -> bool
    requires { IsPart script.now.nodes n }
    ensures { result ≡ is_this (tree_at script.now.nodes n) }
{
    let mut at = n;
    'inwards: while let Some(inner) = in_parentheses(script, at) {
        at = inner;
    }
    is_this_word(script, at)
}

/// The word of a member access on `this`.
fn name_of_this(script: &Script, n: u32) -> Option<u32>
    requires { IsPart script.now.nodes n }
    ensures { units_listed script.now.leaves result ≡ name_of_this script.now.leaves (tree_at script.now.nodes n) }
{
    match part(script, n) {
        ParseNode::Wrap(Wrap::Member { word, .. }, base) => {
            if is_this(script, base) {
                Some(word)
            } else {
                None
            }
        }
        _ => None,
    }
}

/// The name to which a part itself assigns as a member of `this`.
fn assigned_here(script: &Script, n: u32) -> Option<u32>
    requires { IsPart script.now.nodes n }
    ensures { units_listed script.now.leaves result ≡ assigned_here script.now.leaves (tree_at script.now.nodes n) }
{
    match part(script, n) {
        ParseNode::Pair(Pair::Assign(AssignOperator::Plain), target, _) => name_of_this(
            script, target,
        ),
        _ => None,
    }
}

/// Adds two parts, the first on top.
fn push_two(rest: &mut Stack<u32>, x: u32, y: u32) -> Result<(), NoMemory>
    ensures { OnOk result (rest.new ≡ x ∷ y ∷ rest.old) }
{
    rest.push(y)?;
    rest.push(x)
}

/// Adds the parts of a pair that are own code.
fn push_pair(rest: &mut Stack<u32>, label: Pair, x: u32, y: u32) -> Result<(), NoMemory>
    ensures { OnOk result (rest.new ≡ own_in_pair label x y ++ rest.old) }
{
    match label {
        Pair::Function(_) => Ok(()),
        Pair::NamedFunction { .. } => Ok(()),
        Pair::DeclaredFunction { .. } => Ok(()),
        Pair::Getter(_) => rest.push(x),
        Pair::Setter { .. } => rest.push(x),
        _ => push_two(rest, x, y),
    }
}

/// Adds the parts of a triple that are own code.
fn push_triple(rest: &mut Stack<u32>, label: Triple, x: u32, y: u32, z: u32) -> Result<(), NoMemory>
    ensures { OnOk result (rest.new ≡ own_in_triple label x y z ++ rest.old) }
{
    match label {
        Triple::Method => rest.push(x),
        _ => {
            rest.push(z)?;
            push_two(rest, x, y)
        }
    }
}

/// Adds the parts of a part that are own code, the first on top.
fn push_own(script: &Script, n: u32, rest: &mut Stack<u32>) -> Result<(), NoMemory>
    requires { IsPart script.now.nodes n }
    ensures { OnOk result (AddsOwn script.now.nodes n rest.old rest.new) }
{
    match part(script, n) {
        ParseNode::Atom(_) => Ok(()),
        ParseNode::Wrap(_, x) => rest.push(x),
        ParseNode::Pair(label, x, y) => push_pair(rest, label, x, y),
        ParseNode::Triple(label, x, y, z) => push_triple(rest, label, x, y, z),
        ParseNode::Quad(_, x, y, z, w) => {
            push_two(rest, z, w)?;
            push_two(rest, x, y)
        }
    }
}

/// Adds the name to which a part itself assigns as a member of `this`.
fn add_assigned(alloc: Global, script: &Script, n: u32, names: &mut TextSet) -> Result<(), NoMemory>
    requires { IsPart script.now.nodes n }
    ensures { OnOk result (names.new ≡ with_each names.old (assigned_here script.now.leaves (tree_at script.now.nodes n))) }
{
    match assigned_here(script, n) {
        Some(word) => names.add(own_units_at(alloc, script, word)?),
        None => Ok(()),
    }
}

/// What is said of the own code of a function with this body.
pub fn own_facts(alloc: Global, script: &Script, body: u32) -> Result<OwnFacts, NoMemory>
    requires { IsPart script.now.nodes body }
    ensures names { IfOk result (λ f. f.this_names ≡ this_names script.now.leaves (tree_at script.now.nodes body)) }
    ensures arguments { IfOk result (λ f. f.arguments ≡ names_arguments script.now.leaves (tree_at script.now.nodes body)) }
{
    let text = text_units(alloc, b"arguments")?;
    let mut names = TextSet::new(alloc, script.hashing());
    let mut arguments = false;
    let mut rest = Stack::new(alloc);
    rest.push(body)?;
    'code: while let Some(n) = rest.pop() {
        add_assigned(alloc, script, n, &mut names)?;
        arguments = arguments || uses_here(script, n, &text);
        push_own(script, n, &mut rest)?;
    }
    let this_names = number(names.len())?;
    Ok(OwnFacts {
        this_names,
        arguments,
    })
}

/// A number of names. There is room for 2^32 - 1.
fn number(count: usize) -> Result<u32, NoMemory>
    ensures { IfOk result (λ n. n ≡ count) }
{
    u32::try_from(count).map_err(|_| NoMemory)
}

/// The token of a statement of one Text token.
fn directive(script: &Script, n: u32) -> Option<u32>
    requires { IsPart script.now.nodes n }
    ensures { result ≡ directive (tree_at script.now.nodes n) }
{
    match part(script, n) {
        ParseNode::Wrap(Wrap::Evaluate, x) => match part(script, x) {
            ParseNode::Atom(Atom::Text(token)) => Some(token),
            _ => None,
        },
        _ => None,
    }
}

/// Whether a token is a Text whose source between the quotes is exactly `use strict`.
fn is_strict_text(script: &Script, token: u32) -> bool
    ensures { result ≡ is_strict_by (slice_get script.now.leaves token) }
{
    match leaf_at(script, token) {
        Some(leaf) => match leaf.kind {
            LeafKind::Text { strict, .. } => strict,
            _ => false,
        },
        None => false,
    }
}

/// Whether a body or a script with these items begins with a directive that makes it strict (11.2.1, 11.2.2).
pub fn is_strict(alloc: Global, script: &Script, items: u32) -> Result<bool, NoMemory>
    requires { IsPart script.now.nodes items }
    ensures { IfOk result (λ b. b ≡ is_strict script.now.leaves (tree_at script.now.nodes items)) }
{
    let all = members(alloc, script, items)?;
    for n in &all {
        let Some(token) = directive(script, *n) else {
            return Ok(false);
        };
        if is_strict_text(script, token) {
            return Ok(true);
        }
    }
    Ok(false)
}
