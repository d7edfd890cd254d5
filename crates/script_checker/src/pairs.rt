//! Labels with two parts, after them.

ghost use Rattle.std.specs.Prelude.{◌≡◌, ◌++◌, ◌∷◌, [], length, IfOk};
ghost use Rattle.es_tree.specs.declared.expressions.Access.TheVariants as access;
ghost use Rattle.es_tree.specs.declared.expressions.Operator.TheVariants as operation;
ghost use Rattle.es_tree.specs.declared.primaries.Property.TheVariants as property;
ghost use Rattle.es_tree.specs.declared.statements.Statement.TheVariants as statement;
ghost use Rattle.script_rules.specs.Arena.{IsPart, tree_at};
ghost use Rattle.script_checker.specs.Firsts.{pair_first};
ghost use Rattle.script_checker.specs.Made.{Made, accessed, comma_made, declaration_made, expression_made, is_front, method_made, one, pair_made, place_of, property_of, sets_prototype, with_access, with_one, with_operator, with_statement, with_two};
ghost use Rattle.script_checker.specs.Machine.{around_of};
ghost use Rattle.script_checker.specs.Making.{Makes};
ghost use Rattle.script_checker.specs.Spots.{IsSpot};
ghost use Rattle.script_checker.specs.Values.{front_of, item_of, key_of, node_of, nodes_in, parts_of, target_of};
ghost use Rattle.script_checker.specs.declared.made_parts.MadePart.TheVariants as made_part;
ghost use Rattle.script_checker.specs.declared.made_parts.MadeParts.TheVariants as made_parts;

use crate::functions::{declaration_made, expression_made, method_node};
use crate::lists::nodes_in;
use crate::parts::{front_of, item_of, key_of, node_of, parts_of, target_of};
use crate::tokens::{is_spelled, place_of, text_units};
use crate::{MadePart, MadeParts, Maker, Spot};
use es_source::Place;
use es_tree::{
    Access, AssignOperator, BinaryOperator, Operator, Property, ShortOperator, Statement,
};
use property_keys::NoMemory;
use script_grammar::{Atom, Pair, ParseNode, Script};
use script_rules::{Role, Scopes, part};
use std::alloc::Global;

/// The first token of a part with two parts, from that of the first.
pub fn pair_first(label: Pair, first: Option<u32>) -> Option<u32>
    ensures { result ≡ pair_first label first }
{
    match label {
        Pair::And => None,
        Pair::Comma
        | Pair::Assign(_)
        | Pair::Short(_)
        | Pair::Binary(_)
        | Pair::Index(_)
        | Pair::Call
        | Pair::Property => first,
        Pair::New(i)
        | Pair::Function(i)
        | Pair::NamedFunction { first: i, .. }
        | Pair::DeclaredFunction { first: i, .. }
        | Pair::Getter(i)
        | Pair::Setter { first: i, .. }
        | Pair::If(i)
        | Pair::While(i) => Some(i),
    }
}

/// A list with one member more.
fn listed(alloc: Global, front: MadeParts, last: MadeParts) -> Result<MadeParts, NoMemory>
    ensures { IfOk result (λ v. v ≡ made_parts.Many (parts_of front ++ item_of last ∷ [])) }
{
    let mut parts = parts_of(alloc, front);
    parts.push(item_of(last))?;
    Ok(MadeParts::Many(parts))
}

/// Whether a comma list is the front of another one.
fn is_front(role: Role) -> bool
    ensures { result ≡ is_front role }
{
    matches!(role, Role::Listed)
}

/// A comma list, or the front of one.
fn comma(
    maker: &mut Maker,
    place: Place,
    role: Role,
    front: MadeParts,
    last: MadeParts,
) -> Result<MadeParts, NoMemory>
    ensures { Makes (comma_made place role (front_of front ++ item_of last ∷ []) maker.old) maker.new result }
{
    let alloc = maker.alloc();
    let mut parts = front_of(alloc, front)?;
    parts.push(item_of(last))?;
    if is_front(role) {
        return Ok(MadeParts::Many(parts));
    }
    let nodes = nodes_in(alloc, parts.as_slice())?;
    maker.operator(place, Operator::Comma(nodes))
}

/// An assignment.
fn assign(
    maker: &mut Maker,
    place: Place,
    operator: AssignOperator,
    target: MadeParts,
    part: MadeParts,
) -> Result<MadeParts, NoMemory>
    ensures { Makes (with_one (node_of part) maker.old (λ n. with_operator place (operation.Assign operator (target_of (item_of target)) n) maker.old)) maker.new result }
{
    let Some(value) = node_of(part) else {
        return Ok(MadeParts::One(MadePart::Nothing));
    };
    let target = target_of(maker.alloc(), item_of(target));
    maker.operator(
        place,
        Operator::Assign {
            operator,
            target,
            value,
        },
    )
}

/// An operator whose right operand is not always evaluated.
fn short(
    maker: &mut Maker,
    place: Place,
    operator: ShortOperator,
    first: MadeParts,
    second: MadeParts,
) -> Result<MadeParts, NoMemory>
    ensures { Makes (with_two (node_of first) (node_of second) maker.old (λ l n. with_operator place (operation.Short operator l n) maker.old)) maker.new result }
{
    let Some(left) = node_of(first) else {
        return Ok(MadeParts::One(MadePart::Nothing));
    };
    let Some(right) = node_of(second) else {
        return Ok(MadeParts::One(MadePart::Nothing));
    };
    maker.operator(
        place,
        Operator::Short {
            operator,
            left,
            right,
        },
    )
}

/// An operator between two operands.
fn binary(
    maker: &mut Maker,
    place: Place,
    operator: BinaryOperator,
    first: MadeParts,
    second: MadeParts,
) -> Result<MadeParts, NoMemory>
    ensures { Makes (with_two (node_of first) (node_of second) maker.old (λ l n. with_operator place (operation.Binary operator l n) maker.old)) maker.new result }
{
    let Some(left) = node_of(first) else {
        return Ok(MadeParts::One(MadePart::Nothing));
    };
    let Some(right) = node_of(second) else {
        return Ok(MadeParts::One(MadePart::Nothing));
    };
    maker.operator(
        place,
        Operator::Binary {
            operator,
            left,
            right,
        },
    )
}

/// A member access by a computed key.
fn index(
    maker: &mut Maker,
    script: &Script,
    spot: Spot,
    square: u32,
    first: MadeParts,
    second: MadeParts,
) -> Result<MadeParts, NoMemory>
    ensures { Makes (with_two (node_of first) (node_of second) maker.old (λ l n. accessed spot.place (place_of script.now.leaves (Some square)) spot.around.role (λ read write. access.Index l n read write) maker.old)) maker.new result }
{
    let Some(base) = node_of(first) else {
        return Ok(MadeParts::One(MadePart::Nothing));
    };
    let Some(key) = node_of(second) else {
        return Ok(MadeParts::One(MadePart::Nothing));
    };
    let (read, write) = maker.sites(place_of(script, Some(square)), spot.around.role)?;
    maker.access(
        spot.place,
        Access::Index {
            base,
            key,
            read,
            write,
        },
    )
}

/// A call.
fn call(
    maker: &mut Maker,
    place: Place,
    first: MadeParts,
    second: MadeParts,
) -> Result<MadeParts, NoMemory>
    ensures { Makes (with_one (node_of first) maker.old (λ n. with_access place (access.Call n (nodes_in (parts_of second))) maker.old)) maker.new result }
{
    let Some(callee) = node_of(first) else {
        return Ok(MadeParts::One(MadePart::Nothing));
    };
    let alloc = maker.alloc();
    let parts = parts_of(alloc, second);
    let arguments = nodes_in(alloc, parts.as_slice())?;
    maker.access(place, Access::Call { callee, arguments })
}

/// A `new`.
fn construct(
    maker: &mut Maker,
    place: Place,
    first: MadeParts,
    second: MadeParts,
) -> Result<MadeParts, NoMemory>
    ensures { Makes (with_one (node_of first) maker.old (λ n. with_access place (access.New n (nodes_in (parts_of second))) maker.old)) maker.new result }
{
    let Some(callee) = node_of(first) else {
        return Ok(MadeParts::One(MadePart::Nothing));
    };
    let alloc = maker.alloc();
    let parts = parts_of(alloc, second);
    let arguments = nodes_in(alloc, parts.as_slice())?;
    maker.access(place, Access::New { callee, arguments })
}

/// An `if` without an `else`.
fn if_then(
    maker: &mut Maker,
    place: Place,
    first: MadeParts,
    second: MadeParts,
) -> Result<MadeParts, NoMemory>
    ensures { Makes (with_two (node_of first) (node_of second) maker.old (λ l n. with_statement place (statement.If l n None) maker.old)) maker.new result }
{
    let Some(test) = node_of(first) else {
        return Ok(MadeParts::One(MadePart::Nothing));
    };
    let Some(then) = node_of(second) else {
        return Ok(MadeParts::One(MadePart::Nothing));
    };
    maker.statement(
        place,
        Statement::If {
            test,
            then,
            otherwise: None,
        },
    )
}

/// A `while`.
fn while_true(
    maker: &mut Maker,
    place: Place,
    first: MadeParts,
    second: MadeParts,
) -> Result<MadeParts, NoMemory>
    ensures { Makes (with_two (node_of first) (node_of second) maker.old (λ l n. with_statement place (statement.While l n) maker.old)) maker.new result }
{
    let Some(test) = node_of(first) else {
        return Ok(MadeParts::One(MadePart::Nothing));
    };
    let Some(body) = node_of(second) else {
        return Ok(MadeParts::One(MadePart::Nothing));
    };
    maker.statement(place, Statement::While { test, body })
}

/// Whether a property definition with this name and a colon sets the prototype (13.2.5.5): it does where `__proto__` is written.
fn sets_prototype(alloc: Global, script: &Script, name: u32) -> Result<bool, NoMemory>
    requires { IsPart script.now.nodes name }
    ensures { IfOk result (λ b. b ≡ sets_prototype script.now.leaves (tree_at script.now.nodes name)) }
{
    match part(script, name) {
        ParseNode::Atom(Atom::Key(token)) => {
            let text = text_units(alloc, b"__proto__")?;
            Ok(is_spelled(script, token, &text))
        }
        _ => Ok(false),
    }
}

/// A property definition with a colon.
fn property(
    maker: &Maker,
    script: &Script,
    spot: Spot,
    first: MadeParts,
    second: MadeParts,
) -> Result<MadeParts, NoMemory>
    requires { IsPart script.now.nodes spot.first }
    ensures { Makes (with_one (node_of second) maker.now (λ n. one (made_part.Property (property_of (sets_prototype script.now.leaves (tree_at script.now.nodes spot.first)) (item_of first) n)) maker.now)) maker.now result }
{
    let alloc = maker.alloc();
    let Some(value) = node_of(second) else {
        return Ok(MadeParts::One(MadePart::Nothing));
    };
    if sets_prototype(alloc, script, spot.first)? {
        Ok(MadeParts::One(MadePart::Property(Property::Prototype(value))))
    } else {
        let key = key_of(alloc, item_of(first));
        Ok(MadeParts::One(MadePart::Property(Property::Value { key, value })))
    }
}

/// A getter.
fn getter(
    maker: &mut Maker,
    script: &Script,
    scopes: &Scopes,
    spot: Spot,
    name: MadeParts,
    body: MadeParts,
) -> Result<MadeParts, NoMemory>
    requires { IsSpot script.now.nodes scopes.now spot }
    ensures { Makes (method_made script.now.leaves (around_of scopes.now spot.inner) spot.place (λ n. property.Getter (key_of (item_of name)) n) 0 (tree_at script.now.nodes spot.last) (parts_of body) maker.old) maker.new result }
{
    let alloc = maker.alloc();
    let method = method_node(maker, script, scopes, spot, 0, parts_of(alloc, body))?;
    let key = key_of(alloc, item_of(name));
    Ok(MadeParts::One(MadePart::Property(Property::Getter { key, method })))
}

/// A setter, which has one parameter.
fn setter(
    maker: &mut Maker,
    script: &Script,
    scopes: &Scopes,
    spot: Spot,
    name: MadeParts,
    body: MadeParts,
) -> Result<MadeParts, NoMemory>
    requires { IsSpot script.now.nodes scopes.now spot }
    ensures { Makes (method_made script.now.leaves (around_of scopes.now spot.inner) spot.place (λ n. property.Setter (key_of (item_of name)) n) 1 (tree_at script.now.nodes spot.last) (parts_of body) maker.old) maker.new result }
{
    let alloc = maker.alloc();
    let method = method_node(maker, script, scopes, spot, 1, parts_of(alloc, body))?;
    let key = key_of(alloc, item_of(name));
    Ok(MadeParts::One(MadePart::Property(Property::Setter { key, method })))
}

/// A function expression, with its parameters and its body.
fn expression(
    maker: &mut Maker,
    script: &Script,
    scopes: &Scopes,
    spot: Spot,
    name: Option<u32>,
    parameters: MadeParts,
    body: MadeParts,
) -> Result<MadeParts, NoMemory>
    requires { IsSpot script.now.nodes scopes.now spot }
    ensures { Makes (expression_made script.now.leaves (around_of scopes.now spot.inner) spot.place name (length (parts_of parameters)) (tree_at script.now.nodes spot.last) (parts_of body) maker.old) maker.new result }
{
    let alloc = maker.alloc();
    let count = parts_of(alloc, parameters).len();
    expression_made(
        maker,
        script,
        scopes,
        spot,
        name,
        count,
        parts_of(alloc, body),
    )
}

/// A declared function, with its parameters and its body.
fn declaration(
    maker: &mut Maker,
    script: &Script,
    scopes: &Scopes,
    spot: Spot,
    name: u32,
    parameters: MadeParts,
    body: MadeParts,
) -> Result<MadeParts, NoMemory>
    requires { IsSpot script.now.nodes scopes.now spot }
    ensures { Makes (declaration_made script.now.leaves (around_of scopes.now spot.around) (around_of scopes.now spot.inner) spot.place name (length (parts_of parameters)) (tree_at script.now.nodes spot.last) (parts_of body) maker.old) maker.new result }
{
    let alloc = maker.alloc();
    let count = parts_of(alloc, parameters).len();
    declaration_made(
        maker,
        script,
        scopes,
        spot,
        name,
        count,
        parts_of(alloc, body),
    )
}

/// What a label with two parts becomes after them.
pub fn pair_made(
    maker: &mut Maker,
    script: &Script,
    scopes: &Scopes,
    spot: Spot,
    label: Pair,
    first: MadeParts,
    second: MadeParts,
) -> Result<MadeParts, NoMemory>
    requires { IsSpot script.now.nodes scopes.now spot }
    ensures { Makes (pair_made script.now.leaves (around_of scopes.now spot.around) (around_of scopes.now spot.inner) spot.place label (tree_at script.now.nodes spot.first) (tree_at script.now.nodes spot.last) first second maker.old) maker.new result }
{
    let alloc = maker.alloc();
    let place = spot.place;
    match label {
        Pair::And => listed(alloc, first, second),
        Pair::Comma => comma(maker, place, spot.around.role, first, second),
        Pair::Assign(operator) => assign(maker, place, operator, first, second),
        Pair::Short(operator) => short(maker, place, operator, first, second),
        Pair::Binary(operator) => binary(maker, place, operator, first, second),
        Pair::Index(square) => index(maker, script, spot, square, first, second),
        Pair::Call => call(maker, place, first, second),
        Pair::New(_) => construct(maker, place, first, second),
        Pair::Function(_) => expression(maker, script, scopes, spot, None, first, second),
        Pair::NamedFunction { name, .. } => {
            expression(maker, script, scopes, spot, Some(name), first, second)
        }
        Pair::DeclaredFunction { name, .. } => {
            declaration(maker, script, scopes, spot, name, first, second)
        }
        Pair::Property => property(maker, script, spot, first, second),
        Pair::Getter(_) => getter(maker, script, scopes, spot, first, second),
        Pair::Setter { .. } => setter(maker, script, scopes, spot, first, second),
        Pair::If(_) => if_then(maker, place, first, second),
        Pair::While(_) => while_true(maker, place, first, second),
    }
}
