//! Labels with one part, after it.

ghost use Rattle.std.specs.Prelude.{◌≡◌};
ghost use Rattle.es_tree.specs.declared.expressions.Access.TheVariants as access;
ghost use Rattle.es_tree.specs.declared.expressions.Operator.TheVariants as operation;
ghost use Rattle.es_tree.specs.declared.primaries.Key.TheVariants as key;
ghost use Rattle.es_tree.specs.declared.primaries.Primary.TheVariants as primary;
ghost use Rattle.es_tree.specs.declared.statements.Statement.TheVariants as statement;
ghost use Rattle.script_rules.specs.Chains.{chain_at, names_in};
ghost use Rattle.script_rules.specs.Names.{units_at};
ghost use Rattle.script_checker.specs.Firsts.{wrap_first};
ghost use Rattle.script_checker.specs.Made.{Made, accessed, block_made, is_part, named, one, place_of, with_object, with_one, with_operator, with_primary, with_statement, wrap_made};
ghost use Rattle.script_checker.specs.Machine.{around_of};
ghost use Rattle.script_checker.specs.Making.{Makes};
ghost use Rattle.script_checker.specs.Spots.{IsKnown, IsSpot};
ghost use Rattle.script_checker.specs.Values.{binds_in, block_of, elements_in, item_of, node_of, parts_of, target_of};
ghost use Rattle.script_checker.specs.declared.made_parts.MadePart.TheVariants as made_part;
ghost use Rattle.script_checker.specs.declared.made_parts.MadeParts.TheVariants as made_parts;

use crate::lists::{binds_in, elements_in, nodes_in, properties_in};
use crate::parts::{block_of, item_of, node_of, parts_of, target_of};
use crate::tokens::{named, place_of};
use crate::{MadePart, MadePartList, MadeParts, Maker, Spot};
use es_source::Place;
use es_tree::{Access, Block, Catch, Declared, Key, Operator, Primary, Statement, UnaryOperator};
use property_keys::NoMemory;
use script_grammar::{Script, Wrap};
use script_rules::{Role, Scopes, own_units_at};
use std::alloc::Global;

/// The first token of a part with one part, from that part's.
pub fn wrap_first(label: Wrap, first: Option<u32>) -> Option<u32>
    ensures { result ≡ wrap_first label first }
{
    match label {
        Wrap::Parenthesis(i)
        | Wrap::Unary(_, i)
        | Wrap::Array(i)
        | Wrap::Object(i)
        | Wrap::Computed(i)
        | Wrap::Binding(i)
        | Wrap::Lexical { first: i, .. }
        | Wrap::Block(i)
        | Wrap::Return(i)
        | Wrap::Throw(i) => Some(i),
        Wrap::Update { prefix, token, .. } => { if prefix { Some(token) } else { first } }
        Wrap::Member { .. } | Wrap::Evaluate => first,
        Wrap::Catch | Wrap::CatchName(_) => None,
    }
}

/// An operator before its operand.
fn unary(
    maker: &mut Maker,
    place: Place,
    operator: UnaryOperator,
    part: MadeParts,
) -> Result<MadeParts, NoMemory>
    ensures { Makes (with_one (node_of part) maker.old (λ n. with_operator place (operation.Unary operator n) maker.old)) maker.new result }
{
    match node_of(part) {
        Some(operand) => maker.operator(place, Operator::Unary { operator, operand }),
        None => Ok(MadeParts::One(MadePart::Nothing)),
    }
}

/// A member access.
fn member(
    maker: &mut Maker,
    script: &Script,
    spot: Spot,
    dot: u32,
    word: u32,
    part: MadeParts,
) -> Result<MadeParts, NoMemory>
    ensures { Makes (with_one (node_of part) maker.old (λ n. accessed spot.place (place_of script.now.leaves (Some dot)) spot.around.role (λ read write. access.Member n (units_at script.now.leaves word) read write) maker.old)) maker.new result }
{
    let Some(base) = node_of(part) else {
        return Ok(MadeParts::One(MadePart::Nothing));
    };
    let name = own_units_at(maker.alloc(), script, word)?;
    let (read, write) = maker.sites(place_of(script, Some(dot)), spot.around.role)?;
    maker.access(
        spot.place,
        Access::Member {
            base,
            name,
            read,
            write,
        },
    )
}

/// An object literal.
fn object(maker: &mut Maker, place: Place, parts: MadePartList) -> Result<MadeParts, NoMemory>
    ensures { Makes (with_object place parts maker.old) maker.new result }
{
    let alloc = maker.alloc();
    let literal = maker.literal(place, parts.len())?;
    let properties = properties_in(alloc, parts)?;
    maker.primary(
        place,
        Primary::Object {
            literal,
            properties,
        },
    )
}

/// A property name in square brackets.
fn computed(part: MadeParts) -> MadeParts
    ensures { (m : Made) → with_one (node_of part) m (λ n. one (made_part.Key (key.Computed n)) m) ≡ record { value = result; made = m } }
{
    match node_of(part) {
        Some(n) => MadeParts::One(MadePart::Key(Key::Computed(n))),
        None => MadeParts::One(MadePart::Nothing),
    }
}

/// A block: a statement, or a part of a `try` or of a catch.
fn block(
    maker: &mut Maker,
    scopes: &Scopes,
    spot: Spot,
    parts: MadePartList,
) -> Result<MadeParts, NoMemory>
    requires { IsKnown scopes.now spot.inner }
    ensures { Makes (block_made spot.place spot.around.role (names_in (chain_at scopes.now spot.inner.scope.0)) parts maker.old) maker.new result }
{
    let block = Block {
        names: scopes.names(spot.inner.scope),
        items: nodes_in(maker.alloc(), parts.as_slice())?,
    };
    if is_part(spot.around.role) {
        Ok(MadeParts::One(MadePart::Block(block)))
    } else {
        maker.statement(spot.place, Statement::Block(block))
    }
}

/// Whether a block in this role is a part of a `try` or of a catch.
fn is_part(role: Role) -> bool
    ensures { result ≡ is_part role }
{
    matches!(role, Role::Block)
}

/// An expression as a statement.
fn evaluate(maker: &mut Maker, place: Place, part: MadeParts) -> Result<MadeParts, NoMemory>
    ensures { Makes (with_one (node_of part) maker.old (λ n. with_statement place (statement.Expression n) maker.old)) maker.new result }
{
    match node_of(part) {
        Some(n) => maker.statement(place, Statement::Expression(n)),
        None => Ok(MadeParts::One(MadePart::Nothing)),
    }
}

/// A `throw`.
fn throw(maker: &mut Maker, place: Place, part: MadeParts) -> Result<MadeParts, NoMemory>
    ensures { Makes (with_one (node_of part) maker.old (λ n. with_statement place (statement.Throw n) maker.old)) maker.new result }
{
    match node_of(part) {
        Some(n) => maker.statement(place, Statement::Throw(n)),
        None => Ok(MadeParts::One(MadePart::Nothing)),
    }
}

/// A lexical name with its value.
fn binding(
    maker: &mut Maker,
    script: &Script,
    scopes: &Scopes,
    spot: Spot,
    token: u32,
    part: MadeParts,
) -> Result<MadeParts, NoMemory>
    requires { IsSpot script.now.nodes scopes.now spot }
    ensures { Makes (one (made_part.Bind (record { named = named script.now.leaves (chain_at scopes.now spot.around.scope.0) token; value = node_of part })) maker.old) maker.new result }
{
    let own = named(maker.alloc(), script, scopes, spot.around.scope, token)?;
    let value = node_of(part);
    Ok(MadeParts::One(MadePart::Bind(Declared { named: own, value })))
}

/// A catch with its parameter.
fn catch_made(
    maker: &mut Maker,
    script: &Script,
    scopes: &Scopes,
    spot: Spot,
    token: u32,
    part: MadeParts,
) -> Result<MadeParts, NoMemory>
    requires { IsSpot script.now.nodes scopes.now spot }
    ensures { Makes (one (made_part.Catch (record { parameter = Some (named script.now.leaves (chain_at scopes.now spot.inner.scope.0) token); block = block_of (item_of part) })) maker.old) maker.new result }
{
    let alloc = maker.alloc();
    let own = named(alloc, script, scopes, spot.inner.scope, token)?;
    Ok(MadeParts::One(MadePart::Catch(Catch {
        parameter: Some(own),
        block: block_of(alloc, item_of(part)),
    })))
}

/// An update.
fn update(
    maker: &mut Maker,
    place: Place,
    increment: bool,
    prefix: bool,
    part: MadeParts,
) -> Result<MadeParts, NoMemory>
    ensures { Makes (with_operator place (operation.Update increment prefix (target_of (item_of part))) maker.old) maker.new result }
{
    let target = target_of(maker.alloc(), item_of(part));
    maker.operator(
        place,
        Operator::Update {
            increment,
            prefix,
            target,
        },
    )
}

/// An array literal.
fn array(maker: &mut Maker, place: Place, part: MadeParts) -> Result<MadeParts, NoMemory>
    ensures { Makes (with_primary place (primary.Array (elements_in (parts_of part))) maker.old) maker.new result }
{
    let alloc = maker.alloc();
    let parts = parts_of(alloc, part);
    let elements = elements_in(alloc, parts.as_slice())?;
    maker.primary(place, Primary::Array(elements))
}

/// A lexical declaration.
fn lexical(
    maker: &mut Maker,
    place: Place,
    constant: bool,
    part: MadeParts,
) -> Result<MadeParts, NoMemory>
    ensures { Makes (with_statement place (statement.Lexical constant (binds_in (parts_of part))) maker.old) maker.new result }
{
    let alloc = maker.alloc();
    let names = binds_in(alloc, parts_of(alloc, part))?;
    maker.statement(place, Statement::Lexical { constant, names })
}

/// A catch without a parameter.
fn plain_catch(alloc: Global, part: MadeParts) -> MadeParts
    ensures { result ≡ made_parts.One (made_part.Catch (record { parameter = None; block = block_of (item_of part) })) }
{
    MadeParts::One(MadePart::Catch(Catch {
        parameter: None,
        block: block_of(alloc, item_of(part)),
    }))
}

/// What a label with one part becomes after it.
pub fn wrap_made(
    maker: &mut Maker,
    script: &Script,
    scopes: &Scopes,
    spot: Spot,
    label: Wrap,
    part: MadeParts,
) -> Result<MadeParts, NoMemory>
    requires { IsSpot script.now.nodes scopes.now spot }
    ensures { Makes (wrap_made script.now.leaves (around_of scopes.now spot.around) (around_of scopes.now spot.inner) spot.place label part maker.old) maker.new result }
{
    let alloc = maker.alloc();
    let place = spot.place;
    match label {
        Wrap::Parenthesis(_) => Ok(part),
        Wrap::Unary(operator, _) => unary(maker, place, operator, part),
        Wrap::Update {
            increment,
            prefix,
            ..
        } => update(maker, place, increment, prefix, part),
        Wrap::Member { dot, word } => member(maker, script, spot, dot, word, part),
        Wrap::Array(_) => array(maker, place, part),
        Wrap::Object(_) => object(maker, place, parts_of(alloc, part)),
        Wrap::Computed(_) => Ok(computed(part)),
        Wrap::Binding(token) => binding(maker, script, scopes, spot, token, part),
        Wrap::Lexical { constant, .. } => lexical(maker, place, constant, part),
        Wrap::Block(_) => block(maker, scopes, spot, parts_of(alloc, part)),
        Wrap::Evaluate => evaluate(maker, place, part),
        Wrap::Return(_) => maker.statement(place, Statement::Return(node_of(part))),
        Wrap::Throw(_) => throw(maker, place, part),
        Wrap::Catch => Ok(plain_catch(alloc, part)),
        Wrap::CatchName(token) => catch_made(maker, script, scopes, spot, token, part),
    }
}
