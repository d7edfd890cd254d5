//! Labels with three or four parts, after them.

ghost use Rattle.std.specs.Prelude.{◌≡◌, length};
ghost use Rattle.es_tree.specs.declared.expressions.Operator.TheVariants as operation;
ghost use Rattle.es_tree.specs.declared.primaries.Property.TheVariants as property;
ghost use Rattle.es_tree.specs.declared.statements.Statement.TheVariants as statement;
ghost use Rattle.script_rules.specs.Arena.{tree_at};
ghost use Rattle.script_checker.specs.Firsts.{for_first, triple_first};
ghost use Rattle.script_checker.specs.Made.{for_made, method_made, triple_made, with_operator, with_statement, with_three, with_two};
ghost use Rattle.script_checker.specs.Machine.{around_of};
ghost use Rattle.script_checker.specs.Making.{Makes};
ghost use Rattle.script_checker.specs.Spots.{IsKnown, IsSpot};
ghost use Rattle.script_checker.specs.Values.{block_of, item_of, key_of, node_of, optional_block, optional_catch, parts_of};

use crate::functions::method_node;
use crate::parts::{block_of, item_of, key_of, node_of, optional_block, optional_catch, parts_of};
use crate::{MadePart, MadeParts, Maker, Setting, Spot};
use es_source::Place;
use es_tree::{Operator, Property, Statement};
use property_keys::NoMemory;
use script_grammar::{Quad, Script, Triple};
use script_rules::Scopes;

/// What three parts became.
#[derive(Drop)]
pub struct ThreeValues {
    pub first: MadeParts,
    pub second: MadeParts,
    pub third: MadeParts,
}

/// What the three parts of the head of a `for` and its statement became.
#[derive(Drop)]
pub struct ForValues {
    pub first: MadeParts,
    pub test: MadeParts,
    pub step: MadeParts,
    pub body: MadeParts,
}

/// The first token of a part with three parts, from that of the first.
pub fn triple_first(label: Triple, first: Option<u32>) -> Option<u32>
    ensures { result ≡ triple_first label first }
{
    match label {
        Triple::Conditional | Triple::Method => first,
        Triple::IfElse(i) | Triple::Try(i) => Some(i),
    }
}

/// The first token of a `for`.
pub fn for_first(label: Quad) -> Option<u32>
    ensures { result ≡ for_first label }
{
    match label {
        Quad::For(i) => Some(i),
    }
}

/// A test and two values.
fn conditional(maker: &mut Maker, place: Place, values: ThreeValues) -> Result<MadeParts, NoMemory>
    ensures { Makes (with_three (node_of values.first) (node_of values.second) (node_of values.third) maker.old (λ c l n. with_operator place (operation.Conditional c l n) maker.old)) maker.new result }
{
    let (first, second) = (node_of(values.first), node_of(values.second));
    let (Some(test), Some(then), Some(otherwise)) = (first, second, node_of(values.third)) else {
        return Ok(MadeParts::One(MadePart::Nothing));
    };
    maker.operator(
        place,
        Operator::Conditional {
            test,
            then,
            otherwise,
        },
    )
}

/// An `if` with an `else`.
fn if_else(maker: &mut Maker, place: Place, values: ThreeValues) -> Result<MadeParts, NoMemory>
    ensures { Makes (with_two (node_of values.first) (node_of values.second) maker.old (λ l n. with_statement place (statement.If l n (node_of values.third)) maker.old)) maker.new result }
{
    let otherwise = node_of(values.third);
    let (Some(test), Some(then)) = (node_of(values.first), node_of(values.second)) else {
        return Ok(MadeParts::One(MadePart::Nothing));
    };
    maker.statement(
        place,
        Statement::If {
            test,
            then,
            otherwise,
        },
    )
}

/// A method.
fn method(
    maker: &mut Maker,
    script: &Script,
    scopes: &Scopes,
    spot: Spot,
    values: ThreeValues,
) -> Result<MadeParts, NoMemory>
    requires { IsSpot script.now.nodes scopes.now spot }
    ensures { Makes (method_made script.now.leaves (around_of scopes.now spot.inner) spot.place (λ n. property.Method (key_of (item_of values.first)) n) (length (parts_of values.second)) (tree_at script.now.nodes spot.last) (parts_of values.third) maker.old) maker.new result }
{
    let alloc = maker.alloc();
    let count = parts_of(alloc, values.second).len();
    let body = parts_of(alloc, values.third);
    let method = method_node(maker, script, scopes, spot, count, body)?;
    let key = key_of(alloc, item_of(values.first));
    Ok(MadeParts::One(MadePart::Property(Property::Method { key, method })))
}

/// A `try`.
fn try_made(maker: &mut Maker, place: Place, values: ThreeValues) -> Result<MadeParts, NoMemory>
    ensures { Makes (with_statement place (statement.Try (block_of (item_of values.first)) (optional_catch (item_of values.second)) (optional_block (item_of values.third))) maker.old) maker.new result }
{
    let block = block_of(maker.alloc(), item_of(values.first));
    maker.statement(
        place,
        Statement::Try {
            block,
            catch: optional_catch(item_of(values.second)),
            finally: optional_block(item_of(values.third)),
        },
    )
}

/// What a label with three parts becomes after them.
pub fn triple_made(
    maker: &mut Maker,
    script: &Script,
    scopes: &Scopes,
    spot: Spot,
    label: Triple,
    values: ThreeValues,
) -> Result<MadeParts, NoMemory>
    requires { IsSpot script.now.nodes scopes.now spot }
    ensures { Makes (triple_made script.now.leaves (around_of scopes.now spot.inner) spot.place label (tree_at script.now.nodes spot.last) values.first values.second values.third maker.old) maker.new result }
{
    match label {
        Triple::Conditional => conditional(maker, spot.place, values),
        Triple::IfElse(_) => if_else(maker, spot.place, values),
        Triple::Method => method(maker, script, scopes, spot, values),
        Triple::Try(_) => try_made(maker, spot.place, values),
    }
}

/// What a `for` becomes after its parts.
pub fn for_made(
    maker: &mut Maker,
    scopes: &Scopes,
    inner: Setting,
    place: Place,
    values: ForValues,
) -> Result<MadeParts, NoMemory>
    requires { IsKnown scopes.now inner }
    ensures { Makes (for_made (around_of scopes.now inner) place values.first values.test values.step values.body maker.old) maker.new result }
{
    let (first, test) = (node_of(values.first), node_of(values.test));
    let step = node_of(values.step);
    let Some(body) = node_of(values.body) else {
        return Ok(MadeParts::One(MadePart::Nothing));
    };
    maker.statement(
        place,
        Statement::For {
            names: scopes.names(inner.scope),
            first,
            test,
            step,
            body,
        },
    )
}
