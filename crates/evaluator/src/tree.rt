//! What stands in the tree: a node, a statement, an argument, by its number.

ghost use Rattle.std.specs.Prelude.{◌≡◌, [], Some, None, slice_get, IfSome, MatchOption};
ghost use Rattle.es_tree.specs.Tree.{NamesKnown};
ghost use Rattle.es_tree.specs.declared.node.Node.TheVariants as node_of;
ghost use Rattle.evaluator.specs.Calls.{arguments_in};
ghost use Rattle.evaluator.specs.Lists.{Finds};
ghost use Rattle.evaluator.specs.Operators.{comma_in};
ghost use Rattle.evaluator.specs.Statements.{block_in, block_or_none, caught_block, caught_in, items_of, last_in, statements_of, tried_in};

use es_model::Part;
use es_tree::{
    Access, Block, Catch, Checked, FunctionFacts, FunctionNo, Items, Node, NodeId, Operator,
    Statement,
};

/// A node, if it is there.
pub(crate) fn node_at(script: &Checked, n: NodeId) -> Option<&Node>
    ensures found { MatchOption result (slice_get script.now.nodes n.0 ≡ None) (λ node. slice_get script.now.nodes n.0 ≡ Some node.now) }
    ensures known { IfSome result (λ node. NamesKnown script.now node.now) }
{
    if n.0 < script.nodes() {
        Some(script.node(n))
    } else {
        None
    }
}

/// What is known of a function, if it is there.
pub(crate) fn facts_at(script: &Checked, f: FunctionNo) -> Option<FunctionFacts>
    ensures { result ≡ slice_get script.now.functions f.0 }
{
    if f.0 < script.functions() {
        Some(*script.function(f))
    } else {
        None
    }
}

/// An item of a list, and the number of the one behind it.
#[derive(Clone, Copy)]
pub(crate) struct Found {
    pub(crate) node: NodeId,
    pub(crate) next: usize,
}

fn item_at(items: &Items<NodeId>, i: usize) -> Option<Found>
    ensures { Finds items.now i result }
{
    if i < items.len() {
        Some(Found {
            node: *items.at(i),
            next: i + 1,
        })
    } else {
        None
    }
}

fn none_at(i: usize) -> Option<Found>
    ensures { Finds [] i result }
{
    None
}

fn argument_in(node: &Node, i: usize) -> Option<Found>
    ensures { Finds (arguments_in (Some node.now)) i result }
{
    match node {
        Node::Access(access) => match access {
            Access::Call { arguments, .. } => item_at(arguments, i),
            Access::New { arguments, .. } => item_at(arguments, i),
            Access::Member { .. } | Access::Index { .. } => none_at(i),
        },
        Node::Statement(_) | Node::Operator(_) | Node::Primary(_) => none_at(i),
    }
}

/// An argument of a node.
pub(crate) fn argument_at(script: &Checked, n: NodeId, i: usize) -> Option<Found>
    ensures { Finds (arguments_in (slice_get script.now.nodes n.0)) i result }
{
    match node_at(script, n) {
        None => none_at(i),
        Some(node) => argument_in(node, i),
    }
}

fn comma_in(node: &Node, i: usize) -> Option<Found>
    ensures { Finds (comma_in (Some node.now)) i result }
{
    match node {
        Node::Operator(operator) => match operator {
            Operator::Comma(items) => item_at(items, i),
            Operator::Assign { .. }
            | Operator::Update { .. }
            | Operator::Conditional { .. }
            | Operator::Short { .. }
            | Operator::Binary { .. }
            | Operator::Unary { .. } => none_at(i),
        },
        Node::Statement(_) | Node::Access(_) | Node::Primary(_) => none_at(i),
    }
}

/// An expression of a comma list.
pub(crate) fn comma_at(script: &Checked, n: NodeId, i: usize) -> Option<Found>
    ensures { Finds (comma_in (slice_get script.now.nodes n.0)) i result }
{
    match node_at(script, n) {
        None => none_at(i),
        Some(node) => comma_in(node, i),
    }
}

fn in_catch(catch: &Option<Catch>, i: usize) -> Option<Found>
    ensures { Finds (caught_block catch.now).items i result }
{
    match catch {
        None => none_at(i),
        Some(catch) => item_at(&catch.block.items, i),
    }
}

fn in_last(block: &Option<Block>, i: usize) -> Option<Found>
    ensures { Finds (block_or_none block.now).items i result }
{
    match block {
        None => none_at(i),
        Some(block) => item_at(&block.items, i),
    }
}

fn block_statement(statement: &Statement, i: usize) -> Option<Found>
    ensures { Finds (block_in (Some (node_of.Statement statement.now))).items i result }
{
    match statement {
        Statement::Block(block) => item_at(&block.items, i),
        Statement::Lexical { .. }
        | Statement::Empty
        | Statement::Expression(_)
        | Statement::If { .. }
        | Statement::While { .. }
        | Statement::For { .. }
        | Statement::Break
        | Statement::Continue
        | Statement::Return(_)
        | Statement::Throw(_)
        | Statement::Try { .. } => none_at(i),
    }
}

fn block_node(node: &Node, i: usize) -> Option<Found>
    ensures { Finds (block_in (Some node.now)).items i result }
{
    match node {
        Node::Statement(statement) => block_statement(statement, i),
        Node::Operator(_) | Node::Access(_) | Node::Primary(_) => none_at(i),
    }
}

fn block_at(script: &Checked, n: NodeId, i: usize) -> Option<Found>
    ensures { Finds (block_in (slice_get script.now.nodes n.0)).items i result }
{
    match node_at(script, n) {
        None => none_at(i),
        Some(node) => block_node(node, i),
    }
}

fn tried_statement(statement: &Statement, i: usize) -> Option<Found>
    ensures { Finds (tried_in (Some (node_of.Statement statement.now))).items i result }
{
    match statement {
        Statement::Try { block, .. } => item_at(&block.items, i),
        Statement::Block(_)
        | Statement::Lexical { .. }
        | Statement::Empty
        | Statement::Expression(_)
        | Statement::If { .. }
        | Statement::While { .. }
        | Statement::For { .. }
        | Statement::Break
        | Statement::Continue
        | Statement::Return(_)
        | Statement::Throw(_) => none_at(i),
    }
}

fn tried_node(node: &Node, i: usize) -> Option<Found>
    ensures { Finds (tried_in (Some node.now)).items i result }
{
    match node {
        Node::Statement(statement) => tried_statement(statement, i),
        Node::Operator(_) | Node::Access(_) | Node::Primary(_) => none_at(i),
    }
}

fn tried_at(script: &Checked, n: NodeId, i: usize) -> Option<Found>
    ensures { Finds (tried_in (slice_get script.now.nodes n.0)).items i result }
{
    match node_at(script, n) {
        None => none_at(i),
        Some(node) => tried_node(node, i),
    }
}

fn caught_statement(statement: &Statement, i: usize) -> Option<Found>
    ensures { Finds (caught_in (Some (node_of.Statement statement.now))).items i result }
{
    match statement {
        Statement::Try { catch, .. } => in_catch(catch, i),
        Statement::Block(_)
        | Statement::Lexical { .. }
        | Statement::Empty
        | Statement::Expression(_)
        | Statement::If { .. }
        | Statement::While { .. }
        | Statement::For { .. }
        | Statement::Break
        | Statement::Continue
        | Statement::Return(_)
        | Statement::Throw(_) => none_at(i),
    }
}

fn caught_node(node: &Node, i: usize) -> Option<Found>
    ensures { Finds (caught_in (Some node.now)).items i result }
{
    match node {
        Node::Statement(statement) => caught_statement(statement, i),
        Node::Operator(_) | Node::Access(_) | Node::Primary(_) => none_at(i),
    }
}

fn caught_at(script: &Checked, n: NodeId, i: usize) -> Option<Found>
    ensures { Finds (caught_in (slice_get script.now.nodes n.0)).items i result }
{
    match node_at(script, n) {
        None => none_at(i),
        Some(node) => caught_node(node, i),
    }
}

fn last_statement(statement: &Statement, i: usize) -> Option<Found>
    ensures { Finds (last_in (Some (node_of.Statement statement.now))).items i result }
{
    match statement {
        Statement::Try { finally, .. } => in_last(finally, i),
        Statement::Block(_)
        | Statement::Lexical { .. }
        | Statement::Empty
        | Statement::Expression(_)
        | Statement::If { .. }
        | Statement::While { .. }
        | Statement::For { .. }
        | Statement::Break
        | Statement::Continue
        | Statement::Return(_)
        | Statement::Throw(_) => none_at(i),
    }
}

fn last_node(node: &Node, i: usize) -> Option<Found>
    ensures { Finds (last_in (Some node.now)).items i result }
{
    match node {
        Node::Statement(statement) => last_statement(statement, i),
        Node::Operator(_) | Node::Access(_) | Node::Primary(_) => none_at(i),
    }
}

fn last_at(script: &Checked, n: NodeId, i: usize) -> Option<Found>
    ensures { Finds (last_in (slice_get script.now.nodes n.0)).items i result }
{
    match node_at(script, n) {
        None => none_at(i),
        Some(node) => last_node(node, i),
    }
}

fn body_at(script: &Checked, f: FunctionNo, i: usize) -> Option<Found>
    ensures { Finds (items_of (slice_get script.now.bodies f.0)) i result }
{
    if f.0 < script.functions() {
        item_at(&script.body(f).items, i)
    } else {
        // The tree has a body for each function.
        let _code = script.script();
        none_at(i)
    }
}

/// A statement of a part of the tree.
pub(crate) fn statement_at(script: &Checked, list: Part, i: usize) -> Option<Found>
    ensures { Finds (statements_of script.now list) i result }
{
    match list {
        Part::Script => item_at(&script.script().items, i),
        Part::Body(f) => body_at(script, f, i),
        Part::Block(n) => block_at(script, n, i),
        Part::Tried(n) => tried_at(script, n, i),
        Part::Caught(n) => caught_at(script, n, i),
        Part::Finally(n) => last_at(script, n, i),
    }
}
