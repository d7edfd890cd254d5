//! `let` and `const` (ECMA-262, 14.3.1).

ghost use Rattle.std.specs.Prelude.{◌≡◌, ◌∷◌, ◌+◌, ◌<◌, [], Some, drop, length, slice_get, MatchOption};
ghost use Rattle.es_tree.specs.declared.node.Node.TheVariants as node_of;
ghost use Rattle.es_model.specs.declared.running.Running.{Running as RunningBody};
ghost use Rattle.es_tree.specs.Tree.{Tree};
ghost use Rattle.evaluator.specs.Contexts.{context};
ghost use Rattle.evaluator.specs.Plans.{PlansAt, ended};
ghost use Rattle.evaluator.specs.Scopes.{bound_cell};
ghost use Rattle.evaluator.specs.Statements.{declare_all, declared_at, declared_in, declared_valued};
ghost use Rattle.object_heap.specs.Retains.{Retains};
ghost use Rattle.es_model.specs.World.{Lists};
ghost use Rattle.evaluator.specs.Names.{NamesPlan};

use crate::cells::Cells;
use crate::endings::value_of;
use crate::items::{Ending, Item, Job, Plan, StatementItem};
use crate::texts::intern;
use crate::tree::node_at;
use es_model::{CellNo, FunctionName, Running, Stop};
use es_tree::{Binding, Checked, Declared, Items, Node, NodeId, Statement};
use object_heap::Heap;
use property_keys::{Ledger, Steps, Value};

// ---- the names that a node declares

fn count_in(statement: &Statement) -> usize
    ensures { result ≡ length (declared_in (Some (node_of.Statement statement.now))) }
{
    match statement {
        Statement::Lexical { names, .. } => names.len(),
        Statement::Block(_)
        | Statement::Empty
        | Statement::Expression(_)
        | Statement::If { .. }
        | Statement::While { .. }
        | Statement::For { .. }
        | Statement::Break
        | Statement::Continue
        | Statement::Return(_)
        | Statement::Throw(_)
        | Statement::Try { .. } => 0,
    }
}

fn count_of(node: &Node) -> usize
    ensures { result ≡ length (declared_in (Some node.now)) }
{
    match node {
        Node::Statement(statement) => count_in(statement),
        Node::Operator(_) | Node::Access(_) | Node::Primary(_) => 0,
    }
}

/// How many names a node declares.
fn declared_count(script: &Checked, n: NodeId) -> usize
    ensures { result ≡ length (declared_in (slice_get script.now.nodes n.0)) }
{
    match node_at(script, n) {
        None => 0,
        Some(node) => count_of(node),
    }
}

fn item_at(names: &Items<Declared>, i: usize) -> Option<&Declared>
    ensures { MatchOption result (drop i names.now ≡ []) (λ d. drop i names.now ≡ d.now ∷ drop (i + 1) names.now) }
{
    if i < names.len() {
        Some(names.at(i))
    } else {
        None
    }
}

fn name_in(statement: &Statement, i: usize) -> Option<&Declared>
    ensures { MatchOption result (drop i (declared_in (Some (node_of.Statement statement.now))) ≡ []) (λ d. drop i (declared_in (Some (node_of.Statement statement.now))) ≡ d.now ∷ drop (i + 1) (declared_in (Some (node_of.Statement statement.now)))) }
{
    match statement {
        Statement::Lexical { names, .. } => item_at(names, i),
        Statement::Block(_)
        | Statement::Empty
        | Statement::Expression(_)
        | Statement::If { .. }
        | Statement::While { .. }
        | Statement::For { .. }
        | Statement::Break
        | Statement::Continue
        | Statement::Return(_)
        | Statement::Throw(_)
        | Statement::Try { .. } => None,
    }
}

fn name_of(node: &Node, i: usize) -> Option<&Declared>
    ensures { MatchOption result (drop i (declared_in (Some node.now)) ≡ []) (λ d. drop i (declared_in (Some node.now)) ≡ d.now ∷ drop (i + 1) (declared_in (Some node.now))) }
{
    match node {
        Node::Statement(statement) => name_in(statement, i),
        Node::Operator(_) | Node::Access(_) | Node::Primary(_) => None,
    }
}

/// A name that a node declares.
fn name_at(script: &Checked, n: NodeId, i: usize) -> Option<&Declared>
    ensures { MatchOption result (drop i (declared_in (slice_get script.now.nodes n.0)) ≡ []) (λ d. drop i (declared_in (slice_get script.now.nodes n.0)) ≡ d.now ∷ drop (i + 1) (declared_in (slice_get script.now.nodes n.0))) }
{
    match node_at(script, n) {
        None => None,
        Some(node) => name_of(node, i),
    }
}

// ---- their values

/// The cell of a name that is declared.
pub(crate) fn bound_cell(cells: &Cells, binding: Binding) -> CellNo
    ensures { (script : Tree) (body : RunningBody) → result ≡ bound_cell (context script body cells.now) binding }
{
    match binding {
        Binding::Top { cell, .. } => CellNo(cell),
        Binding::Own { place, .. } => cells.at(place),
        Binding::Global | Binding::Arguments | Binding::Callee => cells.at(0),
    }
}

/// The names of a declaration from a number on.
pub(crate) fn declare_from<L: Ledger>(
    heap: &mut Heap,
    script: &Checked,
    body: Running,
    cells: &Cells,
    node: NodeId,
    first: usize,
    steps: &mut Steps<L>,
) -> Result<Plan, Stop>
    ensures plans { PlansAt script.now body cells.now heap.old heap.new (λ here. declare_all here (drop first (declared_at here node))) result }
    ensures named { (l : Lists) → NamesPlan script.now l result }
    ensures retains { Retains heap.old heap.new }
{
    let count = declared_count(script, node);
    let mut next = first;
    'names: while next < count {
        match name_at(script, node, next) {
            None => return Ok(Plan::Ends(Ending::Gives(Value::Undefined))),
            Some(declared) => match declared.value {
                None => {
                    let cell = bound_cell(cells, declared.named.binding);
                    heap.set_cell(cell, Value::Undefined);
                    next += 1;
                }
                Some(value) => {
                    let name = intern(heap, &declared.named.name)?;
                    return Ok(Plan::Wait(
                        Job::Node {
                            name: Some(FunctionName::Text(name)),
                            node: value,
                        },
                        Item::Statement(StatementItem::Declared { node, next }),
                    ));
                }
            },
        }
    }
    Ok(Plan::Ends(Ending::Gives(Value::Undefined)))
}

/// A name of a declaration has its value.
pub(crate) fn declared_valued<L: Ledger>(
    heap: &mut Heap,
    script: &Checked,
    body: Running,
    cells: &Cells,
    node: NodeId,
    next: usize,
    end: Ending,
    steps: &mut Steps<L>,
) -> Result<Plan, Stop>
    ensures plans { PlansAt script.now body cells.now heap.old heap.new (λ here. declared_valued here (drop next (declared_at here node)) (ended end)) result }
    ensures named { (l : Lists) → NamesPlan script.now l result }
    ensures retains { Retains heap.old heap.new }
{
    if next >= declared_count(script, node) {
        return Ok(Plan::Ends(Ending::Gives(Value::Undefined)));
    }
    match name_at(script, node, next) {
        None => Ok(Plan::Ends(Ending::Gives(Value::Undefined))),
        Some(declared) => match value_of(end) {
            Err(end) => Ok(Plan::Ends(end)),
            Ok(value) => {
                let cell = bound_cell(cells, declared.named.binding);
                heap.set_cell(cell, value);
                declare_from(heap, script, body, cells, node, next + 1, steps)
            }
        },
    }
}
