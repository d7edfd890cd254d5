//! Statements (ECMA-262, clause 14).

ghost use Rattle.std.specs.Prelude.{◌≡◌, zero, None, OnOk, Some, length, slice_get, take};
ghost use Rattle.property_keys.specs.declared.values.Value.TheVariants as values;
ghost use Rattle.es_model.specs.Program.{Statements, done, part};
ghost use Rattle.es_tree.specs.declared.node.Node.TheVariants as node_of;
ghost use Rattle.evaluator.specs.Contexts.{context};
ghost use Rattle.evaluator.specs.Plans.{PlansAt, PlansIn, ended, statement_item};
ghost use Rattle.evaluator.specs.Scopes.{enter_scope};
ghost use Rattle.evaluator.specs.Statements.{after_statement, for_again, for_begun, for_first, for_round, for_stepped, for_valued, if_valued, last_ended, return_valued, round_of, statement_at, statements, statements_of, throw_valued, while_again, while_valued};
ghost use Rattle.evaluator.specs.declared.items.Ending.TheVariants as ending;
ghost use Rattle.evaluator.specs.declared.items.Item.TheVariants as item_of;
ghost use Rattle.evaluator.specs.declared.items.Job.TheVariants as job;
ghost use Rattle.evaluator.specs.declared.items.Plan.TheVariants as plan;
ghost use Rattle.object_heap.specs.Retains.{Retains};
ghost use Rattle.es_model.specs.World.{Lists, World};
ghost use Rattle.object_heap.specs.Stands.{StandsFor};
ghost use Rattle.es_model.specs.Belongs.{HasNames};
ghost use Rattle.es_model.specs.Kept.{AreCells};
ghost use Rattle.evaluator.specs.Names.{NamesPlan, names_of_statement};

use crate::cells::{Cells, make_cells};
use crate::endings::value_of;
use crate::items::{Ending, Item, Job, Plan, StatementItem};
use crate::tree::{node_at, statement_at};
use es_model::{Part, Running, Stop};
use es_tree::{Checked, Node, NodeId, Statement};
use object_heap::Heap;
use property_keys::{Ledger, Steps, Value};

pub(crate) fn wait_for(node: NodeId, item: StatementItem) -> Plan
    ensures { result ≡ plan.Wait (job.Node None node) (item_of.Statement item) }
{
    Plan::Wait(Job::Node { name: None, node }, Item::Statement(item))
}

pub(crate) fn last(node: NodeId) -> Plan
    ensures { result ≡ plan.Last (job.Node None node) }
{
    Plan::Last(Job::Node { name: None, node })
}

pub(crate) fn falls() -> Plan
    ensures { result ≡ plan.Ends (ending.Gives values.Undefined) }
{
    Plan::Ends(Ending::Gives(Value::Undefined))
}

// ---- scopes

/// The statements of a block, in a scope of their own, whose end is the end.
pub(crate) fn block_last<L: Ledger>(
    heap: &mut Heap,
    script: &Checked,
    body: Running,
    cells: &mut Cells,
    names: u32,
    list: Part,
    steps: &mut Steps<L>,
) -> Result<Plan, Stop>
    ensures plans { PlansIn (context script.now body cells.old) (context script.now body cells.new) heap.old heap.new (λ here. enter_scope here names (λ inner. statements inner list zero)) result }
    ensures front { OnOk result (take (length cells.old) cells.new ≡ cells.old) }
    ensures named { (l : Lists) → NamesPlan script.now l result }
    ensures known { (w v : World) → StandsFor heap.old w → StandsFor heap.new v → AreCells v.lists cells.old → OnOk result (AreCells v.lists cells.new) }
    ensures retains { Retains heap.old heap.new }
{
    make_cells(heap, cells, names)?;
    Ok(Plan::Last(Job::Statements(list, 0)))
}

/// The same, and an item of the scope around waits for their end.
pub(crate) fn block_then<L: Ledger>(
    heap: &mut Heap,
    script: &Checked,
    body: Running,
    cells: &mut Cells,
    names: u32,
    list: Part,
    item: StatementItem,
    steps: &mut Steps<L>,
) -> Result<Plan, Stop>
    ensures plans { PlansIn (context script.now body cells.old) (context script.now body cells.new) heap.old heap.new (λ here. enter_scope here names (λ inner. part (Statements inner.body inner.cells list zero) (statement_item here item))) result }
    ensures front { OnOk result (take (length cells.old) cells.new ≡ cells.old) }
    ensures named { (l : Lists) → HasNames script.now l (names_of_statement item) → NamesPlan script.now l result }
    ensures known { (w v : World) → StandsFor heap.old w → StandsFor heap.new v → AreCells v.lists cells.old → OnOk result (AreCells v.lists cells.new) }
    ensures retains { Retains heap.old heap.new }
{
    let depth = cells.len();
    make_cells(heap, cells, names)?;
    Ok(Plan::Enter(Job::Statements(list, 0), item, depth))
}

// ---- statements one after another (14.2.2)

pub(crate) fn next_statement<L: Ledger>(
    heap: &mut Heap,
    script: &Checked,
    body: Running,
    cells: &Cells,
    list: Part,
    i: usize,
    steps: &mut Steps<L>,
) -> Result<Plan, Stop>
    ensures plans { PlansAt script.now body cells.now heap.old heap.new (λ here. statement_at here list i (slice_get (statements_of here.script list) i)) result }
    ensures named { (l : Lists) → NamesPlan script.now l result }
    ensures retains { Retains heap.old heap.new }
{
    match statement_at(script, list, i) {
        None => Ok(falls()),
        Some(found) => Ok(wait_for(
            found.node,
            StatementItem::AfterStatement {
                list,
                next: found.next,
            },
        )),
    }
}

// ---- loops (14.7)

fn for_round<L: Ledger>(
    heap: &mut Heap,
    script: &Checked,
    body: Running,
    cells: &Cells,
    node: NodeId,
    test: Option<NodeId>,
    step: Option<NodeId>,
    statement: NodeId,
    steps: &mut Steps<L>,
) -> Result<Plan, Stop>
    ensures plans { PlansAt script.now body cells.now heap.old heap.new (λ here. for_round here node test step statement) result }
    ensures named { (l : Lists) → NamesPlan script.now l result }
    ensures retains { Retains heap.old heap.new }
{
    match test {
        None => Ok(wait_for(statement, StatementItem::ForAgain { node, step })),
        Some(test) => Ok(wait_for(
            test,
            StatementItem::ForValued {
                node,
                step,
                body: statement,
            },
        )),
    }
}

fn round_statement<L: Ledger>(
    heap: &mut Heap,
    script: &Checked,
    body: Running,
    cells: &Cells,
    node: NodeId,
    statement: &Statement,
    steps: &mut Steps<L>,
) -> Result<Plan, Stop>
    ensures plans { PlansAt script.now body cells.now heap.old heap.new (λ here. round_of here node (Some (node_of.Statement statement.now))) result }
    ensures named { (l : Lists) → NamesPlan script.now l result }
    ensures retains { Retains heap.old heap.new }
{
    match statement {
        Statement::While { test, body: inner } => {
            Ok(wait_for(*test, StatementItem::WhileValued { node, body: *inner }))
        }
        Statement::For {
            test,
            step,
            body: inner,
            ..
        } => for_round(heap, script, body, cells, node, *test, *step, *inner, steps),
        Statement::Block(_)
        | Statement::Lexical { .. }
        | Statement::Empty
        | Statement::Expression(_)
        | Statement::If { .. }
        | Statement::Break
        | Statement::Continue
        | Statement::Return(_)
        | Statement::Throw(_)
        | Statement::Try { .. } => Ok(falls()),
    }
}

fn round_node<L: Ledger>(
    heap: &mut Heap,
    script: &Checked,
    body: Running,
    cells: &Cells,
    node: NodeId,
    found: &Node,
    steps: &mut Steps<L>,
) -> Result<Plan, Stop>
    ensures plans { PlansAt script.now body cells.now heap.old heap.new (λ here. round_of here node (Some found.now)) result }
    ensures named { (l : Lists) → NamesPlan script.now l result }
    ensures retains { Retains heap.old heap.new }
{
    match found {
        Node::Statement(statement) => round_statement(
            heap, script, body, cells, node, statement, steps,
        ),
        Node::Operator(_) | Node::Access(_) | Node::Primary(_) => Ok(falls()),
    }
}

/// A round of a loop.
pub(crate) fn round<L: Ledger>(
    heap: &mut Heap,
    script: &Checked,
    body: Running,
    cells: &Cells,
    node: NodeId,
    steps: &mut Steps<L>,
) -> Result<Plan, Stop>
    ensures plans { PlansAt script.now body cells.now heap.old heap.new (λ here. round_of here node (slice_get here.script.nodes node.0)) result }
    ensures named { (l : Lists) → NamesPlan script.now l result }
    ensures retains { Retains heap.old heap.new }
{
    match node_at(script, node) {
        None => Ok(falls()),
        Some(found) => round_node(heap, script, body, cells, node, found, steps),
    }
}

pub(crate) fn for_again<L: Ledger>(
    heap: &mut Heap,
    script: &Checked,
    body: Running,
    cells: &Cells,
    node: NodeId,
    step: Option<NodeId>,
    end: Ending,
    steps: &mut Steps<L>,
) -> Result<Plan, Stop>
    ensures plans { PlansAt script.now body cells.now heap.old heap.new (λ here. for_again here node step (ended end)) result }
    ensures named { (l : Lists) → NamesPlan script.now l result }
    ensures retains { Retains heap.old heap.new }
{
    match end {
        Ending::Gives(_) | Ending::Continues => match step {
            None => Ok(Plan::Last(Job::Round(node))),
            Some(step) => Ok(wait_for(step, StatementItem::ForStepped { node })),
        },
        Ending::Breaks => Ok(falls()),
        Ending::Returns(value) => Ok(Plan::Ends(Ending::Returns(value))),
        Ending::Throws(thrown) => Ok(Plan::Ends(Ending::Throws(thrown))),
    }
}

pub(crate) fn while_again<L: Ledger>(
    heap: &mut Heap,
    script: &Checked,
    body: Running,
    cells: &Cells,
    node: NodeId,
    end: Ending,
    steps: &mut Steps<L>,
) -> Result<Plan, Stop>
    ensures plans { PlansAt script.now body cells.now heap.old heap.new (λ here. while_again here node (ended end)) result }
    ensures named { (l : Lists) → NamesPlan script.now l result }
    ensures retains { Retains heap.old heap.new }
{
    match end {
        Ending::Gives(_) | Ending::Continues => Ok(Plan::Last(Job::Round(node))),
        Ending::Breaks => Ok(falls()),
        Ending::Returns(value) => Ok(Plan::Ends(Ending::Returns(value))),
        Ending::Throws(thrown) => Ok(Plan::Ends(Ending::Throws(thrown))),
    }
}

pub(crate) fn for_begun<L: Ledger>(
    heap: &mut Heap,
    script: &Checked,
    body: Running,
    cells: &Cells,
    node: NodeId,
    end: Ending,
    steps: &mut Steps<L>,
) -> Result<Plan, Stop>
    ensures plans { PlansAt script.now body cells.now heap.old heap.new (λ here. for_begun here node (ended end)) result }
    ensures named { (l : Lists) → NamesPlan script.now l result }
    ensures retains { Retains heap.old heap.new }
{
    match end {
        Ending::Gives(_) => Ok(Plan::Last(Job::Round(node))),
        Ending::Breaks => Ok(Plan::Ends(Ending::Breaks)),
        Ending::Continues => Ok(Plan::Ends(Ending::Continues)),
        Ending::Returns(value) => Ok(Plan::Ends(Ending::Returns(value))),
        Ending::Throws(thrown) => Ok(Plan::Ends(Ending::Throws(thrown))),
    }
}

pub(crate) fn after_statement<L: Ledger>(
    heap: &mut Heap,
    script: &Checked,
    body: Running,
    cells: &Cells,
    list: Part,
    next: usize,
    end: Ending,
    steps: &mut Steps<L>,
) -> Result<Plan, Stop>
    ensures plans { PlansAt script.now body cells.now heap.old heap.new (λ here. after_statement here list next (ended end)) result }
    ensures named { (l : Lists) → NamesPlan script.now l result }
    ensures retains { Retains heap.old heap.new }
{
    match end {
        Ending::Gives(_) => Ok(Plan::Last(Job::Statements(list, next))),
        Ending::Breaks => Ok(Plan::Ends(Ending::Breaks)),
        Ending::Continues => Ok(Plan::Ends(Ending::Continues)),
        Ending::Returns(value) => Ok(Plan::Ends(Ending::Returns(value))),
        Ending::Throws(thrown) => Ok(Plan::Ends(Ending::Throws(thrown))),
    }
}

/// A `finally` has ended: an end of its own takes the place of the one before.
pub(crate) fn last_ended(before: Ending, end: Ending) -> Ending
    ensures { last_ended (ended before) (ended end) ≡ done (ended result) }
{
    match end {
        Ending::Gives(_) => before,
        Ending::Breaks | Ending::Continues | Ending::Returns(_) | Ending::Throws(_) => end,
    }
}

pub(crate) fn while_valued<L: Ledger>(
    heap: &mut Heap,
    script: &Checked,
    body: Running,
    cells: &Cells,
    node: NodeId,
    statement: NodeId,
    end: Ending,
    steps: &mut Steps<L>,
) -> Result<Plan, Stop>
    ensures plans { PlansAt script.now body cells.now heap.old heap.new (λ here. while_valued here node statement (ended end)) result }
    ensures named { (l : Lists) → NamesPlan script.now l result }
    ensures retains { Retains heap.old heap.new }
{
    match value_of(end) {
        Err(end) => Ok(Plan::Ends(end)),
        Ok(value) => {
            if heap.is_truth(value) {
                Ok(wait_for(statement, StatementItem::WhileAgain { node }))
            } else {
                Ok(falls())
            }
        }
    }
}

pub(crate) fn for_valued<L: Ledger>(
    heap: &mut Heap,
    script: &Checked,
    body: Running,
    cells: &Cells,
    node: NodeId,
    step: Option<NodeId>,
    statement: NodeId,
    end: Ending,
    steps: &mut Steps<L>,
) -> Result<Plan, Stop>
    ensures plans { PlansAt script.now body cells.now heap.old heap.new (λ here. for_valued here node step statement (ended end)) result }
    ensures named { (l : Lists) → NamesPlan script.now l result }
    ensures retains { Retains heap.old heap.new }
{
    match value_of(end) {
        Err(end) => Ok(Plan::Ends(end)),
        Ok(value) => {
            if heap.is_truth(value) {
                Ok(wait_for(statement, StatementItem::ForAgain { node, step }))
            } else {
                Ok(falls())
            }
        }
    }
}

pub(crate) fn for_stepped<L: Ledger>(
    heap: &mut Heap,
    script: &Checked,
    body: Running,
    cells: &Cells,
    node: NodeId,
    end: Ending,
    steps: &mut Steps<L>,
) -> Result<Plan, Stop>
    ensures plans { PlansAt script.now body cells.now heap.old heap.new (λ here. for_stepped here node (ended end)) result }
    ensures named { (l : Lists) → NamesPlan script.now l result }
    ensures retains { Retains heap.old heap.new }
{
    match value_of(end) {
        Err(end) => Ok(Plan::Ends(end)),
        Ok(_) => Ok(Plan::Last(Job::Round(node))),
    }
}

pub(crate) fn for_statement<L: Ledger>(
    heap: &mut Heap,
    script: &Checked,
    body: Running,
    cells: &mut Cells,
    node: NodeId,
    names: u32,
    first: Option<NodeId>,
    steps: &mut Steps<L>,
) -> Result<Plan, Stop>
    ensures plans { PlansIn (context script.now body cells.old) (context script.now body cells.new) heap.old heap.new (λ here. enter_scope here names (λ inner. for_first inner node first)) result }
    ensures front { OnOk result (take (length cells.old) cells.new ≡ cells.old) }
    ensures named { (l : Lists) → NamesPlan script.now l result }
    ensures known { (w v : World) → StandsFor heap.old w → StandsFor heap.new v → AreCells v.lists cells.old → OnOk result (AreCells v.lists cells.new) }
    ensures retains { Retains heap.old heap.new }
{
    make_cells(heap, cells, names)?;
    match first {
        None => Ok(Plan::Last(Job::Round(node))),
        Some(first) => Ok(wait_for(first, StatementItem::ForBegun { node })),
    }
}

// ---- if (14.6), return (14.10), throw (14.14)

pub(crate) fn if_valued<L: Ledger>(
    heap: &mut Heap,
    script: &Checked,
    body: Running,
    cells: &Cells,
    then: NodeId,
    otherwise: Option<NodeId>,
    end: Ending,
    steps: &mut Steps<L>,
) -> Result<Plan, Stop>
    ensures plans { PlansAt script.now body cells.now heap.old heap.new (λ here. if_valued here then otherwise (ended end)) result }
    ensures named { (l : Lists) → NamesPlan script.now l result }
    ensures retains { Retains heap.old heap.new }
{
    match value_of(end) {
        Err(end) => Ok(Plan::Ends(end)),
        Ok(value) => {
            if heap.is_truth(value) {
                return Ok(last(then));
            }
            match otherwise {
                None => Ok(falls()),
                Some(otherwise) => Ok(last(otherwise)),
            }
        }
    }
}

pub(crate) fn return_valued<L: Ledger>(
    heap: &mut Heap,
    script: &Checked,
    body: Running,
    cells: &Cells,
    end: Ending,
    steps: &mut Steps<L>,
) -> Result<Plan, Stop>
    ensures plans { PlansAt script.now body cells.now heap.old heap.new (λ here. return_valued (ended end)) result }
    ensures named { (l : Lists) → NamesPlan script.now l result }
    ensures retains { Retains heap.old heap.new }
{
    match value_of(end) {
        Err(end) => Ok(Plan::Ends(end)),
        Ok(value) => Ok(Plan::Ends(Ending::Returns(value))),
    }
}

pub(crate) fn throw_valued<L: Ledger>(
    heap: &mut Heap,
    script: &Checked,
    body: Running,
    cells: &Cells,
    end: Ending,
    steps: &mut Steps<L>,
) -> Result<Plan, Stop>
    ensures plans { PlansAt script.now body cells.now heap.old heap.new (λ here. throw_valued (ended end)) result }
    ensures named { (l : Lists) → NamesPlan script.now l result }
    ensures retains { Retains heap.old heap.new }
{
    match value_of(end) {
        Err(end) => Ok(Plan::Ends(end)),
        Ok(value) => Ok(Plan::Ends(Ending::Throws(value))),
    }
}
