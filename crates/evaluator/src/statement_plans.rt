//! Each kind of statement, and each point at which one waits (ECMA-262, clause 14).

ghost use Rattle.std.specs.Prelude.{◌≡◌, None, OnOk, Some, length, slice_get, take};
ghost use Rattle.es_model.specs.declared.running.Part.TheVariants as part_of;
ghost use Rattle.es_tree.specs.declared.node.Node.TheVariants as node_of;
ghost use Rattle.evaluator.specs.Contexts.{context};
ghost use Rattle.evaluator.specs.Plans.{PlansAt, PlansIn, ended, statement_item};
ghost use Rattle.evaluator.specs.Statements.{block_then, declare_all, declared_in, return_statement, statement_program, tried_ended};
ghost use Rattle.evaluator.specs.declared.items.Item.TheVariants as item_of;
ghost use Rattle.evaluator.specs.declared.items.Job.TheVariants as job;
ghost use Rattle.evaluator.specs.declared.items.Plan.TheVariants as plan;
ghost use Rattle.evaluator.specs.declared.items.StatementItem.TheVariants as statement_of;
ghost use Rattle.object_heap.specs.Retains.{Retains};
ghost use Rattle.es_model.specs.World.{Lists, World};
ghost use Rattle.object_heap.specs.Stands.{StandsFor};
ghost use Rattle.es_model.specs.Belongs.{HasNames};
ghost use Rattle.es_model.specs.Kept.{AreCells};
ghost use Rattle.es_model.specs.Fits.{IsKnownCompletion};
ghost use Rattle.evaluator.specs.Names.{NamesPlan, names_of_statement};

use crate::cells::Cells;
use crate::declarations::{declare_from, declared_valued};
use crate::items::{Ending, Job, Plan, StatementItem};
use crate::statements::{
    after_statement, block_last, block_then, falls, for_again, for_begun, for_statement,
    for_stepped, for_valued, if_valued, last, last_ended, return_valued, throw_valued, wait_for,
    while_again, while_valued,
};
use crate::trying::{finish_try, tried_ended};
use es_model::{Part, Running, Stop};
use es_tree::{Block, Checked, NodeId, Statement};
use object_heap::Heap;
use property_keys::{Ledger, Steps, Value};

fn return_statement<L: Ledger>(
    heap: &mut Heap,
    script: &Checked,
    body: Running,
    cells: &Cells,
    value: Option<NodeId>,
    steps: &mut Steps<L>,
) -> Result<Plan, Stop>
    ensures plans { PlansAt script.now body cells.now heap.old heap.new (λ here. return_statement here value) result }
    ensures named { (l : Lists) → NamesPlan script.now l result }
    ensures retains { Retains heap.old heap.new }
{
    match value {
        None => Ok(Plan::Ends(Ending::Returns(Value::Undefined))),
        Some(node) => Ok(wait_for(node, StatementItem::ReturnValued)),
    }
}

/// A declaration, from its first name on.
fn declaration<L: Ledger>(
    heap: &mut Heap,
    script: &Checked,
    body: Running,
    cells: &Cells,
    node: NodeId,
    statement: &Statement,
    steps: &mut Steps<L>,
) -> Result<Plan, Stop>
    requires { slice_get script.now.nodes node.0 ≡ Some (node_of.Statement statement.now) }
    ensures plans { PlansAt script.now body cells.now heap.old heap.new (λ here. declare_all here (declared_in (Some (node_of.Statement statement.now)))) result }
    ensures named { (l : Lists) → NamesPlan script.now l result }
    ensures retains { Retains heap.old heap.new }
{
    declare_from(heap, script, body, cells, node, 0, steps)
}

fn try_statement<L: Ledger>(
    heap: &mut Heap,
    script: &Checked,
    body: Running,
    cells: &mut Cells,
    node: NodeId,
    block: &Block,
    steps: &mut Steps<L>,
) -> Result<Plan, Stop>
    ensures plans { PlansIn (context script.now body cells.old) (context script.now body cells.new) heap.old heap.new (λ here. block_then here block.now (part_of.Tried node) (tried_ended here node)) result }
    ensures front { OnOk result (take (length cells.old) cells.new ≡ cells.old) }
    ensures named { (l : Lists) → NamesPlan script.now l result }
    ensures known { (w v : World) → StandsFor heap.old w → StandsFor heap.new v → AreCells v.lists cells.old → OnOk result (AreCells v.lists cells.new) }
    ensures retains { Retains heap.old heap.new }
{
    let list = Part::Tried(node);
    let item = StatementItem::TriedEnded { node };
    block_then(heap, script, body, cells, block.names, list, item, steps)
}

fn if_statement(test: NodeId, then: NodeId, otherwise: Option<NodeId>) -> Plan
    ensures { result ≡ plan.Wait (job.Node None test) (item_of.Statement (statement_of.IfValued then otherwise)) }
{
    wait_for(test, StatementItem::IfValued { then, otherwise })
}

/// A statement, after its turn.
pub(crate) fn statement_plan<L: Ledger>(
    heap: &mut Heap,
    script: &Checked,
    body: Running,
    cells: &mut Cells,
    node: NodeId,
    statement: &Statement,
    steps: &mut Steps<L>,
) -> Result<Plan, Stop>
    requires { slice_get script.now.nodes node.0 ≡ Some (node_of.Statement statement.now) }
    ensures plans { PlansIn (context script.now body cells.old) (context script.now body cells.new) heap.old heap.new (λ here. statement_program here node statement.now) result }
    ensures front { OnOk result (take (length cells.old) cells.new ≡ cells.old) }
    ensures named { (l : Lists) → NamesPlan script.now l result }
    ensures known { (w v : World) → StandsFor heap.old w → StandsFor heap.new v → AreCells v.lists cells.old → OnOk result (AreCells v.lists cells.new) }
    ensures retains { Retains heap.old heap.new }
{
    match statement {
        Statement::Block(block) => {
            let list = Part::Block(node);
            block_last(heap, script, body, cells, block.names, list, steps)
        }
        Statement::Lexical { .. } => declaration(heap, script, body, cells, node, statement, steps),
        Statement::Empty => Ok(falls()),
        Statement::Expression(child) => Ok(last(*child)),
        Statement::If {
            test,
            then,
            otherwise,
        } => Ok(if_statement(*test, *then, *otherwise)),
        Statement::While { .. } => Ok(Plan::Last(Job::Round(node))),
        Statement::For { names, first, .. } => {
            for_statement(heap, script, body, cells, node, *names, *first, steps)
        }
        Statement::Break => Ok(Plan::Ends(Ending::Breaks)),
        Statement::Continue => Ok(Plan::Ends(Ending::Continues)),
        Statement::Return(value) => return_statement(heap, script, body, cells, *value, steps),
        Statement::Throw(value) => Ok(wait_for(*value, StatementItem::ThrowValued)),
        Statement::Try { block, .. } => try_statement(
            heap, script, body, cells, node, block, steps,
        ),
    }
}

/// A statement goes on with the end of a part of it.
pub(crate) fn statement_item_plan<L: Ledger>(
    heap: &mut Heap,
    script: &Checked,
    body: Running,
    cells: &mut Cells,
    item: StatementItem,
    end: Ending,
    steps: &mut Steps<L>,
) -> Result<Plan, Stop>
    ensures plans { PlansIn (context script.now body cells.old) (context script.now body cells.new) heap.old heap.new (λ here. statement_item here item (ended end)) result }
    ensures front { OnOk result (take (length cells.old) cells.new ≡ cells.old) }
    ensures named { (l : Lists) → HasNames script.now l (names_of_statement item) → IsKnownCompletion l (ended end) → NamesPlan script.now l result }
    ensures known { (w v : World) → StandsFor heap.old w → StandsFor heap.new v → AreCells v.lists cells.old → OnOk result (AreCells v.lists cells.new) }
    ensures retains { Retains heap.old heap.new }
{
    match item {
        StatementItem::AfterStatement { list, next } => after_statement(
            heap, script, body, cells, list, next, end, steps,
        ),
        StatementItem::Declared { node, next } => declared_valued(
            heap, script, body, cells, node, next, end, steps,
        ),
        StatementItem::IfValued { then, otherwise } => if_valued(
            heap, script, body, cells, then, otherwise, end, steps,
        ),
        StatementItem::WhileValued { node, body: inner } => while_valued(
            heap, script, body, cells, node, inner, end, steps,
        ),
        StatementItem::WhileAgain { node } => while_again(
            heap, script, body, cells, node, end, steps,
        ),
        StatementItem::ForBegun { node } => for_begun(heap, script, body, cells, node, end, steps),
        StatementItem::ForValued {
            node,
            step,
            body: inner,
        } => for_valued(heap, script, body, cells, node, step, inner, end, steps),
        StatementItem::ForAgain { node, step } => for_again(
            heap, script, body, cells, node, step, end, steps,
        ),
        StatementItem::ForStepped { node } => for_stepped(
            heap, script, body, cells, node, end, steps,
        ),
        StatementItem::ReturnValued => return_valued(heap, script, body, cells, end, steps),
        StatementItem::ThrowValued => throw_valued(heap, script, body, cells, end, steps),
        StatementItem::TriedEnded { node } => tried_ended(
            heap, script, body, cells, node, end, steps,
        ),
        StatementItem::CaughtEnded { node } => finish_try(
            heap, script, body, cells, node, end, steps,
        ),
        StatementItem::LastEnded { before } => Ok(Plan::Ends(last_ended(before, end))),
    }
}
