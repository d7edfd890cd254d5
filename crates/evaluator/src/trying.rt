//! The `try` statement (ECMA-262, 14.15).

ghost use Rattle.std.specs.Prelude.{◌≡◌, ◌++◌, ◌∷◌, [], zero, OnOk, Some, length, take};
ghost use Rattle.es_tree.specs.declared.node.Node.TheVariants as node_of;
ghost use Rattle.es_model.specs.Program.{Statements, make_cell, part};
ghost use Rattle.es_model.specs.declared.running.Part.TheVariants as part_of;
ghost use Rattle.evaluator.specs.Contexts.{context, with_cells};
ghost use Rattle.evaluator.specs.Plans.{PlansIn, ended};
ghost use Rattle.evaluator.specs.Scopes.{enter_scope};
ghost use Rattle.evaluator.specs.declared.items.Ending.TheVariants.{Throws};
ghost use Rattle.evaluator.specs.Statements.{catch_in, catch_of, finally_in, finish_try, last_of, tried_ended};
ghost use Rattle.object_heap.specs.Retains.{Retains};
ghost use Rattle.es_model.specs.World.{Lists, World};
ghost use Rattle.object_heap.specs.Stands.{StandsFor};
ghost use Rattle.es_model.specs.Known.{IsKnown};
ghost use Rattle.es_model.specs.Kept.{AreCells};
ghost use Rattle.es_model.specs.Fits.{IsKnownCompletion};
ghost use Rattle.evaluator.specs.Names.{NamesPlan};

use crate::cells::{Cells, make_cells};
use crate::items::{Ending, Job, Plan, StatementItem};
use crate::statements::block_then;
use crate::tree::node_at;
use es_model::{Part, Running, Stop};
use es_tree::{Block, Catch, Checked, Node, NodeId, Statement};
use object_heap::Heap;
use property_keys::{Ledger, Steps, Value};

fn last_of<L: Ledger>(
    heap: &mut Heap,
    script: &Checked,
    body: Running,
    cells: &mut Cells,
    node: NodeId,
    finally: &Option<Block>,
    before: Ending,
    steps: &mut Steps<L>,
) -> Result<Plan, Stop>
    ensures plans { PlansIn (context script.now body cells.old) (context script.now body cells.new) heap.old heap.new (λ here. last_of here node finally.now (ended before)) result }
    ensures front { OnOk result (take (length cells.old) cells.new ≡ cells.old) }
    ensures named { (l : Lists) → IsKnownCompletion l (ended before) → NamesPlan script.now l result }
    ensures known { (w v : World) → StandsFor heap.old w → StandsFor heap.new v → AreCells v.lists cells.old → OnOk result (AreCells v.lists cells.new) }
    ensures retains { Retains heap.old heap.new }
{
    match finally {
        None => Ok(Plan::Ends(before)),
        Some(block) => block_then(
            heap,
            script,
            body,
            cells,
            block.names,
            Part::Finally(node),
            StatementItem::LastEnded { before },
            steps,
        ),
    }
}

fn finish_statement<L: Ledger>(
    heap: &mut Heap,
    script: &Checked,
    body: Running,
    cells: &mut Cells,
    node: NodeId,
    statement: &Statement,
    before: Ending,
    steps: &mut Steps<L>,
) -> Result<Plan, Stop>
    ensures plans { PlansIn (context script.now body cells.old) (context script.now body cells.new) heap.old heap.new (λ here. last_of here node (finally_in (Some (node_of.Statement statement.now))) (ended before)) result }
    ensures front { OnOk result (take (length cells.old) cells.new ≡ cells.old) }
    ensures named { (l : Lists) → IsKnownCompletion l (ended before) → NamesPlan script.now l result }
    ensures known { (w v : World) → StandsFor heap.old w → StandsFor heap.new v → AreCells v.lists cells.old → OnOk result (AreCells v.lists cells.new) }
    ensures retains { Retains heap.old heap.new }
{
    match statement {
        Statement::Try { finally, .. } => last_of(
            heap, script, body, cells, node, finally, before, steps,
        ),
        Statement::Block(_)
        | Statement::Lexical { .. }
        | Statement::Empty
        | Statement::Expression(_)
        | Statement::If { .. }
        | Statement::While { .. }
        | Statement::For { .. }
        | Statement::Break
        | Statement::Continue
        | Statement::Return(_)
        | Statement::Throw(_) => Ok(Plan::Ends(before)),
    }
}

fn finish_node<L: Ledger>(
    heap: &mut Heap,
    script: &Checked,
    body: Running,
    cells: &mut Cells,
    node: NodeId,
    found: &Node,
    before: Ending,
    steps: &mut Steps<L>,
) -> Result<Plan, Stop>
    ensures plans { PlansIn (context script.now body cells.old) (context script.now body cells.new) heap.old heap.new (λ here. last_of here node (finally_in (Some found.now)) (ended before)) result }
    ensures front { OnOk result (take (length cells.old) cells.new ≡ cells.old) }
    ensures named { (l : Lists) → IsKnownCompletion l (ended before) → NamesPlan script.now l result }
    ensures known { (w v : World) → StandsFor heap.old w → StandsFor heap.new v → AreCells v.lists cells.old → OnOk result (AreCells v.lists cells.new) }
    ensures retains { Retains heap.old heap.new }
{
    match found {
        Node::Statement(statement) => finish_statement(
            heap, script, body, cells, node, statement, before, steps,
        ),
        Node::Operator(_) | Node::Access(_) | Node::Primary(_) => Ok(Plan::Ends(before)),
    }
}

/// What was tried, or caught, has ended.
pub(crate) fn finish_try<L: Ledger>(
    heap: &mut Heap,
    script: &Checked,
    body: Running,
    cells: &mut Cells,
    node: NodeId,
    before: Ending,
    steps: &mut Steps<L>,
) -> Result<Plan, Stop>
    ensures plans { PlansIn (context script.now body cells.old) (context script.now body cells.new) heap.old heap.new (λ here. finish_try here node (ended before)) result }
    ensures front { OnOk result (take (length cells.old) cells.new ≡ cells.old) }
    ensures named { (l : Lists) → IsKnownCompletion l (ended before) → NamesPlan script.now l result }
    ensures known { (w v : World) → StandsFor heap.old w → StandsFor heap.new v → AreCells v.lists cells.old → OnOk result (AreCells v.lists cells.new) }
    ensures retains { Retains heap.old heap.new }
{
    match node_at(script, node) {
        None => Ok(Plan::Ends(before)),
        Some(found) => finish_node(heap, script, body, cells, node, found, before, steps),
    }
}

/// A scope with the cell of the parameter and those of the block.
fn enter_caught<L: Ledger>(
    heap: &mut Heap,
    script: &Checked,
    body: Running,
    cells: &mut Cells,
    node: NodeId,
    names: u32,
    thrown: Value,
    steps: &mut Steps<L>,
) -> Result<Plan, Stop>
    ensures plans { PlansIn (context script.now body cells.old) (context script.now body cells.new) heap.old heap.new (λ here. make_cell (Some thrown) (λ cell. enter_scope (with_cells here (here.cells ++ cell ∷ [])) names (λ inner. part (Statements inner.body inner.cells (part_of.Caught node) zero) (finish_try here node)))) result }
    ensures front { OnOk result (take (length cells.old) cells.new ≡ cells.old) }
    ensures named { (l : Lists) → NamesPlan script.now l result }
    ensures known { (w v : World) → StandsFor heap.old w → StandsFor heap.new v → AreCells v.lists cells.old → OnOk result (AreCells v.lists cells.new) }
    ensures retains { Retains heap.old heap.new }
{
    let depth = cells.len();
    let cell = heap.new_cell(Some(thrown))?;
    cells.push(cell)?;
    make_cells(heap, cells, names)?;
    Ok(Plan::Enter(
        Job::Statements(Part::Caught(node), 0),
        StatementItem::CaughtEnded { node },
        depth,
    ))
}

fn caught<L: Ledger>(
    heap: &mut Heap,
    script: &Checked,
    body: Running,
    cells: &mut Cells,
    node: NodeId,
    catch: &Catch,
    thrown: Value,
    steps: &mut Steps<L>,
) -> Result<Plan, Stop>
    ensures plans { PlansIn (context script.now body cells.old) (context script.now body cells.new) heap.old heap.new (λ here. catch_of here node (Some catch.now) thrown) result }
    ensures front { OnOk result (take (length cells.old) cells.new ≡ cells.old) }
    ensures named { (l : Lists) → IsKnown l thrown → NamesPlan script.now l result }
    ensures known { (w v : World) → StandsFor heap.old w → StandsFor heap.new v → AreCells v.lists cells.old → OnOk result (AreCells v.lists cells.new) }
    ensures retains { Retains heap.old heap.new }
{
    match &catch.parameter {
        None => block_then(
            heap,
            script,
            body,
            cells,
            catch.block.names,
            Part::Caught(node),
            StatementItem::CaughtEnded { node },
            steps,
        ),
        Some(_) => enter_caught(
            heap,
            script,
            body,
            cells,
            node,
            catch.block.names,
            thrown,
            steps,
        ),
    }
}

fn catch_or_finish<L: Ledger>(
    heap: &mut Heap,
    script: &Checked,
    body: Running,
    cells: &mut Cells,
    node: NodeId,
    catch: &Option<Catch>,
    thrown: Value,
    steps: &mut Steps<L>,
) -> Result<Plan, Stop>
    ensures plans { PlansIn (context script.now body cells.old) (context script.now body cells.new) heap.old heap.new (λ here. catch_of here node catch.now thrown) result }
    ensures front { OnOk result (take (length cells.old) cells.new ≡ cells.old) }
    ensures named { (l : Lists) → IsKnown l thrown → NamesPlan script.now l result }
    ensures known { (w v : World) → StandsFor heap.old w → StandsFor heap.new v → AreCells v.lists cells.old → OnOk result (AreCells v.lists cells.new) }
    ensures retains { Retains heap.old heap.new }
{
    match catch {
        None => finish_try(
            heap,
            script,
            body,
            cells,
            node,
            Ending::Throws(thrown),
            steps,
        ),
        Some(catch) => caught(heap, script, body, cells, node, catch, thrown, steps),
    }
}

fn catch_statement<L: Ledger>(
    heap: &mut Heap,
    script: &Checked,
    body: Running,
    cells: &mut Cells,
    node: NodeId,
    statement: &Statement,
    thrown: Value,
    steps: &mut Steps<L>,
) -> Result<Plan, Stop>
    ensures plans { PlansIn (context script.now body cells.old) (context script.now body cells.new) heap.old heap.new (λ here. catch_of here node (catch_in (Some (node_of.Statement statement.now))) thrown) result }
    ensures front { OnOk result (take (length cells.old) cells.new ≡ cells.old) }
    ensures named { (l : Lists) → IsKnown l thrown → NamesPlan script.now l result }
    ensures known { (w v : World) → StandsFor heap.old w → StandsFor heap.new v → AreCells v.lists cells.old → OnOk result (AreCells v.lists cells.new) }
    ensures retains { Retains heap.old heap.new }
{
    match statement {
        Statement::Try { catch, .. } => catch_or_finish(
            heap, script, body, cells, node, catch, thrown, steps,
        ),
        Statement::Block(_)
        | Statement::Lexical { .. }
        | Statement::Empty
        | Statement::Expression(_)
        | Statement::If { .. }
        | Statement::While { .. }
        | Statement::For { .. }
        | Statement::Break
        | Statement::Continue
        | Statement::Return(_)
        | Statement::Throw(_) => finish_try(
            heap,
            script,
            body,
            cells,
            node,
            Ending::Throws(thrown),
            steps,
        ),
    }
}

fn catch_node<L: Ledger>(
    heap: &mut Heap,
    script: &Checked,
    body: Running,
    cells: &mut Cells,
    node: NodeId,
    found: &Node,
    thrown: Value,
    steps: &mut Steps<L>,
) -> Result<Plan, Stop>
    ensures plans { PlansIn (context script.now body cells.old) (context script.now body cells.new) heap.old heap.new (λ here. catch_of here node (catch_in (Some found.now)) thrown) result }
    ensures front { OnOk result (take (length cells.old) cells.new ≡ cells.old) }
    ensures named { (l : Lists) → IsKnown l thrown → NamesPlan script.now l result }
    ensures known { (w v : World) → StandsFor heap.old w → StandsFor heap.new v → AreCells v.lists cells.old → OnOk result (AreCells v.lists cells.new) }
    ensures retains { Retains heap.old heap.new }
{
    match found {
        Node::Statement(statement) => catch_statement(
            heap, script, body, cells, node, statement, thrown, steps,
        ),
        Node::Operator(_) | Node::Access(_) | Node::Primary(_) => {
            finish_try(
                heap,
                script,
                body,
                cells,
                node,
                Ending::Throws(thrown),
                steps,
            )
        }
    }
}

fn thrown_tried<L: Ledger>(
    heap: &mut Heap,
    script: &Checked,
    body: Running,
    cells: &mut Cells,
    node: NodeId,
    thrown: Value,
    steps: &mut Steps<L>,
) -> Result<Plan, Stop>
    ensures plans { PlansIn (context script.now body cells.old) (context script.now body cells.new) heap.old heap.new (λ here. tried_ended here node (ended (Throws thrown))) result }
    ensures front { OnOk result (take (length cells.old) cells.new ≡ cells.old) }
    ensures named { (l : Lists) → IsKnown l thrown → NamesPlan script.now l result }
    ensures known { (w v : World) → StandsFor heap.old w → StandsFor heap.new v → AreCells v.lists cells.old → OnOk result (AreCells v.lists cells.new) }
    ensures retains { Retains heap.old heap.new }
{
    match node_at(script, node) {
        None => finish_try(
            heap,
            script,
            body,
            cells,
            node,
            Ending::Throws(thrown),
            steps,
        ),
        Some(found) => catch_node(heap, script, body, cells, node, found, thrown, steps),
    }
}

/// What was tried has ended.
pub(crate) fn tried_ended<L: Ledger>(
    heap: &mut Heap,
    script: &Checked,
    body: Running,
    cells: &mut Cells,
    node: NodeId,
    end: Ending,
    steps: &mut Steps<L>,
) -> Result<Plan, Stop>
    ensures plans { PlansIn (context script.now body cells.old) (context script.now body cells.new) heap.old heap.new (λ here. tried_ended here node (ended end)) result }
    ensures front { OnOk result (take (length cells.old) cells.new ≡ cells.old) }
    ensures named { (l : Lists) → IsKnownCompletion l (ended end) → NamesPlan script.now l result }
    ensures known { (w v : World) → StandsFor heap.old w → StandsFor heap.new v → AreCells v.lists cells.old → OnOk result (AreCells v.lists cells.new) }
    ensures retains { Retains heap.old heap.new }
{
    match end {
        Ending::Throws(thrown) => thrown_tried(heap, script, body, cells, node, thrown, steps),
        Ending::Gives(_) | Ending::Breaks | Ending::Continues | Ending::Returns(_) => {
            finish_try(heap, script, body, cells, node, end, steps)
        }
    }
}
