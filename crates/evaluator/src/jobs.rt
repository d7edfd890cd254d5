//! Each node, each job, and each point at which a node waits for a part of it.

ghost use Rattle.std.specs.Prelude.{◌≡◌, None, OnOk, Some, length, slice_get, take};
ghost use Rattle.property_keys.specs.declared.values.Value.TheVariants as values;
ghost use Rattle.es_tree.specs.Tree.{NamesKnown, NamesSites};
ghost use Rattle.es_tree.specs.declared.node.Node.TheVariants as node_is;
ghost use Rattle.evaluator.specs.Contexts.{context};
ghost use Rattle.evaluator.specs.Plans.{PlansAt, PlansIn, PlansOf, ended, item_program, item_valued, job_program};
ghost use Rattle.evaluator.specs.Accesses.{target_reference};
ghost use Rattle.evaluator.specs.Assignments.{update_reference};
ghost use Rattle.evaluator.specs.Operators.{comma_from, comma_in};
ghost use Rattle.evaluator.specs.declared.items.Item.TheVariants as item_of;
ghost use Rattle.evaluator.specs.declared.items.Job.TheVariants as job;
ghost use Rattle.evaluator.specs.declared.items.OperatorItem.TheVariants as waiting;
ghost use Rattle.evaluator.specs.declared.items.Plan.TheVariants as plan;
ghost use Rattle.evaluator.specs.Tasks.{access_program, node_of, operator_program};
ghost use Rattle.object_heap.specs.Retains.{Retains};
ghost use Rattle.es_model.specs.World.{Lists, World};
ghost use Rattle.object_heap.specs.Stands.{StandsFor};
ghost use Rattle.es_model.specs.Sound.{IsSound};
ghost use Rattle.es_model.specs.Known.{IsKnown};
ghost use Rattle.es_model.specs.Belongs.{HasNames};
ghost use Rattle.es_model.specs.Kept.{IsKnownRunning, AreCells};
ghost use Rattle.es_model.specs.Fits.{IsKnownCompletion};
ghost use Rattle.evaluator.specs.Names.{NamesPlan, names_of_item};

use crate::accesses::{access_reference, access_valued, target_reference};
use crate::assignments::assignment;
use crate::calls::{argument_valued, arguments_from, call_expression, new_expression};
use crate::cells::Cells;
use crate::definitions::literal_valued;
use crate::endings::value_of;
use crate::items::{Ending, Item, Job, OperatorItem, Plan, Purpose};
use crate::literals::primary_plan;
use crate::operators::{comma_from, operator_valued, unary_expression};
use crate::reading::reading_valued;
use crate::references::Invocation;
use crate::statement_plans::{statement_item_plan, statement_plan};
use crate::statements::{falls, next_statement, round};
use es_model::{FunctionName, Running, Stop, Values};
use es_tree::{Access, BinaryOperator, Checked, Node, NodeId, Operator, ShortOperator, Target};
use object_heap::Heap;
use property_keys::{Ledger, Steps, Value};

fn wait_for(node: NodeId, item: OperatorItem) -> Plan
    ensures { result ≡ plan.Wait (job.Node None node) (item_of.Operator item) }
{
    Plan::Wait(Job::Node { name: None, node }, Item::Operator(item))
}

/// Expressions with commas between them, from the first on.
fn comma_list<L: Ledger>(
    heap: &mut Heap,
    script: &Checked,
    body: Running,
    cells: &Cells,
    node: NodeId,
    operator: &Operator,
    steps: &mut Steps<L>,
) -> Result<Plan, Stop>
    requires { slice_get script.now.nodes node.0 ≡ Some (node_is.Operator operator.now) }
    ensures plans { PlansAt script.now body cells.now heap.old heap.new (λ here. comma_from here (comma_in (Some (node_is.Operator operator.now))) values.Undefined) result }
    ensures named { (l : Lists) → NamesPlan script.now l result }
    ensures retains { Retains heap.old heap.new }
{
    let before = Value::Undefined;
    comma_from(heap, script, body, cells, node, 0, before, steps)
}

fn update_expression<L: Ledger>(
    heap: &mut Heap,
    script: &Checked,
    body: Running,
    cells: &Cells,
    increment: bool,
    prefix: bool,
    target: &Target,
    steps: &mut Steps<L>,
) -> Result<Plan, Stop>
    ensures plans { PlansAt script.now body cells.now heap.old heap.new (λ here. target_reference here target.now (update_reference here increment prefix)) result }
    ensures named { (w v : World) → StandsFor heap.old w → IsSound w → StandsFor heap.new v → IsKnownRunning script.now v.lists body → NamesPlan script.now v.lists result }
    ensures retains { Retains heap.old heap.new }
{
    let purpose = Purpose::Update { increment, prefix };
    target_reference(heap, script, body, cells, target, purpose, steps)
}

fn conditional(test: NodeId, then: NodeId, otherwise: NodeId) -> Plan
    ensures { result ≡ plan.Wait (job.Node None test) (item_of.Operator (waiting.TestValued then otherwise)) }
{
    wait_for(test, OperatorItem::TestValued { then, otherwise })
}

fn short_circuit(operator: ShortOperator, left: NodeId, right: NodeId) -> Plan
    ensures { result ≡ plan.Wait (job.Node None left) (item_of.Operator (waiting.ShortValued operator right)) }
{
    wait_for(left, OperatorItem::ShortValued { operator, right })
}

fn binary(operator: BinaryOperator, left: NodeId, right: NodeId) -> Plan
    ensures { result ≡ plan.Wait (job.Node None left) (item_of.Operator (waiting.LeftValued operator right)) }
{
    wait_for(left, OperatorItem::LeftValued { operator, right })
}

/// An operator, after its turn.
fn operator_plan<L: Ledger>(
    heap: &mut Heap,
    script: &Checked,
    body: Running,
    cells: &Cells,
    node: NodeId,
    operator: &Operator,
    steps: &mut Steps<L>,
) -> Result<Plan, Stop>
    requires { slice_get script.now.nodes node.0 ≡ Some (node_is.Operator operator.now) }
    ensures plans { PlansAt script.now body cells.now heap.old heap.new (λ here. operator_program here node operator.now) result }
    ensures named { (w v : World) → StandsFor heap.old w → IsSound w → StandsFor heap.new v → IsKnownRunning script.now v.lists body → NamesPlan script.now v.lists result }
    ensures retains { Retains heap.old heap.new }
{
    match operator {
        Operator::Comma(_) => comma_list(heap, script, body, cells, node, operator, steps),
        Operator::Assign {
            operator,
            target,
            value,
        } => assignment(heap, script, body, cells, *operator, target, *value, steps),
        Operator::Update {
            increment,
            prefix,
            target,
        } => update_expression(
            heap, script, body, cells, *increment, *prefix, target, steps,
        ),
        Operator::Conditional {
            test,
            then,
            otherwise,
        } => Ok(conditional(*test, *then, *otherwise)),
        Operator::Short {
            operator,
            left,
            right,
        } => Ok(short_circuit(*operator, *left, *right)),
        Operator::Binary {
            operator,
            left,
            right,
        } => Ok(binary(*operator, *left, *right)),
        Operator::Unary { operator, operand } => {
            unary_expression(heap, script, body, cells, *operator, *operand, steps)
        }
    }
}

/// A member access, a call or a construction, after its turn.
fn access_plan<L: Ledger>(
    heap: &mut Heap,
    script: &Checked,
    body: Running,
    cells: &Cells,
    node: NodeId,
    access: &Access,
    steps: &mut Steps<L>,
) -> Result<Plan, Stop>
    ensures plans { PlansAt script.now body cells.now heap.old heap.new (λ here. access_program here node access.now) result }
    ensures named { (w v : World) → StandsFor heap.old w → StandsFor heap.new v → NamesSites script.now access.now → NamesPlan script.now v.lists result }
    ensures retains { Retains heap.old heap.new }
{
    match access {
        Access::Member { .. } | Access::Index { .. } => access_reference(
            heap,
            script,
            body,
            cells,
            access,
            Purpose::Read,
            steps,
        ),
        Access::Call { callee, .. } => call_expression(
            heap, script, body, cells, node, *callee, steps,
        ),
        Access::New { callee, .. } => new_expression(
            heap, script, body, cells, node, *callee, steps,
        ),
    }
}

/// A node, after its turn.
fn node_plan<L: Ledger>(
    heap: &mut Heap,
    script: &Checked,
    body: Running,
    cells: &mut Cells,
    name: Option<FunctionName>,
    node: NodeId,
    found: &Node,
    steps: &mut Steps<L>,
) -> Result<Plan, Stop>
    requires known { NamesKnown script.now found.now }
    requires at { slice_get script.now.nodes node.0 ≡ Some found.now }
    ensures plans { PlansOf (context script.now body cells.old) (context script.now body cells.new) heap.old heap.new (λ here. node_of here name node (Some found.now)) result }
    ensures front { OnOk result (take (length cells.old) cells.new ≡ cells.old) }
    ensures named { (w v : World) → w.script ≡ script.now → StandsFor heap.old w → IsSound w → StandsFor heap.new v → IsKnownRunning script.now v.lists body → NamesPlan script.now v.lists result }
    ensures known { (w v : World) → StandsFor heap.old w → StandsFor heap.new v → AreCells v.lists cells.old → OnOk result (AreCells v.lists cells.new) }
    ensures retains { Retains heap.old heap.new }
{
    match found {
        Node::Statement(statement) => statement_plan(
            heap, script, body, cells, node, statement, steps,
        ),
        Node::Operator(operator) => operator_plan(heap, script, body, cells, node, operator, steps),
        Node::Access(access) => access_plan(heap, script, body, cells, node, access, steps),
        Node::Primary(primary) => primary_plan(
            heap, script, body, cells, name, node, primary, steps,
        ),
    }
}

fn node_at<L: Ledger>(
    heap: &mut Heap,
    script: &Checked,
    body: Running,
    cells: &mut Cells,
    name: Option<FunctionName>,
    node: NodeId,
    steps: &mut Steps<L>,
) -> Result<Plan, Stop>
    ensures plans { PlansOf (context script.now body cells.old) (context script.now body cells.new) heap.old heap.new (λ here. node_of here name node (slice_get here.script.nodes node.0)) result }
    ensures front { OnOk result (take (length cells.old) cells.new ≡ cells.old) }
    ensures named { (w v : World) → w.script ≡ script.now → StandsFor heap.old w → IsSound w → StandsFor heap.new v → IsKnownRunning script.now v.lists body → NamesPlan script.now v.lists result }
    ensures known { (w v : World) → StandsFor heap.old w → StandsFor heap.new v → AreCells v.lists cells.old → OnOk result (AreCells v.lists cells.new) }
    ensures retains { Retains heap.old heap.new }
{
    if node.0 < script.nodes() {
        let found = script.node(node);
        node_plan(heap, script, body, cells, name, node, found, steps)
    } else {
        Ok(falls())
    }
}

/// What a job does first. Here is the one place of a node's turn.
#[tactic(auto, using(object_heap::specs::Stands::goes_none, object_heap::specs::Stands::goes_then, object_heap::specs::Stands::halts_at, object_heap::proofs::Retaining::retains_none, object_heap::proofs::Retaining::retains_then, crate::proofs::PlansNamed::keeps_wait, crate::proofs::PlansNamed::keeps_enter, crate::proofs::PlansNamed::keeps_ask, crate::proofs::PlansNamed::keeps_last, crate::proofs::PlansNamed::keeps_end, crate::proofs::PlansNamed::keeps_stop, crate::proofs::PlansNamed::defines_plan, crate::proofs::PlansNamed::defines_none, crate::proofs::PlansNamed::defines_stop, crate::proofs::Planned::plans_then))]
pub(crate) fn job_plan<L: Ledger>(
    heap: &mut Heap,
    script: &Checked,
    body: Running,
    cells: &mut Cells,
    job: Job,
    steps: &mut Steps<L>,
) -> Result<Plan, Stop>
    ensures plans { PlansOf (context script.now body cells.old) (context script.now body cells.new) heap.old heap.new (λ here. job_program here job) result }
    ensures front { OnOk result (take (length cells.old) cells.new ≡ cells.old) }
    ensures named { (w v : World) → w.script ≡ script.now → StandsFor heap.old w → IsSound w → StandsFor heap.new v → IsKnownRunning script.now v.lists body → NamesPlan script.now v.lists result }
    ensures known { (w v : World) → StandsFor heap.old w → StandsFor heap.new v → AreCells v.lists cells.old → OnOk result (AreCells v.lists cells.new) }
    ensures retains { Retains heap.old heap.new }
{
    match job {
        Job::Node { name, node } => {
            heap.charge(1)?;
            node_at(heap, script, body, cells, name, node, steps)
        }
        Job::Round(node) => round(heap, script, body, cells, node, steps),
        Job::Statements(list, next) => next_statement(heap, script, body, cells, list, next, steps),
    }
}

/// An expression goes on with the value of a part of it.
fn item_valued<L: Ledger>(
    heap: &mut Heap,
    script: &Checked,
    body: Running,
    cells: &Cells,
    item: Item,
    value: Value,
    steps: &mut Steps<L>,
) -> Result<Plan, Stop>
    ensures plans { PlansAt script.now body cells.now heap.old heap.new (λ here. item_valued here item value) result }
    ensures named { (w v : World) → StandsFor heap.old w → IsSound w → StandsFor heap.new v → HasNames script.now v.lists (names_of_item item) → IsKnown v.lists value → NamesPlan script.now v.lists result }
    ensures retains { Retains heap.old heap.new }
{
    match item {
        Item::Read(reading) => reading_valued(heap, script, body, cells, reading, value, steps),
        Item::Access(item) => access_valued(heap, script, body, cells, item, value, steps),
        Item::Operator(item) => operator_valued(heap, script, body, cells, item, value, steps),
        Item::Literal(item) => literal_valued(heap, script, body, cells, item, value, steps),
        Item::Argument {
            node,
            next,
            invocation,
            given,
        } => argument_valued(
            heap, script, body, cells, node, next, invocation, given, value, steps,
        ),
        Item::Constructor { node } => {
            let invocation = Invocation::Construct { constructor: value };
            let given = Values::new(heap.alloc());
            arguments_from(heap, script, body, cells, node, 0, invocation, given, steps)
        }
        Item::Statement(_) => Ok(Plan::Ends(Ending::Gives(value))),
    }
}

/// What waits goes on with the end of the part that it waited for.
pub(crate) fn item_plan<L: Ledger>(
    heap: &mut Heap,
    script: &Checked,
    body: Running,
    cells: &mut Cells,
    item: Item,
    end: Ending,
    steps: &mut Steps<L>,
) -> Result<Plan, Stop>
    ensures plans { PlansIn (context script.now body cells.old) (context script.now body cells.new) heap.old heap.new (λ here. item_program here item (ended end)) result }
    ensures front { OnOk result (take (length cells.old) cells.new ≡ cells.old) }
    ensures named { (w v : World) → StandsFor heap.old w → IsSound w → StandsFor heap.new v → HasNames script.now v.lists (names_of_item item) → IsKnownCompletion v.lists (ended end) → NamesPlan script.now v.lists result }
    ensures known { (w v : World) → StandsFor heap.old w → StandsFor heap.new v → AreCells v.lists cells.old → OnOk result (AreCells v.lists cells.new) }
    ensures retains { Retains heap.old heap.new }
{
    match item {
        Item::Statement(item) => statement_item_plan(heap, script, body, cells, item, end, steps),
        other => match value_of(end) {
            Err(end) => Ok(Plan::Ends(end)),
            Ok(value) => item_valued(heap, script, body, cells, other, value, steps),
        },
    }
}
