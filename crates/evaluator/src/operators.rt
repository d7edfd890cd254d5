//! Operators (ECMA-262, 13.5 to 13.14 and 13.16).

ghost use Rattle.std.specs.Prelude.{◌≡◌, None, Some, drop};
ghost use Rattle.es_tree.specs.declared.expressions.UnaryOperator.TheVariants as unary;
ghost use Rattle.es_tree.specs.declared.node.Node.TheVariants as node_of;
ghost use Rattle.evaluator.specs.Operators.{comma_at, comma_from, compare, delete_at, is_in, short_value, test_value, typeof_at, typeof_reference, typeof_value, unary_expression};
ghost use Rattle.evaluator.specs.Plans.{PlansAt, operator_valued};
ghost use Rattle.evaluator.specs.declared.items.Item.TheVariants as item_of;
ghost use Rattle.evaluator.specs.declared.items.Job.TheVariants as job;
ghost use Rattle.evaluator.specs.declared.items.Plan.TheVariants as plan;
ghost use Rattle.object_heap.specs.Retains.{Retains};
ghost use Rattle.es_model.specs.World.{Lists, World};
ghost use Rattle.object_heap.specs.Stands.{StandsFor};
ghost use Rattle.es_model.specs.Sound.{IsSound};
ghost use Rattle.es_model.specs.Known.{IsKnown};
ghost use Rattle.es_tree.specs.Tree.{NamesSites, NamesKnown};
ghost use Rattle.es_model.specs.Belongs.{HasNames};
ghost use Rattle.es_model.specs.Kept.{IsKnownRunning};
ghost use Rattle.evaluator.specs.Names.{NamesPlan, names_of_operator, names_of_reference};

use crate::accesses::{access_target, resolve};
use crate::arithmetic::apply;
use crate::cells::Cells;
use crate::items::{
    Asked, Ending, FlagAsked, Item, Job, KeyAsked, OperatorItem, Plan, Purpose, Reading,
};
use crate::messages::not_an_object;
use crate::reading::get_value;
use crate::references::{Arithmetic, Finish, Reference};
use crate::requests::{ask_of_two, convert, is_less};
use crate::tree::{comma_at, node_at};
use crate::unary_arithmetic::{minus_value, plus_value};
use crate::values::{goes_right, type_text};
use crate::writing::put_value;
use es_model::{Operation, Running, Stop};
use es_tree::{
    Access, BinaryOperator, Checked, Node, NodeId, Primary, ShortOperator, UnaryOperator,
};
use object_heap::Heap;
use property_keys::{Ledger, Steps, Value, same_value};

fn wait_for(node: NodeId, item: OperatorItem) -> Plan
    ensures { result ≡ plan.Wait (job.Node None node) (item_of.Operator item) }
{
    Plan::Wait(Job::Node { name: None, node }, Item::Operator(item))
}

pub(crate) fn typeof_value<L: Ledger>(
    heap: &mut Heap,
    script: &Checked,
    body: Running,
    cells: &Cells,
    value: Value,
    steps: &mut Steps<L>,
) -> Result<Plan, Stop>
    ensures plans { PlansAt script.now body cells.now heap.old heap.new (λ here. typeof_value value) result }
    ensures named { (l : Lists) → NamesPlan script.now l result }
    ensures retains { Retains heap.old heap.new }
{
    let text = type_text(heap, value)?;
    Ok(Plan::Ends(Ending::Gives(Value::Text(text))))
}

pub(crate) fn typeof_reference<L: Ledger>(
    heap: &mut Heap,
    script: &Checked,
    body: Running,
    cells: &Cells,
    reference: Reference,
    steps: &mut Steps<L>,
) -> Result<Plan, Stop>
    ensures plans { PlansAt script.now body cells.now heap.old heap.new (λ here. typeof_reference here reference) result }
    ensures named { (w v : World) → StandsFor heap.old w → IsSound w → StandsFor heap.new v → HasNames script.now v.lists (names_of_reference reference) → NamesPlan script.now v.lists result }
    ensures retains { Retains heap.old heap.new }
{
    match reference {
        Reference::Global { present, .. } => {
            if present {
                get_value(heap, script, body, cells, reference, Reading::Typeof, steps)
            } else {
                typeof_value(heap, script, body, cells, Value::Undefined, steps)
            }
        }
        Reference::Cell { .. }
        | Reference::Arguments { .. }
        | Reference::Callee { .. }
        | Reference::Property { .. } => get_value(
            heap,
            script,
            body,
            cells,
            reference,
            Reading::Typeof,
            steps,
        ),
    }
}

#[tactic(auto, using(object_heap::specs::Stands::goes_none, object_heap::specs::Stands::goes_then, object_heap::specs::Stands::halts_at, object_heap::proofs::Retaining::retains_none, object_heap::proofs::Retaining::retains_then, crate::proofs::PlansNamed::keeps_wait, crate::proofs::PlansNamed::keeps_enter, crate::proofs::PlansNamed::keeps_ask, crate::proofs::PlansNamed::keeps_last, crate::proofs::PlansNamed::keeps_end, crate::proofs::PlansNamed::keeps_stop, crate::proofs::PlansNamed::defines_plan, crate::proofs::PlansNamed::defines_none, crate::proofs::PlansNamed::defines_stop, crate::proofs::Planned::plans_then))]
fn typeof_name<L: Ledger>(
    heap: &mut Heap,
    script: &Checked,
    body: Running,
    cells: &Cells,
    operand: NodeId,
    primary: &Primary,
    steps: &mut Steps<L>,
) -> Result<Plan, Stop>
    ensures plans { PlansAt script.now body cells.now heap.old heap.new (λ here. typeof_at here operand (Some (node_of.Primary primary.now))) result }
    ensures named { (w v : World) → StandsFor heap.old w → IsSound w → StandsFor heap.new v → IsKnownRunning script.now v.lists body → NamesPlan script.now v.lists result }
    ensures retains { Retains heap.old heap.new }
{
    match primary {
        Primary::Name(named) => {
            heap.charge(1)?;
            resolve(heap, script, body, cells, named, Purpose::Typeof, steps)
        }
        Primary::This
        | Primary::Number(_)
        | Primary::Text(_)
        | Primary::Null
        | Primary::Bool(_)
        | Primary::Array(_)
        | Primary::Object { .. }
        | Primary::Function(_)
        | Primary::Method(_) => Ok(Plan::Wait(
            Job::Node {
                name: None,
                node: operand,
            },
            Item::Read(Reading::Typeof),
        )),
    }
}

fn typeof_node<L: Ledger>(
    heap: &mut Heap,
    script: &Checked,
    body: Running,
    cells: &Cells,
    operand: NodeId,
    node: &Node,
    steps: &mut Steps<L>,
) -> Result<Plan, Stop>
    ensures plans { PlansAt script.now body cells.now heap.old heap.new (λ here. typeof_at here operand (Some node.now)) result }
    ensures named { (w v : World) → StandsFor heap.old w → IsSound w → StandsFor heap.new v → IsKnownRunning script.now v.lists body → NamesPlan script.now v.lists result }
    ensures retains { Retains heap.old heap.new }
{
    match node {
        Node::Primary(primary) => typeof_name(heap, script, body, cells, operand, primary, steps),
        Node::Statement(_) | Node::Operator(_) | Node::Access(_) => Ok(Plan::Wait(
            Job::Node {
                name: None,
                node: operand,
            },
            Item::Read(Reading::Typeof),
        )),
    }
}

fn delete_access<L: Ledger>(
    heap: &mut Heap,
    script: &Checked,
    body: Running,
    cells: &Cells,
    operand: NodeId,
    access: &Access,
    steps: &mut Steps<L>,
) -> Result<Plan, Stop>
    ensures plans { PlansAt script.now body cells.now heap.old heap.new (λ here. delete_at here operand (Some (node_of.Access access.now))) result }
    ensures named { (w v : World) → StandsFor heap.old w → StandsFor heap.new v → NamesSites script.now access.now → NamesPlan script.now v.lists result }
    ensures retains { Retains heap.old heap.new }
{
    match access {
        Access::Member { .. } | Access::Index { .. } => access_target(
            heap,
            script,
            body,
            cells,
            access,
            Purpose::Delete,
            steps,
        ),
        Access::Call { .. } | Access::New { .. } => Ok(wait_for(
            operand,
            OperatorItem::DeleteValued,
        )),
    }
}

fn delete_node<L: Ledger>(
    heap: &mut Heap,
    script: &Checked,
    body: Running,
    cells: &Cells,
    operand: NodeId,
    node: &Node,
    steps: &mut Steps<L>,
) -> Result<Plan, Stop>
    ensures plans { PlansAt script.now body cells.now heap.old heap.new (λ here. delete_at here operand (Some node.now)) result }
    ensures named { (w v : World) → StandsFor heap.old w → StandsFor heap.new v → NamesKnown script.now node.now → NamesPlan script.now v.lists result }
    ensures retains { Retains heap.old heap.new }
{
    match node {
        Node::Access(access) => delete_access(heap, script, body, cells, operand, access, steps),
        Node::Statement(_) | Node::Operator(_) | Node::Primary(_) => {
            Ok(wait_for(operand, OperatorItem::DeleteValued))
        }
    }
}

fn delete<L: Ledger>(
    heap: &mut Heap,
    script: &Checked,
    body: Running,
    cells: &Cells,
    operand: NodeId,
    steps: &mut Steps<L>,
) -> Result<Plan, Stop>
    ensures plans { PlansAt script.now body cells.now heap.old heap.new (λ here. unary_expression here unary.Delete operand) result }
    ensures named { (w v : World) → StandsFor heap.old w → StandsFor heap.new v → NamesPlan script.now v.lists result }
    ensures retains { Retains heap.old heap.new }
{
    match node_at(script, operand) {
        None => Ok(wait_for(operand, OperatorItem::DeleteValued)),
        Some(node) => delete_node(heap, script, body, cells, operand, node, steps),
    }
}

fn type_of<L: Ledger>(
    heap: &mut Heap,
    script: &Checked,
    body: Running,
    cells: &Cells,
    operand: NodeId,
    steps: &mut Steps<L>,
) -> Result<Plan, Stop>
    ensures plans { PlansAt script.now body cells.now heap.old heap.new (λ here. unary_expression here unary.Typeof operand) result }
    ensures named { (w v : World) → StandsFor heap.old w → IsSound w → StandsFor heap.new v → IsKnownRunning script.now v.lists body → NamesPlan script.now v.lists result }
    ensures retains { Retains heap.old heap.new }
{
    match node_at(script, operand) {
        None => Ok(Plan::Wait(
            Job::Node {
                name: None,
                node: operand,
            },
            Item::Read(Reading::Typeof),
        )),
        Some(node) => typeof_node(heap, script, body, cells, operand, node, steps),
    }
}

/// Unary operators (13.5).
pub(crate) fn unary_expression<L: Ledger>(
    heap: &mut Heap,
    script: &Checked,
    body: Running,
    cells: &Cells,
    operator: UnaryOperator,
    operand: NodeId,
    steps: &mut Steps<L>,
) -> Result<Plan, Stop>
    ensures plans { PlansAt script.now body cells.now heap.old heap.new (λ here. unary_expression here operator operand) result }
    ensures named { (w v : World) → StandsFor heap.old w → IsSound w → StandsFor heap.new v → IsKnownRunning script.now v.lists body → NamesPlan script.now v.lists result }
    ensures retains { Retains heap.old heap.new }
{
    match operator {
        UnaryOperator::Delete => delete(heap, script, body, cells, operand, steps),
        UnaryOperator::Void => Ok(wait_for(operand, OperatorItem::VoidValued)),
        UnaryOperator::Typeof => type_of(heap, script, body, cells, operand, steps),
        UnaryOperator::Plus => Ok(wait_for(operand, OperatorItem::PlusValued)),
        UnaryOperator::Minus => Ok(wait_for(operand, OperatorItem::MinusValued)),
        UnaryOperator::Not => Ok(wait_for(operand, OperatorItem::NotValued)),
    }
}

fn is_in<L: Ledger>(
    heap: &mut Heap,
    script: &Checked,
    body: Running,
    cells: &Cells,
    left: Value,
    right: Value,
    steps: &mut Steps<L>,
) -> Result<Plan, Stop>
    ensures plans { PlansAt script.now body cells.now heap.old heap.new (λ here. is_in left right) result }
    ensures named { (l : Lists) → IsKnown l right → NamesPlan script.now l result }
    ensures retains { Retains heap.old heap.new }
{
    match right {
        Value::Object(object) => {
            let next = Asked::Key(KeyAsked::InKeyed { object });
            convert(
                heap,
                script,
                body,
                cells,
                Operation::ToKey,
                left,
                next,
                steps,
            )
        }
        Value::Undefined
        | Value::Null
        | Value::Bool(_)
        | Value::Whole(_)
        | Value::Text(_)
        | Value::Symbol(_) => not_an_object(heap, script, body, cells, steps),
    }
}

/// Binary operators (13.7 to 13.11), once both operands have their values.
fn compare<L: Ledger>(
    heap: &mut Heap,
    script: &Checked,
    body: Running,
    cells: &Cells,
    operator: BinaryOperator,
    a: Value,
    b: Value,
    steps: &mut Steps<L>,
) -> Result<Plan, Stop>
    ensures plans { PlansAt script.now body cells.now heap.old heap.new (λ here. compare here operator a b) result }
    ensures named { (w v : World) → StandsFor heap.old w → StandsFor heap.new v → IsKnown v.lists a → IsKnown v.lists b → NamesPlan script.now v.lists result }
    ensures retains { Retains heap.old heap.new }
{
    let given = Asked::Flag(FlagAsked::FlagGiven);
    let denied = Asked::Flag(FlagAsked::FlagDenied);
    match operator {
        BinaryOperator::Multiply => apply(
            heap,
            script,
            body,
            cells,
            Arithmetic::Multiply,
            Finish::Give,
            a,
            b,
            steps,
        ),
        BinaryOperator::Remainder => apply(
            heap,
            script,
            body,
            cells,
            Arithmetic::Remainder,
            Finish::Give,
            a,
            b,
            steps,
        ),
        BinaryOperator::Add => apply(
            heap,
            script,
            body,
            cells,
            Arithmetic::Add,
            Finish::Give,
            a,
            b,
            steps,
        ),
        BinaryOperator::Subtract => apply(
            heap,
            script,
            body,
            cells,
            Arithmetic::Subtract,
            Finish::Give,
            a,
            b,
            steps,
        ),
        BinaryOperator::Less => is_less(heap, script, body, cells, a, b, true, false, steps),
        BinaryOperator::Greater => is_less(heap, script, body, cells, b, a, false, false, steps),
        BinaryOperator::AtMost => is_less(heap, script, body, cells, b, a, false, true, steps),
        BinaryOperator::AtLeast => is_less(heap, script, body, cells, a, b, true, true, steps),
        BinaryOperator::InstanceOf => ask_of_two(
            heap,
            script,
            body,
            cells,
            Operation::InstanceOf,
            a,
            b,
            given,
            steps,
        ),
        BinaryOperator::In => is_in(heap, script, body, cells, a, b, steps),
        BinaryOperator::Equal => ask_of_two(
            heap,
            script,
            body,
            cells,
            Operation::LooselyEqual,
            a,
            b,
            given,
            steps,
        ),
        BinaryOperator::NotEqual => ask_of_two(
            heap,
            script,
            body,
            cells,
            Operation::LooselyEqual,
            a,
            b,
            denied,
            steps,
        ),
        BinaryOperator::StrictlyEqual => Ok(Plan::Ends(Ending::Gives(Value::Bool(same_value(
            a, b,
        ))))),
        BinaryOperator::NotStrictlyEqual => Ok(Plan::Ends(Ending::Gives(Value::Bool(!same_value(
            a, b,
        ))))),
    }
}

fn short_value<L: Ledger>(
    heap: &mut Heap,
    script: &Checked,
    body: Running,
    cells: &Cells,
    operator: ShortOperator,
    right: NodeId,
    value: Value,
    steps: &mut Steps<L>,
) -> Result<Plan, Stop>
    ensures plans { PlansAt script.now body cells.now heap.old heap.new (λ here. short_value here operator right value) result }
    ensures named { (l : Lists) → NamesPlan script.now l result }
    ensures retains { Retains heap.old heap.new }
{
    if goes_right(heap, operator, value) {
        Ok(Plan::Last(Job::Node {
            name: None,
            node: right,
        }))
    } else {
        Ok(Plan::Ends(Ending::Gives(value)))
    }
}

fn test_value<L: Ledger>(
    heap: &mut Heap,
    script: &Checked,
    body: Running,
    cells: &Cells,
    then: NodeId,
    otherwise: NodeId,
    value: Value,
    steps: &mut Steps<L>,
) -> Result<Plan, Stop>
    ensures plans { PlansAt script.now body cells.now heap.old heap.new (λ here. test_value here then otherwise value) result }
    ensures named { (l : Lists) → NamesPlan script.now l result }
    ensures retains { Retains heap.old heap.new }
{
    let node = if heap.is_truth(value) {
        then
    } else {
        otherwise
    };
    Ok(Plan::Last(Job::Node { name: None, node }))
}

/// The expressions of a comma list from a number on, where those before it have this value at last.
pub(crate) fn comma_from<L: Ledger>(
    heap: &mut Heap,
    script: &Checked,
    body: Running,
    cells: &Cells,
    node: NodeId,
    next: usize,
    value: Value,
    steps: &mut Steps<L>,
) -> Result<Plan, Stop>
    ensures plans { PlansAt script.now body cells.now heap.old heap.new (λ here. comma_from here (drop next (comma_at here node)) value) result }
    ensures named { (l : Lists) → NamesPlan script.now l result }
    ensures retains { Retains heap.old heap.new }
{
    match comma_at(script, node, next) {
        None => Ok(Plan::Ends(Ending::Gives(value))),
        Some(expression) => Ok(wait_for(
            expression.node,
            OperatorItem::CommaValued {
                node,
                next: expression.next,
            },
        )),
    }
}

/// An operator goes on with the value of an operand.
pub(crate) fn operator_valued<L: Ledger>(
    heap: &mut Heap,
    script: &Checked,
    body: Running,
    cells: &Cells,
    item: OperatorItem,
    value: Value,
    steps: &mut Steps<L>,
) -> Result<Plan, Stop>
    ensures plans { PlansAt script.now body cells.now heap.old heap.new (λ here. operator_valued here item value) result }
    ensures named { (w v : World) → StandsFor heap.old w → StandsFor heap.new v → HasNames script.now v.lists (names_of_operator item) → IsKnown v.lists value → NamesPlan script.now v.lists result }
    ensures retains { Retains heap.old heap.new }
{
    match item {
        OperatorItem::DeleteValued => Ok(Plan::Ends(Ending::Gives(Value::Bool(true)))),
        OperatorItem::VoidValued => Ok(Plan::Ends(Ending::Gives(Value::Undefined))),
        OperatorItem::PlusValued => plus_value(heap, script, body, cells, value, steps),
        OperatorItem::MinusValued => minus_value(heap, script, body, cells, value, steps),
        OperatorItem::NotValued => {
            Ok(Plan::Ends(Ending::Gives(Value::Bool(!heap.is_truth(value)))))
        }
        OperatorItem::LeftValued { operator, right } => Ok(wait_for(
            right,
            OperatorItem::RightValued {
                operator,
                left: value,
            },
        )),
        OperatorItem::RightValued { operator, left } => compare(
            heap, script, body, cells, operator, left, value, steps,
        ),
        OperatorItem::ShortValued { operator, right } => short_value(
            heap, script, body, cells, operator, right, value, steps,
        ),
        OperatorItem::TestValued { then, otherwise } => test_value(
            heap, script, body, cells, then, otherwise, value, steps,
        ),
        OperatorItem::CommaValued { node, next } => comma_from(
            heap, script, body, cells, node, next, value, steps,
        ),
        OperatorItem::AssignValued { reference } => put_value(
            heap, script, body, cells, reference, value, value, steps,
        ),
        OperatorItem::CompoundValued {
            operator,
            reference,
            left,
        } => apply(
            heap,
            script,
            body,
            cells,
            operator,
            Finish::Put(reference),
            left,
            value,
            steps,
        ),
    }
}
