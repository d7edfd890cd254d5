//! Calls and `new` (ECMA-262, 13.3.5, 13.3.6).

ghost use Rattle.std.specs.Prelude.{◌≡◌, ◌∷◌, [], ◌++◌, Some, drop};
ghost use Rattle.es_tree.specs.declared.node.Node.TheVariants as node_of;
ghost use Rattle.property_keys.specs.declared.values.Value.TheVariants as values;
ghost use Rattle.evaluator.specs.Calls.{arguments_at, arguments_from, call_expression, call_of, callee_reference, construct, invoke, new_expression};
ghost use Rattle.evaluator.specs.Contexts.{evaluate};
ghost use Rattle.evaluator.specs.Plans.{PlansAt, reading_program};
ghost use Rattle.evaluator.specs.References.{base_of};
ghost use Rattle.evaluator.specs.declared.items.Reading.TheVariants as reading_of;
ghost use Rattle.object_heap.specs.Retains.{Retains};
ghost use Rattle.es_model.specs.World.{Lists, World};
ghost use Rattle.object_heap.specs.Stands.{StandsFor};
ghost use Rattle.es_model.specs.Sound.{IsSound};
ghost use Rattle.es_model.specs.Known.{IsKnown, AreKnown};
ghost use Rattle.es_tree.specs.Tree.{NamesSites, NamesKnown};
ghost use Rattle.es_model.specs.Belongs.{HasNames};
ghost use Rattle.evaluator.specs.Names.{NamesPlan, names_of_invocation, names_of_reference};

use crate::accesses::access_target;
use crate::cells::Cells;
use crate::items::{Asked, Ending, Item, Job, Plan, Purpose, Reading, ValueAsked};
use crate::messages::not_a_constructor;
use crate::reading::get_value;
use crate::references::{Invocation, Reference};
use crate::tree::{argument_at, node_at};
use es_model::{Request, Running, Stop, Values};
use es_tree::{Access, Checked, Node, NodeId};
use object_heap::Heap;
use property_keys::{Ledger, Steps, Value};

fn construct<L: Ledger>(
    heap: &mut Heap,
    script: &Checked,
    body: Running,
    cells: &Cells,
    constructor: Value,
    arguments: Values,
    steps: &mut Steps<L>,
) -> Result<Plan, Stop>
    ensures plans { PlansAt script.now body cells.now heap.old heap.new (λ here. construct constructor arguments) result }
    ensures named { (l : Lists) → NamesPlan script.now l result }
    ensures retains { Retains heap.old heap.new }
{
    match constructor {
        Value::Object(function) => {
            let request = Request::Construct {
                function,
                arguments,
                target: function,
            };
            Ok(Plan::Ask(request, Asked::Value(ValueAsked::Read(Reading::Give))))
        }
        Value::Undefined
        | Value::Null
        | Value::Bool(_)
        | Value::Whole(_)
        | Value::Text(_)
        | Value::Symbol(_) => not_a_constructor(heap, script, body, cells, steps),
    }
}

/// The call or construction, once the arguments have their values.
fn invoke<L: Ledger>(
    heap: &mut Heap,
    script: &Checked,
    body: Running,
    cells: &Cells,
    invocation: Invocation,
    arguments: Values,
    steps: &mut Steps<L>,
) -> Result<Plan, Stop>
    ensures plans { PlansAt script.now body cells.now heap.old heap.new (λ here. invoke invocation arguments) result }
    ensures named { (l : Lists) → NamesPlan script.now l result }
    ensures retains { Retains heap.old heap.new }
{
    match invocation {
        Invocation::Call { function, this } => {
            let request = Request::Call {
                function,
                this,
                arguments,
            };
            Ok(Plan::Ask(request, Asked::Value(ValueAsked::Read(Reading::Give))))
        }
        Invocation::Construct { constructor } => construct(
            heap,
            script,
            body,
            cells,
            constructor,
            arguments,
            steps,
        ),
    }
}

/// The arguments of a node from a number on (13.3.8.1), where those before it have these values.
pub(crate) fn arguments_from<L: Ledger>(
    heap: &mut Heap,
    script: &Checked,
    body: Running,
    cells: &Cells,
    node: NodeId,
    next: usize,
    invocation: Invocation,
    given: Values,
    steps: &mut Steps<L>,
) -> Result<Plan, Stop>
    ensures plans { PlansAt script.now body cells.now heap.old heap.new (λ here. arguments_from here invocation (drop next (arguments_at here node)) given) result }
    ensures named { (l : Lists) → HasNames script.now l (names_of_invocation invocation) → AreKnown l given → NamesPlan script.now l result }
    ensures retains { Retains heap.old heap.new }
{
    match argument_at(script, node, next) {
        None => invoke(heap, script, body, cells, invocation, given, steps),
        Some(argument) => Ok(Plan::Wait(
            Job::Node {
                name: None,
                node: argument.node,
            },
            Item::Argument {
                node,
                next: argument.next,
                invocation,
                given,
            },
        )),
    }
}

/// An argument has its value.
pub(crate) fn argument_valued<L: Ledger>(
    heap: &mut Heap,
    script: &Checked,
    body: Running,
    cells: &Cells,
    node: NodeId,
    next: usize,
    invocation: Invocation,
    given: Values,
    value: Value,
    steps: &mut Steps<L>,
) -> Result<Plan, Stop>
    ensures plans { PlansAt script.now body cells.now heap.old heap.new (λ here. arguments_from here invocation (drop next (arguments_at here node)) (given ++ value ∷ [])) result }
    ensures named { (l : Lists) → HasNames script.now l (names_of_invocation invocation) → AreKnown l given → IsKnown l value → NamesPlan script.now l result }
    ensures retains { Retains heap.old heap.new }
{
    let mut given = given;
    given.push(value)?;
    arguments_from(
        heap, script, body, cells, node, next, invocation, given, steps,
    )
}

fn base_of(reference: Reference) -> Value
    ensures { result ≡ base_of reference }
{
    match reference {
        Reference::Property { base, .. } => base,
        Reference::Cell { .. }
        | Reference::Global { .. }
        | Reference::Arguments { .. }
        | Reference::Callee { .. } => Value::Undefined,
    }
}

pub(crate) fn callee_reference<L: Ledger>(
    heap: &mut Heap,
    script: &Checked,
    body: Running,
    cells: &Cells,
    node: NodeId,
    reference: Reference,
    steps: &mut Steps<L>,
) -> Result<Plan, Stop>
    ensures plans { PlansAt script.now body cells.now heap.old heap.new (λ here. callee_reference here node reference) result }
    ensures named { (w v : World) → StandsFor heap.old w → IsSound w → StandsFor heap.new v → HasNames script.now v.lists (names_of_reference reference) → NamesPlan script.now v.lists result }
    ensures retains { Retains heap.old heap.new }
{
    let reading = Reading::Callee {
        node,
        this: base_of(reference),
    };
    get_value(heap, script, body, cells, reference, reading, steps)
}

/// The function of a call that is no member access has no receiver.
fn plain_callee<L: Ledger>(
    heap: &mut Heap,
    script: &Checked,
    body: Running,
    cells: &Cells,
    node: NodeId,
    callee: NodeId,
    steps: &mut Steps<L>,
) -> Result<Plan, Stop>
    ensures plans { PlansAt script.now body cells.now heap.old heap.new (λ here. evaluate here callee (reading_program here (reading_of.Callee node values.Undefined))) result }
    ensures named { (l : Lists) → NamesPlan script.now l result }
    ensures retains { Retains heap.old heap.new }
{
    Ok(Plan::Wait(
        Job::Node {
            name: None,
            node: callee,
        },
        Item::Read(Reading::Callee {
            node,
            this: Value::Undefined,
        }),
    ))
}

fn callee_access<L: Ledger>(
    heap: &mut Heap,
    script: &Checked,
    body: Running,
    cells: &Cells,
    node: NodeId,
    callee: NodeId,
    access: &Access,
    steps: &mut Steps<L>,
) -> Result<Plan, Stop>
    ensures plans { PlansAt script.now body cells.now heap.old heap.new (λ here. call_of here node callee (Some (node_of.Access access.now))) result }
    ensures named { (w v : World) → StandsFor heap.old w → StandsFor heap.new v → NamesSites script.now access.now → NamesPlan script.now v.lists result }
    ensures retains { Retains heap.old heap.new }
{
    match access {
        Access::Member { .. } | Access::Index { .. } => access_target(
            heap,
            script,
            body,
            cells,
            access,
            Purpose::Call { node },
            steps,
        ),
        Access::Call { .. } | Access::New { .. } => plain_callee(
            heap, script, body, cells, node, callee, steps,
        ),
    }
}

fn callee_node<L: Ledger>(
    heap: &mut Heap,
    script: &Checked,
    body: Running,
    cells: &Cells,
    node: NodeId,
    callee: NodeId,
    found: &Node,
    steps: &mut Steps<L>,
) -> Result<Plan, Stop>
    ensures plans { PlansAt script.now body cells.now heap.old heap.new (λ here. call_of here node callee (Some found.now)) result }
    ensures named { (w v : World) → StandsFor heap.old w → StandsFor heap.new v → NamesKnown script.now found.now → NamesPlan script.now v.lists result }
    ensures retains { Retains heap.old heap.new }
{
    match found {
        Node::Access(access) => callee_access(
            heap, script, body, cells, node, callee, access, steps,
        ),
        Node::Statement(_) | Node::Operator(_) | Node::Primary(_) => plain_callee(
            heap, script, body, cells, node, callee, steps,
        ),
    }
}

pub(crate) fn call_expression<L: Ledger>(
    heap: &mut Heap,
    script: &Checked,
    body: Running,
    cells: &Cells,
    node: NodeId,
    callee: NodeId,
    steps: &mut Steps<L>,
) -> Result<Plan, Stop>
    ensures plans { PlansAt script.now body cells.now heap.old heap.new (λ here. call_expression here node callee) result }
    ensures named { (w v : World) → StandsFor heap.old w → StandsFor heap.new v → NamesPlan script.now v.lists result }
    ensures retains { Retains heap.old heap.new }
{
    match node_at(script, callee) {
        None => plain_callee(heap, script, body, cells, node, callee, steps),
        Some(found) => callee_node(heap, script, body, cells, node, callee, found, steps),
    }
}

pub(crate) fn new_expression<L: Ledger>(
    heap: &mut Heap,
    script: &Checked,
    body: Running,
    cells: &Cells,
    node: NodeId,
    callee: NodeId,
    steps: &mut Steps<L>,
) -> Result<Plan, Stop>
    ensures plans { PlansAt script.now body cells.now heap.old heap.new (λ here. new_expression here node callee) result }
    ensures named { (l : Lists) → NamesPlan script.now l result }
    ensures retains { Retains heap.old heap.new }
{
    Ok(Plan::Wait(
        Job::Node {
            name: None,
            node: callee,
        },
        Item::Constructor { node },
    ))
}
