//! Member accesses (ECMA-262, 13.3.2), names (13.1.3), and what is done with a reference.

ghost use Rattle.std.specs.Prelude.{◌≡◌, None, Some};
ghost use Rattle.es_tree.specs.declared.expressions.Access.TheVariants as access;
ghost use Rattle.es_model.specs.Program.{charge};
ghost use Rattle.evaluator.specs.Accesses.{access_reference, target_at, target_reference};
ghost use Rattle.evaluator.specs.declared.items.AccessItem.TheVariants as access_item;
ghost use Rattle.evaluator.specs.declared.items.Item.TheVariants as item_of;
ghost use Rattle.evaluator.specs.declared.items.Job.TheVariants as job;
ghost use Rattle.evaluator.specs.declared.items.Plan.TheVariants as plan;
ghost use Rattle.evaluator.specs.declared.references.Reference.TheVariants as reference_of;
ghost use Rattle.evaluator.specs.Plans.{PlansAt, access_valued, purpose_program};
ghost use Rattle.evaluator.specs.References.{name_of, resolve, resolve_bound};
ghost use Rattle.object_heap.specs.Retains.{Retains};
ghost use Rattle.es_model.specs.World.{World};
ghost use Rattle.object_heap.specs.Stands.{StandsFor};
ghost use Rattle.es_model.specs.Sound.{IsSound};
ghost use Rattle.es_model.specs.Known.{IsKnown, IsText};
ghost use Rattle.es_tree.specs.Tree.{IsSite, NamesSites, NamesKnown};
ghost use Rattle.es_model.specs.Belongs.{HasNames};
ghost use Rattle.es_model.specs.Kept.{IsKnownRunning};
ghost use Rattle.evaluator.specs.Names.{NamesPlan, names_of_access, names_of_reference};

use crate::calls::callee_reference;
use crate::cells::Cells;
use crate::items::{
    AccessItem, Asked, Ending, FlagAsked, Item, Job, KeyAsked, OperatorItem, Plan, Purpose, Reading,
};
use crate::operators::typeof_reference;
use crate::reading::get_value;
use crate::references::Reference;
use crate::requests::convert;
use crate::texts::{intern, key_of};
use crate::tree::node_at;
use crate::values::object_or_undefined;
use crate::writing::delete_reference;
use es_model::{CellNo, FunctionName, Intrinsic, Operation, Request, Running, Stop};
use es_tree::{Access, Binding, Checked, Named, Node, NodeId, SiteId, Target};
use object_heap::Heap;
use property_keys::{Ledger, PropKey, Steps, TextId, Units, Value};

/// The name that an anonymous function gets by an assignment to a reference (13.15.2).
fn name_of(reference: Reference) -> Option<FunctionName>
    ensures { result ≡ name_of reference }
{
    match reference {
        Reference::Cell { name, .. }
        | Reference::Global { name, .. }
        | Reference::Callee { name, .. } => Some(FunctionName::Text(name)),
        Reference::Arguments { .. } | Reference::Property { .. } => None,
    }
}

/// What is done with a reference.
pub(crate) fn purpose_plan<L: Ledger>(
    heap: &mut Heap,
    script: &Checked,
    body: Running,
    cells: &Cells,
    purpose: Purpose,
    reference: Reference,
    steps: &mut Steps<L>,
) -> Result<Plan, Stop>
    ensures plans { PlansAt script.now body cells.now heap.old heap.new (λ here. purpose_program here purpose reference) result }
    ensures named { (w v : World) → StandsFor heap.old w → IsSound w → StandsFor heap.new v → HasNames script.now v.lists (names_of_reference reference) → NamesPlan script.now v.lists result }
    ensures retains { Retains heap.old heap.new }
{
    match purpose {
        Purpose::Read => get_value(heap, script, body, cells, reference, Reading::Give, steps),
        Purpose::Call { node } => callee_reference(
            heap, script, body, cells, node, reference, steps,
        ),
        Purpose::Delete => delete_reference(heap, script, body, cells, reference, steps),
        Purpose::Typeof => typeof_reference(heap, script, body, cells, reference, steps),
        Purpose::Assign { value } => Ok(Plan::Wait(
            Job::Node {
                name: name_of(reference),
                node: value,
            },
            Item::Operator(OperatorItem::AssignValued { reference }),
        )),
        Purpose::Compound { operator, value } => {
            let reading = Reading::Compound {
                operator,
                value,
                reference,
            };
            get_value(heap, script, body, cells, reference, reading, steps)
        }
        Purpose::Update { increment, prefix } => {
            let reading = Reading::Update {
                increment,
                prefix,
                reference,
            };
            get_value(heap, script, body, cells, reference, reading, steps)
        }
    }
}

fn cell_reference(name: TextId, cell: CellNo, constant: bool) -> Reference
    ensures { result ≡ reference_of.Cell name cell constant }
{
    Reference::Cell {
        name,
        cell,
        constant,
    }
}

fn resolve_bound<L: Ledger>(
    heap: &mut Heap,
    script: &Checked,
    body: Running,
    cells: &Cells,
    name: TextId,
    binding: Binding,
    purpose: Purpose,
    steps: &mut Steps<L>,
) -> Result<Plan, Stop>
    ensures plans { PlansAt script.now body cells.now heap.old heap.new (λ here. resolve_bound here name binding (purpose_program here purpose)) result }
    ensures named { (w v : World) → StandsFor heap.old w → IsSound w → StandsFor heap.new v → IsText v.lists name → IsKnownRunning script.now v.lists body → NamesPlan script.now v.lists result }
    ensures retains { Retains heap.old heap.new }
{
    match binding {
        Binding::Global => {
            let key = key_of(heap, name);
            let request = Request::Has {
                object: Intrinsic::Global.object(),
                key,
            };
            let next = FlagAsked::Looked { name, key, purpose };
            Ok(Plan::Ask(request, Asked::Flag(next)))
        }
        Binding::Top { cell, constant } => {
            let reference = cell_reference(name, CellNo(cell), constant);
            purpose_plan(heap, script, body, cells, purpose, reference, steps)
        }
        Binding::Own { place, constant } => {
            let reference = cell_reference(name, cells.at(place), constant);
            purpose_plan(heap, script, body, cells, purpose, reference, steps)
        }
        Binding::Arguments => {
            let value = object_or_undefined(body.arguments);
            let reference = Reference::Arguments { value };
            purpose_plan(heap, script, body, cells, purpose, reference, steps)
        }
        Binding::Callee => {
            let value = object_or_undefined(body.callee);
            let reference = Reference::Callee { name, value };
            purpose_plan(heap, script, body, cells, purpose, reference, steps)
        }
    }
}

/// ResolveBinding (9.4.2), and what is done with the reference.
#[tactic(auto, using(object_heap::specs::Stands::goes_none, object_heap::specs::Stands::goes_then, object_heap::specs::Stands::halts_at, object_heap::proofs::Retaining::retains_none, object_heap::proofs::Retaining::retains_then, crate::proofs::PlansNamed::keeps_wait, crate::proofs::PlansNamed::keeps_enter, crate::proofs::PlansNamed::keeps_ask, crate::proofs::PlansNamed::keeps_last, crate::proofs::PlansNamed::keeps_end, crate::proofs::PlansNamed::keeps_stop, crate::proofs::PlansNamed::defines_plan, crate::proofs::PlansNamed::defines_none, crate::proofs::PlansNamed::defines_stop, crate::proofs::Planned::plans_then))]
pub(crate) fn resolve<L: Ledger>(
    heap: &mut Heap,
    script: &Checked,
    body: Running,
    cells: &Cells,
    named: &Named,
    purpose: Purpose,
    steps: &mut Steps<L>,
) -> Result<Plan, Stop>
    ensures plans { PlansAt script.now body cells.now heap.old heap.new (λ here. resolve here named.now (purpose_program here purpose)) result }
    ensures named { (w v : World) → StandsFor heap.old w → IsSound w → StandsFor heap.new v → IsKnownRunning script.now v.lists body → NamesPlan script.now v.lists result }
    ensures retains { Retains heap.old heap.new }
{
    let name = intern(heap, &named.name)?;
    resolve_bound(
        heap,
        script,
        body,
        cells,
        name,
        named.binding,
        purpose,
        steps,
    )
}

fn member<L: Ledger>(
    heap: &mut Heap,
    script: &Checked,
    body: Running,
    cells: &Cells,
    name: &Units,
    base: NodeId,
    read: Option<SiteId>,
    write: Option<SiteId>,
    purpose: Purpose,
    steps: &mut Steps<L>,
) -> Result<Plan, Stop>
    ensures plans { PlansAt script.now body cells.now heap.old heap.new (λ here. access_reference here (access.Member base name.now read write) (purpose_program here purpose)) result }
    ensures named { (w v : World) → StandsFor heap.old w → StandsFor heap.new v → IsSite script.now read → IsSite script.now write → NamesPlan script.now v.lists result }
    ensures retains { Retains heap.old heap.new }
{
    let text = intern(heap, name)?;
    let key = key_of(heap, text);
    Ok(Plan::Wait(
        Job::Node {
            name: None,
            node: base,
        },
        Item::Access(AccessItem::MemberBased {
            key,
            read,
            write,
            purpose,
        }),
    ))
}

/// An access, after its turn.
pub(crate) fn access_reference<L: Ledger>(
    heap: &mut Heap,
    script: &Checked,
    body: Running,
    cells: &Cells,
    access: &Access,
    purpose: Purpose,
    steps: &mut Steps<L>,
) -> Result<Plan, Stop>
    ensures plans { PlansAt script.now body cells.now heap.old heap.new (λ here. access_reference here access.now (purpose_program here purpose)) result }
    ensures named { (w v : World) → StandsFor heap.old w → StandsFor heap.new v → NamesSites script.now access.now → NamesPlan script.now v.lists result }
    ensures retains { Retains heap.old heap.new }
{
    match access {
        Access::Member {
            base,
            name,
            read,
            write,
        } => member(
            heap, script, body, cells, name, *base, *read, *write, purpose, steps,
        ),
        Access::Index {
            base,
            key,
            read,
            write,
        } => Ok(Plan::Wait(
            Job::Node {
                name: None,
                node: *base,
            },
            Item::Access(AccessItem::IndexBased {
                key: *key,
                read: *read,
                write: *write,
                purpose,
            }),
        )),
        Access::Call { .. } | Access::New { .. } => Ok(Plan::Ends(Ending::Gives(Value::Undefined))),
    }
}

/// An access as a target, with its turn.
#[tactic(auto, using(object_heap::specs::Stands::goes_none, object_heap::specs::Stands::goes_then, object_heap::specs::Stands::halts_at, object_heap::proofs::Retaining::retains_none, object_heap::proofs::Retaining::retains_then, crate::proofs::PlansNamed::keeps_wait, crate::proofs::PlansNamed::keeps_enter, crate::proofs::PlansNamed::keeps_ask, crate::proofs::PlansNamed::keeps_last, crate::proofs::PlansNamed::keeps_end, crate::proofs::PlansNamed::keeps_stop, crate::proofs::PlansNamed::defines_plan, crate::proofs::PlansNamed::defines_none, crate::proofs::PlansNamed::defines_stop, crate::proofs::Planned::plans_then))]
pub(crate) fn access_target<L: Ledger>(
    heap: &mut Heap,
    script: &Checked,
    body: Running,
    cells: &Cells,
    access: &Access,
    purpose: Purpose,
    steps: &mut Steps<L>,
) -> Result<Plan, Stop>
    ensures plans { PlansAt script.now body cells.now heap.old heap.new (λ here. charge 1 (access_reference here access.now (purpose_program here purpose))) result }
    ensures named { (w v : World) → StandsFor heap.old w → StandsFor heap.new v → NamesSites script.now access.now → NamesPlan script.now v.lists result }
    ensures retains { Retains heap.old heap.new }
{
    heap.charge(1)?;
    access_reference(heap, script, body, cells, access, purpose, steps)
}

fn target_node<L: Ledger>(
    heap: &mut Heap,
    script: &Checked,
    body: Running,
    cells: &Cells,
    node: &Node,
    purpose: Purpose,
    steps: &mut Steps<L>,
) -> Result<Plan, Stop>
    ensures plans { PlansAt script.now body cells.now heap.old heap.new (λ here. target_at here (purpose_program here purpose) (Some node.now)) result }
    ensures named { (w v : World) → StandsFor heap.old w → StandsFor heap.new v → NamesKnown script.now node.now → NamesPlan script.now v.lists result }
    ensures retains { Retains heap.old heap.new }
{
    match node {
        Node::Access(access) => access_target(heap, script, body, cells, access, purpose, steps),
        Node::Statement(_) | Node::Operator(_) | Node::Primary(_) => {
            Ok(Plan::Ends(Ending::Gives(Value::Undefined)))
        }
    }
}

pub(crate) fn target_reference<L: Ledger>(
    heap: &mut Heap,
    script: &Checked,
    body: Running,
    cells: &Cells,
    target: &Target,
    purpose: Purpose,
    steps: &mut Steps<L>,
) -> Result<Plan, Stop>
    ensures plans { PlansAt script.now body cells.now heap.old heap.new (λ here. target_reference here target.now (purpose_program here purpose)) result }
    ensures named { (w v : World) → StandsFor heap.old w → IsSound w → StandsFor heap.new v → IsKnownRunning script.now v.lists body → NamesPlan script.now v.lists result }
    ensures retains { Retains heap.old heap.new }
{
    match target {
        Target::Name(named) => resolve(heap, script, body, cells, named, purpose, steps),
        Target::Access(n) => match node_at(script, *n) {
            None => Ok(Plan::Ends(Ending::Gives(Value::Undefined))),
            Some(node) => target_node(heap, script, body, cells, node, purpose, steps),
        },
    }
}

/// A property of a value, with the sites at which it is read and written.
pub(crate) fn property_reference(
    base: Value,
    key: PropKey,
    read: Option<SiteId>,
    write: Option<SiteId>,
) -> Reference
    ensures { result ≡ reference_of.Property base key read write }
{
    Reference::Property {
        base,
        key,
        read,
        write,
    }
}

/// The key of a member access is evaluated.
fn wait_for_key(
    key: NodeId,
    base: Value,
    read: Option<SiteId>,
    write: Option<SiteId>,
    purpose: Purpose,
) -> Plan
    ensures { result ≡ plan.Wait (job.Node None key) (item_of.Access (access_item.KeyValued base read write purpose)) }
{
    let item = AccessItem::KeyValued {
        base,
        read,
        write,
        purpose,
    };
    let part = Job::Node {
        name: None,
        node: key,
    };
    Plan::Wait(part, Item::Access(item))
}

/// A member access goes on with the value of a part of it.
pub(crate) fn access_valued<L: Ledger>(
    heap: &mut Heap,
    script: &Checked,
    body: Running,
    cells: &Cells,
    item: AccessItem,
    value: Value,
    steps: &mut Steps<L>,
) -> Result<Plan, Stop>
    ensures plans { PlansAt script.now body cells.now heap.old heap.new (λ here. access_valued here item value) result }
    ensures named { (w v : World) → StandsFor heap.old w → IsSound w → StandsFor heap.new v → HasNames script.now v.lists (names_of_access item) → IsKnown v.lists value → NamesPlan script.now v.lists result }
    ensures retains { Retains heap.old heap.new }
{
    match item {
        AccessItem::MemberBased {
            key,
            read,
            write,
            purpose,
        } => {
            let reference = property_reference(value, key, read, write);
            purpose_plan(heap, script, body, cells, purpose, reference, steps)
        }
        AccessItem::IndexBased {
            key,
            read,
            write,
            purpose,
        } => Ok(wait_for_key(key, value, read, write, purpose)),
        AccessItem::KeyValued {
            base,
            read,
            write,
            purpose,
        } => {
            let next = KeyAsked::KeyConverted {
                base,
                read,
                write,
                purpose,
            };
            let operation = Operation::ToKey;
            let asked = Asked::Key(next);
            convert(heap, script, body, cells, operation, value, asked, steps)
        }
    }
}
