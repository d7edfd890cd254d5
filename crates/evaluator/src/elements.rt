//! Array literals (ECMA-262, 13.2.4).

ghost use Rattle.std.specs.Prelude.{◌≡◌, ◌∷◌, ◌+◌, [], Some, drop, false, length, nat_le, slice_get, true, MatchOption};
ghost use Rattle.property_keys.specs.Keys.{most_index};
ghost use Rattle.es_tree.specs.Tree.{Tree};
ghost use Rattle.es_tree.specs.declared.node.Node.TheVariants as node_of;
ghost use Rattle.es_model.specs.Known.{IsObject};
ghost use Rattle.es_model.specs.World.{World};
ghost use Rattle.evaluator.specs.Elements.{array_literal, element_then, elements_after, elements_in};
ghost use Rattle.evaluator.specs.Names.{NamesDefined, NamesPlan};
ghost use Rattle.evaluator.specs.Plans.{DefinesAt, ElementStandsAt, PlansAt, literal_valued};
ghost use Rattle.evaluator.specs.declared.items.Ending.TheVariants as ending;
ghost use Rattle.evaluator.specs.declared.items.Item.TheVariants as item_of;
ghost use Rattle.evaluator.specs.declared.items.Job.TheVariants as job;
ghost use Rattle.evaluator.specs.declared.items.LiteralItem.TheVariants as literal;
ghost use Rattle.evaluator.specs.declared.items.Plan.TheVariants as plan;
ghost use Rattle.object_heap.specs.Retains.{Retains};
ghost use Rattle.object_heap.specs.Stands.{StandsFor};
ghost use Rattle.property_keys.specs.declared.values.Value.TheVariants as values;

use crate::cells::Cells;
use crate::items::{Ending, Item, Job, LiteralItem, Plan};
use crate::statements::falls;
use crate::tree::node_at;
use array_objects::{append_element, make_array, raise_length};
use es_model::{Class, Intrinsic, Running, Stop};
use es_tree::{Checked, Items, Node, NodeId, Primary};
use object_heap::Heap;
use property_keys::{Ledger, ObjectId, Steps, Value};

/// The highest array index.
const MOST_INDEX: usize = 4_294_967_294;

// ---- the elements of a node

fn count_in(primary: &Primary) -> usize
    ensures { result ≡ length (elements_in (Some (node_of.Primary primary.now))) }
{
    match primary {
        Primary::Array(elements) => elements.len(),
        Primary::This
        | Primary::Name(_)
        | Primary::Number(_)
        | Primary::Text(_)
        | Primary::Null
        | Primary::Bool(_)
        | Primary::Object { .. }
        | Primary::Function(_)
        | Primary::Method(_) => 0,
    }
}

fn count_of(node: &Node) -> usize
    ensures { result ≡ length (elements_in (Some node.now)) }
{
    match node {
        Node::Primary(primary) => count_in(primary),
        Node::Statement(_) | Node::Operator(_) | Node::Access(_) => 0,
    }
}

/// How many elements a node has, those that are left out among them.
fn element_count(script: &Checked, n: NodeId) -> usize
    ensures { result ≡ length (elements_in (slice_get script.now.nodes n.0)) }
{
    match node_at(script, n) {
        None => 0,
        Some(node) => count_of(node),
    }
}

fn item_at(elements: &Items<Option<NodeId>>, i: usize) -> Option<Option<NodeId>>
    ensures { MatchOption result (drop i elements.now ≡ []) (λ e. drop i elements.now ≡ e ∷ drop (i + 1) elements.now) }
{
    if i < elements.len() {
        Some(*elements.at(i))
    } else {
        None
    }
}

fn element_in(primary: &Primary, i: usize) -> Option<Option<NodeId>>
    ensures { MatchOption result (drop i (elements_in (Some (node_of.Primary primary.now))) ≡ []) (λ e. drop i (elements_in (Some (node_of.Primary primary.now))) ≡ e ∷ drop (i + 1) (elements_in (Some (node_of.Primary primary.now)))) }
{
    match primary {
        Primary::Array(elements) => item_at(elements, i),
        Primary::This
        | Primary::Name(_)
        | Primary::Number(_)
        | Primary::Text(_)
        | Primary::Null
        | Primary::Bool(_)
        | Primary::Object { .. }
        | Primary::Function(_)
        | Primary::Method(_) => None,
    }
}

fn element_of(node: &Node, i: usize) -> Option<Option<NodeId>>
    ensures { MatchOption result (drop i (elements_in (Some node.now)) ≡ []) (λ e. drop i (elements_in (Some node.now)) ≡ e ∷ drop (i + 1) (elements_in (Some node.now))) }
{
    match node {
        Node::Primary(primary) => element_in(primary, i),
        Node::Statement(_) | Node::Operator(_) | Node::Access(_) => None,
    }
}

/// An element of a node: nothing past the last one, and nothing in it where it is left out.
fn element_at(script: &Checked, n: NodeId, i: usize) -> Option<Option<NodeId>>
    ensures { MatchOption result (drop i (elements_in (slice_get script.now.nodes n.0)) ≡ []) (λ e. ElementStandsAt script.now n i e) }
{
    match node_at(script, n) {
        None => None,
        Some(node) => element_of(node, i),
    }
}

// ---- one element

/// The number of an element as an array index, if it is one.
fn index_of(at: usize) -> Option<u32>
    ensures { MatchOption result (nat_le at most_index ≡ false) (λ i. (i ≡ at) × (nat_le at most_index ≡ true)) }
{
    if at <= MOST_INDEX {
        Some(at as u32)
    } else {
        None
    }
}

/// No element is left.
fn whole(array: ObjectId) -> Plan
    ensures { result ≡ plan.Ends (ending.Gives (values.Object array)) }
{
    Plan::Ends(Ending::Gives(Value::Object(array)))
}

/// An element is evaluated.
fn element(node: NodeId, at: usize, array: ObjectId, value: NodeId) -> Plan
    ensures { result ≡ plan.Wait (job.Node None value) (item_of.Literal (literal.ElementValued node at array)) }
{
    let part = Job::Node {
        name: None,
        node: value,
    };
    Plan::Wait(
        part,
        Item::Literal(LiteralItem::ElementValued { node, at, array }),
    )
}

/// What an element does next (ECMA-262, ArrayAccumulation, 13.2.4.1), or nothing where it is left out: that raises the length.
fn element_then<L: Ledger>(
    heap: &mut Heap,
    script: &Checked,
    body: Running,
    cells: &Cells,
    node: NodeId,
    at: usize,
    array: ObjectId,
    found: Option<NodeId>,
    steps: &mut Steps<L>,
) -> Result<Option<Plan>, Stop>
    requires { ElementStandsAt script.now node at found }
    ensures defines { DefinesAt script.now body cells.now heap.old heap.new (λ here. element_then here array at found) (λ here. elements_after here node (at + 1) array) result }
    ensures named { (w v : World) → StandsFor heap.old w → StandsFor heap.new v → IsObject v.lists array → NamesDefined script.now v.lists result }
    ensures retains { Retains heap.old heap.new }
{
    match found {
        Some(value) => Ok(Some(element(node, at, array, value))),
        None => match index_of(at) {
            Some(index) => {
                raise_length(heap, array, index + 1, steps)?;
                Ok(None)
            }
            None => Ok(Some(falls())),
        },
    }
}

/// The elements of an array literal from a number on.
#[tactic(auto, using(object_heap::specs::Stands::goes_none, object_heap::specs::Stands::goes_then, object_heap::specs::Stands::halts_at, object_heap::proofs::Retaining::retains_none, object_heap::proofs::Retaining::retains_then, crate::proofs::PlansNamed::keeps_wait, crate::proofs::PlansNamed::keeps_enter, crate::proofs::PlansNamed::keeps_ask, crate::proofs::PlansNamed::keeps_last, crate::proofs::PlansNamed::keeps_end, crate::proofs::PlansNamed::keeps_stop, crate::proofs::PlansNamed::defines_plan, crate::proofs::PlansNamed::defines_none, crate::proofs::PlansNamed::defines_stop, crate::proofs::ElementsDefined::elements_on, crate::proofs::ElementsDefined::elements_plan, crate::proofs::ElementsDefined::elements_stop, crate::proofs::ElementsDefined::elements_end))]
fn elements_from<L: Ledger>(
    heap: &mut Heap,
    script: &Checked,
    body: Running,
    cells: &Cells,
    node: NodeId,
    first: usize,
    array: ObjectId,
    steps: &mut Steps<L>,
) -> Result<Plan, Stop>
    ensures plans { PlansAt script.now body cells.now heap.old heap.new (λ here. elements_after here node first array) result }
    ensures named { (w v : World) → StandsFor heap.old w → StandsFor heap.new v → IsObject v.lists array → NamesPlan script.now v.lists result }
    ensures retains { Retains heap.old heap.new }
{
    let count = element_count(script, node);
    let mut next = first;
    'elements: while next < count {
        let Some(found) = element_at(script, node, next) else {
            return Ok(whole(array));
        };
        if let Some(going) = element_then(
            heap, script, body, cells, node, next, array, found, steps,
        )? {
            return Ok(going);
        }
        next += 1;
    }
    Ok(whole(array))
}

// ---- the literal

/// The value of an element is there, and those behind it come then.
pub(crate) fn element_valued<L: Ledger>(
    heap: &mut Heap,
    script: &Checked,
    body: Running,
    cells: &Cells,
    node: NodeId,
    at: usize,
    array: ObjectId,
    value: Value,
    steps: &mut Steps<L>,
) -> Result<Plan, Stop>
    ensures plans { PlansAt script.now body cells.now heap.old heap.new (λ here. literal_valued here (literal.ElementValued node at array) value) result }
    ensures named { (w v : World) → StandsFor heap.old w → StandsFor heap.new v → IsObject v.lists array → NamesPlan script.now v.lists result }
    ensures retains { Retains heap.old heap.new }
{
    match index_of(at) {
        Some(index) => {
            append_element(heap, array, index, value, steps)?;
            elements_from(heap, script, body, cells, node, at + 1, array, steps)
        }
        None => Ok(falls()),
    }
}

/// A new Array object, and the elements of the literal (ECMA-262, 13.2.4.2).
pub(crate) fn array_literal<L: Ledger>(
    heap: &mut Heap,
    script: &Checked,
    body: Running,
    cells: &Cells,
    node: NodeId,
    steps: &mut Steps<L>,
) -> Result<Plan, Stop>
    ensures plans { PlansAt script.now body cells.now heap.old heap.new (λ here. array_literal here node) result }
    ensures named { (w v : World) → StandsFor heap.old w → StandsFor heap.new v → NamesPlan script.now v.lists result }
    ensures retains { Retains heap.old heap.new }
{
    let prototype = Intrinsic::Prototype(Class::Array).object();
    let array = make_array(heap, 0, prototype, steps)?;
    elements_from(heap, script, body, cells, node, 0, array, steps)
}
