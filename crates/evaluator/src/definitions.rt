//! Property definitions of an object literal (ECMA-262, 13.2.5).

ghost use Rattle.std.specs.Prelude.{◌≡◌, ◌∷◌, ◌+◌, [], None, Ok, Some, drop, length, slice_get, MatchOption, OnOk};
ghost use Rattle.es_tree.specs.declared.node.Node.TheVariants as node_of;
ghost use Rattle.es_tree.specs.declared.names.Binding.TheVariants as binding_of;
ghost use Rattle.es_tree.specs.declared.primaries.Property.TheVariants as property_of;
ghost use Rattle.es_model.specs.Changes.{Defining, changed};
ghost use Rattle.es_model.specs.declared.running.FunctionName.TheVariants as given_name;
ghost use Rattle.es_model.specs.Program.{Program, define, look};
ghost use Rattle.es_model.specs.Stages.{stage_of};
ghost use Rattle.es_model.specs.World.{World, cell as cell_of, Lists};
ghost use Rattle.evaluator.specs.Contexts.{Context};
ghost use Rattle.evaluator.specs.Literals.{accessor, plain, properties_at, properties_in, property_key, property_then, property_valued};
ghost use Rattle.evaluator.specs.Plans.{Defines, DefinesAt, Plans, PlansAt, StandsAt, definitions_from, literal_valued, made_by, property_keyed};
ghost use Rattle.evaluator.specs.References.{cell_value, get_value, resolve_bound};
ghost use Rattle.evaluator.specs.declared.items.Ending.TheVariants as ending;
ghost use Rattle.evaluator.specs.declared.items.Item.TheVariants as item_of;
ghost use Rattle.evaluator.specs.declared.items.Job.TheVariants as job;
ghost use Rattle.evaluator.specs.declared.items.LiteralItem.TheVariants as literal;
ghost use Rattle.evaluator.specs.declared.items.Plan.TheVariants as plan;
ghost use Rattle.object_heap.specs.Retains.{Retains};
ghost use Rattle.object_heap.specs.Stands.{Goes, HeapView, StandsFor};
ghost use Rattle.property_keys.specs.declared.values.Value.TheVariants as values;
ghost use Rattle.es_model.specs.Known.{IsObject, IsKnownKey, IsText};
ghost use Rattle.es_model.specs.Belongs.{HasNames};
ghost use Rattle.es_tree.specs.Tree.{Tree};
ghost use Rattle.evaluator.specs.Names.{NamesDefined, NamesPlan, names_of_literal};

use crate::cells::Cells;
use crate::elements::element_valued;
use crate::items::{
    Asked, Ending, FlagAsked, Item, Job, KeyAsked, LiteralItem, Made, Plan, Reading,
};
use crate::messages::not_initialised;
use crate::requests::convert;
use crate::texts::{intern, key_of};
use crate::tree::node_at;
use crate::values::object_or_undefined;
use descriptors::Descriptor;
use es_model::{CellNo, FunctionName, Intrinsic, NamePrefix, Operation, Request, Running, Stop};
use es_tree::{Binding, Checked, Items, Key, Named, Node, NodeId, Primary, Property};
use object_heap::Heap;
use property_keys::{Ledger, NoMemory, ObjectId, PropKey, Steps, TextId, Value};

// ---- the definitions of a node

fn count_in(primary: &Primary) -> usize
    ensures { result ≡ length (properties_in (Some (node_of.Primary primary.now))) }
{
    match primary {
        Primary::Object { properties, .. } => properties.len(),
        Primary::This
        | Primary::Name(_)
        | Primary::Number(_)
        | Primary::Text(_)
        | Primary::Null
        | Primary::Bool(_)
        | Primary::Array(_)
        | Primary::Function(_)
        | Primary::Method(_) => 0,
    }
}

fn count_of(node: &Node) -> usize
    ensures { result ≡ length (properties_in (Some node.now)) }
{
    match node {
        Node::Primary(primary) => count_in(primary),
        Node::Statement(_) | Node::Operator(_) | Node::Access(_) => 0,
    }
}

/// How many property definitions a node has.
fn property_count(script: &Checked, n: NodeId) -> usize
    ensures { result ≡ length (properties_in (slice_get script.now.nodes n.0)) }
{
    match node_at(script, n) {
        None => 0,
        Some(node) => count_of(node),
    }
}

fn item_at(properties: &Items<Property>, i: usize) -> Option<&Property>
    ensures { MatchOption result (drop i properties.now ≡ []) (λ p. drop i properties.now ≡ p.now ∷ drop (i + 1) properties.now) }
{
    if i < properties.len() {
        Some(properties.at(i))
    } else {
        None
    }
}

fn property_in(primary: &Primary, i: usize) -> Option<&Property>
    ensures { MatchOption result (drop i (properties_in (Some (node_of.Primary primary.now))) ≡ []) (λ p. drop i (properties_in (Some (node_of.Primary primary.now))) ≡ p.now ∷ drop (i + 1) (properties_in (Some (node_of.Primary primary.now)))) }
{
    match primary {
        Primary::Object { properties, .. } => item_at(properties, i),
        Primary::This
        | Primary::Name(_)
        | Primary::Number(_)
        | Primary::Text(_)
        | Primary::Null
        | Primary::Bool(_)
        | Primary::Array(_)
        | Primary::Function(_)
        | Primary::Method(_) => None,
    }
}

fn property_of(node: &Node, i: usize) -> Option<&Property>
    ensures { MatchOption result (drop i (properties_in (Some node.now)) ≡ []) (λ p. drop i (properties_in (Some node.now)) ≡ p.now ∷ drop (i + 1) (properties_in (Some node.now))) }
{
    match node {
        Node::Primary(primary) => property_in(primary, i),
        Node::Statement(_) | Node::Operator(_) | Node::Access(_) => None,
    }
}

/// A property definition of a node.
fn property_at(script: &Checked, n: NodeId, i: usize) -> Option<&Property>
    ensures { MatchOption result (drop i (properties_in (slice_get script.now.nodes n.0)) ≡ []) (λ p. StandsAt script.now n i (i + 1) p.now) }
{
    match node_at(script, n) {
        None => None,
        Some(node) => property_of(node, i),
    }
}

// ---- the property that a definition makes

/// The function of an accessor, which is an object: a method comes to nothing else.
fn accessor_of(value: Value) -> Value
    ensures { result ≡ accessor value }
{
    match value {
        Value::Object(_) => value,
        Value::Undefined
        | Value::Null
        | Value::Bool(_)
        | Value::Whole(_)
        | Value::Text(_)
        | Value::Symbol(_) => Value::Undefined,
    }
}

fn made_of(made: Made, value: Value) -> Descriptor
    ensures { result ≡ made_by made value }
{
    match made {
        Made::Plain => Descriptor {
            value: Some(value),
            writable: Some(true),
            get: None,
            set: None,
            enumerable: Some(true),
            configurable: Some(true),
        },
        Made::Getter => Descriptor {
            value: None,
            writable: None,
            get: Some(accessor_of(value)),
            set: None,
            enumerable: Some(true),
            configurable: Some(true),
        },
        Made::Setter => Descriptor {
            value: None,
            writable: None,
            get: None,
            set: Some(accessor_of(value)),
            enumerable: Some(true),
            configurable: Some(true),
        },
    }
}

/// CreateDataPropertyOrThrow (7.3.7) on the new object, which refuses nothing.
fn define<L: Ledger>(
    heap: &mut Heap,
    object: ObjectId,
    key: PropKey,
    made: Made,
    value: Value,
    steps: &mut Steps<L>,
) -> Result<(), NoMemory>
    ensures goes { OnOk result ((w : World) → StandsFor heap.old w → Goes heap.old heap.new w (changed (Defining object key (made_by made value)) w)) }
    ensures retains { Retains heap.old heap.new }
{
    heap.define_own(object, key, &made_of(made, value), steps)?;
    Ok(())
}

// ---- definitions that wait for their value

/// Where a property definition stands: the literal's node, the number of the definition and of the one behind it, and the object.
#[derive(Clone, Copy)]
struct Definition {
    node: NodeId,
    at: usize,
    next: usize,
    object: ObjectId,
}

/// No definition is left.
fn whole(object: ObjectId) -> Plan
    ensures { result ≡ plan.Ends (ending.Gives (values.Object object)) }
{
    Plan::Ends(Ending::Gives(Value::Object(object)))
}

/// The value of a definition, a method or an accessor (15.4.5): an anonymous function gets the key as its name.
fn value_keyed(
    value: NodeId,
    place: Definition,
    key: PropKey,
    prefix: NamePrefix,
    made: Made,
) -> Plan
    ensures { result ≡ plan.Wait (job.Node (Some (given_name.Key prefix key)) value) (item_of.Literal (literal.PropertyValued place.node place.next place.object key made)) }
{
    let item = LiteralItem::PropertyValued {
        node: place.node,
        next: place.next,
        object: place.object,
        key,
        made,
    };
    let name = FunctionName::Key(prefix, key);
    let part = Job::Node {
        name: Some(name),
        node: value,
    };
    Plan::Wait(part, Item::Literal(item))
}

/// A property definition, once its key is there.
fn property_keyed<L: Ledger>(
    heap: &mut Heap,
    script: &Checked,
    body: Running,
    cells: &Cells,
    place: Definition,
    property: &Property,
    key: PropKey,
    steps: &mut Steps<L>,
) -> Result<Plan, Stop>
    ensures plans { PlansAt script.now body cells.now heap.old heap.new (λ here. property_keyed here place.object (property.now ∷ drop place.next (properties_at here place.node)) key) result }
    ensures named { (l : Lists) → IsObject l place.object → IsKnownKey l key → NamesPlan script.now l result }
    ensures retains { Retains heap.old heap.new }
{
    match property {
        Property::Value { value, .. } => {
            let prefix = NamePrefix::Nothing;
            Ok(value_keyed(*value, place, key, prefix, Made::Plain))
        }
        Property::Method { method, .. } => {
            let prefix = NamePrefix::Nothing;
            Ok(value_keyed(*method, place, key, prefix, Made::Plain))
        }
        Property::Getter { method, .. } => {
            let prefix = NamePrefix::Get;
            Ok(value_keyed(*method, place, key, prefix, Made::Getter))
        }
        Property::Setter { method, .. } => {
            let prefix = NamePrefix::Set;
            Ok(value_keyed(*method, place, key, prefix, Made::Setter))
        }
        Property::Shorthand(_) | Property::Prototype(_) => Ok(whole(place.object)),
    }
}

/// The key of a property definition has been converted.
pub(crate) fn definition_keyed<L: Ledger>(
    heap: &mut Heap,
    script: &Checked,
    body: Running,
    cells: &Cells,
    node: NodeId,
    at: usize,
    object: ObjectId,
    key: PropKey,
    steps: &mut Steps<L>,
) -> Result<Plan, Stop>
    ensures plans { PlansAt script.now body cells.now heap.old heap.new (λ here. property_keyed here object (drop at (properties_at here node)) key) result }
    ensures named { (l : Lists) → IsObject l object → IsKnownKey l key → NamesPlan script.now l result }
    ensures retains { Retains heap.old heap.new }
{
    if at >= property_count(script, node) {
        return Ok(whole(object));
    }
    match property_at(script, node, at) {
        None => Ok(whole(object)),
        Some(property) => {
            let place = Definition {
                node,
                at,
                next: at + 1,
                object,
            };
            property_keyed(heap, script, body, cells, place, property, key, steps)
        }
    }
}

/// The key of a property definition (13.2.5.5), and then the definition.
fn property_key<L: Ledger>(
    heap: &mut Heap,
    script: &Checked,
    body: Running,
    cells: &Cells,
    place: Definition,
    property: &Property,
    name: &Key,
    steps: &mut Steps<L>,
) -> Result<Plan, Stop>
    requires { StandsAt script.now place.node place.at place.next property.now }
    ensures plans { PlansAt script.now body cells.now heap.old heap.new (λ here. property_key here name.now (property_keyed here place.object (property.now ∷ drop place.next (properties_at here place.node)))) result }
    ensures named { (w v : World) → StandsFor heap.old w → StandsFor heap.new v → IsObject v.lists place.object → NamesPlan script.now v.lists result }
    ensures retains { Retains heap.old heap.new }
{
    match name {
        Key::Fixed(units) => {
            let text = intern(heap, units)?;
            let key = key_of(heap, text);
            property_keyed(heap, script, body, cells, place, property, key, steps)
        }
        Key::Computed(key) => {
            let item = LiteralItem::KeyValued {
                node: place.node,
                at: place.at,
                object: place.object,
            };
            let part = Job::Node {
                name: None,
                node: *key,
            };
            Ok(Plan::Wait(part, Item::Literal(item)))
        }
    }
}

// ---- names alone: the value of a cell is read here, and a name of the global object is asked for

/// A name's value is that of the property, and the definition is done.
fn name_valued<L: Ledger>(
    heap: &mut Heap,
    object: ObjectId,
    key: PropKey,
    value: Value,
    steps: &mut Steps<L>,
) -> Result<Option<Plan>, Stop>
    ensures defines { (here : Context) (rest : Program) (w : World) → StandsFor heap.old w → Defines here heap.old heap.new w (define object key (plain value) (λ succeeded. rest)) rest result }
    ensures named { (script : Tree) (l : Lists) → NamesDefined script l result }
    ensures retains { Retains heap.old heap.new }
{
    define(heap, object, key, Made::Plain, value, steps)?;
    Ok(None)
}

fn name_in_cell<L: Ledger>(
    heap: &mut Heap,
    script: &Checked,
    body: Running,
    cells: &Cells,
    place: Definition,
    name: TextId,
    cell: CellNo,
    key: PropKey,
    steps: &mut Steps<L>,
) -> Result<Option<Plan>, Stop>
    ensures defines { DefinesAt script.now body cells.now heap.old heap.new (λ here next. look (λ l. cell_value name (property_valued place.object key plain next) (cell_of l cell))) (λ here. definitions_from here place.node place.next place.object) result }
    ensures named { (l : Lists) → NamesDefined script.now l result }
    ensures retains { Retains heap.old heap.new }
{
    match heap.cell(cell) {
        None => Ok(Some(not_initialised(heap, script, body, cells, name, steps)?)),
        Some(value) => name_valued(heap, place.object, key, value, steps),
    }
}

/// The first look at a name of the global object.
fn look_up(heap: &Heap, place: Definition, name: TextId, key: PropKey) -> Plan
    ensures plans { (here : Context) (w : World) → StandsFor heap.now w → Plans here here heap.now heap.now w (stage_of (resolve_bound here name binding_of.Global (λ r. get_value here r (property_valued place.object key plain (definitions_from here place.node place.next place.object)))) w) (Ok result) }
    ensures named { (script : Tree) (v : World) → StandsFor heap.now v → IsObject v.lists place.object → IsKnownKey v.lists key → IsText v.lists name → NamesPlan script v.lists (Ok result) }
{
    let looked = key_of(heap, name);
    let request = Request::Has {
        object: Intrinsic::Global.object(),
        key: looked,
    };
    let reading = Reading::Shorthand {
        node: place.node,
        next: place.next,
        object: place.object,
        key,
    };
    let asked = FlagAsked::ReadLooked {
        name,
        key: looked,
        reading,
    };
    Plan::Ask(request, Asked::Flag(asked))
}

/// The value of a binding becomes that of the property.
fn name_bound<L: Ledger>(
    heap: &mut Heap,
    script: &Checked,
    body: Running,
    cells: &Cells,
    place: Definition,
    name: TextId,
    binding: Binding,
    key: PropKey,
    steps: &mut Steps<L>,
) -> Result<Option<Plan>, Stop>
    ensures defines { DefinesAt script.now body cells.now heap.old heap.new (λ here next. resolve_bound here name binding (λ r. get_value here r (property_valued place.object key plain next))) (λ here. definitions_from here place.node place.next place.object) result }
    ensures named { (w v : World) → StandsFor heap.old w → StandsFor heap.new v → IsObject v.lists place.object → IsKnownKey v.lists key → IsText v.lists name → NamesDefined script.now v.lists result }
    ensures retains { Retains heap.old heap.new }
{
    match binding {
        Binding::Global => Ok(Some(look_up(heap, place, name, key))),
        Binding::Top { cell, .. } => {
            let cell = CellNo(cell);
            name_in_cell(heap, script, body, cells, place, name, cell, key, steps)
        }
        Binding::Own { place: own, .. } => {
            let cell = cells.at(own);
            name_in_cell(heap, script, body, cells, place, name, cell, key, steps)
        }
        Binding::Arguments => {
            let value = object_or_undefined(body.arguments);
            name_valued(heap, place.object, key, value, steps)
        }
        Binding::Callee => {
            let value = object_or_undefined(body.callee);
            name_valued(heap, place.object, key, value, steps)
        }
    }
}

/// A name alone: its text is the key, and then its value is got.
fn shorthand<L: Ledger>(
    heap: &mut Heap,
    script: &Checked,
    body: Running,
    cells: &Cells,
    place: Definition,
    named: &Named,
    steps: &mut Steps<L>,
) -> Result<Option<Plan>, Stop>
    ensures defines { DefinesAt script.now body cells.now heap.old heap.new (λ here. property_then here place.object (property_of.Shorthand named.now)) (λ here. definitions_from here place.node place.next place.object) result }
    ensures named { (w v : World) → StandsFor heap.old w → StandsFor heap.new v → IsObject v.lists place.object → NamesDefined script.now v.lists result }
    ensures retains { Retains heap.old heap.new }
{
    let text = intern(heap, &named.name)?;
    let key = key_of(heap, text);
    // The binding is resolved by the name, which is a text once more.
    let name = intern(heap, &named.name)?;
    name_bound(
        heap,
        script,
        body,
        cells,
        place,
        name,
        named.binding,
        key,
        steps,
    )
}

// ---- one definition after another

/// A definition that is not done: what it does next.
fn not_done(going: Result<Plan, Stop>) -> Result<Option<Plan>, Stop>
    ensures defines { (here : Context) (a b : HeapView) (w : World) (p rest : Program) → Plans here here a b w (stage_of p w) going → Defines here a b w p rest result }
    ensures named { (script : Tree) (l : Lists) → NamesPlan script l going → NamesDefined script l result }
{
    match going {
        Ok(next) => Ok(Some(next)),
        Err(stop) => Err(stop),
    }
}

/// `__proto__: v` (13.2.5.5, step 7): its value is evaluated.
fn prototype(place: Definition, value: NodeId) -> Plan
    ensures { result ≡ plan.Wait (job.Node None value) (item_of.Literal (literal.ProtoValued place.node place.next place.object)) }
{
    let item = LiteralItem::ProtoValued {
        node: place.node,
        next: place.next,
        object: place.object,
    };
    let part = Job::Node {
        name: None,
        node: value,
    };
    Plan::Wait(part, Item::Literal(item))
}

/// A property definition (13.2.5.5): what it does next, or nothing where it is done.
fn property_then<L: Ledger>(
    heap: &mut Heap,
    script: &Checked,
    body: Running,
    cells: &Cells,
    place: Definition,
    property: &Property,
    steps: &mut Steps<L>,
) -> Result<Option<Plan>, Stop>
    requires { StandsAt script.now place.node place.at place.next property.now }
    ensures defines { DefinesAt script.now body cells.now heap.old heap.new (λ here. property_then here place.object property.now) (λ here. definitions_from here place.node place.next place.object) result }
    ensures named { (w v : World) → StandsFor heap.old w → StandsFor heap.new v → IsObject v.lists place.object → NamesDefined script.now v.lists result }
    ensures retains { Retains heap.old heap.new }
{
    match property {
        Property::Value { key, .. } => not_done(property_key(
            heap, script, body, cells, place, property, key, steps,
        )),
        Property::Shorthand(named) => shorthand(heap, script, body, cells, place, named, steps),
        Property::Prototype(value) => Ok(Some(prototype(place, *value))),
        Property::Method { key, .. } => not_done(property_key(
            heap, script, body, cells, place, property, key, steps,
        )),
        Property::Getter { key, .. } => not_done(property_key(
            heap, script, body, cells, place, property, key, steps,
        )),
        Property::Setter { key, .. } => not_done(property_key(
            heap, script, body, cells, place, property, key, steps,
        )),
    }
}

/// The property definitions of an object literal from a number on.
#[tactic(auto, using(object_heap::specs::Stands::goes_none, object_heap::specs::Stands::goes_then, object_heap::specs::Stands::halts_at, object_heap::proofs::Retaining::retains_none, object_heap::proofs::Retaining::retains_then, crate::proofs::PlansNamed::keeps_wait, crate::proofs::PlansNamed::keeps_enter, crate::proofs::PlansNamed::keeps_ask, crate::proofs::PlansNamed::keeps_last, crate::proofs::PlansNamed::keeps_end, crate::proofs::PlansNamed::keeps_stop, crate::proofs::PlansNamed::defines_plan, crate::proofs::PlansNamed::defines_none, crate::proofs::PlansNamed::defines_stop, crate::proofs::Defining::defined_on, crate::proofs::Defining::defined_plan, crate::proofs::Defining::defined_stops, crate::proofs::Defining::defined_ends))]
pub(crate) fn properties_from<L: Ledger>(
    heap: &mut Heap,
    script: &Checked,
    body: Running,
    cells: &Cells,
    node: NodeId,
    first: usize,
    object: ObjectId,
    steps: &mut Steps<L>,
) -> Result<Plan, Stop>
    ensures plans { PlansAt script.now body cells.now heap.old heap.new (λ here. definitions_from here node first object) result }
    ensures named { (w v : World) → StandsFor heap.old w → StandsFor heap.new v → IsObject v.lists object → NamesPlan script.now v.lists result }
    ensures retains { Retains heap.old heap.new }
{
    let count = property_count(script, node);
    let mut next = first;
    'definitions: while next < count {
        let Some(property) = property_at(script, node, next) else {
            return Ok(whole(object));
        };
        let place = Definition {
            node,
            at: next,
            next: next + 1,
            object,
        };
        if let Some(going) = property_then(heap, script, body, cells, place, property, steps)? {
            return Ok(going);
        }
        next += 1;
    }
    Ok(whole(object))
}

/// The value of a property definition is there, and the definitions from a number on come then.
pub(crate) fn property_valued<L: Ledger>(
    heap: &mut Heap,
    script: &Checked,
    body: Running,
    cells: &Cells,
    node: NodeId,
    next: usize,
    object: ObjectId,
    key: PropKey,
    made: Made,
    value: Value,
    steps: &mut Steps<L>,
) -> Result<Plan, Stop>
    ensures plans { PlansAt script.now body cells.now heap.old heap.new (λ here. literal_valued here (literal.PropertyValued node next object key made) value) result }
    ensures named { (w v : World) → StandsFor heap.old w → StandsFor heap.new v → IsObject v.lists object → NamesPlan script.now v.lists result }
    ensures retains { Retains heap.old heap.new }
{
    define(heap, object, key, made, value, steps)?;
    properties_from(heap, script, body, cells, node, next, object, steps)
}

/// `__proto__: v` (13.2.5.5, step 7).
fn proto_valued<L: Ledger>(
    heap: &mut Heap,
    script: &Checked,
    body: Running,
    cells: &Cells,
    node: NodeId,
    next: usize,
    object: ObjectId,
    value: Value,
    steps: &mut Steps<L>,
) -> Result<Plan, Stop>
    ensures plans { PlansAt script.now body cells.now heap.old heap.new (λ here. literal_valued here (literal.ProtoValued node next object) value) result }
    ensures named { (w v : World) → StandsFor heap.old w → StandsFor heap.new v → IsObject v.lists object → NamesPlan script.now v.lists result }
    ensures retains { Retains heap.old heap.new }
{
    let proto = match value {
        Value::Object(proto) => Some(proto),
        Value::Null => None,
        Value::Undefined | Value::Bool(_) | Value::Whole(_) | Value::Text(_) | Value::Symbol(_) => {
            return properties_from(heap, script, body, cells, node, next, object, steps);
        }
    };
    let request = Request::SetProto { object, proto };
    let asked = Asked::Flag(FlagAsked::ProtoAnswered { node, next, object });
    Ok(Plan::Ask(request, asked))
}

/// An object literal goes on with the value of a part of it.
pub(crate) fn literal_valued<L: Ledger>(
    heap: &mut Heap,
    script: &Checked,
    body: Running,
    cells: &Cells,
    item: LiteralItem,
    value: Value,
    steps: &mut Steps<L>,
) -> Result<Plan, Stop>
    ensures plans { PlansAt script.now body cells.now heap.old heap.new (λ here. literal_valued here item value) result }
    ensures named { (w v : World) → StandsFor heap.old w → StandsFor heap.new v → HasNames script.now v.lists (names_of_literal item) → NamesPlan script.now v.lists result }
    ensures retains { Retains heap.old heap.new }
{
    match item {
        LiteralItem::PropertyValued {
            node,
            next,
            object,
            key,
            made,
        } => property_valued(
            heap, script, body, cells, node, next, object, key, made, value, steps,
        ),
        LiteralItem::KeyValued { node, at, object } => convert(
            heap,
            script,
            body,
            cells,
            Operation::ToKey,
            value,
            Asked::Key(KeyAsked::PropertyKey { node, at, object }),
            steps,
        ),
        LiteralItem::ProtoValued { node, next, object } => proto_valued(
            heap, script, body, cells, node, next, object, value, steps,
        ),
        LiteralItem::ElementValued { node, at, array } => element_valued(
            heap, script, body, cells, node, at, array, value, steps,
        ),
    }
}
