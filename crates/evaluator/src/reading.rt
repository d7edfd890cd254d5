//! GetValue (ECMA-262, 6.2.5.5), and what is done with the value.

ghost use Rattle.property_keys.specs.declared.keys.PropKey.TheVariants.{Index};
ghost use Rattle.std.specs.Prelude.{◌≡◌, None};
ghost use Rattle.evaluator.specs.declared.items.Item.TheVariants as item_of;
ghost use Rattle.evaluator.specs.declared.items.Job.TheVariants as job;
ghost use Rattle.evaluator.specs.declared.items.OperatorItem.TheVariants as operator_item;
ghost use Rattle.evaluator.specs.declared.items.Plan.TheVariants as plan;
ghost use Rattle.evaluator.specs.Plans.{PlansAt, reading_program, reading_valued};
ghost use Rattle.evaluator.specs.References.{get_above, get_in_text, get_named, get_of, get_unit, get_value, got_again};
ghost use Rattle.object_heap.specs.Retains.{Retains};
ghost use Rattle.es_model.specs.World.{Lists, World};
ghost use Rattle.object_heap.specs.Stands.{StandsFor};
ghost use Rattle.es_model.specs.Sound.{IsSound};
ghost use Rattle.es_model.specs.Known.{IsKnown};
ghost use Rattle.es_tree.specs.Tree.{IsSite};
ghost use Rattle.es_model.specs.Belongs.{HasNames};
ghost use Rattle.evaluator.specs.Names.{NamesPlan, names_of_reading, names_of_reference};

use crate::calls::arguments_from;
use crate::cells::Cells;
use crate::definitions::property_valued;
use crate::items::{
    Asked, Ending, FlagAsked, Item, Job, Made, OperatorItem, Plan, Reading, ValueAsked,
};
use crate::messages::{not_an_object, not_defined, not_initialised};
use crate::operators::typeof_value;
use crate::references::{Arithmetic, Invocation, Reference};
use crate::texts::{text_len, text_unit, unit_text};
use crate::unary_arithmetic::update_value;
use es_model::{Class, Intrinsic, Request, Running, StartText, Stop, Values};
use es_tree::{Checked, NodeId, SiteId};
use object_heap::Heap;
use property_keys::{Ledger, PropKey, Steps, TextId, Value};

/// The right operand of a compound assignment is evaluated.
fn wait_for_right(operator: Arithmetic, right: NodeId, reference: Reference, left: Value) -> Plan
    ensures { result ≡ plan.Wait (job.Node None right) (item_of.Operator (operator_item.CompoundValued operator reference left)) }
{
    let item = OperatorItem::CompoundValued {
        operator,
        reference,
        left,
    };
    let part = Job::Node {
        name: None,
        node: right,
    };
    Plan::Wait(part, Item::Operator(item))
}

/// What is done with a value that was got from a reference.
pub(crate) fn reading_valued<L: Ledger>(
    heap: &mut Heap,
    script: &Checked,
    body: Running,
    cells: &Cells,
    reading: Reading,
    value: Value,
    steps: &mut Steps<L>,
) -> Result<Plan, Stop>
    ensures plans { PlansAt script.now body cells.now heap.old heap.new (λ here. reading_valued here reading value) result }
    ensures named { (w v : World) → StandsFor heap.old w → StandsFor heap.new v → HasNames script.now v.lists (names_of_reading reading) → IsKnown v.lists value → NamesPlan script.now v.lists result }
    ensures retains { Retains heap.old heap.new }
{
    match reading {
        Reading::Give => Ok(Plan::Ends(Ending::Gives(value))),
        Reading::Callee { node, this } => {
            let function = value;
            let invocation = Invocation::Call { function, this };
            let given = Values::new(heap.alloc());
            arguments_from(heap, script, body, cells, node, 0, invocation, given, steps)
        }
        Reading::Typeof => typeof_value(heap, script, body, cells, value, steps),
        Reading::Compound {
            operator,
            value: right,
            reference,
        } => Ok(wait_for_right(operator, right, reference, value)),
        Reading::Update {
            increment,
            prefix,
            reference,
        } => update_value(
            heap, script, body, cells, increment, prefix, reference, value, steps,
        ),
        Reading::Shorthand {
            node,
            next,
            object,
            key,
        } => {
            let made = Made::Plain;
            property_valued(
                heap, script, body, cells, node, next, object, key, made, value, steps,
            )
        }
    }
}

/// A primitive value's property that is none of its own: the prototype of its class has it, which is one link.
fn get_above<L: Ledger>(
    heap: &mut Heap,
    script: &Checked,
    body: Running,
    cells: &Cells,
    class: Class,
    base: Value,
    key: PropKey,
    site: Option<SiteId>,
    reading: Reading,
    steps: &mut Steps<L>,
) -> Result<Plan, Stop>
    ensures plans { PlansAt script.now body cells.now heap.old heap.new (λ here. get_above class base key site (reading_program here reading)) result }
    ensures named { (l : Lists) → HasNames script.now l (names_of_reading reading) → IsSite script.now site → NamesPlan script.now l result }
    ensures retains { Retains heap.old heap.new }
{
    heap.charge(1)?;
    let request = Request::Read {
        object: Intrinsic::Prototype(class).object(),
        key,
        receiver: base,
        site,
    };
    Ok(Plan::Ask(request, Asked::Value(ValueAsked::Read(reading))))
}

#[tactic(auto, using(object_heap::specs::Stands::goes_none, object_heap::specs::Stands::goes_then, object_heap::specs::Stands::halts_at, object_heap::proofs::Retaining::retains_none, object_heap::proofs::Retaining::retains_then, crate::proofs::PlansNamed::keeps_wait, crate::proofs::PlansNamed::keeps_enter, crate::proofs::PlansNamed::keeps_ask, crate::proofs::PlansNamed::keeps_last, crate::proofs::PlansNamed::keeps_end, crate::proofs::PlansNamed::keeps_stop, crate::proofs::PlansNamed::defines_plan, crate::proofs::PlansNamed::defines_none, crate::proofs::PlansNamed::defines_stop, crate::proofs::Planned::plans_then))]
fn get_unit<L: Ledger>(
    heap: &mut Heap,
    script: &Checked,
    body: Running,
    cells: &Cells,
    text: TextId,
    index: u32,
    site: Option<SiteId>,
    reading: Reading,
    unit: Option<u16>,
    steps: &mut Steps<L>,
) -> Result<Plan, Stop>
    ensures plans { PlansAt script.now body cells.now heap.old heap.new (λ here. get_unit text (Index index) site (reading_program here reading) unit) result }
    ensures named { (w v : World) → StandsFor heap.old w → StandsFor heap.new v → HasNames script.now v.lists (names_of_reading reading) → IsSite script.now site → NamesPlan script.now v.lists result }
    ensures retains { Retains heap.old heap.new }
{
    match unit {
        None => get_above(
            heap,
            script,
            body,
            cells,
            Class::String,
            Value::Text(text),
            PropKey::Index(index),
            site,
            reading,
            steps,
        ),
        Some(unit) => {
            let one = unit_text(heap, unit)?;
            reading_valued(heap, script, body, cells, reading, Value::Text(one), steps)
        }
    }
}

fn get_named<L: Ledger>(
    heap: &mut Heap,
    script: &Checked,
    body: Running,
    cells: &Cells,
    text: TextId,
    name: TextId,
    site: Option<SiteId>,
    reading: Reading,
    steps: &mut Steps<L>,
) -> Result<Plan, Stop>
    ensures plans { PlansAt script.now body cells.now heap.old heap.new (λ here. get_named text name site (reading_program here reading)) result }
    ensures named { (w v : World) → StandsFor heap.old w → StandsFor heap.new v → HasNames script.now v.lists (names_of_reading reading) → IsSite script.now site → NamesPlan script.now v.lists result }
    ensures retains { Retains heap.old heap.new }
{
    if name == StartText::Length.number() {
        let length = text_len(heap, text) as i64;
        reading_valued(
            heap,
            script,
            body,
            cells,
            reading,
            Value::Whole(length),
            steps,
        )
    } else {
        get_above(
            heap,
            script,
            body,
            cells,
            Class::String,
            Value::Text(text),
            PropKey::Name(name),
            site,
            reading,
            steps,
        )
    }
}

/// The own properties of a text as a String object has them (10.4.3), and then those of the prototype.
fn get_in_text<L: Ledger>(
    heap: &mut Heap,
    script: &Checked,
    body: Running,
    cells: &Cells,
    text: TextId,
    key: PropKey,
    site: Option<SiteId>,
    reading: Reading,
    steps: &mut Steps<L>,
) -> Result<Plan, Stop>
    ensures plans { PlansAt script.now body cells.now heap.old heap.new (λ here. get_in_text text key site (reading_program here reading)) result }
    ensures named { (w v : World) → StandsFor heap.old w → StandsFor heap.new v → HasNames script.now v.lists (names_of_reading reading) → IsSite script.now site → NamesPlan script.now v.lists result }
    ensures retains { Retains heap.old heap.new }
{
    match key {
        PropKey::Index(index) => {
            let unit = text_unit(heap, text, index);
            get_unit(
                heap, script, body, cells, text, index, site, reading, unit, steps,
            )
        }
        PropKey::Name(name) => get_named(
            heap, script, body, cells, text, name, site, reading, steps,
        ),
        PropKey::Sym(symbol) => get_above(
            heap,
            script,
            body,
            cells,
            Class::String,
            Value::Text(text),
            PropKey::Sym(symbol),
            site,
            reading,
            steps,
        ),
    }
}

fn get_of<L: Ledger>(
    heap: &mut Heap,
    script: &Checked,
    body: Running,
    cells: &Cells,
    base: Value,
    key: PropKey,
    site: Option<SiteId>,
    reading: Reading,
    steps: &mut Steps<L>,
) -> Result<Plan, Stop>
    ensures plans { PlansAt script.now body cells.now heap.old heap.new (λ here. get_of base key site (reading_program here reading)) result }
    ensures named { (w v : World) → StandsFor heap.old w → StandsFor heap.new v → HasNames script.now v.lists (names_of_reading reading) → IsSite script.now site → NamesPlan script.now v.lists result }
    ensures retains { Retains heap.old heap.new }
{
    match base {
        Value::Undefined | Value::Null => not_an_object(heap, script, body, cells, steps),
        Value::Bool(b) => get_above(
            heap,
            script,
            body,
            cells,
            Class::Boolean,
            Value::Bool(b),
            key,
            site,
            reading,
            steps,
        ),
        Value::Whole(_) => get_above(
            heap,
            script,
            body,
            cells,
            Class::Number,
            base,
            key,
            site,
            reading,
            steps,
        ),
        Value::Text(text) => get_in_text(
            heap, script, body, cells, text, key, site, reading, steps,
        ),
        Value::Symbol(symbol) => get_above(
            heap,
            script,
            body,
            cells,
            Class::Symbol,
            Value::Symbol(symbol),
            key,
            site,
            reading,
            steps,
        ),
        Value::Object(object) => {
            let request = Request::Read {
                object,
                key,
                receiver: base,
                site,
            };
            Ok(Plan::Ask(request, Asked::Value(ValueAsked::Read(reading))))
        }
    }
}

/// The second look at a name of the global object has been answered (9.1.1.2.6).
pub(crate) fn got_again<L: Ledger>(
    heap: &mut Heap,
    script: &Checked,
    body: Running,
    cells: &Cells,
    name: TextId,
    key: PropKey,
    reading: Reading,
    present: bool,
    steps: &mut Steps<L>,
) -> Result<Plan, Stop>
    ensures plans { PlansAt script.now body cells.now heap.old heap.new (λ here. got_again here name key (reading_program here reading) present) result }
    ensures named { (w v : World) → StandsFor heap.old w → StandsFor heap.new v → HasNames script.now v.lists (names_of_reading reading) → NamesPlan script.now v.lists result }
    ensures retains { Retains heap.old heap.new }
{
    if present {
        let global = Intrinsic::Global.object();
        let request = Request::Read {
            object: global,
            key,
            receiver: Value::Object(global),
            site: None,
        };
        return Ok(Plan::Ask(request, Asked::Value(ValueAsked::Read(reading))));
    }
    if body.strict {
        not_defined(heap, script, body, cells, name, steps)
    } else {
        reading_valued(heap, script, body, cells, reading, Value::Undefined, steps)
    }
}

pub(crate) fn get_value<L: Ledger>(
    heap: &mut Heap,
    script: &Checked,
    body: Running,
    cells: &Cells,
    reference: Reference,
    reading: Reading,
    steps: &mut Steps<L>,
) -> Result<Plan, Stop>
    ensures plans { PlansAt script.now body cells.now heap.old heap.new (λ here. get_value here reference (reading_program here reading)) result }
    ensures named { (w v : World) → StandsFor heap.old w → IsSound w → StandsFor heap.new v → HasNames script.now v.lists (names_of_reference reference) → HasNames script.now v.lists (names_of_reading reading) → NamesPlan script.now v.lists result }
    ensures retains { Retains heap.old heap.new }
{
    match reference {
        Reference::Cell { name, cell, .. } => match heap.cell(cell) {
            None => not_initialised(heap, script, body, cells, name, steps),
            Some(value) => reading_valued(heap, script, body, cells, reading, value, steps),
        },
        Reference::Global { name, key, present } => {
            if present {
                let request = Request::Has {
                    object: Intrinsic::Global.object(),
                    key,
                };
                let next = FlagAsked::LookedAgain { name, key, reading };
                Ok(Plan::Ask(request, Asked::Flag(next)))
            } else {
                not_defined(heap, script, body, cells, name, steps)
            }
        }
        Reference::Arguments { value } => reading_valued(
            heap, script, body, cells, reading, value, steps,
        ),
        Reference::Callee { value, .. } => reading_valued(
            heap, script, body, cells, reading, value, steps,
        ),
        Reference::Property {
            base,
            key,
            read,
            ..
        } => get_of(heap, script, body, cells, base, key, read, reading, steps),
    }
}
