//! Primary expressions (ECMA-262, 13.2).

ghost use Rattle.property_keys.specs.declared.values.Value.TheVariants as values;
ghost use Rattle.evaluator.specs.Contexts.{gives};
ghost use Rattle.evaluator.specs.Errors.{make_text};
ghost use Rattle.std.specs.Prelude.{◌≡◌, ◌<◌, Some, length, slice_get};
ghost use Rattle.es_tree.specs.Tree.{NamesParts};
ghost use Rattle.es_tree.specs.declared.node.Node.TheVariants as node_of;
ghost use Rattle.evaluator.specs.Contexts.{context};
ghost use Rattle.evaluator.specs.Literals.{object_literal, primary_program};
ghost use Rattle.evaluator.specs.Plans.{PlansAt, PlansOf};
ghost use Rattle.evaluator.specs.Values.{or_out, whole_of};
ghost use Rattle.object_heap.specs.Retains.{Retains};
ghost use Rattle.es_model.specs.World.{Lists, World};
ghost use Rattle.object_heap.specs.Stands.{StandsFor};
ghost use Rattle.es_model.specs.Sound.{IsSound};
ghost use Rattle.es_model.specs.Kept.{IsKnownRunning};
ghost use Rattle.evaluator.specs.Names.{NamesPlan};

use crate::accesses::resolve;
use crate::cells::Cells;
use crate::definitions::properties_from;
use crate::elements::array_literal;
use crate::functions::make_function;
use crate::items::{Ending, Plan, Purpose};
use crate::messages::out_of_profile;
use crate::texts::intern;
use crate::values::whole_of;
use es_model::{Class, FunctionName, Intrinsic, ObjectKind, Running, Stop};
use es_tree::{Checked, LiteralNo, NodeId, Primary};
use object_heap::{Heap, literal_places};
use property_keys::{Ledger, Steps, Units, Value};
use slack_tracking::OriginKind;

pub(crate) fn number<L: Ledger>(
    heap: &mut Heap,
    script: &Checked,
    body: Running,
    cells: &Cells,
    n: i64,
    steps: &mut Steps<L>,
) -> Result<Plan, Stop>
    ensures plans { PlansAt script.now body cells.now heap.old heap.new (λ here. or_out (whole_of n) (λ m. gives (values.Whole m))) result }
    ensures named { (l : Lists) → NamesPlan script.now l result }
    ensures retains { Retains heap.old heap.new }
{
    match whole_of(n) {
        None => out_of_profile(heap, script, body, cells, steps),
        Some(m) => Ok(Plan::Ends(Ending::Gives(Value::Whole(m)))),
    }
}

pub(crate) fn text<L: Ledger>(
    heap: &mut Heap,
    script: &Checked,
    body: Running,
    cells: &Cells,
    units: &Units,
    steps: &mut Steps<L>,
) -> Result<Plan, Stop>
    ensures plans { PlansAt script.now body cells.now heap.old heap.new (λ here. make_text units.now (λ t. gives (values.Text t))) result }
    ensures named { (l : Lists) → NamesPlan script.now l result }
    ensures retains { Retains heap.old heap.new }
{
    let text = intern(heap, units)?;
    Ok(Plan::Ends(Ending::Gives(Value::Text(text))))
}

/// A new object, whose origin is the literal at its place, and its property definitions.
fn object_literal<L: Ledger>(
    heap: &mut Heap,
    script: &Checked,
    body: Running,
    cells: &Cells,
    node: NodeId,
    literal: LiteralNo,
    steps: &mut Steps<L>,
) -> Result<Plan, Stop>
    requires { literal.0 < length script.now.literals }
    ensures plans { PlansOf (context script.now body cells.now) (context script.now body cells.now) heap.old heap.new (λ here. object_literal here node literal) result }
    ensures named { (w v : World) → w.script ≡ script.now → StandsFor heap.old w → StandsFor heap.new v → NamesPlan script.now v.lists result }
    ensures retains { Retains heap.old heap.new }
{
    let facts = *script.literal(literal);
    let places = literal_places(facts.definitions);
    let origin = heap.origin_for(OriginKind::Literal(facts.place), places)?;
    let proto = Intrinsic::Prototype(Class::Object).object();
    let object = heap.make(ObjectKind::Ordinary, origin, Some(proto), steps)?;
    properties_from(heap, script, body, cells, node, 0, object, steps)
}

/// A primary expression, after its turn.
pub(crate) fn primary_plan<L: Ledger>(
    heap: &mut Heap,
    script: &Checked,
    body: Running,
    cells: &Cells,
    name: Option<FunctionName>,
    node: NodeId,
    primary: &Primary,
    steps: &mut Steps<L>,
) -> Result<Plan, Stop>
    requires parts { NamesParts script.now primary.now }
    requires at { slice_get script.now.nodes node.0 ≡ Some (node_of.Primary primary.now) }
    ensures plans { PlansOf (context script.now body cells.now) (context script.now body cells.now) heap.old heap.new (λ here. primary_program here name node primary.now) result }
    ensures named { (w v : World) → w.script ≡ script.now → StandsFor heap.old w → IsSound w → StandsFor heap.new v → IsKnownRunning script.now v.lists body → NamesPlan script.now v.lists result }
    ensures retains { Retains heap.old heap.new }
{
    match primary {
        Primary::This => Ok(Plan::Ends(Ending::Gives(body.this))),
        Primary::Name(named) => resolve(heap, script, body, cells, named, Purpose::Read, steps),
        Primary::Number(n) => number(heap, script, body, cells, *n, steps),
        Primary::Text(units) => text(heap, script, body, cells, units, steps),
        Primary::Null => Ok(Plan::Ends(Ending::Gives(Value::Null))),
        Primary::Bool(b) => Ok(Plan::Ends(Ending::Gives(Value::Bool(*b)))),
        Primary::Object { literal, .. } => object_literal(
            heap, script, body, cells, node, *literal, steps,
        ),
        Primary::Function(function) | Primary::Method(function) => make_function(
            heap, script, body, cells, name, *function, steps,
        ),
        Primary::Array(_) => array_literal(heap, script, body, cells, node, steps),
    }
}
