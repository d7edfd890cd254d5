//! The errors that evaluation throws.

ghost use Rattle.std.specs.Prelude.{◌≤◌, length};
ghost use Rattle.es_model.specs.programs.Errors.{not_a_constructor, throw_error};
ghost use Rattle.evaluator.specs.Errors.{is_constant, not_an_object, not_defined, not_initialised, out_of_profile, refused, text_too_long, throw_joined, throw_named};
ghost use Rattle.evaluator.specs.Plans.{PlansAt};
ghost use Rattle.object_heap.specs.Retains.{Retains};
ghost use Rattle.es_model.specs.World.{Lists};
ghost use Rattle.evaluator.specs.Names.{NamesPlan};

use crate::cells::Cells;
use crate::items::{Ending, Plan};
use crate::texts::{join, units_of};
use es_model::{ErrorKind, Running, Stop};
use es_tree::Checked;
use object_heap::Heap;
use property_keys::{Ledger, Steps, TextId, Value};

fn throw_text<L: Ledger>(
    heap: &mut Heap,
    script: &Checked,
    body: Running,
    cells: &Cells,
    kind: ErrorKind,
    message: &[u8],
    steps: &mut Steps<L>,
) -> Result<Plan, Stop>
    requires { length message.now ≤ 100 }
    ensures plans { PlansAt script.now body cells.now heap.old heap.new (λ here. throw_error kind message.now) result }
    ensures named { (l : Lists) → NamesPlan script.now l result }
    ensures retains { Retains heap.old heap.new }
{
    let units = units_of(heap.alloc(), message)?;
    let text = heap.intern(units)?;
    let error = heap.make_error(kind, text, steps)?;
    Ok(Plan::Ends(Ending::Throws(Value::Object(error))))
}

/// An error whose message is one text after another.
#[tactic(auto, using(object_heap::specs::Stands::goes_none, object_heap::specs::Stands::goes_then, object_heap::specs::Stands::halts_at, object_heap::proofs::Retaining::retains_none, object_heap::proofs::Retaining::retains_then, crate::proofs::PlansNamed::keeps_wait, crate::proofs::PlansNamed::keeps_enter, crate::proofs::PlansNamed::keeps_ask, crate::proofs::PlansNamed::keeps_last, crate::proofs::PlansNamed::keeps_end, crate::proofs::PlansNamed::keeps_stop, crate::proofs::PlansNamed::defines_plan, crate::proofs::PlansNamed::defines_none, crate::proofs::PlansNamed::defines_stop, crate::proofs::Planned::plans_then))]
fn throw_joined<L: Ledger>(
    heap: &mut Heap,
    script: &Checked,
    body: Running,
    cells: &Cells,
    kind: ErrorKind,
    first: TextId,
    second: TextId,
    steps: &mut Steps<L>,
) -> Result<Plan, Stop>
    ensures plans { PlansAt script.now body cells.now heap.old heap.new (λ here. throw_joined kind first second) result }
    ensures named { (l : Lists) → NamesPlan script.now l result }
    ensures retains { Retains heap.old heap.new }
{
    match join(heap, first, second)? {
        None => text_too_long(heap, script, body, cells, steps),
        Some(text) => {
            let error = heap.make_error(kind, text, steps)?;
            Ok(Plan::Ends(Ending::Throws(Value::Object(error))))
        }
    }
}

/// An error whose message is a name and an ending.
#[tactic(auto, using(object_heap::specs::Stands::goes_none, object_heap::specs::Stands::goes_then, object_heap::specs::Stands::halts_at, object_heap::proofs::Retaining::retains_none, object_heap::proofs::Retaining::retains_then, crate::proofs::PlansNamed::keeps_wait, crate::proofs::PlansNamed::keeps_enter, crate::proofs::PlansNamed::keeps_ask, crate::proofs::PlansNamed::keeps_last, crate::proofs::PlansNamed::keeps_end, crate::proofs::PlansNamed::keeps_stop, crate::proofs::PlansNamed::defines_plan, crate::proofs::PlansNamed::defines_none, crate::proofs::PlansNamed::defines_stop, crate::proofs::Planned::plans_then))]
fn throw_name<L: Ledger>(
    heap: &mut Heap,
    script: &Checked,
    body: Running,
    cells: &Cells,
    kind: ErrorKind,
    ending: &[u8],
    name: TextId,
    steps: &mut Steps<L>,
) -> Result<Plan, Stop>
    requires { length ending.now ≤ 100 }
    ensures plans { PlansAt script.now body cells.now heap.old heap.new (λ here. throw_named kind ending.now name) result }
    ensures named { (l : Lists) → NamesPlan script.now l result }
    ensures retains { Retains heap.old heap.new }
{
    let units = units_of(heap.alloc(), ending)?;
    let tail = heap.intern(units)?;
    throw_joined(heap, script, body, cells, kind, name, tail, steps)
}

pub(crate) fn out_of_profile<L: Ledger>(
    heap: &mut Heap,
    script: &Checked,
    body: Running,
    cells: &Cells,
    steps: &mut Steps<L>,
) -> Result<Plan, Stop>
    ensures plans { PlansAt script.now body cells.now heap.old heap.new (λ here. out_of_profile) result }
    ensures named { (l : Lists) → NamesPlan script.now l result }
    ensures retains { Retains heap.old heap.new }
{
    throw_text(
        heap,
        script,
        body,
        cells,
        ErrorKind::RangeError,
        b"number outside the profile",
        steps,
    )
}

pub(crate) fn text_too_long<L: Ledger>(
    heap: &mut Heap,
    script: &Checked,
    body: Running,
    cells: &Cells,
    steps: &mut Steps<L>,
) -> Result<Plan, Stop>
    ensures plans { PlansAt script.now body cells.now heap.old heap.new (λ here. text_too_long) result }
    ensures named { (l : Lists) → NamesPlan script.now l result }
    ensures retains { Retains heap.old heap.new }
{
    throw_text(
        heap,
        script,
        body,
        cells,
        ErrorKind::RangeError,
        b"text too long",
        steps,
    )
}

pub(crate) fn not_an_object<L: Ledger>(
    heap: &mut Heap,
    script: &Checked,
    body: Running,
    cells: &Cells,
    steps: &mut Steps<L>,
) -> Result<Plan, Stop>
    ensures plans { PlansAt script.now body cells.now heap.old heap.new (λ here. not_an_object) result }
    ensures named { (l : Lists) → NamesPlan script.now l result }
    ensures retains { Retains heap.old heap.new }
{
    throw_text(
        heap,
        script,
        body,
        cells,
        ErrorKind::TypeError,
        b"not an object",
        steps,
    )
}

pub(crate) fn refused<L: Ledger>(
    heap: &mut Heap,
    script: &Checked,
    body: Running,
    cells: &Cells,
    steps: &mut Steps<L>,
) -> Result<Plan, Stop>
    ensures plans { PlansAt script.now body cells.now heap.old heap.new (λ here. refused) result }
    ensures named { (l : Lists) → NamesPlan script.now l result }
    ensures retains { Retains heap.old heap.new }
{
    throw_text(
        heap,
        script,
        body,
        cells,
        ErrorKind::TypeError,
        b"refused",
        steps,
    )
}

pub(crate) fn not_a_constructor<L: Ledger>(
    heap: &mut Heap,
    script: &Checked,
    body: Running,
    cells: &Cells,
    steps: &mut Steps<L>,
) -> Result<Plan, Stop>
    ensures plans { PlansAt script.now body cells.now heap.old heap.new (λ here. not_a_constructor) result }
    ensures named { (l : Lists) → NamesPlan script.now l result }
    ensures retains { Retains heap.old heap.new }
{
    throw_text(
        heap,
        script,
        body,
        cells,
        ErrorKind::TypeError,
        b"not a constructor",
        steps,
    )
}

pub(crate) fn not_defined<L: Ledger>(
    heap: &mut Heap,
    script: &Checked,
    body: Running,
    cells: &Cells,
    name: TextId,
    steps: &mut Steps<L>,
) -> Result<Plan, Stop>
    ensures plans { PlansAt script.now body cells.now heap.old heap.new (λ here. not_defined name) result }
    ensures named { (l : Lists) → NamesPlan script.now l result }
    ensures retains { Retains heap.old heap.new }
{
    throw_name(
        heap,
        script,
        body,
        cells,
        ErrorKind::ReferenceError,
        b" is not defined",
        name,
        steps,
    )
}

pub(crate) fn not_initialised<L: Ledger>(
    heap: &mut Heap,
    script: &Checked,
    body: Running,
    cells: &Cells,
    name: TextId,
    steps: &mut Steps<L>,
) -> Result<Plan, Stop>
    ensures plans { PlansAt script.now body cells.now heap.old heap.new (λ here. not_initialised name) result }
    ensures named { (l : Lists) → NamesPlan script.now l result }
    ensures retains { Retains heap.old heap.new }
{
    throw_name(
        heap,
        script,
        body,
        cells,
        ErrorKind::ReferenceError,
        b" is not initialised",
        name,
        steps,
    )
}

pub(crate) fn is_constant<L: Ledger>(
    heap: &mut Heap,
    script: &Checked,
    body: Running,
    cells: &Cells,
    name: TextId,
    steps: &mut Steps<L>,
) -> Result<Plan, Stop>
    ensures plans { PlansAt script.now body cells.now heap.old heap.new (λ here. is_constant name) result }
    ensures named { (l : Lists) → NamesPlan script.now l result }
    ensures retains { Retains heap.old heap.new }
{
    throw_name(
        heap,
        script,
        body,
        cells,
        ErrorKind::TypeError,
        b" is constant",
        name,
        steps,
    )
}
