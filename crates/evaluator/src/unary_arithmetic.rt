//! Unary `+` and `-`, and the updates `++` and `--` (ECMA-262, 13.4, 13.5.4, 13.5.5).

ghost use Rattle.std.specs.Prelude.{◌≡◌, if◌then◌else◌};
ghost use Rattle.es_model.specs.programs.Converting.{to_number};
ghost use Rattle.evaluator.specs.Contexts.{given};
ghost use Rattle.evaluator.specs.Assignments.{update_converted, update_number};
ghost use Rattle.evaluator.specs.Operators.{minus_converted, negated};
ghost use Rattle.evaluator.specs.Plans.{PlansAt};
ghost use Rattle.property_keys.specs.declared.values.Value.TheVariants as values;
ghost use Rattle.object_heap.specs.Retains.{Retains};
ghost use Rattle.es_model.specs.World.{Lists};
ghost use Rattle.es_model.specs.Known.{IsKnown};
ghost use Rattle.es_model.specs.Belongs.{HasNames};
ghost use Rattle.evaluator.specs.Names.{NamesPlan, names_of_reference};

use crate::cells::Cells;
use crate::items::{Asked, Ending, Plan, Reading, ValueAsked};
use crate::messages::out_of_profile;
use crate::references::Reference;
use crate::requests::convert;
use crate::values::{negative_of, step};
use crate::writing::put_value;
use es_model::{Operation, Running, Stop};
use es_tree::Checked;
use object_heap::Heap;
use property_keys::{Ledger, Steps, Value};

fn number_negated<L: Ledger>(
    heap: &mut Heap,
    script: &Checked,
    body: Running,
    cells: &Cells,
    n: i64,
    steps: &mut Steps<L>,
) -> Result<Plan, Stop>
    ensures plans { PlansAt script.now body cells.now heap.old heap.new (λ here. negated (values.Whole n)) result }
    ensures named { (l : Lists) → NamesPlan script.now l result }
    ensures retains { Retains heap.old heap.new }
{
    match negative_of(n) {
        None => out_of_profile(heap, script, body, cells, steps),
        Some(m) => Ok(Plan::Ends(Ending::Gives(Value::Whole(m)))),
    }
}

/// The operand of unary `+` becomes a number (13.5.4).
pub(crate) fn plus_value<L: Ledger>(
    heap: &mut Heap,
    script: &Checked,
    body: Running,
    cells: &Cells,
    value: Value,
    steps: &mut Steps<L>,
) -> Result<Plan, Stop>
    ensures plans { PlansAt script.now body cells.now heap.old heap.new (λ here. to_number value given) result }
    ensures named { (l : Lists) → NamesPlan script.now l result }
    ensures retains { Retains heap.old heap.new }
{
    match value {
        Value::Whole(n) => Ok(Plan::Ends(Ending::Gives(Value::Whole(n)))),
        Value::Undefined
        | Value::Null
        | Value::Bool(_)
        | Value::Text(_)
        | Value::Symbol(_)
        | Value::Object(_) => {
            let next = ValueAsked::Read(Reading::Give);
            convert(
                heap,
                script,
                body,
                cells,
                Operation::ToWhole,
                value,
                Asked::Value(next),
                steps,
            )
        }
    }
}

/// The operand of unary `-` becomes a number (13.5.5).
pub(crate) fn minus_value<L: Ledger>(
    heap: &mut Heap,
    script: &Checked,
    body: Running,
    cells: &Cells,
    value: Value,
    steps: &mut Steps<L>,
) -> Result<Plan, Stop>
    ensures plans { PlansAt script.now body cells.now heap.old heap.new (λ here. to_number value minus_converted) result }
    ensures named { (l : Lists) → NamesPlan script.now l result }
    ensures retains { Retains heap.old heap.new }
{
    match value {
        Value::Whole(n) => number_negated(heap, script, body, cells, n, steps),
        Value::Undefined
        | Value::Null
        | Value::Bool(_)
        | Value::Text(_)
        | Value::Symbol(_)
        | Value::Object(_) => {
            let next = ValueAsked::MinusConverted;
            convert(
                heap,
                script,
                body,
                cells,
                Operation::ToWhole,
                value,
                Asked::Value(next),
                steps,
            )
        }
    }
}

/// The negative of a number.
pub(crate) fn negated<L: Ledger>(
    heap: &mut Heap,
    script: &Checked,
    body: Running,
    cells: &Cells,
    value: Value,
    steps: &mut Steps<L>,
) -> Result<Plan, Stop>
    ensures plans { PlansAt script.now body cells.now heap.old heap.new (λ here. negated value) result }
    ensures named { (l : Lists) → NamesPlan script.now l result }
    ensures retains { Retains heap.old heap.new }
{
    match value {
        Value::Whole(n) => number_negated(heap, script, body, cells, n, steps),
        Value::Undefined
        | Value::Null
        | Value::Bool(_)
        | Value::Text(_)
        | Value::Symbol(_)
        | Value::Object(_) => Ok(Plan::Ends(Ending::Throws(Value::Undefined))),
    }
}

/// What an update gives: the number after it where the operator stands before the operand.
fn given_of(prefix: bool, after: i64, before: i64) -> i64
    ensures { result ≡ if prefix then after else before }
{
    if prefix { after } else { before }
}

fn number_updated<L: Ledger>(
    heap: &mut Heap,
    script: &Checked,
    body: Running,
    cells: &Cells,
    increment: bool,
    prefix: bool,
    reference: Reference,
    n: i64,
    steps: &mut Steps<L>,
) -> Result<Plan, Stop>
    ensures plans { PlansAt script.now body cells.now heap.old heap.new (λ here. update_number here increment prefix reference (values.Whole n)) result }
    ensures named { (l : Lists) → HasNames script.now l (names_of_reference reference) → IsKnown l (values.Whole n) → NamesPlan script.now l result }
    ensures retains { Retains heap.old heap.new }
{
    match step(increment, n) {
        None => out_of_profile(heap, script, body, cells, steps),
        Some(m) => {
            let given = given_of(prefix, m, n);
            put_value(
                heap,
                script,
                body,
                cells,
                reference,
                Value::Whole(m),
                Value::Whole(given),
                steps,
            )
        }
    }
}

/// The number that an update reads.
pub(crate) fn update_number<L: Ledger>(
    heap: &mut Heap,
    script: &Checked,
    body: Running,
    cells: &Cells,
    increment: bool,
    prefix: bool,
    reference: Reference,
    value: Value,
    steps: &mut Steps<L>,
) -> Result<Plan, Stop>
    ensures plans { PlansAt script.now body cells.now heap.old heap.new (λ here. update_number here increment prefix reference value) result }
    ensures named { (l : Lists) → HasNames script.now l (names_of_reference reference) → IsKnown l value → NamesPlan script.now l result }
    ensures retains { Retains heap.old heap.new }
{
    match value {
        Value::Whole(n) => number_updated(
            heap, script, body, cells, increment, prefix, reference, n, steps,
        ),
        Value::Undefined
        | Value::Null
        | Value::Bool(_)
        | Value::Text(_)
        | Value::Symbol(_)
        | Value::Object(_) => Ok(Plan::Ends(Ending::Throws(Value::Undefined))),
    }
}

/// The value that an update reads becomes a number (13.4).
pub(crate) fn update_value<L: Ledger>(
    heap: &mut Heap,
    script: &Checked,
    body: Running,
    cells: &Cells,
    increment: bool,
    prefix: bool,
    reference: Reference,
    value: Value,
    steps: &mut Steps<L>,
) -> Result<Plan, Stop>
    ensures plans { PlansAt script.now body cells.now heap.old heap.new (λ here. to_number value (update_converted here increment prefix reference)) result }
    ensures named { (l : Lists) → HasNames script.now l (names_of_reference reference) → IsKnown l value → NamesPlan script.now l result }
    ensures retains { Retains heap.old heap.new }
{
    match value {
        Value::Whole(n) => number_updated(
            heap, script, body, cells, increment, prefix, reference, n, steps,
        ),
        Value::Undefined
        | Value::Null
        | Value::Bool(_)
        | Value::Text(_)
        | Value::Symbol(_)
        | Value::Object(_) => {
            let next = ValueAsked::UpdateConverted {
                increment,
                prefix,
                reference,
            };
            convert(
                heap,
                script,
                body,
                cells,
                Operation::ToWhole,
                value,
                Asked::Value(next),
                steps,
            )
        }
    }
}
