//! Requests with operands.

ghost use Rattle.evaluator.specs.Contexts.{convert};
ghost use Rattle.evaluator.specs.Operators.{flag_denied, flag_given, is_less};
ghost use Rattle.es_model.specs.declared.requests.Operation.TheVariants as operation;
ghost use Rattle.property_keys.specs.declared.values.Value.TheVariants as value;
ghost use Rattle.evaluator.specs.Plans.{PlansAt, asked_program};
ghost use Rattle.std.specs.Prelude.{◌∷◌, [], if◌then◌else◌};
ghost use Rattle.es_model.specs.Program.{ask};
ghost use Rattle.es_model.specs.declared.requests.Request.TheVariants.{Work};
ghost use Rattle.object_heap.specs.Retains.{Retains};
ghost use Rattle.es_model.specs.World.{Lists};
ghost use Rattle.es_model.specs.Belongs.{HasNames};
ghost use Rattle.evaluator.specs.Names.{NamesPlan, names_of_asked};

use crate::cells::Cells;
use crate::items::{Asked, Ending, FlagAsked, Plan};
use es_model::{Operation, Request, Running, Stop, Values};
use es_tree::Checked;
use object_heap::Heap;
use property_keys::{Ledger, Steps, Value};

/// A question with one operand.
pub(crate) fn convert<L: Ledger>(
    heap: &mut Heap,
    script: &Checked,
    body: Running,
    cells: &Cells,
    operation: Operation,
    value: Value,
    next: Asked,
    steps: &mut Steps<L>,
) -> Result<Plan, Stop>
    ensures plans { PlansAt script.now body cells.now heap.old heap.new (λ here. convert operation value (asked_program here next)) result }
    ensures named { (l : Lists) → HasNames script.now l (names_of_asked next) → NamesPlan script.now l result }
    ensures retains { Retains heap.old heap.new }
{
    let mut operands = Values::new(heap.alloc());
    operands.push(value)?;
    let request = Request::Work {
        operation,
        operands,
    };
    Ok(Plan::Ask(request, next))
}

/// A question with two operands.
pub(crate) fn ask_of_two<L: Ledger>(
    heap: &mut Heap,
    script: &Checked,
    body: Running,
    cells: &Cells,
    operation: Operation,
    a: Value,
    b: Value,
    next: Asked,
    steps: &mut Steps<L>,
) -> Result<Plan, Stop>
    ensures plans { PlansAt script.now body cells.now heap.old heap.new (λ here. ask (Work operation (a ∷ b ∷ [])) (asked_program here next)) result }
    ensures named { (l : Lists) → HasNames script.now l (names_of_asked next) → NamesPlan script.now l result }
    ensures retains { Retains heap.old heap.new }
{
    let mut operands = Values::new(heap.alloc());
    operands.push(a)?;
    operands.push(b)?;
    let request = Request::Work {
        operation,
        operands,
    };
    Ok(Plan::Ask(request, next))
}

fn ask_less<L: Ledger>(
    heap: &mut Heap,
    script: &Checked,
    body: Running,
    cells: &Cells,
    a: Value,
    b: Value,
    left_first: bool,
    denied: bool,
    steps: &mut Steps<L>,
) -> Result<Plan, Stop>
    ensures plans { PlansAt script.now body cells.now heap.old heap.new (λ here. ask (Work operation.LessThan (a ∷ b ∷ value.Bool left_first ∷ [])) (if denied then flag_denied else flag_given)) result }
    ensures named { (l : Lists) → NamesPlan script.now l result }
    ensures retains { Retains heap.old heap.new }
{
    let mut operands = Values::new(heap.alloc());
    operands.push(a)?;
    operands.push(b)?;
    operands.push(Value::Bool(left_first))?;
    let request = Request::Work {
        operation: Operation::LessThan,
        operands,
    };
    if denied {
        Ok(Plan::Ask(request, Asked::Flag(FlagAsked::FlagDenied)))
    } else {
        Ok(Plan::Ask(request, Asked::Flag(FlagAsked::FlagGiven)))
    }
}

/// IsLessThan (7.2.13) of two operands, with LeftFirst, or its contrary. Of two numbers it is step 4.
pub(crate) fn is_less<L: Ledger>(
    heap: &mut Heap,
    script: &Checked,
    body: Running,
    cells: &Cells,
    a: Value,
    b: Value,
    left_first: bool,
    denied: bool,
    steps: &mut Steps<L>,
) -> Result<Plan, Stop>
    ensures plans { PlansAt script.now body cells.now heap.old heap.new (λ here. is_less a b left_first (if denied then flag_denied else flag_given)) result }
    ensures named { (l : Lists) → NamesPlan script.now l result }
    ensures retains { Retains heap.old heap.new }
{
    match a {
        Value::Whole(n) => match b {
            Value::Whole(m) => {
                if denied {
                    Ok(Plan::Ends(Ending::Gives(Value::Bool(!(n < m)))))
                } else {
                    Ok(Plan::Ends(Ending::Gives(Value::Bool(n < m))))
                }
            }
            Value::Undefined
            | Value::Null
            | Value::Bool(_)
            | Value::Text(_)
            | Value::Symbol(_)
            | Value::Object(_) => ask_less(
                heap, script, body, cells, a, b, left_first, denied, steps,
            ),
        },
        Value::Undefined
        | Value::Null
        | Value::Bool(_)
        | Value::Text(_)
        | Value::Symbol(_)
        | Value::Object(_) => ask_less(heap, script, body, cells, a, b, left_first, denied, steps),
    }
}
