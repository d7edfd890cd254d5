//! ApplyStringOrNumericBinaryOperator (ECMA-262, 13.15.3), and what is done with the result.

ghost use Rattle.es_model.specs.programs.Converting.{to_number};
ghost use Rattle.es_model.specs.programs.Texts.{to_string};
ghost use Rattle.evaluator.specs.Operators.{add_primitives, apply, calculated, finished, joined, left_primitive, left_text, numbers, right_number, right_primitive, right_text, to_primitive};
ghost use Rattle.evaluator.specs.Plans.{PlansAt};
ghost use Rattle.property_keys.specs.declared.values.Value.TheVariants as values;
ghost use Rattle.evaluator.specs.Values.{calculate, or_out};
ghost use Rattle.object_heap.specs.Retains.{Retains};
ghost use Rattle.es_model.specs.World.{Lists, World};
ghost use Rattle.object_heap.specs.Stands.{StandsFor};
ghost use Rattle.es_model.specs.Known.{IsKnown};
ghost use Rattle.es_model.specs.Belongs.{HasNames};
ghost use Rattle.evaluator.specs.Names.{NamesPlan, names_of_finish};

use crate::cells::Cells;
use crate::items::{Asked, Ending, Plan, ValueAsked};
use crate::messages::{out_of_profile, text_too_long};
use crate::references::{Arithmetic, Finish};
use crate::requests::convert;
use crate::texts::join;
use crate::values::{is_text, result_of, step};
use crate::writing::put_value;
use es_model::{Operation, Running, Stop};
use es_tree::Checked;
use object_heap::Heap;
use property_keys::{Ledger, Steps, TextId, Value};

fn finished<L: Ledger>(
    heap: &mut Heap,
    script: &Checked,
    body: Running,
    cells: &Cells,
    finish: Finish,
    value: Value,
    steps: &mut Steps<L>,
) -> Result<Plan, Stop>
    ensures plans { PlansAt script.now body cells.now heap.old heap.new (λ here. finished here finish value) result }
    ensures named { (l : Lists) → HasNames script.now l (names_of_finish finish) → IsKnown l value → NamesPlan script.now l result }
    ensures retains { Retains heap.old heap.new }
{
    match finish {
        Finish::Give => Ok(Plan::Ends(Ending::Gives(value))),
        Finish::Put(reference) => put_value(
            heap, script, body, cells, reference, value, value, steps,
        ),
    }
}

fn number_calculated<L: Ledger>(
    heap: &mut Heap,
    script: &Checked,
    body: Running,
    cells: &Cells,
    operator: Arithmetic,
    finish: Finish,
    a: i64,
    b: i64,
    steps: &mut Steps<L>,
) -> Result<Plan, Stop>
    ensures plans { PlansAt script.now body cells.now heap.old heap.new (λ here. or_out (calculate operator a b) (λ n. finished here finish (values.Whole n))) result }
    ensures named { (l : Lists) → HasNames script.now l (names_of_finish finish) → NamesPlan script.now l result }
    ensures retains { Retains heap.old heap.new }
{
    match result_of(operator, a, b) {
        None => out_of_profile(heap, script, body, cells, steps),
        Some(n) => finished(heap, script, body, cells, finish, Value::Whole(n), steps),
    }
}

/// Both operands are numbers.
pub(crate) fn calculated<L: Ledger>(
    heap: &mut Heap,
    script: &Checked,
    body: Running,
    cells: &Cells,
    operator: Arithmetic,
    finish: Finish,
    left: Value,
    right: Value,
    steps: &mut Steps<L>,
) -> Result<Plan, Stop>
    ensures plans { PlansAt script.now body cells.now heap.old heap.new (λ here. calculated here operator finish left right) result }
    ensures named { (l : Lists) → HasNames script.now l (names_of_finish finish) → NamesPlan script.now l result }
    ensures retains { Retains heap.old heap.new }
{
    match left {
        Value::Whole(a) => match right {
            Value::Whole(b) => number_calculated(
                heap, script, body, cells, operator, finish, a, b, steps,
            ),
            Value::Undefined
            | Value::Null
            | Value::Bool(_)
            | Value::Text(_)
            | Value::Symbol(_)
            | Value::Object(_) => Ok(Plan::Ends(Ending::Throws(Value::Undefined))),
        },
        Value::Undefined
        | Value::Null
        | Value::Bool(_)
        | Value::Text(_)
        | Value::Symbol(_)
        | Value::Object(_) => Ok(Plan::Ends(Ending::Throws(Value::Undefined))),
    }
}

/// The right operand becomes a number (13.15.3, step 5), where the left one is one.
pub(crate) fn right_number<L: Ledger>(
    heap: &mut Heap,
    script: &Checked,
    body: Running,
    cells: &Cells,
    operator: Arithmetic,
    finish: Finish,
    left: Value,
    right: Value,
    steps: &mut Steps<L>,
) -> Result<Plan, Stop>
    ensures plans { PlansAt script.now body cells.now heap.old heap.new (λ here. to_number right (right_number here operator finish left)) result }
    ensures named { (l : Lists) → HasNames script.now l (names_of_finish finish) → IsKnown l left → NamesPlan script.now l result }
    ensures retains { Retains heap.old heap.new }
{
    match right {
        Value::Whole(n) => {
            let number = Value::Whole(n);
            calculated(
                heap, script, body, cells, operator, finish, left, number, steps,
            )
        }
        Value::Undefined
        | Value::Null
        | Value::Bool(_)
        | Value::Text(_)
        | Value::Symbol(_)
        | Value::Object(_) => {
            let next = ValueAsked::RightNumber {
                operator,
                finish,
                left,
            };
            convert(
                heap,
                script,
                body,
                cells,
                Operation::ToWhole,
                right,
                Asked::Value(next),
                steps,
            )
        }
    }
}

/// Both operands become numbers, the left one first.
fn numbers<L: Ledger>(
    heap: &mut Heap,
    script: &Checked,
    body: Running,
    cells: &Cells,
    operator: Arithmetic,
    finish: Finish,
    a: Value,
    b: Value,
    steps: &mut Steps<L>,
) -> Result<Plan, Stop>
    ensures plans { PlansAt script.now body cells.now heap.old heap.new (λ here. numbers here operator finish a b) result }
    ensures named { (l : Lists) → HasNames script.now l (names_of_finish finish) → IsKnown l a → IsKnown l b → NamesPlan script.now l result }
    ensures retains { Retains heap.old heap.new }
{
    match a {
        Value::Whole(n) => {
            let number = Value::Whole(n);
            right_number(
                heap, script, body, cells, operator, finish, number, b, steps,
            )
        }
        Value::Undefined
        | Value::Null
        | Value::Bool(_)
        | Value::Text(_)
        | Value::Symbol(_)
        | Value::Object(_) => {
            let next = ValueAsked::LeftNumber {
                operator,
                finish,
                right: b,
            };
            convert(
                heap,
                script,
                body,
                cells,
                Operation::ToWhole,
                a,
                Asked::Value(next),
                steps,
            )
        }
    }
}

#[tactic(auto, using(object_heap::specs::Stands::goes_none, object_heap::specs::Stands::goes_then, object_heap::specs::Stands::halts_at, object_heap::proofs::Retaining::retains_none, object_heap::proofs::Retaining::retains_then, crate::proofs::PlansNamed::keeps_wait, crate::proofs::PlansNamed::keeps_enter, crate::proofs::PlansNamed::keeps_ask, crate::proofs::PlansNamed::keeps_last, crate::proofs::PlansNamed::keeps_end, crate::proofs::PlansNamed::keeps_stop, crate::proofs::PlansNamed::defines_plan, crate::proofs::PlansNamed::defines_none, crate::proofs::PlansNamed::defines_stop, crate::proofs::Planned::plans_then))]
fn texts_joined<L: Ledger>(
    heap: &mut Heap,
    script: &Checked,
    body: Running,
    cells: &Cells,
    finish: Finish,
    a: TextId,
    b: TextId,
    steps: &mut Steps<L>,
) -> Result<Plan, Stop>
    ensures plans { PlansAt script.now body cells.now heap.old heap.new (λ here. joined here finish (values.Text a) (values.Text b)) result }
    ensures named { (w v : World) → StandsFor heap.old w → StandsFor heap.new v → HasNames script.now v.lists (names_of_finish finish) → NamesPlan script.now v.lists result }
    ensures retains { Retains heap.old heap.new }
{
    match join(heap, a, b)? {
        None => text_too_long(heap, script, body, cells, steps),
        Some(text) => finished(heap, script, body, cells, finish, Value::Text(text), steps),
    }
}

/// Both operands are texts.
pub(crate) fn joined<L: Ledger>(
    heap: &mut Heap,
    script: &Checked,
    body: Running,
    cells: &Cells,
    finish: Finish,
    left: Value,
    right: Value,
    steps: &mut Steps<L>,
) -> Result<Plan, Stop>
    ensures plans { PlansAt script.now body cells.now heap.old heap.new (λ here. joined here finish left right) result }
    ensures named { (w v : World) → StandsFor heap.old w → StandsFor heap.new v → HasNames script.now v.lists (names_of_finish finish) → NamesPlan script.now v.lists result }
    ensures retains { Retains heap.old heap.new }
{
    match left {
        Value::Text(a) => match right {
            Value::Text(b) => texts_joined(heap, script, body, cells, finish, a, b, steps),
            Value::Undefined
            | Value::Null
            | Value::Bool(_)
            | Value::Whole(_)
            | Value::Symbol(_)
            | Value::Object(_) => Ok(Plan::Ends(Ending::Throws(Value::Undefined))),
        },
        Value::Undefined
        | Value::Null
        | Value::Bool(_)
        | Value::Whole(_)
        | Value::Symbol(_)
        | Value::Object(_) => Ok(Plan::Ends(Ending::Throws(Value::Undefined))),
    }
}

/// The right operand becomes a text (13.15.3, step 1.c), where the left one is one.
pub(crate) fn right_text<L: Ledger>(
    heap: &mut Heap,
    script: &Checked,
    body: Running,
    cells: &Cells,
    finish: Finish,
    left: Value,
    right: Value,
    steps: &mut Steps<L>,
) -> Result<Plan, Stop>
    ensures plans { PlansAt script.now body cells.now heap.old heap.new (λ here. to_string right (right_text here finish left)) result }
    ensures named { (w v : World) → StandsFor heap.old w → StandsFor heap.new v → HasNames script.now v.lists (names_of_finish finish) → IsKnown v.lists left → NamesPlan script.now v.lists result }
    ensures retains { Retains heap.old heap.new }
{
    match right {
        Value::Text(t) => {
            let text = Value::Text(t);
            joined(heap, script, body, cells, finish, left, text, steps)
        }
        Value::Undefined
        | Value::Null
        | Value::Bool(_)
        | Value::Whole(_)
        | Value::Symbol(_)
        | Value::Object(_) => {
            let next = ValueAsked::RightText { finish, left };
            convert(
                heap,
                script,
                body,
                cells,
                Operation::ToText,
                right,
                Asked::Value(next),
                steps,
            )
        }
    }
}

/// Both operands become texts, the left one first.
fn texts<L: Ledger>(
    heap: &mut Heap,
    script: &Checked,
    body: Running,
    cells: &Cells,
    finish: Finish,
    a: Value,
    b: Value,
    steps: &mut Steps<L>,
) -> Result<Plan, Stop>
    ensures plans { PlansAt script.now body cells.now heap.old heap.new (λ here. to_string a (left_text here finish b)) result }
    ensures named { (w v : World) → StandsFor heap.old w → StandsFor heap.new v → HasNames script.now v.lists (names_of_finish finish) → IsKnown v.lists a → IsKnown v.lists b → NamesPlan script.now v.lists result }
    ensures retains { Retains heap.old heap.new }
{
    match a {
        Value::Text(t) => {
            let text = Value::Text(t);
            right_text(heap, script, body, cells, finish, text, b, steps)
        }
        Value::Undefined
        | Value::Null
        | Value::Bool(_)
        | Value::Whole(_)
        | Value::Symbol(_)
        | Value::Object(_) => {
            let next = ValueAsked::LeftText { finish, right: b };
            convert(
                heap,
                script,
                body,
                cells,
                Operation::ToText,
                a,
                Asked::Value(next),
                steps,
            )
        }
    }
}

/// Both operands are primitive values.
pub(crate) fn add_primitives<L: Ledger>(
    heap: &mut Heap,
    script: &Checked,
    body: Running,
    cells: &Cells,
    finish: Finish,
    a: Value,
    b: Value,
    steps: &mut Steps<L>,
) -> Result<Plan, Stop>
    ensures plans { PlansAt script.now body cells.now heap.old heap.new (λ here. add_primitives here finish a b) result }
    ensures named { (w v : World) → StandsFor heap.old w → StandsFor heap.new v → HasNames script.now v.lists (names_of_finish finish) → IsKnown v.lists a → IsKnown v.lists b → NamesPlan script.now v.lists result }
    ensures retains { Retains heap.old heap.new }
{
    if is_text(a) || is_text(b) {
        texts(heap, script, body, cells, finish, a, b, steps)
    } else {
        let operator = Arithmetic::Add;
        numbers(heap, script, body, cells, operator, finish, a, b, steps)
    }
}

/// The right operand becomes a primitive value (13.15.3, step 1.b), where the left one is one.
pub(crate) fn right_primitive<L: Ledger>(
    heap: &mut Heap,
    script: &Checked,
    body: Running,
    cells: &Cells,
    finish: Finish,
    left: Value,
    right: Value,
    steps: &mut Steps<L>,
) -> Result<Plan, Stop>
    ensures plans { PlansAt script.now body cells.now heap.old heap.new (λ here. to_primitive right (right_primitive here finish left)) result }
    ensures named { (w v : World) → StandsFor heap.old w → StandsFor heap.new v → HasNames script.now v.lists (names_of_finish finish) → IsKnown v.lists left → IsKnown v.lists right → NamesPlan script.now v.lists result }
    ensures retains { Retains heap.old heap.new }
{
    match right {
        Value::Undefined
        | Value::Null
        | Value::Bool(_)
        | Value::Whole(_)
        | Value::Text(_)
        | Value::Symbol(_) => {
            add_primitives(heap, script, body, cells, finish, left, right, steps)
        }
        Value::Object(_) => {
            let next = ValueAsked::RightPrimitive { finish, left };
            convert(
                heap,
                script,
                body,
                cells,
                Operation::ToPrimitiveDefault,
                right,
                Asked::Value(next),
                steps,
            )
        }
    }
}

/// Both operands become primitive values, the left one first.
fn primitives<L: Ledger>(
    heap: &mut Heap,
    script: &Checked,
    body: Running,
    cells: &Cells,
    finish: Finish,
    a: Value,
    b: Value,
    steps: &mut Steps<L>,
) -> Result<Plan, Stop>
    ensures plans { PlansAt script.now body cells.now heap.old heap.new (λ here. to_primitive a (left_primitive here finish b)) result }
    ensures named { (w v : World) → StandsFor heap.old w → StandsFor heap.new v → HasNames script.now v.lists (names_of_finish finish) → IsKnown v.lists a → IsKnown v.lists b → NamesPlan script.now v.lists result }
    ensures retains { Retains heap.old heap.new }
{
    match a {
        Value::Undefined
        | Value::Null
        | Value::Bool(_)
        | Value::Whole(_)
        | Value::Text(_)
        | Value::Symbol(_) => { right_primitive(heap, script, body, cells, finish, a, b, steps) }
        Value::Object(_) => {
            let next = ValueAsked::LeftPrimitive { finish, right: b };
            convert(
                heap,
                script,
                body,
                cells,
                Operation::ToPrimitiveDefault,
                a,
                Asked::Value(next),
                steps,
            )
        }
    }
}

pub(crate) fn apply<L: Ledger>(
    heap: &mut Heap,
    script: &Checked,
    body: Running,
    cells: &Cells,
    operator: Arithmetic,
    finish: Finish,
    a: Value,
    b: Value,
    steps: &mut Steps<L>,
) -> Result<Plan, Stop>
    ensures plans { PlansAt script.now body cells.now heap.old heap.new (λ here. apply here operator finish a b) result }
    ensures named { (w v : World) → StandsFor heap.old w → StandsFor heap.new v → HasNames script.now v.lists (names_of_finish finish) → IsKnown v.lists a → IsKnown v.lists b → NamesPlan script.now v.lists result }
    ensures retains { Retains heap.old heap.new }
{
    match operator {
        Arithmetic::Add => primitives(heap, script, body, cells, finish, a, b, steps),
        Arithmetic::Subtract => {
            let minus = Arithmetic::Subtract;
            numbers(heap, script, body, cells, minus, finish, a, b, steps)
        }
        Arithmetic::Multiply => {
            let times = Arithmetic::Multiply;
            numbers(heap, script, body, cells, times, finish, a, b, steps)
        }
        Arithmetic::Remainder => {
            let modulo = Arithmetic::Remainder;
            numbers(heap, script, body, cells, modulo, finish, a, b, steps)
        }
    }
}
