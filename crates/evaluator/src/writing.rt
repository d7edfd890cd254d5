//! PutValue (ECMA-262, 6.2.5.6), and the `delete` of a reference (13.5.1.2).

ghost use Rattle.es_model.specs.Program.{look};
ghost use Rattle.es_model.specs.World.{cell as cell_of, Lists};
ghost use Rattle.evaluator.specs.Plans.{PlansAt};
ghost use Rattle.evaluator.specs.References.{cell_put, delete_of, delete_reference, put_above, put_again, put_global, put_of, put_value, unless_refused};
ghost use Rattle.object_heap.specs.Retains.{Retains};
ghost use Rattle.es_model.specs.Known.{IsKnown};
ghost use Rattle.es_tree.specs.Tree.{IsSite};
ghost use Rattle.es_model.specs.Belongs.{HasNames};
ghost use Rattle.evaluator.specs.Names.{NamesPlan, names_of_reference};

use crate::cells::Cells;
use crate::items::{Asked, Ending, FlagAsked, Plan};
use crate::messages::{is_constant, not_an_object, not_defined, not_initialised, refused};
use crate::references::Reference;
use crate::values::is_own_key;
use es_model::{CellNo, Class, Intrinsic, Request, Running, Stop};
use es_tree::{Checked, SiteId};
use object_heap::Heap;
use property_keys::{Ledger, PropKey, Steps, TextId, Value};

/// A [[Set]] or [[Delete]] that answered false throws in strict code. Else the expression gives this value.
pub(crate) fn unless_refused<L: Ledger>(
    heap: &mut Heap,
    script: &Checked,
    body: Running,
    cells: &Cells,
    succeeded: bool,
    given: Value,
    steps: &mut Steps<L>,
) -> Result<Plan, Stop>
    ensures plans { PlansAt script.now body cells.now heap.old heap.new (λ here. unless_refused here succeeded given) result }
    ensures named { (l : Lists) → NamesPlan script.now l result }
    ensures retains { Retains heap.old heap.new }
{
    if succeeded || !body.strict {
        Ok(Plan::Ends(Ending::Gives(given)))
    } else {
        refused(heap, script, body, cells, steps)
    }
}

/// A property of a primitive value that is none of its own is set at the prototype of its class, which is one link.
fn put_above<L: Ledger>(
    heap: &mut Heap,
    script: &Checked,
    body: Running,
    cells: &Cells,
    class: Class,
    base: Value,
    key: PropKey,
    site: Option<SiteId>,
    value: Value,
    given: Value,
    steps: &mut Steps<L>,
) -> Result<Plan, Stop>
    ensures plans { PlansAt script.now body cells.now heap.old heap.new (λ here. put_above here class base key site value given) result }
    ensures named { (l : Lists) → IsKnown l given → IsSite script.now site → NamesPlan script.now l result }
    ensures retains { Retains heap.old heap.new }
{
    heap.charge(1)?;
    let request = Request::Write {
        object: Intrinsic::Prototype(class).object(),
        key,
        value,
        receiver: base,
        site,
    };
    Ok(Plan::Ask(request, Asked::Flag(FlagAsked::PutAnswered { given })))
}

fn put_of<L: Ledger>(
    heap: &mut Heap,
    script: &Checked,
    body: Running,
    cells: &Cells,
    base: Value,
    key: PropKey,
    site: Option<SiteId>,
    value: Value,
    given: Value,
    steps: &mut Steps<L>,
) -> Result<Plan, Stop>
    ensures plans { PlansAt script.now body cells.now heap.old heap.new (λ here. put_of here base key site value given) result }
    ensures named { (l : Lists) → IsKnown l given → IsSite script.now site → NamesPlan script.now l result }
    ensures retains { Retains heap.old heap.new }
{
    match base {
        Value::Undefined | Value::Null => not_an_object(heap, script, body, cells, steps),
        Value::Bool(_) => put_above(
            heap,
            script,
            body,
            cells,
            Class::Boolean,
            base,
            key,
            site,
            value,
            given,
            steps,
        ),
        Value::Whole(_) => put_above(
            heap,
            script,
            body,
            cells,
            Class::Number,
            base,
            key,
            site,
            value,
            given,
            steps,
        ),
        Value::Text(text) => {
            if is_own_key(heap, text, key) {
                unless_refused(heap, script, body, cells, false, given, steps)
            } else {
                put_above(
                    heap,
                    script,
                    body,
                    cells,
                    Class::String,
                    base,
                    key,
                    site,
                    value,
                    given,
                    steps,
                )
            }
        }
        Value::Symbol(_) => put_above(
            heap,
            script,
            body,
            cells,
            Class::Symbol,
            base,
            key,
            site,
            value,
            given,
            steps,
        ),
        Value::Object(object) => {
            let request = Request::Write {
                object,
                key,
                value,
                receiver: base,
                site,
            };
            Ok(Plan::Ask(request, Asked::Flag(FlagAsked::PutAnswered { given })))
        }
    }
}

/// SetMutableBinding (9.1.1.1.5).
fn put_cell<L: Ledger>(
    heap: &mut Heap,
    script: &Checked,
    body: Running,
    cells: &Cells,
    name: TextId,
    cell: CellNo,
    constant: bool,
    value: Value,
    given: Value,
    steps: &mut Steps<L>,
) -> Result<Plan, Stop>
    ensures plans { PlansAt script.now body cells.now heap.old heap.new (λ here. look (λ l. cell_put name cell constant value given (cell_of l cell))) result }
    ensures named { (l : Lists) → NamesPlan script.now l result }
    ensures retains { Retains heap.old heap.new }
{
    match heap.cell(cell) {
        None => not_initialised(heap, script, body, cells, name, steps),
        Some(_) => {
            if constant {
                is_constant(heap, script, body, cells, name, steps)
            } else {
                heap.set_cell(cell, value);
                Ok(Plan::Ends(Ending::Gives(given)))
            }
        }
    }
}

fn put_global<L: Ledger>(
    heap: &mut Heap,
    script: &Checked,
    body: Running,
    cells: &Cells,
    key: PropKey,
    value: Value,
    given: Value,
    steps: &mut Steps<L>,
) -> Result<Plan, Stop>
    ensures plans { PlansAt script.now body cells.now heap.old heap.new (λ here. put_global here key value given) result }
    ensures named { (l : Lists) → IsKnown l given → NamesPlan script.now l result }
    ensures retains { Retains heap.old heap.new }
{
    let global = Intrinsic::Global.object();
    let request = Request::Write {
        object: global,
        key,
        value,
        receiver: Value::Object(global),
        site: None,
    };
    Ok(Plan::Ask(request, Asked::Flag(FlagAsked::PutAnswered { given })))
}

/// The second look at a name of the global object has been answered (9.1.1.2.5).
pub(crate) fn put_again<L: Ledger>(
    heap: &mut Heap,
    script: &Checked,
    body: Running,
    cells: &Cells,
    name: TextId,
    key: PropKey,
    value: Value,
    given: Value,
    present: bool,
    steps: &mut Steps<L>,
) -> Result<Plan, Stop>
    ensures plans { PlansAt script.now body cells.now heap.old heap.new (λ here. put_again here name key value given present) result }
    ensures named { (l : Lists) → IsKnown l given → NamesPlan script.now l result }
    ensures retains { Retains heap.old heap.new }
{
    if present || !body.strict {
        put_global(heap, script, body, cells, key, value, given, steps)
    } else {
        not_defined(heap, script, body, cells, name, steps)
    }
}

/// A value is put, and the expression gives another one.
pub(crate) fn put_value<L: Ledger>(
    heap: &mut Heap,
    script: &Checked,
    body: Running,
    cells: &Cells,
    reference: Reference,
    value: Value,
    given: Value,
    steps: &mut Steps<L>,
) -> Result<Plan, Stop>
    ensures plans { PlansAt script.now body cells.now heap.old heap.new (λ here. put_value here reference value given) result }
    ensures named { (l : Lists) → HasNames script.now l (names_of_reference reference) → IsKnown l value → IsKnown l given → NamesPlan script.now l result }
    ensures retains { Retains heap.old heap.new }
{
    match reference {
        Reference::Cell {
            name,
            cell,
            constant,
        } => put_cell(
            heap, script, body, cells, name, cell, constant, value, given, steps,
        ),
        Reference::Global { name, key, present } => {
            if present {
                let request = Request::Has {
                    object: Intrinsic::Global.object(),
                    key,
                };
                let next = FlagAsked::PutLooked {
                    name,
                    key,
                    value,
                    given,
                };
                return Ok(Plan::Ask(request, Asked::Flag(next)));
            }
            if body.strict {
                not_defined(heap, script, body, cells, name, steps)
            } else {
                put_global(heap, script, body, cells, key, value, given, steps)
            }
        }
        Reference::Arguments { .. } => Ok(Plan::Ends(Ending::Gives(given))),
        Reference::Callee { name, .. } => {
            if body.strict {
                is_constant(heap, script, body, cells, name, steps)
            } else {
                Ok(Plan::Ends(Ending::Gives(given)))
            }
        }
        Reference::Property {
            base,
            key,
            write,
            ..
        } => put_of(
            heap, script, body, cells, base, key, write, value, given, steps,
        ),
    }
}

fn delete_of<L: Ledger>(
    heap: &mut Heap,
    script: &Checked,
    body: Running,
    cells: &Cells,
    base: Value,
    key: PropKey,
    steps: &mut Steps<L>,
) -> Result<Plan, Stop>
    ensures plans { PlansAt script.now body cells.now heap.old heap.new (λ here. delete_of here base key) result }
    ensures named { (l : Lists) → NamesPlan script.now l result }
    ensures retains { Retains heap.old heap.new }
{
    match base {
        Value::Undefined | Value::Null => not_an_object(heap, script, body, cells, steps),
        Value::Object(object) => {
            let request = Request::Delete { object, key };
            Ok(Plan::Ask(request, Asked::Flag(FlagAsked::DeleteAnswered)))
        }
        Value::Text(text) => {
            if is_own_key(heap, text, key) {
                unless_refused(heap, script, body, cells, false, Value::Bool(false), steps)
            } else {
                Ok(Plan::Ends(Ending::Gives(Value::Bool(true))))
            }
        }
        Value::Bool(_) | Value::Whole(_) | Value::Symbol(_) => {
            Ok(Plan::Ends(Ending::Gives(Value::Bool(true))))
        }
    }
}

pub(crate) fn delete_reference<L: Ledger>(
    heap: &mut Heap,
    script: &Checked,
    body: Running,
    cells: &Cells,
    reference: Reference,
    steps: &mut Steps<L>,
) -> Result<Plan, Stop>
    ensures plans { PlansAt script.now body cells.now heap.old heap.new (λ here. delete_reference here reference) result }
    ensures named { (l : Lists) → NamesPlan script.now l result }
    ensures retains { Retains heap.old heap.new }
{
    match reference {
        Reference::Property { base, key, .. } => delete_of(
            heap, script, body, cells, base, key, steps,
        ),
        Reference::Cell { .. }
        | Reference::Global { .. }
        | Reference::Arguments { .. }
        | Reference::Callee { .. } => Ok(Plan::Ends(Ending::Gives(Value::Bool(true)))),
    }
}
