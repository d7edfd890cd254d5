//! What waits for an answer goes on with it.

ghost use Rattle.evaluator.specs.Plans.{PlansAt, asked_program, flag_answered, key_answered, value_answered};
ghost use Rattle.std.specs.Prelude.{◌≡◌, IfOk};
ghost use Rattle.es_model.specs.programs.Abrupt.{key_in, or_throw, taken, value_in};
ghost use Rattle.es_model.specs.Completions.{answered};
ghost use Rattle.evaluator.specs.declared.references.Reference.TheVariants as reference;
ghost use Rattle.object_heap.specs.Retains.{Retains};
ghost use Rattle.es_model.specs.World.{Lists, World};
ghost use Rattle.object_heap.specs.Stands.{StandsFor};
ghost use Rattle.es_model.specs.Sound.{IsSound};
ghost use Rattle.es_model.specs.Known.{IsKnown, IsKnownKey};
ghost use Rattle.es_model.specs.Belongs.{HasNames};
ghost use Rattle.es_model.specs.Fits.{IsKnownCompletion};
ghost use Rattle.evaluator.specs.Names.{NamesPlan, names_of_asked, names_of_flag_asked, names_of_key_asked, names_of_value_asked};

use crate::accesses::{property_reference, purpose_plan};
use crate::arithmetic::{
    add_primitives, calculated, joined, right_number, right_primitive, right_text,
};
use crate::cells::Cells;
use crate::definitions::{definition_keyed, properties_from};
use crate::items::{Asked, Ending, FlagAsked, KeyAsked, Plan, ValueAsked};
use crate::reading::{get_value, got_again, reading_valued};
use crate::references::Reference;
use crate::unary_arithmetic::{negated, update_number};
use crate::writing::{put_again, unless_refused};
use es_model::{Completion, Request, Running, Stop};
use es_tree::Checked;
use object_heap::Heap;
use property_keys::{Ledger, PropKey, Steps, TextId, Value};

/// The value of an answer, or what is thrown on. What the answer names is there.
fn value_of(answer: Completion) -> Result<Value, Value>
    ensures taken { taken value_in (answered answer) ≡ or_throw result }
    ensures known { (l : Lists) → IsKnownCompletion l (answered answer) → IfOk result (IsKnown l) }
{
    answer.value()
}

/// The same of a property key.
fn key_of(answer: Completion) -> Result<PropKey, Value>
    ensures taken { taken key_in (answered answer) ≡ or_throw result }
    ensures known { (l : Lists) → IsKnownCompletion l (answered answer) → IfOk result (IsKnownKey l) }
{
    answer.key()
}

fn value_answered<L: Ledger>(
    heap: &mut Heap,
    script: &Checked,
    body: Running,
    cells: &Cells,
    asked: ValueAsked,
    value: Value,
    steps: &mut Steps<L>,
) -> Result<Plan, Stop>
    ensures plans { PlansAt script.now body cells.now heap.old heap.new (λ here. value_answered here asked value) result }
    ensures named { (w v : World) → StandsFor heap.old w → StandsFor heap.new v → HasNames script.now v.lists (names_of_value_asked asked) → IsKnown v.lists value → NamesPlan script.now v.lists result }
    ensures retains { Retains heap.old heap.new }
{
    match asked {
        ValueAsked::Read(reading) => reading_valued(
            heap, script, body, cells, reading, value, steps,
        ),
        ValueAsked::MinusConverted => negated(heap, script, body, cells, value, steps),
        ValueAsked::LeftPrimitive { finish, right } => right_primitive(
            heap, script, body, cells, finish, value, right, steps,
        ),
        ValueAsked::RightPrimitive { finish, left } => add_primitives(
            heap, script, body, cells, finish, left, value, steps,
        ),
        ValueAsked::LeftText { finish, right } => right_text(
            heap, script, body, cells, finish, value, right, steps,
        ),
        ValueAsked::RightText { finish, left } => joined(
            heap, script, body, cells, finish, left, value, steps,
        ),
        ValueAsked::LeftNumber {
            operator,
            finish,
            right,
        } => right_number(
            heap, script, body, cells, operator, finish, value, right, steps,
        ),
        ValueAsked::RightNumber {
            operator,
            finish,
            left,
        } => calculated(
            heap, script, body, cells, operator, finish, left, value, steps,
        ),
        ValueAsked::UpdateConverted {
            increment,
            prefix,
            reference,
        } => update_number(
            heap, script, body, cells, increment, prefix, reference, value, steps,
        ),
    }
}

/// A name of the global object, once it has been looked at.
fn global_name(name: TextId, key: PropKey, present: bool) -> Reference
    ensures { result ≡ reference.Global name key present }
{
    Reference::Global { name, key, present }
}

fn flag_answered<L: Ledger>(
    heap: &mut Heap,
    script: &Checked,
    body: Running,
    cells: &Cells,
    asked: FlagAsked,
    flag: bool,
    steps: &mut Steps<L>,
) -> Result<Plan, Stop>
    ensures plans { PlansAt script.now body cells.now heap.old heap.new (λ here. flag_answered here asked flag) result }
    ensures named { (w v : World) → StandsFor heap.old w → IsSound w → StandsFor heap.new v → HasNames script.now v.lists (names_of_flag_asked asked) → NamesPlan script.now v.lists result }
    ensures retains { Retains heap.old heap.new }
{
    match asked {
        FlagAsked::Looked { name, key, purpose } => {
            let reference = global_name(name, key, flag);
            purpose_plan(heap, script, body, cells, purpose, reference, steps)
        }
        FlagAsked::LookedAgain { name, key, reading } => got_again(
            heap, script, body, cells, name, key, reading, flag, steps,
        ),
        FlagAsked::PutLooked {
            name,
            key,
            value,
            given,
        } => put_again(
            heap, script, body, cells, name, key, value, given, flag, steps,
        ),
        FlagAsked::PutAnswered { given } => unless_refused(
            heap, script, body, cells, flag, given, steps,
        ),
        FlagAsked::DeleteAnswered => {
            let given = Value::Bool(flag);
            unless_refused(heap, script, body, cells, flag, given, steps)
        }
        FlagAsked::FlagGiven => Ok(Plan::Ends(Ending::Gives(Value::Bool(flag)))),
        FlagAsked::FlagDenied => Ok(Plan::Ends(Ending::Gives(Value::Bool(!flag)))),
        FlagAsked::ReadLooked { name, key, reading } => {
            let reference = global_name(name, key, flag);
            get_value(heap, script, body, cells, reference, reading, steps)
        }
        FlagAsked::ProtoAnswered { node, next, object } => properties_from(
            heap, script, body, cells, node, next, object, steps,
        ),
    }
}

fn key_answered<L: Ledger>(
    heap: &mut Heap,
    script: &Checked,
    body: Running,
    cells: &Cells,
    asked: KeyAsked,
    key: PropKey,
    steps: &mut Steps<L>,
) -> Result<Plan, Stop>
    ensures plans { PlansAt script.now body cells.now heap.old heap.new (λ here. key_answered here asked key) result }
    ensures named { (w v : World) → StandsFor heap.old w → IsSound w → StandsFor heap.new v → HasNames script.now v.lists (names_of_key_asked asked) → IsKnownKey v.lists key → NamesPlan script.now v.lists result }
    ensures retains { Retains heap.old heap.new }
{
    match asked {
        KeyAsked::KeyConverted {
            base,
            read,
            write,
            purpose,
        } => {
            let reference = property_reference(base, key, read, write);
            purpose_plan(heap, script, body, cells, purpose, reference, steps)
        }
        KeyAsked::InKeyed { object } => {
            let request = Request::Has { object, key };
            Ok(Plan::Ask(request, Asked::Flag(FlagAsked::FlagGiven)))
        }
        KeyAsked::PropertyKey { node, at, object } => definition_keyed(
            heap, script, body, cells, node, at, object, key, steps,
        ),
    }
}

pub(crate) fn asked_plan<L: Ledger>(
    heap: &mut Heap,
    script: &Checked,
    body: Running,
    cells: &Cells,
    asked: Asked,
    answer: Completion,
    steps: &mut Steps<L>,
) -> Result<Plan, Stop>
    ensures plans { PlansAt script.now body cells.now heap.old heap.new (λ here. asked_program here asked (answered answer)) result }
    ensures named { (w v : World) → StandsFor heap.old w → IsSound w → StandsFor heap.new v → HasNames script.now v.lists (names_of_asked asked) → IsKnownCompletion v.lists (answered answer) → NamesPlan script.now v.lists result }
    ensures retains { Retains heap.old heap.new }
{
    match asked {
        Asked::Value(next) => match value_of(answer) {
            Err(thrown) => Ok(Plan::Ends(Ending::Throws(thrown))),
            Ok(value) => value_answered(heap, script, body, cells, next, value, steps),
        },
        Asked::Flag(next) => match answer.flag() {
            Err(thrown) => Ok(Plan::Ends(Ending::Throws(thrown))),
            Ok(flag) => flag_answered(heap, script, body, cells, next, flag, steps),
        },
        Asked::Key(next) => match key_of(answer) {
            Err(thrown) => Ok(Plan::Ends(Ending::Throws(thrown))),
            Ok(key) => key_answered(heap, script, body, cells, next, key, steps),
        },
    }
}
