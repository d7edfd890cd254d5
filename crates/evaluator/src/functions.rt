//! Functions of the script are made where they stand (ECMA-262, 15.2.5, 15.4.4), and declared ones where their code is entered (10.2.11, 16.1.7).

ghost use Rattle.std.specs.Prelude.{◌≡◌, ◌∷◌, ◌<◌, [], IfOk, OnOk, length, slice_get};
ghost use Rattle.es_tree.specs.Tree.{Tree};
ghost use Rattle.es_model.specs.World.{Lists, World};
ghost use Rattle.evaluator.specs.Contexts.{context};
ghost use Rattle.evaluator.specs.Functions.{bind_declared, declare_found, function_name, make_function};
ghost use Rattle.evaluator.specs.Entering.{Brings, Declares, Makes};
ghost use Rattle.evaluator.specs.Names.{NamesPlan};
ghost use Rattle.evaluator.specs.Plans.{PlansAt};
ghost use Rattle.object_heap.specs.Retains.{Retains};
ghost use Rattle.object_heap.specs.Stands.{StandsFor};

use crate::cells::Cells;
use crate::declarations::bound_cell;
use crate::items::{Ending, Plan};
use crate::messages::text_too_long;
use crate::names::name_of_key;
use crate::texts::{intern, key_of};
use crate::tree::facts_at;
use descriptors::Descriptor;
use es_model::{FunctionName, Intrinsic, Running, Stop};
use es_tree::{Body, Checked, DeclaredFunction, FunctionNo};
use function_objects::{create_function, function_made, name_function};
use object_heap::Heap;
use property_keys::{Ledger, NoMemory, ObjectId, Steps, TextId, Units, Value};

// ---- function expressions, methods and accessors

/// The name that is written at a function; else what it gets where it stands; else the empty text. None where it would have too many code units.
fn function_name(
    heap: &mut Heap,
    written: &Option<Units>,
    given: Option<FunctionName>,
) -> Result<Option<TextId>, NoMemory>
    ensures makes { IfOk result (λ name. (w : World) → StandsFor heap.old w → Makes heap.old heap.new w (function_name written.now given) name) }
    ensures retains { Retains heap.old heap.new }
{
    match written {
        Some(units) => Ok(Some(intern(heap, units)?)),
        None => match given {
            Some(FunctionName::Text(name)) => Ok(Some(name)),
            Some(FunctionName::Key(prefix, key)) => name_of_key(heap, prefix, key),
            None => Ok(Some(heap.word(b"")?)),
        },
    }
}

/// A function expression, a method or an accessor is made, and then its name, where it has none of its own (15.2.5, 15.4.4).
pub(crate) fn make_function<L: Ledger>(
    heap: &mut Heap,
    script: &Checked,
    body: Running,
    cells: &Cells,
    name: Option<FunctionName>,
    function: FunctionNo,
    steps: &mut Steps<L>,
) -> Result<Plan, Stop>
    requires { function.0 < length script.now.functions }
    ensures plans { PlansAt script.now body cells.now heap.old heap.new (λ here. make_function here name function) result }
    ensures named { (l : Lists) → NamesPlan script.now l result }
    ensures retains { Retains heap.old heap.new }
{
    let facts = *script.function(function);
    let object = create_function(heap, function, facts, steps)?;
    match function_name(heap, &script.body(function).name, name)? {
        None => text_too_long(heap, script, body, cells, steps),
        Some(name) => {
            name_function(heap, object, facts, name, steps)?;
            Ok(Plan::Ends(Ending::Gives(Value::Object(object))))
        }
    }
}

// ---- declared functions

/// A declared function is that of its name: on the global object in a script (9.1.1.4.18), and else in the cell of the running body.
fn bind_declared<L: Ledger>(
    heap: &mut Heap,
    body: Running,
    cells: &Cells,
    declared: &DeclaredFunction,
    name: TextId,
    function: ObjectId,
    steps: &mut Steps<L>,
) -> Result<(), NoMemory>
    ensures brings { OnOk result ((script : Tree) (w : World) → StandsFor heap.old w → Brings heap.old heap.new w (λ next. bind_declared (context script body cells.now) declared.now name function (next (context script body cells.now))) (context script body cells.now)) }
    ensures retains { Retains heap.old heap.new }
{
    let value = Value::Object(function);
    match body.function {
        Some(_) => {
            heap.set_cell(bound_cell(cells, declared.named.binding), value);
            Ok(())
        }
        None => {
            let wanted = Descriptor {
                value: Some(value),
                writable: Some(true),
                get: None,
                set: None,
                enumerable: Some(true),
                configurable: Some(false),
            };
            let key = key_of(heap, name);
            heap.define_own(Intrinsic::Global.object(), key, &wanted, steps)?;
            Ok(())
        }
    }
}

/// A declared function is made after its turn. One that is not there is none.
fn declare_found<L: Ledger>(
    heap: &mut Heap,
    script: &Checked,
    body: Running,
    cells: &Cells,
    declared: &DeclaredFunction,
    steps: &mut Steps<L>,
) -> Result<(), NoMemory>
    ensures brings { OnOk result ((w : World) → StandsFor heap.old w → Brings heap.old heap.new w (λ next. declare_found (context script.now body cells.now) declared.now (slice_get script.now.functions declared.now.function.0) (next (context script.now body cells.now))) (context script.now body cells.now)) }
    ensures retains { Retains heap.old heap.new }
{
    match facts_at(script, declared.function) {
        None => Ok(()),
        Some(facts) => {
            let name = intern(heap, &declared.named.name)?;
            let function = function_made(heap, declared.function, facts, name, steps)?;
            bind_declared(heap, body, cells, declared, name, function, steps)
        }
    }
}

/// A declared function is made, with its turn, where it is the last one of its name.
fn declare_function<L: Ledger>(
    heap: &mut Heap,
    script: &Checked,
    body: Running,
    cells: &Cells,
    declared: &DeclaredFunction,
    steps: &mut Steps<L>,
) -> Result<(), Stop>
    ensures declares { (w : World) → StandsFor heap.old w → Declares (context script.now body cells.now) (declared.now ∷ []) heap.old heap.new w result }
    ensures retains { Retains heap.old heap.new }
{
    if !declared.is_last {
        return Ok(());
    }
    match heap.charge(1) {
        Err(_) => Err(Stop::Halted),
        Ok(()) => match declare_found(heap, script, body, cells, declared, steps) {
            Err(_) => Err(Stop::NoMemory),
            Ok(()) => Ok(()),
        },
    }
}

/// The declared functions of a body are made, each with its turn, where it is the last one of its name (10.2.11, 16.1.7).
///
/// Halted comes exactly where a turn does not fit.
pub(crate) fn declare_functions<L: Ledger>(
    heap: &mut Heap,
    script: &Checked,
    body: Running,
    cells: &Cells,
    code: &Body,
    steps: &mut Steps<L>,
) -> Result<(), Stop>
    ensures declares { (w : World) → StandsFor heap.old w → Declares (context script.now body cells.now) code.now.declared heap.old heap.new w result }
    ensures retains { Retains heap.old heap.new }
{
    let count = code.declared.len();
    let mut next = 0;
    'functions: while next < count {
        match declare_function(heap, script, body, cells, code.declared.at(next), steps) {
            Err(stop) => return Err(stop),
            Ok(()) => next += 1,
        }
    }
    Ok(())
}
