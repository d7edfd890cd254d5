//! Bodies of functions are entered (ECMA-262, 10.2.11).

ghost use Rattle.std.specs.Prelude.{◌≡◌, OnOk, slice_index_or};
ghost use Rattle.property_keys.specs.declared.values.Value.TheVariants as values;
ghost use Rattle.es_model.specs.World.{World};
ghost use Rattle.evaluator.specs.Contexts.{context};
ghost use Rattle.evaluator.specs.Functions.{bind_parameters, enter_function, running};
ghost use Rattle.evaluator.specs.Entering.{Brings, Enters};
ghost use Rattle.object_heap.specs.Retains.{Retains};
ghost use Rattle.object_heap.specs.Stands.{StandsFor};

use crate::cells::{Cells, make_cells};
use crate::functions::declare_functions;
use es_model::{Running, Stop, Values};
use es_tree::{Body, Checked, FunctionFacts, FunctionNo};
use object_heap::Heap;
use property_keys::{Ledger, NoMemory, ObjectId, Steps, Value};

/// The argument at a number, or undefined.
fn argument_at(arguments: &Values, i: usize) -> Value
    ensures { result ≡ slice_index_or arguments.now i values.Undefined }
{
    if i < arguments.len() {
        *arguments.at(i)
    } else {
        Value::Undefined
    }
}

/// The parameters get the arguments, and undefined where there are fewer (10.2.11, steps 24 to 26).
fn bind_parameters(
    heap: &mut Heap,
    cells: &mut Cells,
    parameters: u32,
    arguments: &Values,
) -> Result<(), NoMemory>
    ensures brings { OnOk result ((w : World) → StandsFor heap.old w → Brings heap.old heap.new w (bind_parameters parameters arguments.now cells.old) cells.new) }
    ensures retains { Retains heap.old heap.new }
{
    let mut next = 0;
    'parameters: while next < parameters {
        let value = argument_at(arguments, next as usize);
        let cell = heap.new_cell(Some(value))?;
        cells.push(cell)?;
        next += 1;
    }
    Ok(())
}

/// FunctionDeclarationInstantiation (10.2.11): the parameters, then the other names without a value, and then the declared functions, each in its name's cell.
///
/// Halted comes exactly where the turn of a declared function does not fit.
pub(crate) fn enter_function<L: Ledger>(
    heap: &mut Heap,
    script: &Checked,
    body: Running,
    cells: &mut Cells,
    facts: FunctionFacts,
    code: &Body,
    arguments: &Values,
    steps: &mut Steps<L>,
) -> Result<(), Stop>
    ensures enters { (w : World) → StandsFor heap.old w → Enters heap.old heap.new w (enter_function (context script.now body cells.old) facts code.now arguments.now) (context script.now body cells.new) result }
    ensures retains { Retains heap.old heap.new }
{
    bind_parameters(heap, cells, facts.parameters, arguments)?;
    let others = code.names.saturating_sub(facts.parameters);
    make_cells(heap, cells, others)?;
    declare_functions(heap, script, body, cells, code, steps)
}

/// The body of a function that runs: the function, its object, the receiver, and the object that it makes as a constructor.
pub(crate) fn running(
    function: FunctionNo,
    facts: FunctionFacts,
    callee: ObjectId,
    this: Value,
    constructs: Option<ObjectId>,
) -> Running
    ensures { result ≡ running function facts callee this constructs }
{
    Running {
        function: Some(function),
        callee: Some(callee),
        arguments: None,
        this,
        constructs,
        strict: facts.strict,
    }
}
