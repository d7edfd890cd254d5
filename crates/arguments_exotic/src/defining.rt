//! [[DefineOwnProperty]] (ECMA-262, 10.4.4.2).

ghost use Rattle.std.specs.Prelude.{◌≡◌};
ghost use Rattle.descriptors.specs.Kinds.{is_accessor_descriptor, is_data_descriptor};
ghost use Rattle.es_model.specs.World.{World};
ghost use Rattle.object_heap.specs.Retains.{Retains};
ghost use Rattle.object_heap.specs.Stands.{StandsFor};
ghost use Rattle.object_heap.specs.Turns.{KeepsNamed};
ghost use Rattle.ordinary_object.specs.Names.{names_of};
ghost use Rattle.arguments_exotic.specs.Arguments.{arguments_define_own_property, define_parameter, forbids_writing, new_arg_desc, parameter_defined, unmap, unmap_unwritable, value_defined};
ghost use Rattle.arguments_exotic.specs.Turns.{StopsAt};

use crate::parameter::{Parameter, mapped, parameter_value};
use crate::turns::ArgumentsFrame;
use descriptors::Descriptor;
use es_model::{Completion, Reply, Stop, Turn};
use object_heap::Heap;
use property_keys::{Ledger, ObjectId, PropKey, Steps};

/// IsAccessorDescriptor (6.2.6.1).
fn is_accessor_descriptor(wanted: &Descriptor) -> bool
    ensures { result ≡ is_accessor_descriptor wanted.now }
{
    wanted.get.is_some() || wanted.set.is_some()
}

/// IsDataDescriptor (6.2.6.2).
fn is_data_descriptor(wanted: &Descriptor) -> bool
    ensures { result ≡ is_data_descriptor wanted.now }
{
    wanted.value.is_some() || wanted.writable.is_some()
}

/// Whether the descriptor says that the property is not writable.
fn forbids_writing(wanted: &Descriptor) -> bool
    ensures { result ≡ forbids_writing wanted.now }
{
    match wanted.writable {
        Some(writable) => !writable,
        None => false,
    }
}

/// Steps 3 and 4, where the key is mapped: the value of the parameter is wanted too, where writing is forbidden and no value is wanted.
fn new_arg_desc(heap: &Heap, parameter: Parameter, wanted: Descriptor) -> Descriptor
    ensures { (w : World) → StandsFor heap.now w → result ≡ new_arg_desc w.lists parameter wanted }
{
    if is_data_descriptor(&wanted) && (wanted.value.is_none() && forbids_writing(&wanted)) {
        let value = parameter_value(heap, parameter);
        Descriptor {
            value: Some(value),
            ..wanted
        }
    } else {
        wanted
    }
}

/// An index shares no parameter any more, and the definition or deletion is done.
pub(crate) fn unmap(
    heap: &mut Heap,
    object: ObjectId,
    parameter: Parameter,
) -> Result<Turn<ArgumentsFrame>, Stop>
    ensures stops { StopsAt heap.old heap.new (unmap object parameter) result }
    ensures named { (w : World) → KeepsNamed names_of w result }
    ensures retains { Retains heap.old heap.new }
{
    heap.unmap(object, parameter.index);
    Ok(Turn::Done(Completion::Normal(Reply::Flag(true))))
}

/// Step 6.b.ii.
fn unmap_unwritable(
    heap: &mut Heap,
    object: ObjectId,
    parameter: Parameter,
    wanted: &Descriptor,
) -> Result<Turn<ArgumentsFrame>, Stop>
    ensures stops { StopsAt heap.old heap.new (unmap_unwritable object parameter wanted.now) result }
    ensures named { (w : World) → KeepsNamed names_of w result }
    ensures retains { Retains heap.old heap.new }
{
    if forbids_writing(wanted) {
        unmap(heap, object, parameter)
    } else {
        Ok(Turn::Done(Completion::Normal(Reply::Flag(true))))
    }
}

/// Step 6.b: the value is written to the parameter before an unmapping.
#[tactic(auto, using(object_heap::specs::Stands::goes_none, object_heap::specs::Stands::goes_then, object_heap::specs::Stands::halts_at, object_heap::specs::Stops::stops_then, object_heap::proofs::Retaining::retains_none, object_heap::proofs::Retaining::retains_then, object_heap::proofs::Turns::named_done))]
fn value_defined(
    heap: &mut Heap,
    object: ObjectId,
    parameter: Parameter,
    wanted: &Descriptor,
) -> Result<Turn<ArgumentsFrame>, Stop>
    ensures stops { StopsAt heap.old heap.new (value_defined object parameter wanted.now (wanted.now).value) result }
    ensures named { (w : World) → KeepsNamed names_of w result }
    ensures retains { Retains heap.old heap.new }
{
    match wanted.value {
        Some(value) => {
            heap.set_cell(parameter.cell, value);
            unmap_unwritable(heap, object, parameter, wanted)
        }
        None => unmap_unwritable(heap, object, parameter, wanted),
    }
}

/// Step 6.
fn parameter_defined(
    heap: &mut Heap,
    object: ObjectId,
    parameter: Parameter,
    wanted: &Descriptor,
) -> Result<Turn<ArgumentsFrame>, Stop>
    ensures stops { StopsAt heap.old heap.new (parameter_defined object parameter wanted.now) result }
    ensures named { (w : World) → KeepsNamed names_of w result }
    ensures retains { Retains heap.old heap.new }
{
    if is_accessor_descriptor(wanted) {
        unmap(heap, object, parameter)
    } else {
        value_defined(heap, object, parameter, wanted)
    }
}

/// Steps 3 to 7, where the key is mapped.
#[tactic(auto, using(object_heap::specs::Stands::goes_none, object_heap::specs::Stands::goes_then, object_heap::specs::Stands::halts_at, object_heap::specs::Stops::stops_then, object_heap::proofs::Retaining::retains_none, object_heap::proofs::Retaining::retains_then, object_heap::proofs::Turns::named_done, object_heap::proofs::Turns::named_stop))]
fn define_parameter<L: Ledger>(
    heap: &mut Heap,
    object: ObjectId,
    key: PropKey,
    wanted: &Descriptor,
    parameter: Parameter,
    steps: &mut Steps<L>,
) -> Result<Turn<ArgumentsFrame>, Stop>
    ensures stops { StopsAt heap.old heap.new (define_parameter object key wanted.now parameter) result }
    ensures named { (w : World) → KeepsNamed names_of w result }
    ensures retains { Retains heap.old heap.new }
{
    let completed = new_arg_desc(heap, parameter, *wanted);
    if heap.define_own(object, key, &completed, steps)? {
        parameter_defined(heap, object, parameter, wanted)
    } else {
        Ok(Turn::Done(Completion::Normal(Reply::Flag(false))))
    }
}

/// [[DefineOwnProperty]] (10.4.4.2).
pub(crate) fn arguments_define_own_property<L: Ledger>(
    heap: &mut Heap,
    object: ObjectId,
    key: PropKey,
    wanted: &Descriptor,
    steps: &mut Steps<L>,
) -> Result<Turn<ArgumentsFrame>, Stop>
    ensures stops { StopsAt heap.old heap.new (arguments_define_own_property object key wanted.now) result }
    ensures named { (w : World) → KeepsNamed names_of w result }
    ensures retains { Retains heap.old heap.new }
{
    match mapped(heap, object, key) {
        None => {
            let is_defined = heap.define_own(object, key, wanted, steps)?;
            Ok(Turn::Done(Completion::Normal(Reply::Flag(is_defined))))
        }
        Some(parameter) => define_parameter(heap, object, key, wanted, parameter, steps),
    }
}
