//! The parameters that an arguments object shares (ECMA-262, 10.4.4).

ghost use Rattle.std.specs.Prelude.{◌≡◌, Some};
ghost use Rattle.es_model.specs.World.{World};
ghost use Rattle.object_heap.specs.Stands.{StandsFor};
ghost use Rattle.arguments_exotic.specs.Arguments.{mapped, parameter_at, parameter_in, parameter_value};

use es_model::{ArgumentCells, CellNo, ObjectKind};
use object_heap::Heap;
use property_keys::{ObjectId, PropKey, Value};

/// A mapped index, with the cell of the parameter that it shares.
#[derive(Clone, Copy)]
pub(crate) struct Parameter {
    pub(crate) index: u32,
    pub(crate) cell: CellNo,
}

/// The parameter at a key of a list of cells.
#[tactic(auto, using(std::proofs::lemmas::Option::slice_get_past))]
fn parameter_at(cells: &ArgumentCells, key: PropKey) -> Option<Parameter>
    ensures { result ≡ parameter_at cells.now key }
{
    match key {
        PropKey::Index(index) => {
            if (index as usize) < cells.len() {
                parameter_in(index, *cells.at(index as usize))
            } else {
                None
            }
        }
        PropKey::Name(_) | PropKey::Sym(_) => None,
    }
}

fn parameter_in(index: u32, cell: Option<CellNo>) -> Option<Parameter>
    ensures { result ≡ parameter_in index (Some cell) }
{
    match cell {
        Some(cell) => Some(Parameter { index, cell }),
        None => None,
    }
}

/// The parameter that an index shares, and None where it is not mapped.
pub(crate) fn mapped(heap: &Heap, object: ObjectId, key: PropKey) -> Option<Parameter>
    ensures { (w : World) → StandsFor heap.now w → result ≡ mapped w.lists object key }
{
    match heap.kind(object) {
        ObjectKind::Arguments { cells } => parameter_at(cells, key),
        ObjectKind::Ordinary
        | ObjectKind::Function { .. }
        | ObjectKind::Builtin { .. }
        | ObjectKind::Array
        | ObjectKind::Text(_)
        | ObjectKind::Wrapper(_)
        | ObjectKind::Error
        | ObjectKind::Proxy { .. } => None,
    }
}

/// The value of a parameter.
pub(crate) fn parameter_value(heap: &Heap, parameter: Parameter) -> Value
    ensures { (w : World) → StandsFor heap.now w → result ≡ parameter_value w.lists parameter }
{
    match heap.cell(parameter.cell) {
        Some(value) => value,
        None => Value::Undefined,
    }
}
