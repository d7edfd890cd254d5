//! The kinds of objects, with their inner slots.

use crate::ArgumentCells;
use es_tree::FunctionNo;
use property_keys::{ObjectId, TextId, Value};

/// The number of a cell: its place in the list of cells. A cell is a binding (ECMA-262, 9.1.1.1), and empty before its initialisation.
#[derive(Clone, Copy, Debug, PartialEq, Eq)]
pub struct CellNo(pub u32);

/// What an object is, with its inner slots (ECMA-262, 6.1.7.2).
#[derive(Drop)]
pub enum ObjectKind {
    Ordinary,
    /// A function of the script.
    Function {
        function: FunctionNo,
        constructor: bool,
        strict: bool,
    },
    /// A built-in function, by its row. `proxy` is there for a revoke function alone, and is its Proxy.
    Builtin {
        row: u32,
        constructor: bool,
        proxy: Option<ObjectId>,
    },
    Array,
    /// A String object, with its text.
    Text(TextId),
    /// A Number, Boolean or Symbol object, with its value.
    Wrapper(Value),
    Arguments {
        cells: ArgumentCells,
    },
    Error,
    /// A Proxy. A revoked one has no target and no handler.
    Proxy {
        target: Option<ObjectId>,
        handler: Option<ObjectId>,
        callable: bool,
        constructor: bool,
    },
}

/// The kinds of errors (ECMA-262, 20.5) that the profile has.
#[derive(Clone, Copy, Debug, PartialEq, Eq)]
pub enum ErrorKind {
    Error,
    TypeError,
    RangeError,
    ReferenceError,
    SyntaxError,
}
