//! References, and what is called or constructed.

use es_model::CellNo;
use es_tree::SiteId;
use property_keys::{PropKey, TextId, Value};

/// A Reference Record (ECMA-262, 6.2.5): what a name or a member access was resolved to.
#[derive(Clone, Copy)]
pub enum Reference {
    /// A binding of the script, by its cell.
    Cell {
        name: TextId,
        cell: CellNo,
        constant: bool,
    },
    /// A name of the global object, and whether it was there when it was resolved.
    Global {
        name: TextId,
        key: PropKey,
        present: bool,
    },
    /// The arguments object of the running function.
    Arguments {
        value: Value,
    },
    /// The running function, by the name of its expression.
    Callee {
        name: TextId,
        value: Value,
    },
    /// A property of a value, with the sites at which it is read and written.
    Property {
        base: Value,
        key: PropKey,
        read: Option<SiteId>,
        write: Option<SiteId>,
    },
}

/// What is called with the arguments of a call (13.3.6), or constructed with those of a `new` (13.3.5).
#[derive(Clone, Copy)]
pub enum Invocation {
    Call { function: Value, this: Value },
    Construct { constructor: Value },
}

/// An operator on numbers, of which the first is one on texts too (13.15.3).
#[derive(Clone, Copy)]
pub enum Arithmetic {
    Add,
    Subtract,
    Multiply,
    Remainder,
}

/// What is done with the result of an arithmetic operator: it is the value of the expression, or it is written too, as by `+=`.
#[derive(Clone, Copy)]
pub enum Finish {
    Give,
    Put(Reference),
}
