//! Names with what they are bound to.

use crate::NodeId;
use property_keys::Units;

/// Where the value of a name is found.
#[derive(Clone, Copy, Debug, PartialEq, Eq)]
pub enum Binding {
    /// On the global object: the name has no binding of the script.
    Global,
    /// In the cell with that number, a lexical name of the script's top scope.
    Top { cell: u32, constant: bool },
    /// In a cell of the body that runs. The names of a body that are in force at some point have places from 0, those of an outer scope before those of an inner one.
    Own { place: u32, constant: bool },
    /// The arguments object of the running function.
    Arguments,
    /// The running function, by the name of its expression.
    Callee,
}

/// A name with its binding.
#[derive(Drop)]
pub struct Named {
    pub name: Units,
    pub binding: Binding,
}

/// What is assigned to or updated. A name here is no node of its own; a member access is.
#[derive(Drop)]
pub enum Target {
    Name(Named),
    Access(NodeId),
}
