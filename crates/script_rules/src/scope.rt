//! A scope with its names.

use crate::ScopeNames;
use property_keys::Units;

/// What a scope belongs to.
#[derive(Clone, Copy)]
pub enum Owner {
    /// The script itself.
    Script,
    /// A function, with its parameters.
    Function,
    /// A block, the head of a `for` or a catch.
    Part,
}

/// A scope: what it belongs to, its names in the order in which the standard makes their bindings, and the own name of a function expression.
#[derive(Drop)]
pub struct Scope {
    pub owner: Owner,
    pub names: ScopeNames,
    pub callee: Option<Units>,
}
