//! The body of a function, or of the script.

use crate::{FunctionNo, Items, Named, NodeId};
use property_keys::Units;

/// A function that is declared in a script or in a body, and whether none of its name is declared after it (ECMA-262, 10.2.11 and 16.1.7): only the
/// last one of a name is made.
#[derive(Drop)]
pub struct DeclaredFunction {
    pub function: FunctionNo,
    pub named: Named,
    pub is_last: bool,
}

/// The code of a function, or of the script itself.
#[derive(Drop)]
pub struct Body {
    /// The name that is written at the function.
    pub name: Option<Units>,
    /// How many names its scope has: the parameters first, then the declared functions that are no parameters, then the lexical names. The script's scope
    /// has lexical names alone.
    pub names: u32,
    /// Whether the code uses the name `arguments`, outside of the functions in it.
    pub arguments: bool,
    /// The declared functions, in the order of the source.
    pub declared: Items<DeclaredFunction>,
    /// The statements and lexical declarations.
    pub items: Items<NodeId>,
}
