//! The running body, and the parts of a tree that have statements.

use es_tree::{FunctionNo, NodeId};
use property_keys::{ObjectId, PropKey, TextId, Value};

/// The body that runs: its function, or none where it is the script's own code, and what is the same in all of it.
///
/// `constructs` is the new object where the body runs as a constructor: it is the result, where the body returns no other object (ECMA-262, 10.2.2).
#[derive(Clone, Copy)]
pub struct Running {
    pub function: Option<FunctionNo>,
    pub callee: Option<ObjectId>,
    pub arguments: Option<ObjectId>,
    pub this: Value,
    pub constructs: Option<ObjectId>,
    pub strict: bool,
}

/// A list of statements of the tree.
#[derive(Clone, Copy)]
pub enum Part {
    Script,
    Body(FunctionNo),
    Block(NodeId),
    Tried(NodeId),
    Caught(NodeId),
    Finally(NodeId),
}

/// What stands before the key in the name of a function (ECMA-262, 10.2.9, step 5).
#[derive(Clone, Copy)]
pub enum NamePrefix {
    Nothing,
    Get,
    Set,
}

/// What the name of a function is made of that has none of its own, once the function is there (10.2.9): a text, or a key behind a prefix.
#[derive(Clone, Copy)]
pub enum FunctionName {
    Text(TextId),
    Key(NamePrefix, PropKey),
}
