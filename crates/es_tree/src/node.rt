//! The nodes of a tree.

use crate::{Access, Operator, Primary, Statement};

/// A node of the tree, which is charged one turn when its evaluation starts.
#[derive(Drop)]
pub enum Node {
    Statement(Statement),
    Operator(Operator),
    Access(Access),
    Primary(Primary),
}
