//! What parts of a script become.

use crate::MadePartList;
use es_tree::{Block, Catch, Declared, FunctionNo, Key, Named, NodeId, Property};

/// What one part of a script becomes in its tree.
#[derive(Drop)]
pub enum MadePart {
    /// A part that is left out.
    Nothing,
    /// A node of its own.
    Node(NodeId),
    /// An element that is left out.
    Hole,
    /// A name that is assigned to, which is no node.
    Name(Named),
    /// A lexical name, with its value.
    Bind(Declared),
    /// A property name.
    Key(Key),
    /// A property definition.
    Property(Property),
    /// The block of a `try` or of a catch.
    Block(Block),
    Catch(Catch),
    /// A declared function, which is no node.
    Function(FunctionNo, Named),
}

/// A part, or a list of parts.
#[derive(Drop)]
pub enum MadeParts {
    One(MadePart),
    Many(MadePartList),
}
