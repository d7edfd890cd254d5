//! The numbers by which a tree names its parts.

/// The number of a node of the tree: its place in the list of nodes.
#[derive(Clone, Copy, Debug, PartialEq, Eq)]
pub struct NodeId(pub u32);

/// The number of a function of the script.
#[derive(Clone, Copy, Debug, PartialEq, Eq)]
pub struct FunctionNo(pub u32);

/// The number of an object literal of the script.
#[derive(Clone, Copy, Debug, PartialEq, Eq)]
pub struct LiteralNo(pub u32);

/// The number of a member access that is read or written.
#[derive(Clone, Copy, Debug, PartialEq, Eq)]
pub struct SiteId(pub u32);
