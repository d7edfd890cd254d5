//! Primary expressions and property definitions (13.2).

use crate::{FunctionNo, Items, LiteralNo, Named, NodeId};
use property_keys::Units;

/// The key of a property definition.
#[derive(Drop)]
pub enum Key {
    Fixed(Units),
    Computed(NodeId),
}

/// A property definition (ECMA-262, 13.2.5). A method or an accessor is a node of its own.
#[derive(Drop)]
pub enum Property {
    Value { key: Key, value: NodeId },
    Shorthand(Named),
    Prototype(NodeId),
    Method { key: Key, method: NodeId },
    Getter { key: Key, method: NodeId },
    Setter { key: Key, method: NodeId },
}

/// A primary expression (13.2), or a method or an accessor when it is made (15.4).
#[derive(Drop)]
pub enum Primary {
    This,
    Name(Named),
    Number(i64),
    Text(Units),
    Null,
    Bool(bool),
    /// The elements, with `None` for a hole.
    Array(Items<Option<NodeId>>),
    Object {
        literal: LiteralNo,
        properties: Items<Property>,
    },
    Function(FunctionNo),
    Method(FunctionNo),
}
