//! Operators and accesses (13.3 to 13.15).

use crate::{Items, NodeId, SiteId, Target};
use property_keys::Units;

/// An operator of an assignment (ECMA-262, 13.15).
#[derive(Clone, Copy, Debug, PartialEq, Eq)]
pub enum AssignOperator {
    Plain,
    Add,
    Subtract,
    Multiply,
    Remainder,
}

/// An operator between two operands that are both evaluated (13.7 to 13.11).
#[derive(Clone, Copy, Debug, PartialEq, Eq)]
pub enum BinaryOperator {
    Multiply,
    Remainder,
    Add,
    Subtract,
    Less,
    Greater,
    AtMost,
    AtLeast,
    InstanceOf,
    In,
    Equal,
    NotEqual,
    StrictlyEqual,
    NotStrictlyEqual,
}

/// An operator whose right operand is not always evaluated (13.13).
#[derive(Clone, Copy, Debug, PartialEq, Eq)]
pub enum ShortOperator {
    And,
    Or,
    Coalesce,
}

/// An operator before its operand (13.5).
#[derive(Clone, Copy, Debug, PartialEq, Eq)]
pub enum UnaryOperator {
    Delete,
    Void,
    Typeof,
    Plus,
    Minus,
    Not,
}

/// An operation (13.4 to 13.16).
#[derive(Drop)]
pub enum Operator {
    /// A list of two or more.
    Comma(Items<NodeId>),
    Assign {
        operator: AssignOperator,
        target: Target,
        value: NodeId,
    },
    Update {
        increment: bool,
        prefix: bool,
        target: Target,
    },
    Conditional {
        test: NodeId,
        then: NodeId,
        otherwise: NodeId,
    },
    Short {
        operator: ShortOperator,
        left: NodeId,
        right: NodeId,
    },
    Binary {
        operator: BinaryOperator,
        left: NodeId,
        right: NodeId,
    },
    Unary {
        operator: UnaryOperator,
        operand: NodeId,
    },
}

/// A member access, a call or a `new` (13.3). An access has a site where it is read and one where it is written; the target of `delete` has none.
#[derive(Drop)]
pub enum Access {
    Member {
        base: NodeId,
        name: Units,
        read: Option<SiteId>,
        write: Option<SiteId>,
    },
    Index {
        base: NodeId,
        key: NodeId,
        read: Option<SiteId>,
        write: Option<SiteId>,
    },
    Call {
        callee: NodeId,
        arguments: Items<NodeId>,
    },
    New {
        callee: NodeId,
        arguments: Items<NodeId>,
    },
}
