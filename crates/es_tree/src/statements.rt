//! Statements and declarations (clause 14).

use crate::{Items, Named, NodeId};

/// One name of a lexical declaration, with its value, if it has one.
#[derive(Drop)]
pub struct Declared {
    pub named: Named,
    pub value: Option<NodeId>,
}

/// The statements and declarations of a block, and how many lexical names its scope has.
#[derive(Drop)]
pub struct Block {
    pub names: u32,
    pub items: Items<NodeId>,
}

/// A catch, with its parameter, if it has one.
#[derive(Drop)]
pub struct Catch {
    pub parameter: Option<Named>,
    pub block: Block,
}

/// A statement or a lexical declaration (ECMA-262, clause 14).
#[derive(Drop)]
pub enum Statement {
    Block(Block),
    Lexical {
        constant: bool,
        names: Items<Declared>,
    },
    Empty,
    Expression(NodeId),
    If {
        test: NodeId,
        then: NodeId,
        otherwise: Option<NodeId>,
    },
    While {
        test: NodeId,
        body: NodeId,
    },
    /// The first part is an expression or a lexical declaration, whose names are those of the head's scope.
    For {
        names: u32,
        first: Option<NodeId>,
        test: Option<NodeId>,
        step: Option<NodeId>,
        body: NodeId,
    },
    Break,
    Continue,
    Return(Option<NodeId>),
    Throw(NodeId),
    Try {
        block: Block,
        catch: Option<Catch>,
        finally: Option<Block>,
    },
}
