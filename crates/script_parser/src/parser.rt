//! The parser: a stack of what is expected, and a stack of the trees so far.

ghost use Rattle.std.specs.Prelude.{◌≡◌, [], IfOk};
ghost use Rattle.script_parser.specs.Progress.{Standing};

use property_keys::NoMemory;
use script_grammar::{Loose, ParseNode, Symbol};
use std::alloc::Global;

mod expressions;
mod functions;
mod operators;
mod reading;
mod settling;
mod signs;
mod stages;
mod statements;
mod tails;
mod trees;

pub use reading::Reading;

/// The stacks, with the top at the end. Values are numbers of nodes. What the last token put on the stack of symbols is pending, so that a token
/// that is refused leaves no trace.
#[derive(Drop)]
pub struct Parser {
    symbols: Vec<Symbol>,
    pending: Vec<Symbol>,
    nodes: Vec<ParseNode>,
    values: Vec<u32>,
}

impl Parser {
    /// A parser that has read nothing.
    pub fn start(alloc: Global) -> Result<Parser, NoMemory>
        ensures { IfOk result (λ p. Standing [] p) }
    {
        let mut parser = Parser {
            symbols: Vec::new(alloc),
            pending: Vec::new(alloc),
            nodes: Vec::new(alloc),
            values: Vec::new(alloc),
        };
        parser.begin_list(&[Symbol::Loose(Loose::Items(true), 0)])?;
        Ok(parser)
    }

    /// The nodes that were made.
    pub fn into_nodes(self) -> Vec<ParseNode>
        ensures { result ≡ self.nodes }
    {
        let Parser {
            symbols: _,
            pending: _,
            nodes,
            values: _,
        } = self;
        nodes
    }
}
