//! The nodes of the grammar's tree.

use crate::{Atom, Pair, Quad, Triple, Wrap};

/// A node of a script: its label and the numbers of its parts, each below its own.
#[derive(Clone, Copy)]
pub enum ParseNode {
    Atom(Atom),
    Wrap(Wrap, u32),
    Pair(Pair, u32, u32),
    Triple(Triple, u32, u32, u32),
    Quad(Quad, u32, u32, u32, u32),
}
