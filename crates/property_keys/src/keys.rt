//! Property keys and attributes (6.1.7).

use crate::{SymbolId, TextId};

/// A property key (ECMA-262, 6.1.7): an array index, another text, or a Symbol.
///
/// An `Index` is at most 2^32 - 2, and the text of a `Name` is no array index.
#[derive(Clone, Copy, Debug, PartialEq, Eq, Hash)]
pub enum PropKey {
    Index(u32),
    Name(TextId),
    Sym(SymbolId),
}

/// The three flags of a stored property (ECMA-262, 6.1.7.1).
#[derive(Clone, Copy, Debug, PartialEq, Eq)]
pub struct Attributes {
    pub writable: bool,
    pub enumerable: bool,
    pub configurable: bool,
}
