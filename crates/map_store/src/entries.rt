//! The entries of maps.

use property_keys::{Attributes, PropKey};

/// Whether a property holds a value, or functions that get and set it (ECMA-262, 6.1.7.1).
#[derive(Clone, Copy, Debug, PartialEq, Eq)]
pub enum Kind {
    Stored,
    Accessor,
}

/// How the word of a field stands for its content.
#[derive(Clone, Copy, Debug, PartialEq, Eq)]
pub enum Representation {
    /// No value was seen yet.
    None,
    /// A whole number of 32 bits.
    Smi,
    /// A whole number.
    Whole,
    /// An object.
    Ref,
    /// Any value.
    Tagged,
    /// The functions of an accessor property.
    Pair,
}

/// A name of a map. `place` says which field of the object belongs to it, from 0.
#[derive(Clone, Copy, Debug, PartialEq, Eq)]
pub struct Entry {
    pub key: PropKey,
    pub kind: Kind,
    pub attributes: Attributes,
    pub representation: Representation,
    pub place: u32,
}
