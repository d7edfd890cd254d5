//! The leaves of a script.

use es_source::Place;
use property_keys::Units;

/// What a token of a script says.
#[derive(Drop)]
pub enum LeafKind {
    /// A name or a word.
    Name(Units),
    Number(i64),
    /// A text's value, and whether its source between the quotes is exactly `use strict`.
    Text { units: Units, strict: bool },
    Punctuator,
}

/// A token of a script, with the place at which it begins.
#[derive(Drop)]
pub struct Leaf {
    pub kind: LeafKind,
    pub place: Place,
}
