//! Tokens (clause 12).

use crate::Place;
use property_keys::Units;

/// What a token is (ECMA-262, 12.7 to 12.9).
#[derive(Debug, PartialEq, Drop)]
pub enum TokenKind {
    /// A name or a word, in code units.
    Name(Units),
    /// A number of at most 2^53 - 1.
    Number(i64),
    /// A text's value in code units, and whether its source between the quotes is exactly `use strict`.
    Text { units: Units, strict: bool },
    /// A punctuator, in code units.
    Punctuator(Units),
}

/// A token, with the place at which it begins.
#[derive(Debug, PartialEq, Drop)]
pub struct Token {
    pub kind: TokenKind,
    pub place: Place,
    /// Whether a line terminator stands between the token before and this one.
    pub after_break: bool,
}
