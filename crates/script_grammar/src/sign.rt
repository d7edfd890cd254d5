//! Tokens, and semicolons that are put in.

use crate::Kind;

/// What is read next: a token of the file, with its number from 0 and whether a line break stands before it, or a semicolon that is put in.
#[derive(Clone, Copy)]
pub enum Sign {
    Token {
        kind: Kind,
        number: u32,
        after_break: bool,
    },
    Inserted,
}
