//! What is known of functions, object literals and sites.

use es_source::Place;

/// What is known of a function of the script: the place of its first token, how many parameters it has, at how many distinct names its own body
/// assigns to `this.N`, and whether it can construct and is strict.
#[derive(Clone, Copy, Debug, PartialEq, Eq)]
pub struct FunctionFacts {
    pub place: Place,
    pub parameters: u32,
    pub this_names: u32,
    pub constructor: bool,
    pub strict: bool,
}

/// What is known of an object literal: its place, and how many property definitions it has.
#[derive(Clone, Copy, Debug, PartialEq, Eq)]
pub struct LiteralFacts {
    pub place: Place,
    pub definitions: u32,
}

/// What is known of a member access: the place of its `.` or `[`, and whether it writes.
#[derive(Clone, Copy, Debug, PartialEq, Eq)]
pub struct SiteFacts {
    pub place: Place,
    pub write: bool,
}
