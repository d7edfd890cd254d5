//! What is to be done next.

use crate::MadeParts;
use script_rules::{Role, ScopeId};

/// What stands around a part: its innermost scope, whether its code is strict, and what it is to the part around it.
#[derive(Clone, Copy)]
pub struct Setting {
    pub scope: ScopeId,
    pub strict: bool,
    pub role: Role,
}

/// What is done next, to the node with a number.
#[derive(Clone, Copy)]
pub enum Task {
    Visit(u32, Setting),
    /// The parts of the node are done. The second setting is that around its parts.
    Finish(u32, Setting, Setting),
}

/// What a part became, and its first token.
#[derive(Drop)]
pub struct StackedPart {
    pub value: MadeParts,
    pub first: Option<u32>,
}
