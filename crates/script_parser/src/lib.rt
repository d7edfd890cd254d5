//! The script of tokens, or the first fault of the grammar.
#![tactic(auto)]

mod kinds;
mod leaves;
mod parser;
mod script;

pub use script::parse;
