//! Blocks of raw words, for the fields of objects and for elements. Raw pointers stand here alone.
#![tactic(auto)]

mod block;
mod raw;

pub use block::Block;
