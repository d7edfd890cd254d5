//! The generated script: a script of any length that makes many objects of different shapes.
#![tactic(auto)]

mod generating;

pub use generating::generated;

#[cfg(test)]
mod tests;
