//! The static rules of a script.

mod code;
mod duplicates;
mod first;
mod order;
mod rules;
mod steps;
mod visits;
mod walk;

pub use first::static_fault;
