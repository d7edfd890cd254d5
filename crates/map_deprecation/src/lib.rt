//! The representations of fields: what a class of values needs, the words that stand for values, what changes between two
//! maps of one path, and how a tree widens a representation and makes the maps anew that died by it.
#![tactic(auto)]

mod classes;
mod generalising;
pub mod laws;
mod moves;
mod updating;
mod words;

pub use classes::{Class, class_of, join, takes};
pub use generalising::generalise;
pub use moves::{Move, Moves, plan};
pub use updating::updated;
pub use words::{decode, encode};
