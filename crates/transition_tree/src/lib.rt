//! The tree of maps: which map an object goes to by a step, with at most one live map for each path.
#![tactic(auto)]

mod edges;
mod following;
pub mod laws;
mod paths;
mod places;
mod table;
mod tree;

pub use paths::{Path, Step};
pub use tree::Tree;
