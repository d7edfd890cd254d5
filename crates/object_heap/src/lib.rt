//! The objects of a run with their properties, and its texts, Symbols, cells and turns.
#![tactic(auto)]

mod beside;
mod cells;
mod creation;
mod errors;
mod heap;
mod held;
mod laws;
mod listing;
mod objects;
mod origins;
mod properties;
mod property_list;
mod reading;
mod starting;

pub use heap::Heap;
pub use laws::{
    heaps_follow_in_turn, heaps_retain_in_turn, indices_ascend, refusals_change_nothing,
    stops_are_turns,
};
pub use origins::{constructor_places, literal_places};
