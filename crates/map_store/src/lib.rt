//! The maps of objects. A map says which names an object has, in order, with their flags and representations.
//! Maps along a chain share one array of entries, and no call changes the entries of a map that is there.
#![tactic(auto)]

mod arrays;
mod entries;
mod finding;
mod maps;

pub use entries::{Entry, Kind, Representation};
pub use maps::Maps;

/// The number of a map.
#[derive(Clone, Copy, Debug, PartialEq, Eq)]
pub struct MapId(pub u32);

/// The number of an origin: where an object comes from.
#[derive(Clone, Copy, Debug, PartialEq, Eq)]
pub struct OriginId(pub u32);

#[cfg(test)]
mod tests;
