//! Objects whose properties are looked up by name and not by a map: an ordered list of distinct keys with properties.
#![tactic(auto)]

mod dictionary;
mod numbers;

pub use dictionary::Dictionary;
