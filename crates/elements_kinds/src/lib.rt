//! The indexed properties of an object: a store of words, or a dictionary.
#![tactic(auto)]

mod elements;
mod form;
mod key_indices;
mod kinds;
mod maps;
mod plain_properties;
mod slots;
mod store;
mod words;

pub use elements::Elements;
pub use key_indices::KeyIndices;
pub use kinds::ElementsKind;
