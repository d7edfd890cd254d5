//! Values, property keys, texts, Symbols and the counter of steps, on which every other crate stands.
#![tactic(auto)]

mod blanks;
mod decimals;
mod faults;
mod hashing;
mod identifiers;
mod indices;
mod keys;
pub mod laws;
mod numbers;
mod steps;
mod symbols;
mod texts;
mod units;
mod values;

pub use faults::{KeyFault, NoMemory, NotWhole};
pub use hashing::RunHashing;
pub use identifiers::{ObjectId, SymbolId, TextId};
pub use keys::{Attributes, PropKey};
pub use steps::{Counting, Ledger, Steps};
pub use symbols::Symbols;
pub use texts::Texts;
pub use units::{MOST_UNITS, Units};
pub use values::{MOST_WHOLE, Value, same_value};
