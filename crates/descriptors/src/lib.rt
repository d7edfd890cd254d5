//! Property descriptors, and what a definition makes of a property (ECMA-262, 6.2.6 and 10.1.6.3).
//!
//! No function here takes memory.
#![tactic(auto)]

mod completing;
mod fields;
pub mod laws;
mod property;
mod refusals;
mod unchanged;
mod validation;

pub use completing::{complete, from_complete};
pub use fields::{Descriptor, is_mixed};
pub use property::Complete;
pub use validation::{Verdict, is_compatible, validate};
