//! The words of the command, read as one simple command: what they order, or that they are wrong.
#![tactic(auto)]

mod numbers;
mod orders;
mod reading;

pub use orders::{Order, Source, WordsStop};
pub use reading::read_order;
