//! Rows for the whole reader: sources with their tokens, trees and faults.
#![tactic(auto)]

#[cfg(test)]
mod tests;
