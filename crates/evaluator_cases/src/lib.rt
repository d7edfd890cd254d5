//! Scripts with what they print and how they end. It has no code but tests, so that none of the crates below is proved twice.
#![tactic(auto)]

#[cfg(test)]
mod tests;
