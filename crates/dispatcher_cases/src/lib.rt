//! Requests that are served to their end, with the lines that they print. It has no code but tests, so that no crate below is proved twice.
#![tactic(auto)]

#[cfg(test)]
mod tests;
