//! Rows for the crates that all others stand on: values, texts and keys, files and sinks, definitions of properties, start objects. It has no code but tests, so
//! that none of those crates is proved twice.
#![tactic(auto)]

#[cfg(test)]
mod tests;
