//! Rows for the object heap, for functions of the script up to their bodies, for the ordinary methods and for what calls the heap. It has no code but tests, so
//! that none of those crates is proved twice.
#![tactic(auto)]

#[cfg(test)]
mod tests;
