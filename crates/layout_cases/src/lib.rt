//! Rows for the crates of the layout: blocks, maps, origins, trees, representations, dictionaries, elements and validity cells. It has no code but tests, so that
//! none of those crates is proved twice.
#![tactic(auto)]

#[cfg(test)]
mod tests;
