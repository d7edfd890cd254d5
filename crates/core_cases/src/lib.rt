//! Rows for the built-in functions of `core_builtins`, path by path through `start` and `resume`. It has no code but tests.
#![tactic(auto)]

#[cfg(test)]
mod tests;
