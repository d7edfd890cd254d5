//! Rows for the abstract operations, path by path through `start` and `resume`. It has no code but tests, so that `plain_builtins` is not proved twice.
#![tactic(auto)]

#[cfg(test)]
mod tests;
