//! Rows for arguments objects of `arguments_exotic`, path by path: how they are made, and their methods with what these ask. It has no code but tests.
#![tactic(auto)]

#[cfg(test)]
mod tests;
