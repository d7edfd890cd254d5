//! Rows for the host: scripts with what they print, how they end and where their turns end, and calls of the host with what they leave.
#![tactic(auto)]

#[cfg(test)]
mod tests;
