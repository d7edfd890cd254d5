//! Sources with what each pass makes of them. Every expected value follows from the rules by hand.

mod accepted;
mod faults;
mod grammar_faults;
mod limits;
mod parsed;
mod reading;
mod rule_faults;
mod scopes;
mod token_faults;
mod tokens;
mod tree_text;
mod trees;
