//! Small sources, each with its first fault, its tokens or its tree, worked out by hand from ECMA-262 and proved by computing over the definitions.
#![tactic(auto)]

mod grammar;
mod rules;
mod tokens;

pub use grammar::{
    forms_are_read, operators_group, other_forms_are_refused, reserved_words_are_no_names,
};
pub use rules::{
    each_part_is_looked_at, names_are_barred, names_are_bound, names_are_bound_once,
    names_are_captured, the_least_fault_is_first, words_are_misplaced,
};
pub use tokens::{bytes_are_decoded, gaps_are_passed, texts_are_read, words_are_read};
