//! The tree of a script: what its parts become, one label after another.
#![tactic(auto)]

mod atoms;
mod checking;
mod functions;
mod lists;
mod machine;
mod made_part_list;
mod made_parts;
mod maker;
mod own;
mod pairs;
mod parts;
mod settings;
mod spot;
mod stack;
mod tasks;
mod text_set;
mod tokens;
mod triples;
mod wraps;

pub use checking::check;
use machine::Machine;
use made_part_list::MadePartList;
use made_parts::{MadePart, MadeParts};
use maker::Maker;
use spot::Spot;
use stack::Stack;
use tasks::{Setting, StackedPart, Task};
use text_set::TextSet;
