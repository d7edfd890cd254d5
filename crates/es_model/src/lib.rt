//! The model of a run, whatever the algorithms are: worlds and their changes, programs and what a program comes to, the words in which algorithms ask, the start
//! objects, and the programs that many crates share. The algorithms stand with the crates that have their frames.
#![tactic(auto)]

mod answers;
mod budget;
mod builtin_functions;
mod callables;
mod intrinsics;
mod kinds;
mod lists;
mod model_laws;
mod nth;
mod owned;
mod requests;
mod running;
mod start_laws;
mod start_objects;
mod start_table;
mod start_texts;
mod taken;

pub use answers::{Completion, Halted, Reply, Stop, Turn};
pub use budget::Turns;
pub use builtin_functions::BuiltinFunction;
pub use callables::Method;
pub use intrinsics::{Class, Intrinsic};
pub use kinds::{CellNo, ErrorKind, ObjectKind};
pub use lists::{ArgumentCells, KeyList, Values};
pub use model_laws::{frames_go_on_belonging, outcomes_compose, stages_lead_on};
pub use owned::OwnProperty;
pub use requests::{Operation, Request};
pub use running::{FunctionName, NamePrefix, Part, Running};
pub use start_laws::{
    start_objects_are_in_order, start_symbols_are_in_order, start_texts_are_in_order,
    start_world_is_sound,
};
pub use start_objects::start_intrinsic;
pub use start_texts::{StartText, WellKnown, start_text};
