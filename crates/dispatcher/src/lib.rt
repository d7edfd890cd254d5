//! The dispatcher: it sends each request to the crate whose algorithm it is, keeps the frames that wait, charges what is entered, and hands out each line that is printed.
//!
//! `table.rt` says who serves what, `frames.rt` has the frames of all crates. Nothing else names a crate of frames but `entering.rt`, which begins what is served.
#![tactic(auto, using(object_heap::specs::Stands::goes_none, object_heap::specs::Stands::goes_then, object_heap::specs::Stands::halts_at))]

mod bodies;
mod countdown;
mod dispatching;
mod entering;
mod errors;
mod frames;
mod laws;
mod noting;
mod stack;
mod state;
mod table;

pub use dispatching::{Dispatcher, Event};
pub use laws::{printing_goes_on, table_serves};
