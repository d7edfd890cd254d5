//! The host of scripts: it reads a file, runs it, and says how the run ended.
//!
//! [`hcjs`] is the top call. Its contract says, status by status, what it leaves on the output and the error output. [`run`] runs a script that was checked.
//! The definitions that they cite are in `specs/`: what a run is expected to print and to say, what does not run yet, and the table of what a call leaves.
#![tactic(auto)]

mod file_bytes;
pub mod laws;
mod lines;
mod notes;
mod outcome;
mod reading;
mod running;
mod status;
mod texts;
mod top_call;
mod uncaught;
mod unfinished;

pub use es_source::Place;
pub use running::{Ending, HostStop, Ran, run};
pub use script_generator::generated;
pub use status::Status;
pub use top_call::hcjs;
pub use unfinished::unbuilt;
