//! What each request comes to: the programs of all crates of frames put together, the model, and what a script comes to by it.
#![tactic(auto)]

mod laws;

pub use laws::{
    depth_is_free, frames_stay, model_serves, nothing_is_taken_away, requests_are_paid,
    runs_are_paid, runs_stay_sound, sound_worlds_are_kept, turns_never_rise,
};
