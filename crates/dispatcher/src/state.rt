//! What waits, what is in hand, and what a step comes to.

use crate::frames::Frame;
use es_model::{Completion, Request, Values};

/// A frame that waits, with the number of calls that were running when its algorithm began.
#[derive(Drop)]
pub(crate) struct Entry {
    pub(crate) frame: Frame,
    pub(crate) nested: u32,
}

/// What is in hand: the script itself, a request with the number of calls that are running, or an answer.
#[derive(Drop)]
pub(crate) enum State {
    /// The script has not begun, and no call is running.
    Starting,
    Serving(Request, u32),
    Returning(Completion),
}

/// What a step comes to.
#[derive(Drop)]
pub(crate) enum Next {
    GoOn(State),
    /// A line is printed, and undefined is the answer in hand then.
    Prints(Values),
    /// No frame waits for the answer.
    Ends(Completion),
}
