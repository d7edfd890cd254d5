//! What is done with the newest values.

use crate::{Atom, Pair, Quad, Triple, Wrap};

/// How a value is made, or how the newest values become one.
#[derive(Clone, Copy)]
pub enum Act {
    Atom(Atom),
    Wrap(Wrap),
    Pair(Pair),
    Triple(Triple),
    Quad(Quad),
}
