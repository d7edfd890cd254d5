//! Why the reading of tokens stops.

/// Why no token is made of the characters at the front.
#[derive(Clone, Copy)]
pub enum TokenStop {
    /// No token stands there.
    Bad,
    /// Memory ran out.
    NoMemory,
}
