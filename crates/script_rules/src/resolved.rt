//! What a scope says of a name.

use es_tree::Binding;

/// What a name is bound to, as far as a body may use it.
#[derive(Clone, Copy, Debug, PartialEq)]
pub enum Resolved {
    Finds(Binding),
    /// The name is that of a function around, or of a block at the script's own level.
    Captures,
}
