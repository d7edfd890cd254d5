//! What a part is to the part around it.

/// What a part is to the part around it.
#[derive(Clone, Copy)]
pub enum Role {
    /// A statement, or an expression whose value is read.
    Plain,
    /// The target of `=`.
    Written,
    /// The target of another assignment or of an update, which is read and then written.
    Updated,
    /// The operand of `delete`.
    Deleted,
    /// The block of a `try` or of a catch, which is no statement.
    Block,
    /// The front of a comma list.
    Listed,
}
