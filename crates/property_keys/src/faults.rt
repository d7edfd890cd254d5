//! The faults of texts and numbers.

/// Memory ran out, or a table has no number left. Every call that can grow something may give this answer.
#[derive(Clone, Copy, Debug, PartialEq, Eq)]
pub struct NoMemory;

/// Why a text cannot be made.
#[derive(Clone, Copy, Debug, PartialEq, Eq)]
pub enum KeyFault {
    /// It would have more than 2^20 code units.
    TooLong,
    /// Memory ran out, or the table of texts has no number left.
    NoMemory,
}

/// A text writes no whole number from -(2^53 - 1) to 2^53 - 1.
#[derive(Clone, Copy, Debug, PartialEq, Eq)]
pub struct NotWhole;
