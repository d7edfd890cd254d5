//! What words order.

/// Where a script comes from.
#[derive(Clone, Copy, Debug)]
pub enum Source<'a> {
    /// The file of this name.
    File(&'a str),
    /// The generated script with so many constructors, from 1 to 10,000.
    Generated(u32),
}

/// What the words order: a script, and the turns of its run, from 1 to 10,000,000.
#[derive(Clone, Copy, Debug)]
pub struct Order<'a> {
    pub budget: u64,
    pub source: Source<'a>,
}

/// Why there is no order.
#[derive(Clone, Copy, Debug, PartialEq, Eq)]
pub enum WordsStop {
    /// The words are not of the command's form.
    Usage,
    /// Memory ran out.
    NoMemory,
}
