//! How a call ends.

/// How a call of the host ends. The exit statuses are 0 to 7, in this order.
#[derive(Clone, Copy, Debug, PartialEq, Eq)]
pub enum Status {
    /// The script ran to its end.
    Finished,
    /// The script ended with an uncaught value.
    Thrown,
    /// The words are not of the command's form.
    Usage,
    /// The file has a fault, or an item that does not run yet.
    Refused,
    /// The budget of turns ended before the script.
    BudgetEnded,
    /// The file cannot be read.
    ReadFault,
    /// The output or the error output cannot be written.
    WriteFault,
    /// Memory ran out.
    NoMemory,
}

impl Status {
    ghost use Rattle.std.specs.Prelude.{◌≡◌};
    ghost use Rattle.script_host.specs.Statuses.{code_of};

    /// The exit status.
    pub fn code(self) -> u8
        ensures { result ≡ code_of self }
    {
        self as u8
    }
}
