//! The turns that are left.

ghost use Rattle.std.specs.Prelude.{◌≡◌, ◌≤◌, ◌<◌, ◌+◌, OnOk, OnErr};

use crate::Halted;
use std::marker::Model;

/// The turns that are left of a run's budget.
#[derive(Drop)]
pub struct Turns {
    left: u64,
}

impl Model for Turns {
    ghost use Rattle.std.specs.Prelude.{ℕ};

    ghost Value = { ℕ };

    ghost view = { λ t. t.left };
}

impl Turns {
    /// So many turns.
    pub fn new(budget: u64) -> Turns
        ensures { result ≡ budget }
    {
        Turns { left: budget }
    }

    /// How many turns are left.
    pub fn left(&self) -> u64
        ensures { result ≡ self.now }
    {
        self.left
    }

    /// Takes n turns. Halted exactly where fewer than n are left, and then nothing changes.
    pub fn charge(&mut self, n: u64) -> Result<(), Halted>
        ensures ok { OnOk result (self.old ≡ self.new + n) }
        ensures halted { OnErr result (self.old < n) }
        ensures err { OnErr result (self.new ≡ self.old) }
    {
        if self.left < n {
            return Err(Halted);
        }
        self.left -= n;
        Ok(())
    }
}
