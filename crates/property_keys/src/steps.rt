//! Counted steps.

ghost use Rattle.std.specs.Prelude.{◌≡◌, ◌+◌, ◌*◌, ◌≤◌, ℕ, length};
ghost use Rattle.property_keys.specs.Counts.{counted, TakesAtMost};

use std::marker::Model;

/// Counts the steps of the calls that are handed it.
pub trait Ledger {
    /// How many steps were counted, a number of at most 2^64 - 1.
    ghost ticks: { Self → ℕ };

    /// Counts one step; at 2^64 - 1 the count stays where it is.
    fn tick(&mut self)
        ensures { ticks self.new ≡ counted (ticks self.old) };
}

/// A ledger that tells its count.
#[derive(Drop)]
pub struct Counting {
    count: u64,
}

impl Model for Counting {
    ghost Value = { ℕ };

    ghost view = { λ c. c.count };
}

impl Counting {
    pub fn new() -> Counting
        ensures { result ≡ 0 }
    {
        Counting { count: 0 }
    }

    pub fn ticks(&self) -> u64
        ensures { result ≡ self.now }
    {
        self.count
    }
}

impl Ledger for Counting {
    ghost ticks = { λ c. c };

    fn tick(&mut self) {
        self.count = self.count.saturating_add(1);
    }
}

/// The steps of a run, counted by its ledger.
#[derive(Drop)]
pub struct Steps<L: Ledger> {
    ledger: L,
}

impl<L: Ledger> Model for Steps<L> {
    ghost Value = { L };

    ghost view = { λ s. s.ledger };
}

impl<L: Ledger> Steps<L> {
    pub fn new(ledger: L) -> Steps<L>
        ensures { result ≡ ledger }
    {
        Steps { ledger }
    }

    pub fn tick(&mut self)
        ensures { L.ticks self.new ≡ counted (L.ticks self.old) }
    {
        self.ledger.tick();
    }

    pub fn ledger(&self) -> &L
        ensures { result.now ≡ self.now }
    {
        &self.ledger
    }
}
