//! The numbers of the calls that are to fail.

ghost use Rattle.std.specs.Prelude.{◌≡◌, ◌≤◌, ◌-◌, ◌^◌, ◌++◌, ◌∷◌, [], List, ℕ, OnOk, OnErr};
ghost use Rattle.hc_outside.specs.Calls.{has_call, next_fails, no_calls, with_call, with_fault};

use property_keys::NoMemory;
use std::alloc::Global;
use std::marker::Model;

/// The numbers of the calls that are to fail, in any order. The first call has the number 1.
#[derive(Drop)]
pub struct CallList {
    calls: Vec<u64>,
}

impl Model for CallList {
    ghost use Rattle.std.specs.Prelude.{List, ℕ};

    ghost Value = { List ℕ };

    ghost view = { λ c. c.calls.items };
}

impl CallList {
    /// An empty list: no call is to fail.
    pub fn new(alloc: Global) -> CallList
        ensures { result ≡ [] }
    {
        CallList {
            calls: Vec::new(alloc),
        }
    }

    /// Puts a number at the end. At `NoMemory` the list is as before.
    pub fn push(&mut self, call: u64) -> Result<(), NoMemory>
        ensures ok { OnOk result (self.new ≡ self.old ++ call ∷ []) }
        ensures err { OnErr result (self.new ≡ self.old) }
    {
        match self.calls.push(call) {
            Ok(()) => Ok(()),
            Err(_) => Err(NoMemory),
        }
    }

    pub(crate) fn has(&self, call: u64) -> bool
        ensures { result ≡ has_call self.now call }
    {
        self.calls.contains(&call)
    }
}

/// How many calls were made and how many of them failed. Both numbers stand still at 2^64 - 1.
#[derive(Drop)]
pub(crate) struct Calls {
    failing: CallList,
    made: u64,
    faults: u64,
}

impl Model for Calls {
    ghost use Rattle.std.specs.Prelude.{◌≤◌, ◌-◌, ◌^◌};
    ghost use Rattle.hc_outside.specs.Calls.{CallCount};

    ghost Value = { CallCount };

    ghost view = { λ c. record { failing = c.failing; made = c.made; faults = c.faults } };

    ghost invariant = { λ c. c.faults ≤ 2 ^ 64 - 1 };
}

impl Calls {
    pub(crate) fn new(failing: CallList) -> Calls
        ensures { result ≡ no_calls failing }
    {
        Calls {
            failing,
            made: 0,
            faults: 0,
        }
    }

    /// Tells whether the next call is to fail.
    pub(crate) fn next_fails(&self) -> bool
        ensures answer { result ≡ next_fails self.now }
        ensures most { self.now.faults ≤ 2 ^ 64 - 1 }
    {
        self.failing.has(self.made.saturating_add(1))
    }

    /// Notes a call that did not fail.
    pub(crate) fn note_call(&mut self)
        ensures state { self.new ≡ with_call self.old }
        ensures most { self.new.faults ≤ 2 ^ 64 - 1 }
    {
        self.made = self.made.saturating_add(1);
    }

    /// Notes a call that failed.
    pub(crate) fn note_fault(&mut self)
        ensures state { self.new ≡ with_fault self.old }
        ensures most { self.new.faults ≤ 2 ^ 64 - 1 }
    {
        self.made = self.made.saturating_add(1);
        self.faults = self.faults.saturating_add(1);
    }
}
