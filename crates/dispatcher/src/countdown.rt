//! How many steps the loop has left. The whole is a product that no number of the machine need hold, so it is counted down round by round.

ghost use Rattle.std.specs.Bool.{OnFalse, OnTrue};
ghost use Rattle.std.specs.Prelude.{◌≡◌, ◌+◌};
ghost use Rattle.dispatcher.specs.Stack.{steps_for};

use std::marker::Model;

/// So many rounds of so many steps, and some beside.
#[derive(Drop)]
pub(crate) struct Countdown {
    rounds: u64,
    steps: u128,
    left: u128,
}

impl Model for Countdown {
    ghost use Rattle.std.specs.Prelude.{ℕ, ◌<◌, ◌+◌, ◌*◌};

    ghost Value = { ℕ };

    ghost view = { λ c. c.rounds * c.steps + c.left };

    ghost invariant = { λ c. 0 < c.steps };
}

impl Countdown {
    /// Steps enough where so many turns are left, in a script with so many definitions in its longest object literal.
    pub(crate) fn new(turns: u64, definitions: usize) -> Countdown
        ensures { result ≡ steps_for turns definitions }
    {
        let definitions = definitions as u128;
        Countdown {
            rounds: turns,
            steps: 800 + 160 * definitions,
            left: 400 + 80 * definitions,
        }
    }

    /// Takes a step, if one is left.
    pub(crate) fn take_one(&mut self) -> bool
        ensures one { OnTrue result (self.old ≡ self.new + 1) }
        ensures none { OnFalse result (self.old ≡ 0) }
    {
        if self.left == 0 {
            if self.rounds == 0 {
                return false;
            }
            self.rounds -= 1;
            self.left = self.steps;
        }
        self.left -= 1;
        true
    }
}
