//! The search for a key in an array of entries.

ghost use Rattle.std.specs.Prelude.{◌≡◌, ◌↔◌, ◌≤◌, length, IsTrue, MatchOption};
ghost use Rattle.map_store.specs.Keys.{IsPlace, LacksKey, compared, steps_on};

use crate::Entry;
use property_keys::{Ledger, PropKey, Steps};

/// The place of the first entry with a key, in a step for each entry compared.
pub(crate) fn place_in<L: Ledger>(
    entries: &[Entry],
    key: PropKey,
    steps: &mut Steps<L>,
) -> Option<u32>
    requires { length entries.now ≤ u32.MAX }
    ensures place { MatchOption result (LacksKey entries.now key) (λ i. IsPlace entries.now key i) }
    ensures steps { L.ticks steps.new ≡ steps_on (compared result (length entries.now)) (L.ticks steps.old) }
{
    for (i, entry) in entries.iter().enumerate() {
        steps.tick();
        if is_same_key(entry.key, key) {
            return Some(i as u32);
        }
    }
    None
}

fn is_same_key(a: PropKey, b: PropKey) -> bool
    ensures { IsTrue result ↔ (a ≡ b) }
{
    a == b
}
