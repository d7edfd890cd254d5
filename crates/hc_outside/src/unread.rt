//! What is left of a begun file.

ghost use Rattle.std.specs.Prelude.{◌≡◌, ◌≤◌, ℕ, length, take, drop, min, List};

use std::marker::Model;

/// What is left of a file in memory.
#[derive(Drop)]
pub(crate) struct Unread {
    bytes: Vec<u8>,
    at: usize,
}

impl Model for Unread {
    ghost use Rattle.std.specs.Prelude.{List, ℕ, drop, length, ◌≤◌};

    ghost Value = { List ℕ };

    ghost view = { λ u. drop u.at u.bytes.items };

    ghost invariant = { λ u. u.at ≤ length u.bytes.items };
}

impl Unread {
    pub(crate) fn new(bytes: Vec<u8>) -> Unread
        ensures { result ≡ bytes.items }
    {
        Unread { bytes, at: 0 }
    }

    /// Puts as many bytes as are left and fit into the part, and gives their number.
    pub(crate) fn read(&mut self, part: &mut [u8]) -> usize
        ensures count { result ≡ min (length part.new) (length self.old) }
        ensures front { take result part.new ≡ take result self.old }
        ensures rest { self.new ≡ drop result self.old }
    {
        // `split_at` has plain clauses, where a range of a range leaves long terms in the goals.
        let left = self.bytes.as_slice().split_at(self.at).1;
        let count = part.len().min(left.len());
        let front = left.split_at(count).0;
        part[..count].copy_from_slice(front);
        self.at += count;
        count
    }
}
