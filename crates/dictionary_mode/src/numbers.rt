//! A set of numbers below a room, kept as a tree of counts.

ghost use Rattle.std.specs.Prelude.{◌≡◌, ◌≢◌, ◌+◌, ◌*◌, ◌/◌, ◌^◌, ◌++◌, ◌∷◌, ◌<◌, ◌≤◌, [], ℕ, length, slice_index, slice_set, IfOk, MatchBool};
ghost use Rattle.dictionary_mode.specs.Counts.{HasPlace, IsSum, Lacks, TakesOut, room_of};

use property_keys::NoMemory;
use std::alloc::Global;
use std::marker::Model;

/// There is room for no more than 2^30 numbers.
const MOST_HEIGHT: u32 = 30;

/// A set of numbers below a room, seen as the list of them, which rises. What is asked and changed takes a time in proportion to the logarithm of the room.
#[derive(Drop)]
pub(crate) struct Numbers {
    /// A tree: node 1 is the root, the nodes 2i and 2i + 1 are below node i, and the leaves are the second half. A node has the count of the numbers below it.
    counts: Vec<u32>,
}

impl Model for Numbers {
    ghost use Rattle.std.specs.Prelude.{◌<◌, length};
    ghost use Rattle.dictionary_mode.specs.Counts.{IsTree, Numbered, numbers_in, room_of};

    ghost Value = { Numbered };

    ghost view = { λ n. record { list = numbers_in n.counts.items; room = room_of n.counts.items } };

    ghost invariant = { λ n. 0 < length n.counts.items → IsTree n.counts.items };
}

impl Numbers {
    /// No numbers, and no room. It takes no memory.
    pub(crate) fn empty(alloc: Global) -> Numbers
        ensures list { result.list ≡ [] }
        ensures room { result.room ≡ 0 }
    {
        Numbers {
            counts: Vec::new(alloc),
        }
    }

    /// No numbers, with room for 2^`height` of them. There is none for more than 2^30.
    pub(crate) fn new(alloc: Global, height: u32) -> Result<Numbers, NoMemory>
        ensures list { IfOk result (λ numbers. numbers.list ≡ []) }
        ensures room { IfOk result (λ numbers. numbers.room ≡ 2 ^ height) }
    {
        if height > MOST_HEIGHT {
            return Err(NoMemory);
        }
        match Vec::from_elem(alloc, 0u32, 2usize << height) {
            Ok(counts) => Ok(Numbers { counts }),
            Err(_) => Err(NoMemory),
        }
    }

    pub(crate) fn room(&self) -> usize
        ensures room { result ≡ (self.now).room }
        ensures small { result ≤ 2 ^ 30 }
    {
        self.counts.len() / 2
    }

    pub(crate) fn len(&self) -> usize
        ensures len { result ≡ length (self.now).list }
        ensures small { result < 2 ^ 32 }
    {
        if self.counts.is_empty() {
            return 0;
        }
        self.counts[1] as usize
    }

    pub(crate) fn contains(&self, number: usize) -> bool
        requires { number < (self.now).room }
        ensures { MatchBool result (HasPlace (self.now).list number) (Lacks (self.now).list number) }
    {
        let leaf = self.counts.len() / 2 + number;
        self.counts[leaf] == 1
    }

    /// How many numbers come before one that is in the set.
    pub(crate) fn place(&self, number: usize) -> usize
        requires inside { number < (self.now).room }
        requires contained { HasPlace (self.now).list number }
        ensures within { result < length (self.now).list }
        ensures place { slice_index (self.now).list result ≡ number }
        ensures small { result ≤ number }
    {
        let mut node = self.counts.len() / 2 + number;
        let mut before = 0usize;
        while node > 1 {
            if node % 2 == 1 {
                before += self.counts[node - 1] as usize;
            }
            node /= 2;
        }
        before
    }

    /// The number at a place.
    pub(crate) fn at(&self, place: usize) -> usize
        requires { place < length (self.now).list }
        ensures { result ≡ slice_index (self.now).list place }
    {
        let room = self.counts.len() / 2;
        let mut node = 1usize;
        let mut rest = place;
        while node < room {
            node *= 2;
            let count = self.counts[node] as usize;
            if rest >= count {
                rest -= count;
                node += 1;
            }
        }
        node - room
    }

    /// Puts a number that is above all others.
    pub(crate) fn put_last(&mut self, number: usize)
        requires inside { number < (self.old).room }
        requires above { (i : ℕ) → i < length (self.old).list → slice_index (self.old).list i < number }
        ensures list { (self.new).list ≡ (self.old).list ++ number ∷ [] }
        ensures room { (self.new).room ≡ (self.old).room }
    {
        let leaf = self.counts.len() / 2 + number;
        self.counts[leaf] = 1;
        mend(self.counts.as_mut_slice(), leaf / 2);
    }

    /// Takes out a number that is in the set.
    pub(crate) fn take_out(&mut self, number: usize)
        requires inside { number < (self.old).room }
        requires contained { HasPlace (self.old).list number }
        ensures list { TakesOut (self.old).list (self.new).list number }
        ensures room { (self.new).room ≡ (self.old).room }
    {
        let leaf = self.counts.len() / 2 + number;
        self.counts[leaf] = 0;
        mend(self.counts.as_mut_slice(), leaf / 2);
    }
}

/// Sums the counts of a node and of those above it anew. The others are right.
fn mend(counts: &mut [u32], from: usize)
    requires node { from < room_of counts.old }
    requires even { length counts.old ≡ 2 * room_of counts.old }
    requires fits { room_of counts.old ≤ 2 ^ 30 }
    requires sums { (i : ℕ) → 1 ≤ i → i < room_of counts.old → i ≢ from → IsSum counts.old i }
    requires small { (i : ℕ) → i ≢ from → slice_index counts.old i * i ≤ length counts.old }
    ensures sums { (i : ℕ) → 1 ≤ i → i < room_of counts.old → IsSum counts.new i }
    ensures small { (i : ℕ) → slice_index counts.new i * i ≤ length counts.old }
    ensures leaves { (i : ℕ) → room_of counts.old ≤ i → slice_index counts.new i ≡ slice_index counts.old i }
{
    let mut node = from;
    while node > 0 {
        counts[node] = counts[2 * node] + counts[2 * node + 1];
        node /= 2;
    }
}
