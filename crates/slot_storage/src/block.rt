//! A block of raw words.

ghost use Rattle.std.specs.Prelude.{◌≡◌, ◌+◌, ◌-◌, ◌<◌, ◌≤◌, ◌^◌, ◌++◌, length, replicate, slice_index, slice_set, IfOk, OnErr, OnOk};
ghost use Rattle.property_keys.specs.Counts.{counted};
ghost use Rattle.slot_storage.specs.Steps.{counted_times};

use crate::raw::{put, read};
use property_keys::{Ledger, NoMemory, Steps};
use std::alloc::Global;
use std::marker::Model;

/// A list of words of 64 bits, which are freed together.
#[derive(Drop)]
pub struct Block {
    alloc: Global,
    words: Vec<u64>,
}

impl Model for Block {
    ghost use Rattle.std.specs.Prelude.{List, ℕ};

    ghost Value = { List ℕ };

    ghost view = { λ b. b.words.items };
}

impl Block {
    /// `n` zero words.
    pub fn new(alloc: Global, n: usize) -> Result<Block, NoMemory>
        ensures { IfOk result (λ block. block ≡ replicate n 0) }
    {
        match Vec::from_elem(alloc, 0u64, n) {
            Ok(words) => Ok(Block { alloc, words }),
            Err(_) => Err(NoMemory),
        }
    }

    /// How many words there are.
    pub fn len(&self) -> usize
        ensures len { result ≡ length self.now }
        ensures small { result < 2 ^ 63 }
    {
        self.words.len()
    }

    /// The word at an index below the length, in one step. It takes no memory.
    pub fn get<L: Ledger>(&self, i: usize, steps: &mut Steps<L>) -> u64
        requires { i < length self.now }
        ensures word { result ≡ slice_index self.now i }
        ensures steps { L.ticks steps.new ≡ counted (L.ticks steps.old) }
    {
        steps.tick();
        read(self.words.as_slice(), i)
    }

    /// Writes a word at an index below the length, in one step. It takes no memory.
    pub fn set<L: Ledger>(&mut self, i: usize, word: u64, steps: &mut Steps<L>)
        requires { i < length self.old }
        ensures words { self.new ≡ slice_set self.old i word }
        ensures steps { L.ticks steps.new ≡ counted (L.ticks steps.old) }
    {
        steps.tick();
        let _old = put(self.words.as_mut_slice(), i, word);
    }

    /// Appends zero words, up to `n` words, in one step for each word that is carried over. After `NoMemory` the words are as before, and no step was counted.
    pub fn grow<L: Ledger>(&mut self, n: usize, steps: &mut Steps<L>) -> Result<(), NoMemory>
        requires { length self.old ≤ n }
        ensures ok { OnOk result (self.new ≡ self.old ++ replicate (n - length self.old) 0) }
        ensures ok_steps { OnOk result (L.ticks steps.new ≡ counted_times (length self.old) (L.ticks steps.old)) }
        ensures err { OnErr result (self.new ≡ self.old) }
        ensures err_steps { OnErr result (L.ticks steps.new ≡ L.ticks steps.old) }
    {
        let Ok(mut words) = Vec::from_elem(self.alloc, 0u64, n) else {
            return Err(NoMemory);
        };
        carry_over(self.words.as_slice(), words.as_mut_slice(), steps);
        self.words = words;
        Ok(())
    }
}

/// Copies each word to its index, in one step each. There are at least as many words to copy to, which are zero.
fn carry_over<L: Ledger>(from: &[u64], to: &mut [u64], steps: &mut Steps<L>)
    requires room { length from.now ≤ length to.old }
    requires zero { to.old ≡ replicate (length to.old) 0 }
    ensures words { to.new ≡ from.now ++ replicate (length to.old - length from.now) 0 }
    ensures steps { L.ticks steps.new ≡ counted_times (length from.now) (L.ticks steps.old) }
{
    for i in 0..from.len() {
        steps.tick();
        let _zero = put(to, i, read(from, i));
    }
}
