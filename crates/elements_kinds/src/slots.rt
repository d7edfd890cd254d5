//! Words of one class, with holes.

ghost use Rattle.std.specs.Prelude.{◌≡◌, ◌+◌, ◌-◌, ◌*◌, ◌<◌, ◌≤◌, ◌^◌, ◌++◌, [], length, map, replicate, slice_index_or, slice_set, take, IfOk, IfSome, IsTrue, OnErr, OnOk};
ghost use Rattle.property_keys.specs.Counts.{counted};
ghost use Rattle.slot_storage.specs.Steps.{counted_times};
ghost use Rattle.elements_kinds.specs.Kinds.{join};
ghost use Rattle.elements_kinds.specs.Words.{IsGoodValue, decoded, takes};

use crate::kinds::Class;
use crate::words::{decode, encode, hole, recoded};
use property_keys::{Ledger, NoMemory, Steps, Value};
use slot_storage::Block;
use std::alloc::Global;
use std::marker::Model;

/// Words of one class, seen as the values that they stand for. None is a hole.
#[derive(Drop)]
pub(crate) struct Slots {
    block: Block,
    class: Class,
}

impl Model for Slots {
    ghost use Rattle.std.specs.Prelude.{map};
    ghost use Rattle.elements_kinds.specs.Properties.{Held};
    ghost use Rattle.elements_kinds.specs.Words.{decoded};

    ghost Value = { Held };

    ghost view = { λ s. record { values = map (decoded s.class) s.block; class = s.class } };
}

impl Slots {
    /// No words.
    pub(crate) fn empty(alloc: Global) -> Result<Slots, NoMemory>
        ensures values { IfOk result (λ slots. slots.values ≡ []) }
        ensures class { IfOk result (λ slots. slots.class ≡ Class.Smi) }
    {
        let block = Block::new(alloc, 0)?;
        Ok(Slots {
            block,
            class: Class::Smi,
        })
    }

    pub(crate) fn len(&self) -> usize
        ensures len { result ≡ length (self.now).values }
        ensures small { result < 2 ^ 63 }
    {
        self.block.len()
    }

    pub(crate) fn class(&self) -> Class
        ensures { result ≡ (self.now).class }
    {
        self.class
    }

    /// The value at an index below the length, in one step.
    pub(crate) fn get<L: Ledger>(&self, i: usize, steps: &mut Steps<L>) -> Option<Value>
        requires { i < length (self.now).values }
        ensures value { result ≡ slice_index_or (self.now).values i None }
        ensures steps { L.ticks steps.new ≡ counted (L.ticks steps.old) }
    {
        let word = self.block.get(i, steps);
        decode(self.class, word)
    }

    /// Puts a value that the class takes at an index below the length, in one step.
    pub(crate) fn set<L: Ledger>(&mut self, i: usize, value: Value, steps: &mut Steps<L>)
        requires inside { i < length (self.old).values }
        requires takes { IsTrue (takes (self.old).class value) }
        requires good { IsGoodValue value }
        ensures values { (self.new).values ≡ slice_set (self.old).values i (Some value) }
        ensures class { (self.new).class ≡ (self.old).class }
        ensures steps { L.ticks steps.new ≡ counted (L.ticks steps.old) }
    {
        let word = encode(self.class, value);
        self.block.set(i, word, steps);
    }

    /// Makes a hole at an index below the length, in one step.
    pub(crate) fn clear<L: Ledger>(&mut self, i: usize, steps: &mut Steps<L>)
        requires { i < length (self.old).values }
        ensures values { (self.new).values ≡ slice_set (self.old).values i None }
        ensures class { (self.new).class ≡ (self.old).class }
        ensures steps { L.ticks steps.new ≡ counted (L.ticks steps.old) }
    {
        let word = hole(self.class);
        self.block.set(i, word, steps);
    }

    /// Appends holes, up to `n` words, in one step for each word that is carried over and for each hole. After `NoMemory` all is as before, and no step was
    /// counted.
    pub(crate) fn grow<L: Ledger>(&mut self, n: usize, steps: &mut Steps<L>) -> Result<(), NoMemory>
        requires { length (self.old).values ≤ n }
        ensures ok { OnOk result ((self.new).values ≡ (self.old).values ++ replicate (n - length (self.old).values) None) }
        ensures class { (self.new).class ≡ (self.old).class }
        ensures err { OnErr result ((self.new).values ≡ (self.old).values) }
        ensures ok_steps { OnOk result (L.ticks steps.new ≡ counted_times n (L.ticks steps.old)) }
        ensures err_steps { OnErr result (L.ticks steps.new ≡ L.ticks steps.old) }
    {
        let word = hole(self.class);
        grow_with(&mut self.block, n, word, steps)
    }

    /// The same values in the words of a class that is not below, in two steps for each word.
    pub(crate) fn widen<L: Ledger>(&mut self, class: Class, steps: &mut Steps<L>)
        requires { join (self.old).class class ≡ class }
        ensures values { (self.new).values ≡ (self.old).values }
        ensures class { (self.new).class ≡ class }
        ensures steps { L.ticks steps.new ≡ counted_times (2 * length (self.old).values) (L.ticks steps.old) }
    {
        recode(&mut self.block, self.class, class, steps);
        self.class = class;
    }
}

/// Appends the same word, up to `n` words.
fn grow_with<L: Ledger>(
    block: &mut Block,
    n: usize,
    word: u64,
    steps: &mut Steps<L>,
) -> Result<(), NoMemory>
    requires { length block.old ≤ n }
    ensures ok { OnOk result (block.new ≡ block.old ++ replicate (n - length block.old) word) }
    ensures err { OnErr result (block.new ≡ block.old) }
    ensures ok_steps { OnOk result (L.ticks steps.new ≡ counted_times n (L.ticks steps.old)) }
    ensures err_steps { OnErr result (L.ticks steps.new ≡ L.ticks steps.old) }
{
    let len = block.len();
    block.grow(n, steps)?;
    fill(block, len, word, steps);
    Ok(())
}

/// Writes the same word from an index on, in one step each.
fn fill<L: Ledger>(block: &mut Block, from: usize, word: u64, steps: &mut Steps<L>)
    requires { from ≤ length block.old }
    ensures words { block.new ≡ take from block.old ++ replicate (length block.old - from) word }
    ensures steps { L.ticks steps.new ≡ counted_times (length block.old - from) (L.ticks steps.old) }
{
    for i in from..block.len() {
        block.set(i, word, steps);
    }
}

/// Writes each word anew for another class, in two steps each.
fn recode<L: Ledger>(block: &mut Block, from: Class, to: Class, steps: &mut Steps<L>)
    requires { join from to ≡ to }
    ensures values { map (decoded to) block.new ≡ map (decoded from) block.old }
    ensures steps { L.ticks steps.new ≡ counted_times (2 * length block.old) (L.ticks steps.old) }
{
    for i in 0..block.len() {
        let word = recoded(from, to, block.get(i, steps));
        block.set(i, word, steps);
    }
}
